//! What the annotations before export functions of typed programs state.
#![tactic(auto)]

mod laws;
mod stating;

pub use laws::typed_programs_state_well;
pub use stating::stated;
