//! What the limits and typing give of what unrolling asks for. There is no code here.
#![tactic(auto)]

mod laws;

pub use laws::walked_bodies_have_values;
