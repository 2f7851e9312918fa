//! What rows ask of classes stays through the passes of an expansion. There is no code here.
#![tactic(auto)]

mod laws;

pub use laws::{bodies_stay_classed, statements_stay_classed};
