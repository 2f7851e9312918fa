//! What the expansion leaves passes the limits that the text passes; there is no code here.
#![tactic(auto)]

mod laws;

pub use laws::{expressions_stay_within, operations_stay_within};
