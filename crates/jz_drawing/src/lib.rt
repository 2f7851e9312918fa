//! The labels of a body as a drawing: which label each scalar has, which labels come of which, and
//! which have to be public. There is no code here.
#![tactic(auto)]

mod laws;

pub use laws::{labels_are_renewed, operations_are_drawn, pieces_are_drawn};
