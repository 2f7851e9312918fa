//! A statement has one list of operations, and a test one condition; there is no code here.
#![tactic(auto)]

mod laws;

pub use laws::{one_argument, one_lowering};
