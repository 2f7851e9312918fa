//! The body of a function without calls, whose loops become their rounds and whose inline
//! expressions become their values; and what that makes of a leak.
#![tactic(auto)]

mod forgetting;
mod functions;
mod statements;

pub use functions::unroll;
pub use jz_pass::{Change, Failure, Passed, Seq, Step};
