//! A function whose register arrays are scalars, a variable for each cell, with what that makes of
//! its leaks.
#![tactic(auto)]

mod cells;
mod expressions;
mod functions;
mod lefts;
mod made;
mod masks;
mod numbers;
mod plain;
mod statements;

pub use functions::scalars;
pub use jz_pass::{Change, Passed};
