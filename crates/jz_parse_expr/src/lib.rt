//! The expressions of the language: their grammar, and how they are read.
#![tactic(auto)]

mod expression;
mod operator;

pub use expression::{access, begins_expr, expr, index};
