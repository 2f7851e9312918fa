//! A program whose variables have their declarations where they are used, and whose constants are
//! numbers.
#![tactic(auto)]

mod expressions;
mod laws;
mod lookup;
mod program;
mod scope;
mod statements;
mod table;

pub use laws::{expression_stays, functions_stay, statement_stays};
pub use program::resolve;
pub use table::{ConstantTable, constants};
