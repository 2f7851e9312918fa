//! The program that a list of tokens derives, or the first token that is wrong.
//! Annotations and statements.
#![tactic(auto)]

mod annotations;
mod assigning;
mod declare;
mod function;
mod program;
mod read;
mod statement;

pub use annotations::notes;
pub use jz_grammar::{SyntaxFault, SyntaxKind};
pub use read::{
    a_fault_is_at_a_token, no_fault_of_a_program, one_fault, one_program, one_reading, parse,
};
pub use statement::{begins_stmt, stmt};
