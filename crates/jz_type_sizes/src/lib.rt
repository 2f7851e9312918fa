//! Types, sizes and counts: where a program has another than is wanted.
#![tactic(auto)]

mod calls;
mod forms;
mod functions;
mod intrinsics;
mod lengths;
mod operators;
mod sides;
mod signatures;
mod statements;
mod values;
mod walk;
mod wants;

pub use functions::{body_fault, constants_fault, statement_fault};
pub use lengths::{Lengths, lengths_fault};
pub use operators::Group;
pub use signatures::Role;
pub use wants::{Form, Want};
