//! Passes from language to language, each with its law: what the runs of a program say of the runs
//! of what the pass makes of it. One pass after another; a rule for one statement, for whole trees.
#![tactic(auto)]

mod form;
mod lang;
mod laws;
mod pass;
mod rewrite;

pub use form::Form;
pub use jz_change::{Change, Numbers, Step};
pub use jz_data::{Failure, Seq};
pub use lang::Lang;
pub use laws::{CopiedTrees, UnrolledTrees, inlining_keeps_runs, unrolling_keeps_runs};
pub use pass::{Pass, Passed, Then};
pub use rewrite::{Choice, Local, Operations, Rewrite};
