//! The stages from a text to bytes and their run, and the call over all of them.
#![tactic(auto)]

mod answer;
mod check_lines;
mod compile_lines;
mod ct_lines;
mod disasm_lines;
mod interp_lines;
mod lines;
mod refusal;
mod run;
mod run_lines;

pub use refusal::{Refusal, Status};
pub use run::{Done, jasminc_run};
