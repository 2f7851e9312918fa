//! Texts that were made of numbers, compiled and run, with a summary: the compiler's own load test.
#![tactic(auto)]

mod calling;
mod making;
mod running;
mod summing;

pub use jasminc_called::{
    Compilation, Ran, Refused, Told, Uncompiled, Unmade, compile_text, exec_text, leak_text,
};
pub use making::selfrun_text;
pub use summing::Origin;
