//! From the expansion of an export function to correct compilation of it, over the whole language.
#![tactic(auto)]

mod compiling;
mod laws;

pub use compiling::compile_fun;
pub use jz_compiling::NotCompiled;
pub use jz_safe::{Safe, safe};
pub use laws::compilations_run_as_printed;
