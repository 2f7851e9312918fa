//! From the expansion of an export function to its bytes and its transformer.
#![tactic(auto)]

mod compiling;
mod laws;

pub use compiling::{NotCompiled, compile_expanded};
pub use laws::{an_expanded_function_carries_over, what_is_compiled_has_places};
