//! Calls of compiled export functions of a text: from the text of a file and items to the text of a
//! run of its bytes, or of what its transformer shows of its source; or to the first reason why there
//! is none.
#![tactic(auto)]

mod calling;
mod making;
mod refused;

pub use calling::{Told, as_refusal, exec_text, leak_text, told_with};
pub use jasminc_compile::{Compilation, Refused as Uncompiled, Unmade, compile_text};
pub use jasminc_runs::Ran;
pub use making::{MadeFor, compiled_for, made_for};
pub use refused::Refused;
