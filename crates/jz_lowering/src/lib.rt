//! A function's body as operations over variables, with what that makes of its leaks.
#![tactic(auto)]

mod functions;
mod laws;
mod operations;
mod parts;
mod passing;
mod statements;

pub use functions::{LoweredFun, lower};
pub use jz_pass::{Change, Step};
pub use laws::functions_have_code;
pub use parts::Lowered;
pub use statements::lower_block;
