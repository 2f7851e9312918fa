//! The words of a command line: which of them are a command, and what they ask for. They are read
//! by one command of `clap` with a level of subcommands; numbers and items among them by jz_items.
#![tactic(auto)]

mod command;
mod inputs;
mod laws;
mod request;

pub use inputs::Input;
pub use laws::numbers_fit;
pub use request::{Call, Request, request_of};
