//! A function whose calls are copies of what they call, with what that makes of its leaks.
#![tactic(auto)]

mod copier;
mod copying;
mod inlining;
mod numbers;
mod parts;
mod passing;
mod plain;
mod whole;

pub use inlining::{Inlined, inline, is_export};
pub use jz_copies::{CopyLimit, Extent};
