//! Linear code to bytes.
#![tactic(auto)]

mod bytes;
mod laws;

pub use bytes::assemble;
pub use laws::{
    bytes_do_what_their_code_does, lines_of_code_are_short, lines_of_code_become_bytes,
};
