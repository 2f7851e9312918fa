//! A `Vec`, a `Box` and a `String` that contracts see as what they hold, so that a tree of them is
//! plain data, and the failures of calls that take memory.
#![tactic(auto)]

mod boxed;
mod failure;
mod mapping;
mod seq;
mod text;

pub use boxed::Boxed;
pub use failure::Failure;
pub use mapping::try_map_slice;
pub use seq::Seq;
pub use text::Text;
