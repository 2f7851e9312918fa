//! The outside: sources of bytes by name, sinks of bytes, and how a text is read and written whole.
#![tactic(auto)]

mod memory;
mod sink;
mod source;
mod span;
mod verdict;

pub use jz_data::{Boxed, Failure, Seq, Text};
pub use memory::{MemSink, MemSource};
pub use sink::{Sink, write_all};
pub use source::{ReadRefused, Source, read_all};
pub use span::Span;
pub use verdict::{Ct, CtKind};

/// Bytes that contracts see as a list.
pub type Bytes = Seq<u8>;

/// A read or a write failed, and the source or sink has counted it.
#[derive(Clone, Copy, PartialEq, Eq)]
pub struct Failed;
