//! Leakage: events of the machine, memory, and transformers from the leakage of the source to
//! events.
#![tactic(auto)]

mod event;
mod laws;
mod leak;
mod mem_map;
mod segment;
mod transformer;
mod walk;

pub use event::{Event, Events};
pub use jz_data::{Boxed, Failure, Seq, Text};
pub use laws::{broken_leaks_are_cut, whole_leaks_are_not_cut};
pub use leak::{Item, Leak, Turn};
pub use mem_map::MemMap;
pub use transformer::{Case, Form, Out, Tr, Transformer};
pub use walk::apply;
