//! Whether items meet the preconditions of a function, and the memory that they give it.
#![tactic(auto)]

mod bytes;
mod covering;
mod holding;
mod memory;
mod regions;
mod words;

pub use bytes::bytes_in;
pub use holding::first_unmet;
pub use memory::memory_of;
pub use regions::{Extent, region_of};
