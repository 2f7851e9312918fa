//! What a step of the machine shows.

use jz_data::Seq;

/// An event that a step shows.
#[derive(Clone, Copy, PartialEq, Eq)]
pub enum Event {
    /// Whether a conditional jump was taken.
    Branch(bool),
    /// The address of a memory access.
    Addr(u64),
    /// High word, low word and divisor of a division.
    Div(u64, u64, u64),
}

/// Events in their order.
pub type Events = Seq<Event>;
