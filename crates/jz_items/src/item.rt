//! What items are.

use jz_data::Seq;

/// Bytes that stand from an address on. Those at or past 2^64 are dropped.
#[derive(Drop)]
pub struct Placed {
    pub at: u64,
    pub bytes: Seq<u8>,
}

/// An argument of a function: a number, or bytes, whose address it is.
#[derive(Drop)]
pub enum Item {
    Number(u64),
    Bytes(Placed),
}
