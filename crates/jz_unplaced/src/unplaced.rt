//! A variable without a place.

use jz_alloc::Needed;
use jz_data::{Seq, Text};
use jz_io::Span;
use x64_insn::Place;

/// A variable by its name, or a cell of a register array by that of the array.
#[derive(Drop)]
pub struct Named {
    pub name: Text,
    pub cell: Option<u32>,
}

/// What has a place: a variable, or an operation that writes it beside its variables.
#[derive(Drop)]
pub struct Holder {
    pub place: Place,
    /// The variable; `None` is an operation.
    pub variable: Option<Named>,
    pub span: Span,
}

/// The first variable without a place, each of its needs, and what holds each place that meets them
/// all.
#[derive(Drop)]
pub struct Unplaced {
    pub variable: Named,
    pub needs: Seq<Needed>,
    pub holders: Seq<Holder>,
}
