//! Code as the placing of variables sees it: operations over variables, what each reads, writes and
//! needs.
#![tactic(auto)]

mod code;
mod laws;
mod place;
mod within;

pub use code::{Code, Kind, Need, Node, Op};
pub use jz_io::Span;
pub use laws::places_are_told_apart;
pub use place::{place_number, place_of};
pub use within::are_below;
