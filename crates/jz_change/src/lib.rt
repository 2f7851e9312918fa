//! Changes between languages: what a pass makes of a leak, two passes one after another, and the
//! printed transformer of passes and a last one.
#![tactic(auto)]

mod change;
mod composing;
mod flattening;
mod laws;
mod numbers;

pub use change::{Change, Number, Numbers, Step};
pub use composing::compose;
pub use flattening::flatten;
pub use jz_leak::{Case, Form, Leak, Out, Seq, Tr, Transformer};
pub use laws::{a_cut_stays_a_cut, changes_compose, changes_flatten};
