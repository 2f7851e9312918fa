//! The arithmetic of inline expressions, whose values are known when the text is compiled.
#![tactic(auto)]

mod arithmetic;
mod constant;
mod inline;
mod laws;
mod lookup;
mod sides;
mod values;
mod written;

pub use arithmetic::{inverted, negated, on_integers};
pub use constant::Constant;
pub use inline::{inline_value, minus, opposite};
pub use laws::{a_quotient_and_its_remainder, exact, settled_by_the_left};
pub use lookup::{NoNumbers, Numbers};
pub use values::{constant_of, joined, the_number};
pub use written::written_number;
