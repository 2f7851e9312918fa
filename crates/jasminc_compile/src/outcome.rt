//! What compiling one export function comes to.

use jz_listing::Compiled;
use jz_tree::Text;
use jz_unplaced::Unplaced;

/// Why a safe export function is not compiled.
#[derive(Drop)]
pub enum Unmade {
    /// The stack variables of the function of this name take too much.
    Frame(Text),
    /// A variable has no place.
    NoPlace(Unplaced),
}

/// A compiled function, or why there is none.
#[derive(Drop)]
pub(crate) enum Outcome {
    Made(Compiled),
    Not(Unmade),
}
