//! Why a function of a text is not run.

use jasminc_source::{FunLimit, Unread};
use jz_annotations::Pre;
use jz_tree::Text;

/// Why a function of a text is not run, by what the answer's line shows.
#[derive(Drop)]
pub enum Refused {
    /// The text has no typed program.
    Unread(Unread),
    /// No export function has this name.
    NoFunction(Text),
    /// An export function passes a limit of its expansion.
    Limit(FunLimit),
    /// There is another number of items than of parameters.
    Items,
    /// This precondition does not hold of the items.
    Unmet(Pre),
}
