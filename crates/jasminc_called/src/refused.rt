//! Why a function of a text is not called.

use jasminc_compile as compiling;
use jz_preconditions::Pre;
use jz_tree::Text;

/// Why a function of a text is not called, by what the answer's line shows.
#[derive(Drop)]
pub enum Refused {
    /// The functions of the text are not all compiled.
    Compile(compiling::Refused),
    /// No export function has this name.
    NoFunction(Text),
    /// There is another number of items than of parameters.
    Items,
    /// This precondition does not hold of the items.
    Unmet(Pre),
}
