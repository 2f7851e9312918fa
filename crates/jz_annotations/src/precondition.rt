//! What an export function asks of its callers.

use jz_tree::Text;

/// A precondition of a function, over its parameters by their names.
#[derive(Drop)]
pub enum Pre {
    /// From the parameter on, `factor * variable + constant` bytes are valid; without a variable
    /// `constant` bytes, and the factor is 0.
    Region {
        pointer: Text,
        factor: u64,
        variable: Option<Text>,
        constant: u64,
    },
    /// The parameter lies between two numbers, both included.
    Range {
        name: Text,
        low: u64,
        high: u64,
    },
    /// The parameter is a multiple of a number.
    Align {
        pointer: Text,
        multiple: u64,
    },
}
