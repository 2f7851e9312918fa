//! Why the functions of a text are not known to be constant time.

use crate::breaches::FunBreach;
use jasminc_source::{FunLimit, Unread};

/// Why the functions of a text are not known to be constant time, by what the answer's line shows.
#[derive(Drop)]
pub enum Refused {
    /// The text has no typed program.
    Unread(Unread),
    /// An export function passes a limit of its expansion.
    Limit(FunLimit),
    /// No labels of an export function meet the rules.
    Breach(FunBreach),
}
