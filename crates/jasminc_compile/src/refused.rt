//! Why the functions of a text are not compiled.

use crate::outcome::Unmade;
use jasminc_source::{FunLimit, Unread};
use jz_asked::Alarm;

/// Why the functions of a text are not compiled, by what the answer's line shows.
#[derive(Drop)]
pub enum Refused {
    /// The text has no typed program.
    Unread(Unread),
    /// An export function passes a limit of its expansion.
    Limit(FunLimit),
    /// The facts don't give a condition of an export function.
    Alarm(Alarm),
    /// A safe export function is not compiled.
    Making(Unmade),
}
