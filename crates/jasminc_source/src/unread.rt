//! Why a text has no typed program.

use jz_grammar::{LexFault, SyntaxFault};
use jz_types::TypeFault;

/// Why a text has no typed program, by what the answer's line shows.
#[derive(Clone, Copy)]
pub enum Unread {
    /// The text has no token at a place.
    Lex(LexFault),
    /// The tokens derive no program.
    Parse(SyntaxFault),
    /// A rule of typing fails.
    Typing(TypeFault),
}
