//! Grammars and readers: which lists of tokens stand for which values, how tokens are read from the
//! left, and what joins them. The tokens that are still to be read, what each one tells, and the
//! faults of a list of tokens.
#![tactic(auto)]

mod cursor;
mod fault;
mod kinds;

pub use cursor::{Cursor, Stop, UNEXPECTED};
pub use fault::{SyntaxFault, SyntaxKind, fault_at};
pub use jz_lex::{Failure, LexFault, LexKind, Seq, Size, Span, Text, Token, Tokens, lex};
pub use kinds::{has_text, is_sign, is_word};
