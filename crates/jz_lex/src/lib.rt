//! The tokens of a text.
#![tactic(auto)]

mod bytes;
mod comment;
mod front;
mod kind;
mod laws;
mod number;
mod sign;
mod string;
mod table;
mod text;
mod token;

pub use jz_data::{Failure, Seq, Text};
pub use jz_io::Span;
pub use jz_words::Size;
pub use laws::{
    end_stands_last, identifiers_are_spelled, identifiers_have_word_bytes, lexed_or_refused,
    one_fault, one_lexing, places_count_line_feeds,
};
pub use text::lex;
pub use token::{LexFault, LexKind, Token, TokenKind, Tokens};
