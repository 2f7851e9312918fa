//! Tokens, their kinds, and the faults of a text that has none somewhere.

use jz_data::{Seq, Text};
use jz_io::Span;
use jz_words::Size;

/// A token, and the place of its first byte. The end of the text is one, just past the last byte.
#[derive(Drop, PartialEq, Eq)]
pub struct Token {
    pub kind: TokenKind,
    pub span: Span,
}

#[derive(Drop, PartialEq, Eq)]
pub enum TokenKind {
    Ident(Text),
    Keyword(Text),
    Num(i128),
    /// The size of the words that a cast gives, and whether it extends the sign.
    Cast(Size, bool),
    /// The bytes between the quotes.
    Str(Seq<u8>),
    Sign(Text),
    End,
}

/// The tokens of a text in order, the last one its end.
pub type Tokens = Seq<Token>;

/// Why a text has no token at a place.
#[derive(Clone, Copy, PartialEq, Eq)]
pub enum LexKind {
    /// A byte that begins no token, as the quote of a string that its line does not close.
    BadByte,
    /// A number that is too large, `0x` without a digit, or a number with a letter behind it.
    BadNumber,
    /// A comment that begins with `/*` and has no `*/` behind it.
    OpenComment,
}

#[derive(Clone, Copy, PartialEq, Eq)]
pub struct LexFault {
    pub kind: LexKind,
    pub span: Span,
}
