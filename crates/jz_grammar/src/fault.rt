//! Why tokens derive no program, and where.

ghost use Rattle.std.specs.Prelude.{◌≡◌};
ghost use Rattle.jz_grammar.specs.Places.{span_at, IsFaultAt};

use jz_lex::{Span, Tokens};

/// Why tokens derive no program.
#[derive(Clone, Copy, PartialEq, Eq)]
pub enum SyntaxKind {
    /// The tokens before it begin some program, and those with it begin none.
    Unexpected,
    /// The tokens with it begin some program, and more is nested at it than the limit allows.
    TooDeep,
}

/// The first wrong token: its number from 0, and its span. Where the tokens run out before a
/// program's end the number is how many there are, and the span is that of the last (1:1 where
/// there is none).
#[derive(Clone, Copy, PartialEq, Eq)]
pub struct SyntaxFault {
    pub kind: SyntaxKind,
    pub token: u64,
    pub span: Span,
}

/// The span of the token of that number, or the text's first place.
fn span_at(tokens: &Tokens, number: usize) -> Span
    ensures { result ≡ span_at tokens.now number }
{
    match tokens.get(number) {
        Some(token) => token.span,
        None => Span { line: 1, col: 1 },
    }
}

/// The fault at the token of that number, or after the last.
pub fn fault_at(kind: SyntaxKind, tokens: &Tokens, number: usize) -> SyntaxFault
    ensures { IsFaultAt kind tokens.now number result }
{
    let count = tokens.len();
    let place = if number < count {
        number
    } else {
        count.saturating_sub(1)
    };
    SyntaxFault {
        kind,
        token: number as u64,
        span: span_at(tokens, place),
    }
}
