//! The tokens of a whole text.

ghost use Rattle.std.specs.Prelude.{◌≡◌, ◌<◌, ◌≤◌, ◌+◌, ◌-◌, ◌^◌, length, IfOk, IfErr};
ghost use Rattle.jz_data.specs.Failures.{IfRefused};
ghost use Rattle.jz_lex.specs.Lexing.{after, IsLexed, HasNoToken};
ghost use Rattle.jz_lex.specs.declared.token.Token.{Token};
ghost use Rattle.jz_lex.specs.declared.token.LexFault.{LexFault};

use super::front::{Front, front_of};
use super::kind::kind_of;
use super::token::{LexFault, Token, TokenKind, Tokens};
use jz_data::{Failure, Seq};
use jz_io::Span;
use std::alloc::Global;

fn after(start: Span, bytes: &[u8]) -> Span
    requires line { start.line + length bytes.now < 2 ^ 32 }
    requires col { start.col + length bytes.now < 2 ^ 32 }
    ensures value { result ≡ after start bytes.now }
    ensures line { result.line ≤ start.line + length bytes.now }
    ensures col { result.col ≤ start.col + length bytes.now }
{
    let mut line = start.line;
    let mut col = start.col;
    for byte in bytes {
        if *byte == b'\n' {
            line += 1;
            col = 1;
        } else {
            col += 1;
        }
    }
    Span { line, col }
}

/// The tokens of a text, the last one its end; or the first place that has no token, and why.
///
/// Between tokens may stand tabs, line feeds, carriage returns, spaces and comments. A comment
/// begins wherever a token could with `//`, and ends where its line does, or with `/*`, and ends
/// with the first `*/` behind that; comments are not nested.
///
/// A token is the longest that stands at its place: an identifier or keyword, a number, a cast as
/// `8u` or `64s`, a string, or a sign. A number is decimal, or `0x` and hexadecimal digits of
/// either case, with underscores anywhere after its first digit; it is at most 2^127 - 1, and no
/// letter follows it. A string has any bytes of one line between its quotes. Operators on signed
/// numbers and rotations end with a letter, as `<s` and `<<r`, which belongs to the sign only where
/// no byte of a name follows it; an operator before `=` is one sign with it.
#[tactic(auto, using(crate::proofs::Lexing::skipped_length, crate::proofs::Lexing::lexeme_length, crate::proofs::Lexing::refused_here, crate::proofs::Lexing::lexed_here))]
pub fn lex(alloc: Global, text: &[u8]) -> Result<Tokens, Failure<LexFault>>
    requires { length text.now ≤ 2 ^ 32 - 2 }
    ensures tokens { IfOk result (λ tokens. IsLexed text.now tokens) }
    ensures fault { IfErr result (λ failure. IfRefused failure (HasNoToken text.now)) }
{
    let mut tokens = Seq::new(alloc);
    let mut span = Span { line: 1, col: 1 };
    let mut rest = text;
    while rest.len() > 0 {
        match front_of(rest) {
            Front::Skipped(length) => {
                let (skipped, more) = rest.split_at(length);
                span = after(span, skipped);
                rest = more;
            }
            Front::Lexeme(shape, length) => {
                let (lexeme, more) = rest.split_at(length);
                let kind = kind_of(alloc, shape, lexeme)?;
                tokens.push(Token { kind, span })?;
                span = after(span, lexeme);
                rest = more;
            }
            Front::NoToken(kind) => return Err(Failure::Refused(LexFault { kind, span })),
        }
    }
    tokens.push(Token {
        kind: TokenKind::End,
        span,
    })?;
    Ok(tokens)
}
