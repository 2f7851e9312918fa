//! The token that a lexeme spells.

ghost use Rattle.std.specs.Prelude.{◌≡◌, ◌≤◌, [], true, length, IfOk};
ghost use Rattle.std.specs.Str.{IsAscii};
ghost use Rattle.jz_lex.specs.LexingWords.{keywords, is_among, inner, is_lexeme, cast_kind, kind_of_word};
ghost use Rattle.jz_lex.specs.InnerFront.{shape_of};

use super::front::Shape;
use super::table::begins;
use super::token::TokenKind;
use jz_data::{Seq, Text};
use jz_words::Size;
use std::alloc::{AllocError, Global};

#[tactic(auto, unfolding(crate::specs::LexingWords::keywords))]
fn is_keyword(word: &str) -> bool
    ensures { result ≡ is_among keywords word.now }
{
    match word {
        "param" | "int" | "inline" | "export" | "fn" => true,
        "reg" | "stack" | "bool" | "u8" | "u16" | "u32" | "u64" => true,
        "return" | "if" | "else" | "while" | "for" | "to" | "downto" => true,
        "true" | "false" | "_" => true,
        _ => false,
    }
}

fn text_of(alloc: Global, bytes: &[u8]) -> Result<Text, AllocError>
    requires { IsAscii bytes.now }
    ensures { IfOk result (λ text. text ≡ bytes.now) }
{
    match str::from_utf8(bytes) {
        Ok(text) => Ok(Text::from_string(String::from_str(alloc, text)?)),
        Err(_) => unreachable!(),
    }
}

fn cast_kind(lexeme: &[u8]) -> TokenKind
    ensures { result ≡ cast_kind lexeme.now }
{
    let size = if begins("8", lexeme) {
        Size::S8
    } else if begins("16", lexeme) {
        Size::S16
    } else if begins("32", lexeme) {
        Size::S32
    } else {
        Size::S64
    };
    TokenKind::Cast(size, lexeme.ends_with(b"s"))
}

fn inner(lexeme: &[u8]) -> &[u8]
    requires { 2 ≤ length lexeme.now }
    ensures { result.now ≡ inner lexeme.now }
{
    match lexeme {
        [_, within @ .., _] => within,
        _ => unreachable!(),
    }
}

/// The token that a lexeme of this shape spells.
#[tactic(auto, using(crate::proofs::LexingFront::shape_word, crate::proofs::LexingFront::shape_cast, crate::proofs::LexingFront::shape_string))]
pub(super) fn kind_of(alloc: Global, shape: Shape, lexeme: &[u8]) -> Result<TokenKind, AllocError>
    requires lexeme { is_lexeme lexeme.now [] ≡ true }
    requires shape { shape_of lexeme.now ≡ shape }
    ensures { IfOk result (λ kind. kind ≡ kind_of_word lexeme.now) }
{
    match shape {
        Shape::Number(value) => Ok(TokenKind::Num(value)),
        Shape::Cast => Ok(cast_kind(lexeme)),
        Shape::Str => Ok(TokenKind::Str(Seq::from_slice(alloc, inner(lexeme))?)),
        Shape::Sign => Ok(TokenKind::Sign(text_of(alloc, lexeme)?)),
        Shape::Word => {
            let text = text_of(alloc, lexeme)?;
            if is_keyword(text.as_str()) {
                Ok(TokenKind::Keyword(text))
            } else {
                Ok(TokenKind::Ident(text))
            }
        }
    }
}
