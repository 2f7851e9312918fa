//! What a token is, and what it tells.

ghost use Rattle.std.specs.Prelude.{◌≡◌, [], ◌∷◌, IfOk, bytes_eq};
ghost use Rattle.jz_grammar.specs.Kinds.{identifier, word, number, cast, string, sign, end, is_in};
ghost use Rattle.jz_grammar.specs.Tokens.{name_of, number_of_token, cast_of, string_of, text_in, word_types, size_of_token};

use jz_lex::{Seq, Size, Span, Text, Token, TokenKind};
use std::alloc::{AllocError, Global};

#[tactic(auto, unfolding(crate::specs::Kinds::is_in))]
pub(super) fn is_identifier(token: &Token) -> bool
    ensures { result ≡ is_in (identifier ∷ []) token.now }
{
    match &token.kind {
        TokenKind::Ident(_) => true,
        TokenKind::Keyword(_)
        | TokenKind::Num(_)
        | TokenKind::Cast(_, _)
        | TokenKind::Str(_)
        | TokenKind::Sign(_)
        | TokenKind::End => false,
    }
}

/// Whether it is this keyword.
#[tactic(auto, unfolding(crate::specs::Kinds::is_in))]
pub fn is_word(token: &Token, text: &str) -> bool
    ensures { result ≡ is_in (word text.now ∷ []) token.now }
{
    match &token.kind {
        TokenKind::Keyword(word) => word.as_str() == text,
        TokenKind::Ident(_)
        | TokenKind::Num(_)
        | TokenKind::Cast(_, _)
        | TokenKind::Str(_)
        | TokenKind::Sign(_)
        | TokenKind::End => false,
    }
}

#[tactic(auto, unfolding(crate::specs::Kinds::is_in))]
pub(super) fn is_number(token: &Token) -> bool
    ensures { result ≡ is_in (number ∷ []) token.now }
{
    match &token.kind {
        TokenKind::Num(_) => true,
        TokenKind::Ident(_)
        | TokenKind::Keyword(_)
        | TokenKind::Cast(_, _)
        | TokenKind::Str(_)
        | TokenKind::Sign(_)
        | TokenKind::End => false,
    }
}

#[tactic(auto, unfolding(crate::specs::Kinds::is_in))]
pub(super) fn is_cast(token: &Token) -> bool
    ensures { result ≡ is_in (cast ∷ []) token.now }
{
    match &token.kind {
        TokenKind::Cast(_, _) => true,
        TokenKind::Ident(_)
        | TokenKind::Keyword(_)
        | TokenKind::Num(_)
        | TokenKind::Str(_)
        | TokenKind::Sign(_)
        | TokenKind::End => false,
    }
}

#[tactic(auto, unfolding(crate::specs::Kinds::is_in))]
pub(super) fn is_string(token: &Token) -> bool
    ensures { result ≡ is_in (string ∷ []) token.now }
{
    match &token.kind {
        TokenKind::Str(_) => true,
        TokenKind::Ident(_)
        | TokenKind::Keyword(_)
        | TokenKind::Num(_)
        | TokenKind::Cast(_, _)
        | TokenKind::Sign(_)
        | TokenKind::End => false,
    }
}

/// Whether it is this sign.
#[tactic(auto, unfolding(crate::specs::Kinds::is_in))]
pub fn is_sign(token: &Token, text: &str) -> bool
    ensures { result ≡ is_in (sign text.now ∷ []) token.now }
{
    match &token.kind {
        TokenKind::Sign(sign) => sign.as_str() == text,
        TokenKind::Ident(_)
        | TokenKind::Keyword(_)
        | TokenKind::Num(_)
        | TokenKind::Cast(_, _)
        | TokenKind::Str(_)
        | TokenKind::End => false,
    }
}

#[tactic(auto, unfolding(crate::specs::Kinds::is_in))]
pub(super) fn is_end(token: &Token) -> bool
    ensures { result ≡ is_in (end ∷ []) token.now }
{
    match &token.kind {
        TokenKind::End => true,
        TokenKind::Ident(_)
        | TokenKind::Keyword(_)
        | TokenKind::Num(_)
        | TokenKind::Cast(_, _)
        | TokenKind::Str(_)
        | TokenKind::Sign(_) => false,
    }
}

#[tactic(auto, unfolding(crate::specs::Kinds::is_in))]
pub(super) fn is_word_type(token: &Token) -> bool
    ensures { result ≡ is_in word_types token.now }
{
    is_word(token, "u8") || is_word(token, "u16") || is_word(token, "u32") || is_word(token, "u64")
}

#[tactic(auto, unfolding(crate::specs::Tokens::name_of))]
pub(super) fn name_of(alloc: Global, token: &Token) -> Result<(Text, Span), AllocError>
    ensures { IfOk result (λ name. name ≡ name_of token.now) }
{
    let name = match &token.kind {
        TokenKind::Ident(name) => name.clone()?,
        TokenKind::Keyword(_)
        | TokenKind::Num(_)
        | TokenKind::Cast(_, _)
        | TokenKind::Str(_)
        | TokenKind::Sign(_)
        | TokenKind::End => Text::from_string(String::new(alloc)),
    };
    Ok((name, token.span))
}

#[tactic(auto, unfolding(crate::specs::Tokens::number_of_token))]
pub(super) fn number_of(token: &Token) -> (i128, Span)
    ensures { result ≡ number_of_token token.now }
{
    let value = match &token.kind {
        TokenKind::Num(value) => *value,
        TokenKind::Ident(_)
        | TokenKind::Keyword(_)
        | TokenKind::Cast(_, _)
        | TokenKind::Str(_)
        | TokenKind::Sign(_)
        | TokenKind::End => 0,
    };
    (value, token.span)
}

#[tactic(auto, unfolding(crate::specs::Tokens::cast_of))]
pub(super) fn cast_of(token: &Token) -> (Size, bool)
    ensures { result ≡ cast_of token.now }
{
    match &token.kind {
        TokenKind::Cast(size, signed) => (*size, *signed),
        TokenKind::Ident(_)
        | TokenKind::Keyword(_)
        | TokenKind::Num(_)
        | TokenKind::Str(_)
        | TokenKind::Sign(_)
        | TokenKind::End => (Size::S64, false),
    }
}

#[tactic(auto, unfolding(crate::specs::Tokens::string_of))]
pub(super) fn string_of(alloc: Global, token: &Token) -> Result<Seq<u8>, AllocError>
    ensures { IfOk result (λ bytes. bytes ≡ string_of token.now) }
{
    match &token.kind {
        TokenKind::Str(bytes) => Seq::from_slice(alloc, bytes.as_slice()),
        TokenKind::Ident(_)
        | TokenKind::Keyword(_)
        | TokenKind::Num(_)
        | TokenKind::Cast(_, _)
        | TokenKind::Sign(_)
        | TokenKind::End => Ok(Seq::new(alloc)),
    }
}

/// Whether it is a keyword or a sign of this text.
pub fn has_text(token: &Token, text: &str) -> bool
    ensures { result ≡ bytes_eq (text_in token.now.kind) text.now }
{
    match &token.kind {
        TokenKind::Keyword(own) | TokenKind::Sign(own) => own.as_str() == text,
        TokenKind::Ident(_)
        | TokenKind::Num(_)
        | TokenKind::Cast(_, _)
        | TokenKind::Str(_)
        | TokenKind::End => "" == text,
    }
}

#[tactic(auto, unfolding(crate::specs::Tokens::size_of_token))]
pub(super) fn size_of(token: &Token) -> Size
    ensures { result ≡ size_of_token token.now }
{
    if has_text(token, "u8") {
        Size::S8
    } else if has_text(token, "u16") {
        Size::S16
    } else if has_text(token, "u32") {
        Size::S32
    } else {
        Size::S64
    }
}
