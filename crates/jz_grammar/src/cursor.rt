//! The tokens that are still to be read.

ghost use Rattle.std.specs.Prelude.{◌≡◌, ◌<◌, [], ◌∷◌, length, drop, IfOk};
ghost use Rattle.jz_grammar.specs.Kinds.{identifier, word, number, cast, string, sign, end, span_of, has};
ghost use Rattle.jz_grammar.specs.Readers.{leaf, opening, has_both};
ghost use Rattle.jz_grammar.specs.Gave.{Gave};
ghost use Rattle.jz_grammar.specs.Tokens.{name_of, number_of_token, cast_of, string_of, word_types, size_of_token};

use crate::fault::SyntaxKind;
use crate::kinds;
use jz_lex::{Failure, Seq, Size, Span, Text, Token};
use std::alloc::Global;
use std::marker::Model;

/// Why nothing is read: the next token is refused, or memory is.
pub type Stop = Failure<SyntaxKind>;

/// No phrase goes on with the next token.
pub const UNEXPECTED: Stop = Failure::Refused(SyntaxKind::Unexpected);

/// The tokens that are still to be read. A call that reads takes what it reads, and leaves the rest
/// from the first wrong token on.
#[derive(Drop)]
pub struct Cursor<'a> {
    tokens: &'a [Token],
}

impl<'a> Model for Cursor<'a> {
    ghost use Rattle.std.specs.Prelude.{List};
    ghost use Rattle.jz_lex.specs.declared.token.Token.{Token};

    ghost Value = { List Token };

    ghost view = { λ c. c.tokens.now };
}

impl<'a> Cursor<'a> {
    pub fn new(tokens: &'a [Token]) -> Cursor<'a>
        ensures { result ≡ tokens.now }
    {
        Cursor { tokens }
    }

    /// How many tokens are left.
    pub fn left(&self) -> usize
        ensures { result ≡ length self.now }
    {
        self.tokens.len()
    }

    /// The tokens that are left.
    pub fn tokens(&self) -> &'a [Token]
        ensures { result.now ≡ self.now }
    {
        self.tokens
    }

    /// Takes the next token, where there is one.
    pub fn advance(&mut self)
        ensures { self.new ≡ drop 1 self.old }
    {
        match self.tokens {
            [] => {}
            [_, rest @ ..] => self.tokens = rest,
        }
    }

    pub fn is_identifier(&self) -> bool
        ensures { result ≡ has (identifier ∷ []) self.now }
    {
        match self.tokens {
            [] => false,
            [token, ..] => kinds::is_identifier(token),
        }
    }

    /// Whether an identifier and then this sign stand there.
    pub fn is_identifier_then(&self, text: &str) -> bool
        ensures { result ≡ has_both (identifier ∷ []) (sign text.now ∷ []) self.now }
    {
        match self.tokens {
            [] => false,
            [_] => false,
            [token, next, ..] => kinds::is_identifier(token) && kinds::is_sign(next, text),
        }
    }

    pub fn is_number(&self) -> bool
        ensures { result ≡ has (number ∷ []) self.now }
    {
        match self.tokens {
            [] => false,
            [token, ..] => kinds::is_number(token),
        }
    }

    pub fn is_cast(&self) -> bool
        ensures { result ≡ has (cast ∷ []) self.now }
    {
        match self.tokens {
            [] => false,
            [token, ..] => kinds::is_cast(token),
        }
    }

    pub fn is_string(&self) -> bool
        ensures { result ≡ has (string ∷ []) self.now }
    {
        match self.tokens {
            [] => false,
            [token, ..] => kinds::is_string(token),
        }
    }

    pub fn is_word(&self, text: &str) -> bool
        ensures { result ≡ has (word text.now ∷ []) self.now }
    {
        match self.tokens {
            [] => false,
            [token, ..] => kinds::is_word(token, text),
        }
    }

    pub fn is_sign(&self, text: &str) -> bool
        ensures { result ≡ has (sign text.now ∷ []) self.now }
    {
        match self.tokens {
            [] => false,
            [token, ..] => kinds::is_sign(token, text),
        }
    }

    /// Whether a word's type stands there: `u8`, `u16`, `u32` or `u64`.
    pub fn is_word_type(&self) -> bool
        ensures { result ≡ has word_types self.now }
    {
        match self.tokens {
            [] => false,
            [token, ..] => kinds::is_word_type(token),
        }
    }

    #[tactic(auto, unfolding(crate::specs::Readers::one))]
    pub fn word(&mut self, text: &str) -> Result<Span, Stop>
        ensures { Gave result self.new (leaf (word text.now ∷ []) span_of self.old) }
    {
        match self.tokens {
            [token, rest @ ..] if kinds::is_word(token, text) => {
                self.tokens = rest;
                Ok(token.span)
            }
            _ => Err(UNEXPECTED),
        }
    }

    #[tactic(auto, unfolding(crate::specs::Readers::one))]
    pub fn sign(&mut self, text: &str) -> Result<Span, Stop>
        ensures { Gave result self.new (leaf (sign text.now ∷ []) span_of self.old) }
    {
        match self.tokens {
            [token, rest @ ..] if kinds::is_sign(token, text) => {
                self.tokens = rest;
                Ok(token.span)
            }
            _ => Err(UNEXPECTED),
        }
    }

    /// An identifier: its text and its place.
    #[tactic(auto, unfolding(crate::specs::Readers::one))]
    pub fn name(&mut self, alloc: Global) -> Result<(Text, Span), Stop>
        ensures { Gave result self.new (leaf (identifier ∷ []) name_of self.old) }
    {
        match self.tokens {
            [token, rest @ ..] if kinds::is_identifier(token) => {
                let name = kinds::name_of(alloc, token)?;
                self.tokens = rest;
                Ok(name)
            }
            _ => Err(UNEXPECTED),
        }
    }

    /// A number and its place.
    #[tactic(auto, unfolding(crate::specs::Readers::one))]
    pub fn number(&mut self) -> Result<(i128, Span), Stop>
        ensures { Gave result self.new (leaf (number ∷ []) number_of_token self.old) }
    {
        match self.tokens {
            [token, rest @ ..] if kinds::is_number(token) => {
                self.tokens = rest;
                Ok(kinds::number_of(token))
            }
            _ => Err(UNEXPECTED),
        }
    }

    /// A cast: the size that it gives, and whether it extends the sign.
    #[tactic(auto, unfolding(crate::specs::Readers::one))]
    pub fn cast(&mut self) -> Result<(Size, bool), Stop>
        ensures { Gave result self.new (leaf (cast ∷ []) cast_of self.old) }
    {
        match self.tokens {
            [token, rest @ ..] if kinds::is_cast(token) => {
                self.tokens = rest;
                Ok(kinds::cast_of(token))
            }
            _ => Err(UNEXPECTED),
        }
    }

    /// A string: the bytes between its quotes.
    #[tactic(auto, unfolding(crate::specs::Readers::one))]
    pub fn string(&mut self, alloc: Global) -> Result<Seq<u8>, Stop>
        ensures { Gave result self.new (leaf (string ∷ []) string_of self.old) }
    {
        match self.tokens {
            [token, rest @ ..] if kinds::is_string(token) => {
                let bytes = kinds::string_of(alloc, token)?;
                self.tokens = rest;
                Ok(bytes)
            }
            _ => Err(UNEXPECTED),
        }
    }

    /// The size of a word's type.
    #[tactic(auto, unfolding(crate::specs::Readers::one))]
    pub fn word_type(&mut self) -> Result<Size, Stop>
        ensures { Gave result self.new (leaf word_types size_of_token self.old) }
    {
        match self.tokens {
            [token, rest @ ..] if kinds::is_word_type(token) => {
                self.tokens = rest;
                Ok(kinds::size_of(token))
            }
            _ => Err(UNEXPECTED),
        }
    }

    #[tactic(auto, unfolding(crate::specs::Readers::one))]
    pub fn end(&mut self) -> Result<Span, Stop>
        ensures { Gave result self.new (leaf (end ∷ []) span_of self.old) }
    {
        match self.tokens {
            [token, rest @ ..] if kinds::is_end(token) => {
                self.tokens = rest;
                Ok(token.span)
            }
            _ => Err(UNEXPECTED),
        }
    }

    /// A sign that opens something nested, where so much may still be nested: its place, and how
    /// much may still be nested in it.
    #[tactic(auto, using(crate::proofs::Opening::opening_deep, crate::proofs::Opening::opening_none, crate::proofs::Opening::opening_ok, crate::proofs::Opening::opening_err))]
    pub fn open(&mut self, text: &str, depth: u32) -> Result<(Span, u32), Stop>
        ensures read { Gave result self.new (opening (sign text.now ∷ []) depth self.old) }
        ensures less { IfOk result (λ opened. opened.1 < depth) }
    {
        if depth == 0 {
            if self.is_sign(text) {
                return Err(Failure::Refused(SyntaxKind::TooDeep));
            }
            return Err(UNEXPECTED);
        }
        let span = self.sign(text)?;
        Ok((span, depth - 1))
    }

    /// A keyword that opens something nested, as a sign does.
    #[tactic(auto, using(crate::proofs::Opening::opening_deep, crate::proofs::Opening::opening_none, crate::proofs::Opening::opening_ok, crate::proofs::Opening::opening_err))]
    pub fn open_word(&mut self, text: &str, depth: u32) -> Result<(Span, u32), Stop>
        ensures read { Gave result self.new (opening (word text.now ∷ []) depth self.old) }
        ensures less { IfOk result (λ opened. opened.1 < depth) }
    {
        if depth == 0 {
            if self.is_word(text) {
                return Err(Failure::Refused(SyntaxKind::TooDeep));
            }
            return Err(UNEXPECTED);
        }
        let span = self.word(text)?;
        Ok((span, depth - 1))
    }
}
