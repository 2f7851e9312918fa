//! The bytes of an annotation's string that are still to be read.

ghost use Rattle.std.specs.Prelude.{◌≡◌, ◌≤◌, ◌^◌, true, length, drop, take};
ghost use Rattle.std.specs.List.{take_while};
ghost use Rattle.std.specs.Str.{IsAscii};
ghost use Rattle.jz_lex.specs.LexingWords.{begins, begins_word, heads, in_word, is_digit};
ghost use Rattle.jz_annotations.specs.Shapes.{is_space};
ghost use Rattle.jz_annotations.specs.InnerReaders.{Gave, is_end, front_of, rest_of};
ghost use Rattle.jz_annotations.specs.InnerReaders.{name, number, sign};

use crate::number::numeral_below;
use jz_tree::{Failure, Text};
use std::alloc::Global;
use std::marker::Model;

/// The bytes are none of what was to be read.
#[derive(Clone, Copy)]
pub(crate) struct Unread;

/// Why nothing is read: the bytes are otherwise, or memory is wanting.
pub(crate) type Stop = Failure<Unread>;

pub(crate) const UNREAD: Stop = Failure::Refused(Unread);

/// The bytes that are still to be read. A call that reads takes what it reads.
#[derive(Drop)]
pub(crate) struct Cursor<'a> {
    bytes: &'a [u8],
}

impl<'a> Model for Cursor<'a> {
    ghost use Rattle.std.specs.Prelude.{ℕ, List};

    ghost Value = { List ℕ };

    ghost view = { λ c. c.bytes.now };
}

#[tactic(auto, unfolding(jz_lex::specs::LexingWords::in_word))]
fn in_word(byte: u8) -> bool
    ensures { result ≡ in_word byte }
{
    byte.is_ascii_alphabetic() || byte.is_ascii_digit() || byte == b'_'
}

/// How many bytes from the front on are a word's.
fn word_length(bytes: &[u8]) -> usize
    ensures { result ≡ length (take_while in_word bytes.now) }
{
    bytes.iter().take_while(|byte| in_word(**byte)).count()
}

#[tactic(auto, unfolding(crate::specs::Shapes::is_space))]
fn is_space(byte: u8) -> bool
    ensures { result ≡ is_space byte }
{
    byte == b'\t' || byte == b' '
}

/// How many bytes from the front on are spaces and tabs.
fn spaces_length(bytes: &[u8]) -> usize
    ensures { result ≡ length (take_while is_space bytes.now) }
{
    bytes.iter().take_while(|byte| is_space(**byte)).count()
}

#[tactic(auto, unfolding(jz_lex::specs::LexingWords::begins_word))]
fn begins_word(byte: u8) -> bool
    ensures { result ≡ begins_word byte }
{
    byte.is_ascii_alphabetic() || byte == b'_'
}

/// Whether the first byte begins a word.
fn begins_as_word(bytes: &[u8]) -> bool
    ensures { result ≡ heads begins_word bytes.now }
{
    match bytes {
        [] => false,
        [byte, ..] => begins_word(*byte),
    }
}

#[tactic(auto, unfolding(jz_lex::specs::LexingWords::is_digit))]
fn begins_as_number(bytes: &[u8]) -> bool
    ensures { result ≡ heads is_digit bytes.now }
{
    match bytes {
        [] => false,
        [byte, ..] => byte.is_ascii_digit(),
    }
}

/// Bytes below 128 as a text.
fn as_text(bytes: &[u8]) -> &str
    requires { IsAscii bytes.now }
    ensures { result.now ≡ bytes.now }
{
    match str::from_utf8(bytes) {
        Ok(text) => text,
        Err(_) => unreachable!(),
    }
}

impl<'a> Cursor<'a> {
    pub(crate) fn new(bytes: &'a [u8]) -> Cursor<'a>
        ensures { result ≡ bytes.now }
    {
        Cursor { bytes }
    }

    pub(crate) fn is_at_end(&self) -> bool
        ensures { result ≡ is_end self.now }
    {
        self.bytes.is_empty()
    }

    /// Whether these bytes stand there.
    fn is_at(&self, word: &str) -> bool
        ensures { result ≡ begins word.now self.now }
    {
        self.bytes.starts_with(word.as_bytes())
    }

    pub(crate) fn is_at_number(&self) -> bool
        ensures { result ≡ heads is_digit self.now }
    {
        begins_as_number(self.bytes)
    }

    /// Whether nothing but one word is left.
    pub(crate) fn is_one_word(&self) -> bool
        ensures { result ≡ is_end (rest_of in_word self.now) }
    {
        let (_word, rest) = self.bytes.split_at(word_length(self.bytes));
        rest.is_empty()
    }

    /// Takes so many bytes.
    fn take(&mut self, count: usize) -> &'a [u8]
        requires { count ≤ length self.old }
        ensures taken { result.now ≡ take count self.old }
        ensures rest { self.new ≡ drop count self.old }
    {
        let (taken, rest) = self.bytes.split_at(count);
        self.bytes = rest;
        taken
    }

    /// Takes the longest word that stands there, which may be none.
    fn word(&mut self) -> &'a [u8]
        ensures taken { result.now ≡ front_of in_word self.old }
        ensures rest { self.new ≡ rest_of in_word self.old }
    {
        let length = word_length(self.bytes);
        self.take(length)
    }

    fn skip_spaces(&mut self)
        ensures { self.new ≡ rest_of is_space self.old }
    {
        let length = spaces_length(self.bytes);
        let _spaces = self.take(length);
    }

    /// Takes a sign, with the spaces and tabs about it.
    #[tactic(auto, unfolding(crate::specs::InnerReaders::sign))]
    pub(crate) fn sign(&mut self, word: &str) -> Result<(), Stop>
        ensures { Gave result self.new (sign word.now self.old) }
    {
        self.skip_spaces();
        if !self.is_at(word) {
            return Err(UNREAD);
        }
        let _sign = self.take(word.len());
        self.skip_spaces();
        Ok(())
    }

    /// A name.
    #[tactic(auto, using(crate::proofs::Words::front_ascii), unfolding(crate::specs::InnerReaders::name))]
    pub(crate) fn name(&mut self, alloc: Global) -> Result<Text, Stop>
        ensures { Gave result self.new (name self.old) }
    {
        let word = self.word();
        if !begins_as_word(word) {
            return Err(UNREAD);
        }
        let text = Text::from_string(String::from_str(alloc, as_text(word))?);
        Ok(text)
    }

    /// A number below a limit.
    #[tactic(auto, unfolding(crate::specs::InnerReaders::number))]
    pub(crate) fn number(&mut self, limit: u128) -> Result<u64, Stop>
        requires { limit ≤ 2 ^ 64 }
        ensures { Gave result self.new (number limit self.old) }
    {
        let word = self.word();
        match numeral_below(limit, word) {
            Some(number) => Ok(number),
            None => Err(UNREAD),
        }
    }
}
