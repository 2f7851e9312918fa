//! The bytes of a line that are still to be read.

ghost use Rattle.std.specs.Prelude.{◌≡◌, ◌≤◌, true, length, drop, take};
ghost use Rattle.std.specs.Char.{is_ascii_digit};
ghost use Rattle.std.specs.List.{list_all, take_while};
ghost use Rattle.std.specs.Str.{IsAscii};
ghost use Rattle.jz_lex.specs.LexingWords.{begins, begins_word, heads, in_word, is_among, keywords};
ghost use Rattle.jz_listing_lines.specs.InnerReaders.{Gave, is_end, is_written};
ghost use Rattle.jz_listing_lines.specs.InnerReaders.{literal, name, number, signed_number};
ghost use Rattle.jz_listing_lines.specs.InnerReaders.{small_number, value_of};

use jz_data::Failure;
use jz_leak::Text;
use std::alloc::Global;
use std::marker::Model;

/// The bytes are none of what was to be read.
#[derive(Clone, Copy)]
pub struct Unread;

/// Why nothing is read: the bytes are otherwise, or memory is wanting.
pub type Stop = Failure<Unread>;

pub const UNREAD: Stop = Failure::Refused(Unread);

/// The bytes that are still to be read. A call that reads takes what it reads.
#[derive(Drop)]
pub struct Cursor<'a> {
    bytes: &'a [u8],
}

impl<'a> Model for Cursor<'a> {
    ghost use Rattle.std.specs.Prelude.{ℕ, List};

    ghost Value = { List ℕ };

    ghost view = { λ c. c.bytes.now };
}

#[tactic(auto, unfolding(jz_lex::specs::LexingWords::in_word))]
fn in_word(byte: u8) -> bool
    ensures { result ≡ in_word byte }
{
    byte.is_ascii_alphabetic() || byte.is_ascii_digit() || byte == b'_'
}

/// How many bytes from the front on are a word's.
fn word_length(bytes: &[u8]) -> usize
    ensures { result ≡ length (take_while in_word bytes.now) }
{
    bytes.iter().take_while(|byte| in_word(**byte)).count()
}

/// How many bytes from the front on are digits.
fn digits_length(bytes: &[u8]) -> usize
    ensures { result ≡ length (take_while is_ascii_digit bytes.now) }
{
    bytes
        .iter()
        .take_while(|byte| byte.is_ascii_digit())
        .count()
}

#[tactic(auto, unfolding(jz_lex::specs::LexingWords::begins_word))]
fn begins_word(byte: u8) -> bool
    ensures { result ≡ begins_word byte }
{
    byte.is_ascii_alphabetic() || byte == b'_'
}

/// Whether the first byte begins a word.
fn begins_as_word(bytes: &[u8]) -> bool
    ensures { result ≡ heads begins_word bytes.now }
{
    match bytes {
        [] => false,
        [byte, ..] => begins_word(*byte),
    }
}

#[tactic(auto, unfolding(jz_lex::specs::LexingWords::keywords))]
fn is_keyword(word: &str) -> bool
    ensures { result ≡ is_among keywords word.now }
{
    match word {
        "param" | "int" | "inline" | "export" | "fn" => true,
        "reg" | "stack" | "bool" | "u8" | "u16" | "u32" | "u64" => true,
        "return" | "if" | "else" | "while" | "for" | "to" | "downto" => true,
        "true" | "false" | "_" => true,
        _ => false,
    }
}

/// Bytes below 128 as a text.
fn as_text(bytes: &[u8]) -> &str
    requires { IsAscii bytes.now }
    ensures { result.now ≡ bytes.now }
{
    match str::from_utf8(bytes) {
        Ok(text) => text,
        Err(_) => unreachable!(),
    }
}

/// Whether digits are there, and no leading zero.
fn is_written(digits: &[u8]) -> bool
    ensures { result ≡ is_written digits.now }
{
    match digits {
        [] => false,
        [_] => true,
        [first, ..] => *first != b'0',
    }
}

/// The number of digits, where they have no leading zero and it has 64 bits.
#[tactic(auto, using(crate::proofs::Leaves::digits_ascii))]
fn value_of(digits: &[u8]) -> Option<u64>
    requires { list_all is_ascii_digit digits.now ≡ true }
    ensures { result ≡ value_of digits.now }
{
    if !is_written(digits) {
        return None;
    }
    match as_text(digits).parse() {
        Ok(number) => Some(number),
        Err(_) => None,
    }
}

impl<'a> Cursor<'a> {
    pub fn new(bytes: &'a [u8]) -> Cursor<'a>
        ensures { result ≡ bytes.now }
    {
        Cursor { bytes }
    }

    /// How many bytes are left.
    pub fn left(&self) -> usize
        ensures { result ≡ length self.now }
    {
        self.bytes.len()
    }

    pub fn is_at_end(&self) -> bool
        ensures { result ≡ is_end self.now }
    {
        self.bytes.is_empty()
    }

    /// Whether these bytes stand there.
    pub fn is_at(&self, word: &str) -> bool
        ensures { result ≡ begins word.now self.now }
    {
        self.bytes.starts_with(word.as_bytes())
    }

    /// Takes so many bytes.
    pub fn take(&mut self, count: usize) -> &'a [u8]
        requires { count ≤ length self.old }
        ensures taken { result.now ≡ take count self.old }
        ensures rest { self.new ≡ drop count self.old }
    {
        let (taken, rest) = self.bytes.split_at(count);
        self.bytes = rest;
        taken
    }

    /// Takes these bytes.
    #[tactic(auto, unfolding(crate::specs::InnerReaders::literal))]
    pub fn literal(&mut self, word: &str) -> Result<(), Stop>
        ensures { Gave result self.new (literal word.now self.old) }
    {
        if !self.is_at(word) {
            return Err(UNREAD);
        }
        let _word = self.take(word.len());
        Ok(())
    }

    /// An identifier.
    #[tactic(auto, using(crate::proofs::Leaves::front_ascii), unfolding(crate::specs::InnerReaders::name))]
    pub fn name(&mut self, alloc: Global) -> Result<Text, Stop>
        ensures { Gave result self.new (name self.old) }
    {
        let length = word_length(self.bytes);
        let word = self.take(length);
        if !begins_as_word(word) {
            return Err(UNREAD);
        }
        let text = Text::from_string(String::from_str(alloc, as_text(word))?);
        if is_keyword(text.as_str()) {
            return Err(UNREAD);
        }
        Ok(text)
    }

    /// A number of 64 bits.
    #[tactic(auto, using(crate::proofs::Leaves::front_digits), unfolding(crate::specs::InnerReaders::number))]
    pub fn number(&mut self) -> Result<u64, Stop>
        ensures { Gave result self.new (number self.old) }
    {
        let length = digits_length(self.bytes);
        let digits = self.take(length);
        match value_of(digits) {
            Some(number) => Ok(number),
            None => Err(UNREAD),
        }
    }

    /// A number of 32 bits.
    #[tactic(auto, unfolding(crate::specs::InnerReaders::small_number))]
    pub fn small_number(&mut self) -> Result<u32, Stop>
        ensures { Gave result self.new (small_number self.old) }
    {
        let number = self.number()?;
        if number < 1 << 32 {
            Ok(number as u32)
        } else {
            Err(UNREAD)
        }
    }

    /// A number of 64 bits, with a sign where it is below 0.
    #[tactic(auto, unfolding(crate::specs::InnerReaders::signed_number))]
    pub fn signed_number(&mut self) -> Result<i64, Stop>
        ensures { Gave result self.new (signed_number self.old) }
    {
        if self.is_at("-") {
            self.literal("-")?;
            let number = self.number()?;
            if number == 0 || 1 << 63 < number {
                return Err(UNREAD);
            }
            return Ok(-((number - 1) as i64) - 1);
        }
        let number = self.number()?;
        if number < 1 << 63 {
            Ok(number as i64)
        } else {
            Err(UNREAD)
        }
    }
}
