//! Which bytes words and numerals are made of.

ghost use Rattle.std.specs.Prelude.{◌≡◌, length};
ghost use Rattle.std.specs.List.{take_while};
ghost use Rattle.jz_lex.specs.Lexing.{is_blank};
ghost use Rattle.jz_lex.specs.LexingWords.{begins_word, in_word, is_digit, in_decimal, is_hex_digit, in_hexadecimal};

#[tactic(auto, unfolding(crate::specs::Lexing::is_blank))]
pub(super) fn is_blank(byte: u8) -> bool
    ensures { result ≡ is_blank byte }
{
    byte == b'\t' || byte == b'\n' || byte == b'\r' || byte == b' '
}

#[tactic(auto, unfolding(crate::specs::LexingWords::begins_word))]
pub(super) fn begins_word(byte: u8) -> bool
    ensures { result ≡ begins_word byte }
{
    byte.is_ascii_alphabetic() || byte == b'_'
}

#[tactic(auto, unfolding(crate::specs::LexingWords::is_digit))]
pub(super) fn is_digit(byte: u8) -> bool
    ensures { result ≡ is_digit byte }
{
    byte.is_ascii_digit()
}

#[tactic(auto, unfolding(crate::specs::LexingWords::is_hex_digit))]
pub(super) fn is_hex_digit(byte: u8) -> bool
    ensures { result ≡ is_hex_digit byte }
{
    byte.is_ascii_hexdigit()
}

#[tactic(auto, unfolding(crate::specs::LexingWords::in_word))]
pub(super) fn in_word(byte: u8) -> bool
    ensures { result ≡ in_word byte }
{
    byte.is_ascii_alphabetic() || byte.is_ascii_digit() || byte == b'_'
}

#[tactic(auto, unfolding(crate::specs::LexingWords::in_decimal))]
fn in_decimal(byte: u8) -> bool
    ensures { result ≡ in_decimal byte }
{
    byte.is_ascii_digit() || byte == b'_'
}

#[tactic(auto, unfolding(crate::specs::LexingWords::in_hexadecimal))]
fn in_hexadecimal(byte: u8) -> bool
    ensures { result ≡ in_hexadecimal byte }
{
    byte.is_ascii_hexdigit() || byte == b'_'
}

/// How many bytes from the front on go on with a word.
pub(super) fn word_length(text: &[u8]) -> usize
    ensures value { result ≡ length (take_while in_word text.now) }
{
    text.iter().take_while(|byte| in_word(**byte)).count()
}

/// How many bytes from the front on go on with a decimal numeral.
pub(super) fn decimal_length(text: &[u8]) -> usize
    ensures value { result ≡ length (take_while in_decimal text.now) }
{
    text.iter().take_while(|byte| in_decimal(**byte)).count()
}

/// How many bytes from the front on go on with a hexadecimal numeral.
pub(super) fn hexadecimal_length(text: &[u8]) -> usize
    ensures value { result ≡ length (take_while in_hexadecimal text.now) }
{
    text.iter()
        .take_while(|byte| in_hexadecimal(**byte))
        .count()
}
