//! The number that a numeral writes.

ghost use Rattle.std.specs.Prelude.{◌≡◌, ◌≤◌, ◌<◌, ◌+◌, ◌*◌, ◌^◌, SomeIff};
ghost use Rattle.std.specs.List.{list_all};
ghost use Rattle.jz_lex.specs.LexingWords.{is_digit, in_decimal, is_hex_digit, in_hexadecimal};
ghost use Rattle.jz_lex.specs.LexingWords.{is_decimal, are_hex_digits, is_hexadecimal, is_numeral};
ghost use Rattle.jz_lex.specs.LexingWords.{digits_number, value_of_numeral};
ghost use Rattle.jz_lex.specs.InnerFront.{wide_number};
ghost use Rattle.jz_annotations.specs.InnerReaders.{wide_value, numeral_below};

#[tactic(auto, unfolding(jz_lex::specs::LexingWords::in_decimal))]
fn in_decimal(byte: u8) -> bool
    ensures { result ≡ in_decimal byte }
{
    byte.is_ascii_digit() || byte == b'_'
}

#[tactic(auto, unfolding(jz_lex::specs::LexingWords::in_hexadecimal))]
fn in_hexadecimal(byte: u8) -> bool
    ensures { result ≡ in_hexadecimal byte }
{
    byte.is_ascii_hexdigit() || byte == b'_'
}

fn all_decimal(bytes: &[u8]) -> bool
    ensures { result ≡ list_all in_decimal bytes.now }
{
    bytes.iter().all(|byte| in_decimal(*byte))
}

fn all_hexadecimal(bytes: &[u8]) -> bool
    ensures { result ≡ list_all in_hexadecimal bytes.now }
{
    bytes.iter().all(|byte| in_hexadecimal(*byte))
}

#[tactic(auto, unfolding(jz_lex::specs::LexingWords::is_digit))]
fn is_digit(byte: u8) -> bool
    ensures { result ≡ is_digit byte }
{
    byte.is_ascii_digit()
}

#[tactic(auto, unfolding(jz_lex::specs::LexingWords::is_hex_digit))]
fn is_hex_digit(byte: u8) -> bool
    ensures { result ≡ is_hex_digit byte }
{
    byte.is_ascii_hexdigit()
}

/// Decimal digits, with underscores behind the first.
fn is_decimal(word: &[u8]) -> bool
    ensures { result ≡ is_decimal word.now }
{
    match word {
        [] => false,
        [first, rest @ ..] => is_digit(*first) && all_decimal(rest),
    }
}

/// Hexadecimal digits, with underscores behind the first.
fn are_hex_digits(word: &[u8]) -> bool
    ensures { result ≡ are_hex_digits word.now }
{
    match word {
        [] => false,
        [first, rest @ ..] => is_hex_digit(*first) && all_hexadecimal(rest),
    }
}

/// `0x` and hexadecimal digits.
fn is_hexadecimal(word: &[u8]) -> bool
    ensures { result ≡ is_hexadecimal word.now }
{
    match word {
        [] => false,
        [_] => false,
        [first, second, digits @ ..] => {
            *first == b'0' && *second == b'x' && are_hex_digits(digits)
        }
    }
}

/// Whether a word is a number's spelling.
fn is_numeral(word: &[u8]) -> bool
    ensures { result ≡ is_numeral word.now }
{
    is_decimal(word) || is_hexadecimal(word)
}

fn with_digit(value: u128, base: u32, digit: u32) -> Option<u128>
    ensures { SomeIff result (value * base + digit < 2 ^ 128) (value * base + digit) }
{
    value.checked_mul(base as u128)?.checked_add(digit as u128)
}

/// The number that the digits among these bytes write in a base, if it is below 2^128.
fn digits_value(base: u32, bytes: &[u8]) -> Option<u128>
    requires low { 2 ≤ base }
    requires high { base ≤ 36 }
    ensures { result ≡ wide_number (digits_number base bytes.now) }
{
    let mut value: u128 = 0;
    for byte in bytes {
        if let Some(digit) = char::from(*byte).to_digit(base) {
            value = with_digit(value, base, digit)?;
        }
    }
    Some(value)
}

/// The number that a numeral writes, if it is below 2^128.
#[tactic(auto, unfolding(jz_lex::specs::LexingWords::value_of_numeral))]
fn wide_value(word: &[u8]) -> Option<u128>
    ensures { result ≡ wide_value word.now }
{
    match word {
        [b'0', b'x', digits @ ..] => digits_value(16, digits),
        _ => digits_value(10, word),
    }
}

/// The number that a word writes, where it is a numeral and the number is below a limit.
pub(crate) fn numeral_below(limit: u128, word: &[u8]) -> Option<u64>
    requires { limit ≤ 2 ^ 64 }
    ensures { result ≡ numeral_below limit word.now }
{
    if !is_numeral(word) {
        return None;
    }
    let value = wide_value(word)?;
    if value < limit {
        Some(value as u64)
    } else {
        None
    }
}
