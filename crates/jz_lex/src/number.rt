//! The number that a numeral writes.

ghost use Rattle.std.specs.Prelude.{◌≡◌, ◌≤◌, ◌<◌, ◌+◌, ◌*◌, ◌^◌, SomeIff};
ghost use Rattle.jz_lex.specs.LexingWords.{value_of_numeral, digits_number};
ghost use Rattle.jz_lex.specs.InnerFront.{kept_number, wide_number};

/// The number that a numeral writes, if it is at most 2^127 - 1.
#[tactic(auto, unfolding(crate::specs::LexingWords::value_of_numeral))]
pub(super) fn numeral_value(numeral: &[u8]) -> Option<i128>
    ensures { result ≡ kept_number (value_of_numeral numeral.now) }
{
    let value = match numeral {
        [b'0', b'x', digits @ ..] => digits_value(16, digits)?,
        _ => digits_value(10, numeral)?,
    };
    if value <= i128::MAX as u128 {
        Some(value as i128)
    } else {
        None
    }
}

/// The number that the digits among these bytes write in a base, if it is below 2^128.
fn digits_value(base: u32, bytes: &[u8]) -> Option<u128>
    requires low { 2 ≤ base }
    requires high { base ≤ 36 }
    ensures { result ≡ wide_number (digits_number base bytes.now) }
{
    let mut value: u128 = 0;
    for byte in bytes {
        if let Some(digit) = char::from(*byte).to_digit(base) {
            value = with_digit(value, base, digit)?;
        }
    }
    Some(value)
}

fn with_digit(value: u128, base: u32, digit: u32) -> Option<u128>
    ensures { SomeIff result (value * base + digit < 2 ^ 128) (value * base + digit) }
{
    value.checked_mul(base as u128)?.checked_add(digit as u128)
}
