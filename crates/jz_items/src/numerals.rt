//! Numbers among words.

ghost use Rattle.std.specs.Prelude.{◌≡◌, ◌==◌, slice_index, ◌≤◌};
ghost use Rattle.jz_items.specs.Numbers.{numeral, has_leading_zero, number_of_word};

fn begins_with_plus(word: &str) -> bool
    ensures { result ≡ (slice_index word.now 0 == 43) }
{
    matches!(word.as_bytes(), [b'+', ..])
}

/// The number that digits write. A sign is no digit.
fn numeral(base: u32, digits: &str) -> Option<u64>
    requires low { 2 ≤ base }
    requires high { base ≤ 36 }
    ensures { result ≡ numeral base digits.now }
{
    if begins_with_plus(digits) {
        return None;
    }
    u64::from_str_radix(digits, base).ok()
}

fn has_leading_zero(word: &str) -> bool
    ensures { result ≡ has_leading_zero word.now }
{
    matches!(word.as_bytes(), [b'0', _, ..])
}

/// The number that a word is.
pub fn number(word: &str) -> Option<u64>
    ensures { result ≡ number_of_word word.now }
{
    if let Some(digits) = word.strip_prefix("0x") {
        return numeral(16, digits);
    }
    if has_leading_zero(word) {
        return None;
    }
    numeral(10, word)
}
