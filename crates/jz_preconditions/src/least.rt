//! The least value that a range and an alignment permit.

ghost use Rattle.std.specs.Prelude.{◌≡◌, ◌≤◌, ◌^◌};
ghost use Rattle.jz_preconditions.specs.Bounds.{rounded, low_of, is_below, fitting};

/// The numbers from one to another, both included.
#[derive(Clone, Copy)]
pub struct Interval {
    pub low: u64,
    pub high: u64,
}

/// The least multiple of 1, 2, 4 or 8 that is no less than the number.
#[tactic(auto, unfolding(crate::specs::Bounds::rounded))]
fn rounded(multiple: u64, number: u64) -> u128
    ensures { result ≡ rounded multiple number }
{
    let number = number as u128;
    if multiple == 2 {
        (number + 1) / 2 * 2
    } else if multiple == 4 {
        (number + 3) / 4 * 4
    } else if multiple == 8 {
        (number + 7) / 8 * 8
    } else {
        number
    }
}

fn low_of(range: Option<Interval>) -> u64
    ensures { result ≡ low_of range }
{
    match range {
        None => 0,
        Some(range) => range.low,
    }
}

fn is_below(range: Option<Interval>, value: u128) -> bool
    ensures { result ≡ is_below range value }
{
    match range {
        None => true,
        Some(range) => value <= range.high as u128,
    }
}

/// The least multiple in a range that is below a count.
pub(crate) fn fitting(count: u128, range: Option<Interval>, multiple: u64) -> Option<u64>
    requires { count ≤ 2 ^ 64 }
    ensures { result ≡ fitting count range (rounded multiple (low_of range)) }
{
    let value = rounded(multiple, low_of(range));
    if value < count && is_below(range, value) {
        Some(value as u64)
    } else {
        None
    }
}
