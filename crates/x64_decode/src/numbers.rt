//! Bytes as numbers.

ghost use Rattle.std.specs.Prelude.{◌≡◌, ◌<◌, ◌≤◌, ◌^◌, length};
ghost use Rattle.x64_insn.specs.Encoding.{signed_from, signed_of, unsigned_of};

/// The number of bytes, the lowest first.
fn unsigned_of(bytes: &[u8]) -> u64
    requires { length bytes.now ≤ 8 }
    ensures value { result ≡ unsigned_of bytes.now }
    ensures fits { result < 256 ^ length bytes.now }
{
    match bytes {
        [] => 0,
        [byte, rest @ ..] => u64::from(*byte) + 256 * unsigned_of(rest),
    }
}

/// How many numbers so many bytes have.
fn numbers_of(count: usize) -> u128
    requires { count ≤ 8 }
    ensures value { result ≡ 256 ^ count }
    ensures fits { result ≤ 2 ^ 64 }
    ensures small { count ≤ 4 → result ≤ 2 ^ 32 }
{
    match count {
        0 => 1,
        1 => 1 << 8,
        2 => 1 << 16,
        3 => 1 << 24,
        4 => 1 << 32,
        5 => 1 << 40,
        6 => 1 << 48,
        7 => 1 << 56,
        _ => 1 << 64,
    }
}

/// A number as a signed one: the upper half stands for the negative numbers.
#[tactic(auto, unfolding(x64_insn::specs::Encoding::signed_from))]
fn signed_from(number: u64, all: u128) -> i64
    requires below { number < all }
    requires fits { all ≤ 2 ^ 64 }
    ensures { result ≡ signed_from number all }
{
    if 2 * u128::from(number) < all {
        number as i64
    } else {
        (i128::from(number) - all as i128) as i64
    }
}

/// The same for numbers of up to 32 bits.
#[tactic(auto, unfolding(x64_insn::specs::Encoding::signed_from))]
fn small_signed_from(number: u64, all: u128) -> i32
    requires below { number < all }
    requires fits { all ≤ 2 ^ 32 }
    ensures { result ≡ signed_from number all }
{
    if 2 * u128::from(number) < all {
        number as i32
    } else {
        (i128::from(number) - all as i128) as i32
    }
}

/// The signed number of up to eight bytes, the lowest first. No bytes are 0.
pub fn signed_of(bytes: &[u8]) -> i64
    requires { length bytes.now ≤ 8 }
    ensures { result ≡ signed_of bytes.now }
{
    signed_from(unsigned_of(bytes), numbers_of(bytes.len()))
}

/// The signed number of up to four bytes.
pub fn small_signed_of(bytes: &[u8]) -> i32
    requires { length bytes.now ≤ 4 }
    ensures { result ≡ signed_of bytes.now }
{
    small_signed_from(unsigned_of(bytes), numbers_of(bytes.len()))
}

/// The number of at most one byte.
pub fn byte_of(bytes: &[u8]) -> u8
    requires { length bytes.now ≤ 1 }
    ensures { result ≡ unsigned_of bytes.now }
{
    match bytes {
        [] => 0,
        [byte, ..] => *byte,
    }
}
