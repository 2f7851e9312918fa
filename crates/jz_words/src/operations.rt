//! Operations on words: sums, differences, products, shifts and rotations.

ghost use Rattle.std.specs.Prelude.{◌≡◌, ◌<◌, ◌+◌, ◌*◌, ◌%◌, ℕ, bit_and, bit_or, bit_xor};
ghost use Rattle.std.specs.Int.{bit_at};
ghost use Rattle.jz_words.specs.Sizes.{bits_of};
ghost use Rattle.jz_words.specs.Words.{sum_of, carry_of, difference_of, borrow_of, has_even_ones, shl_of, shr_of, sar_of, rol_of, ror_of, residue, has_bit, signed_product, swapped_of};

use crate::size::Size;
use crate::word::Word;

/// The sum of two words of one size and a carry, and whether it reaches 2 to the size.
pub fn add_carry(a: Word, b: Word, c: bool) -> (Word, bool)
    requires { a.size ≡ b.size }
    ensures size { result.0.size ≡ a.size }
    ensures sum { result.0.bits ≡ sum_of a.size a.bits b.bits c }
    ensures carry { result.1 ≡ carry_of a.size a.bits b.bits c }
{
    let sum = a.bits() as u128 + b.bits() as u128 + c as u128;
    (Word::reduced(a.size(), sum), a.size().modulus() <= sum)
}

/// The difference of two words of one size and a borrow, and whether it is below 0.
pub fn sub_borrow(a: Word, b: Word, c: bool) -> (Word, bool)
    requires { a.size ≡ b.size }
    ensures size { result.0.size ≡ a.size }
    ensures difference { result.0.bits ≡ difference_of a.size a.bits b.bits c }
    ensures borrow { result.1 ≡ borrow_of a.bits b.bits c }
{
    let minuend = a.bits() as u128;
    let subtrahend = b.bits() as u128 + c as u128;
    let difference = minuend + a.size().modulus() - subtrahend;
    (Word::reduced(a.size(), difference), minuend < subtrahend)
}

/// The whole product of two words of one size, unsigned.
pub fn mul_wide(a: Word, b: Word) -> u128
    requires { a.size ≡ b.size }
    ensures { result ≡ a.bits * b.bits }
{
    a.bits() as u128 * b.bits() as u128
}

/// The whole product of two words of one size as signed numbers.
pub fn mul_signed(a: Word, b: Word) -> i128
    requires { a.size ≡ b.size }
    ensures { result ≡ signed_product a.size a.bits b.bits }
{
    a.signed() * b.signed()
}

/// The bits that both words have.
#[tactic(auto, using(std::proofs::lemmas::Nat::and_le_l))]
pub fn and(a: Word, b: Word) -> Word
    requires { a.size ≡ b.size }
    ensures size { result.size ≡ a.size }
    ensures bits { result.bits ≡ bit_and a.bits b.bits }
{
    Word::new(a.size(), a.bits() & b.bits())
}

/// The bits that one of the words has.
#[tactic(auto, using(std::proofs::lemmas::Nat::or_lt))]
pub fn or(a: Word, b: Word) -> Word
    requires { a.size ≡ b.size }
    ensures size { result.size ≡ a.size }
    ensures bits { result.bits ≡ bit_or a.bits b.bits }
{
    Word::new(a.size(), a.bits() | b.bits())
}

/// The bits in which the words differ.
#[tactic(auto, using(std::proofs::lemmas::Nat::xor_lt))]
pub fn xor(a: Word, b: Word) -> Word
    requires { a.size ≡ b.size }
    ensures size { result.size ≡ a.size }
    ensures bits { result.bits ≡ bit_xor a.bits b.bits }
{
    Word::new(a.size(), a.bits() ^ b.bits())
}

/// Whether a bit is set. Bit 0 is the lowest.
pub fn has_bit(a: Word, bit: u32) -> bool
    requires { bit < 64 }
    ensures { result ≡ has_bit a.bits bit }
{
    a.bits() >> bit & 1 == 1
}

/// The bytes in the other order.
pub fn swap_bytes(a: Word) -> Word
    ensures size { result.size ≡ a.size }
    ensures bits { result.bits ≡ swapped_of a.size a.bits }
{
    let bits = match a.size() {
        Size::S8 => a.bits(),
        Size::S16 => u64::from((a.bits() as u16).swap_bytes()),
        Size::S32 => u64::from((a.bits() as u32).swap_bytes()),
        Size::S64 => a.bits().swap_bytes(),
    };
    Word::new(a.size(), bits)
}

/// Whether the lowest byte has an even number of ones.
pub fn parity(a: Word) -> bool
    ensures { result ≡ has_even_ones a.bits }
{
    (a.bits() % 256).count_ones() % 2 == 0
}

/// The word times 2 to the count, modulo 2 to the size.
pub fn shl(a: Word, count: u32) -> Word
    requires { count < 64 }
    ensures size { result.size ≡ a.size }
    ensures bits { result.bits ≡ shl_of a.size a.bits count }
{
    Word::reduced(a.size(), (a.bits() as u128) << count)
}

/// The word divided by 2 to the count, rounded down.
pub fn shr(a: Word, count: u32) -> Word
    requires { count < 64 }
    ensures size { result.size ≡ a.size }
    ensures bits { result.bits ≡ shr_of a.bits count }
{
    Word::new(a.size(), a.bits() >> count)
}

/// The word that a signed number stands for, modulo 2 to the size.
pub fn residue(size: Size, value: i128) -> Word
    ensures size { result.size ≡ size }
    ensures bits { result.bits ≡ residue size value }
{
    Word::reduced(size, value.rem_euclid(size.modulus() as i128) as u128)
}

/// The word as a signed number divided by 2 to the count, rounded down, modulo 2 to the size.
pub fn sar(a: Word, count: u32) -> Word
    requires { count < 64 }
    ensures size { result.size ≡ a.size }
    ensures bits { result.bits ≡ sar_of a.size a.bits count }
{
    residue(a.size(), a.signed().div_euclid(1i128 << count))
}

/// The word rotated to the left. The count is taken modulo the size.
pub fn rol(a: Word, count: u32) -> Word
    requires { count < 64 }
    ensures size { result.size ≡ a.size }
    ensures bits { result.bits ≡ rol_of a.size a.bits count }
    ensures moved { (i : ℕ) → i < bits_of a.size
        → bit_at result.bits ((i + count) % bits_of a.size) ≡ bit_at a.bits i }
{
    let width = a.size().bits();
    let turns = count % width;
    let bits = a.bits() as u128;
    Word::reduced(a.size(), (bits << turns) + (bits >> (width - turns)))
}

/// The word rotated to the right. The count is taken modulo the size.
#[tactic(auto, using(crate::proofs::Rotations::shifted_sum_fits))]
pub fn ror(a: Word, count: u32) -> Word
    requires { count < 64 }
    ensures size { result.size ≡ a.size }
    ensures bits { result.bits ≡ ror_of a.size a.bits count }
    ensures moved { (i : ℕ) → i < bits_of a.size
        → bit_at result.bits i ≡ bit_at a.bits ((i + count) % bits_of a.size) }
{
    let width = a.size().bits();
    let turns = count % width;
    let bits = a.bits() as u128;
    Word::reduced(a.size(), (bits << (width - turns)) + (bits >> turns))
}
