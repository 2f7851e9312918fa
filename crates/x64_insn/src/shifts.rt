//! Shifts and rotations of words, and the status flags that they leave.

ghost use Rattle.std.specs.Prelude.{◌≡◌, ◌<◌, slice_set};
ghost use Rattle.jz_words.specs.Sizes.{modulus};
ghost use Rattle.x64_insn.specs.Shifts.{masked, shifted, highest, differ, shift_carry, overflow_by_one, shift_overflow, shift_flags, shift_answer};
ghost use Rattle.x64_insn.specs.declared.types.Shift.TheVariants as shift;

use crate::answer::{Answer, flag, flags_of};
use crate::types::{FlagVal, Shift};
use jz_words::{Size, Word, has_bit, rol, ror, sar, shl, shr};

/// The bits of a count that a shift regards.
pub(crate) fn masked(size: Size, count: u32) -> u32
    ensures value { result ≡ masked size count }
    ensures below { result < 64 }
{
    match size {
        Size::S64 => count % 64,
        Size::S8 | Size::S16 | Size::S32 => count % 32,
    }
}

/// The word shifted or rotated.
fn shifted(kind: Shift, a: Word, count: u32) -> Word
    requires { count < 64 }
    ensures size { result.size ≡ a.size }
    ensures bits { result.bits ≡ shifted kind a.size a.bits count }
{
    match kind {
        Shift::Rol => rol(a, count),
        Shift::Ror => ror(a, count),
        Shift::Shl => shl(a, count),
        Shift::Shr => shr(a, count),
        Shift::Sar => sar(a, count),
    }
}

fn highest(a: Word) -> bool
    ensures { result ≡ highest a.size a.bits }
{
    has_bit(a, a.size().bits() - 1)
}

fn differ(a: bool, b: bool) -> bool
    ensures { result ≡ differ a b }
{
    a != b
}

/// The last bit that SHL shifts out, where the word has so many.
fn left_carry(a: Word, count: u32) -> FlagVal
    requires some { 0 < count }
    requires below { count < 64 }
    ensures { result ≡ shift_carry shift.Shl a.size a.bits count }
{
    if a.size().bits() <= count {
        return FlagVal::Undefined;
    }
    flag(has_bit(a, a.size().bits() - count))
}

/// The last bit that SHR shifts out, where the word has so many.
fn right_carry(a: Word, count: u32) -> FlagVal
    requires some { 0 < count }
    requires below { count < 64 }
    ensures { result ≡ shift_carry shift.Shr a.size a.bits count }
{
    if a.size().bits() <= count {
        return FlagVal::Undefined;
    }
    flag(has_bit(a, count - 1))
}

/// The last bit that SAR shifts out, which is the sign where the count is past the size.
fn signed_carry(a: Word, count: u32) -> FlagVal
    requires some { 0 < count }
    requires below { count < 64 }
    ensures { result ≡ shift_carry shift.Sar a.size a.bits count }
{
    flag(has_bit(a, (count - 1).min(a.size().bits() - 1)))
}

/// CF for a count that is not 0.
fn shift_carry(kind: Shift, a: Word, count: u32) -> FlagVal
    requires some { 0 < count }
    requires below { count < 64 }
    ensures { result ≡ shift_carry kind a.size a.bits count }
{
    match kind {
        Shift::Rol => flag(has_bit(rol(a, count), 0)),
        Shift::Ror => flag(highest(ror(a, count))),
        Shift::Shl => left_carry(a, count),
        Shift::Shr => right_carry(a, count),
        Shift::Sar => signed_carry(a, count),
    }
}

/// The two bits at the end where ROR by 1 puts its bit in.
fn right_turn_overflow(a: Word) -> bool
    ensures { result ≡ overflow_by_one shift.Ror a.size a.bits }
{
    let turned = ror(a, 1);
    differ(highest(turned), has_bit(turned, turned.size().bits() - 2))
}

/// OF for the count 1.
fn overflow_by_one(kind: Shift, a: Word) -> bool
    ensures { result ≡ overflow_by_one kind a.size a.bits }
{
    match kind {
        Shift::Rol => differ(highest(rol(a, 1)), has_bit(rol(a, 1), 0)),
        Shift::Ror => right_turn_overflow(a),
        Shift::Shl => differ(highest(shl(a, 1)), highest(a)),
        Shift::Shr => highest(a),
        Shift::Sar => false,
    }
}

/// OF, which other counts leave undefined.
fn shift_overflow(kind: Shift, a: Word, count: u32) -> FlagVal
    ensures { result ≡ shift_overflow kind a.size a.bits count }
{
    if count != 1 {
        return FlagVal::Undefined;
    }
    flag(overflow_by_one(kind, a))
}

/// These flags with another OF and CF.
fn with_both(overflow: FlagVal, carry: FlagVal, old: [FlagVal; 5]) -> [FlagVal; 5]
    ensures { result ≡ slice_set (slice_set old 0 overflow) 1 carry }
{
    let mut flags = old;
    flags[0] = overflow;
    flags[1] = carry;
    flags
}

/// The flags for a count that is not 0: rotations keep SF, PF and ZF.
#[tactic(auto, unfolding(crate::specs::Answers::flags_of))]
fn shift_flags(kind: Shift, a: Word, count: u32, old: [FlagVal; 5]) -> [FlagVal; 5]
    requires some { 0 < count }
    requires below { count < 64 }
    ensures { result ≡ shift_flags kind a.size a.bits count old }
{
    let overflow = shift_overflow(kind, a, count);
    let carry = shift_carry(kind, a, count);
    match kind {
        Shift::Rol | Shift::Ror => with_both(overflow, carry, old),
        Shift::Shl | Shift::Shr | Shift::Sar => {
            let flags = flags_of(false, false, shifted(kind, a, count));
            with_both(overflow, carry, flags)
        }
    }
}

/// What a shift by a masked count leaves: the count 0 changes nothing.
#[tactic(auto, unfolding(crate::specs::Shifts::shift_answer))]
pub fn shift_answer(kind: Shift, a: Word, count: u32, old: [FlagVal; 5]) -> Answer
    requires { count < 64 }
    ensures value { result ≡ shift_answer kind a.size a.bits count old }
    ensures fits { result.value < modulus a.size }
{
    if count == 0 {
        return Answer {
            value: a.bits(),
            flags: old,
        };
    }
    Answer {
        value: shifted(kind, a, count).bits(),
        flags: shift_flags(kind, a, count, old),
    }
}
