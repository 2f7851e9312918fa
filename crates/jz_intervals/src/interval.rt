//! Intervals, and the operations on them.

ghost use Rattle.std.specs.Prelude.{◌≡◌, ◌/◌, ◌^◌, min};
ghost use Rattle.jz_intervals.specs.Intervals as intervals;

use x64_insn::Size;

/// The numbers from `lo` to `hi`, both counted. Where facts contradict each other, so that no run
/// comes there, `lo` may be above `hi`.
#[derive(Clone, Copy, PartialEq, Eq)]
pub struct Interval {
    pub lo: u64,
    pub hi: u64,
}

/// The greatest word of a size.
pub fn greatest_word(size: Size) -> u64
    ensures { result ≡ intervals.greatest_word size }
{
    match size {
        Size::S8 => 0xff,
        Size::S16 => 0xffff,
        Size::S32 => 0xffff_ffff,
        Size::S64 => 0xffff_ffff_ffff_ffff,
    }
}

/// The lower of two.
pub fn lower(a: u64, b: u64) -> u64
    ensures { result ≡ min a b }
{
    if a <= b { a } else { b }
}

/// A word divided by 2 to the count.
fn shifted(a: u64, count: u128) -> u64
    ensures { result ≡ a / 2 ^ count }
{
    if count >= 64 {
        return 0;
    }
    a >> (count as u32)
}

impl Interval {
    /// Each word of a size.
    pub fn each(size: Size) -> Interval
        ensures { result ≡ intervals.each_word size }
    {
        Interval {
            lo: 0,
            hi: greatest_word(size),
        }
    }

    /// One number alone.
    pub fn only(value: u64) -> Interval
        ensures { result ≡ intervals.only value }
    {
        Interval {
            lo: value,
            hi: value,
        }
    }

    /// Of `a + b`.
    pub fn sum(self, other: Interval, size: Size) -> Interval
        ensures { result ≡ intervals.sum size self other }
    {
        let most = greatest_word(size);
        match self.hi.checked_add(other.hi) {
            None => Interval::each(size),
            Some(hi) => {
                if hi > most {
                    return Interval::each(size);
                }
                let lo = lower(self.lo.saturating_add(other.lo), most);
                Interval { lo, hi }
            }
        }
    }

    /// Of `a - b`.
    pub fn difference(self, other: Interval, size: Size) -> Interval
        ensures { result ≡ intervals.difference size self other }
    {
        if other.hi > self.lo {
            return Interval::each(size);
        }
        Interval {
            lo: self.lo - other.hi,
            hi: self.hi.saturating_sub(other.lo),
        }
    }

    /// Of `a * b`.
    pub fn product(self, other: Interval, size: Size) -> Interval
        ensures { result ≡ intervals.product size self other }
    {
        let most = greatest_word(size);
        match self.hi.checked_mul(other.hi) {
            None => Interval::each(size),
            Some(hi) => {
                if hi > most {
                    return Interval::each(size);
                }
                let lo = lower(self.lo.saturating_mul(other.lo), most);
                Interval { lo, hi }
            }
        }
    }

    /// Of `a & b`.
    pub fn mask(self, other: Interval) -> Interval
        ensures { result ≡ intervals.mask self other }
    {
        Interval {
            lo: 0,
            hi: lower(self.hi, other.hi),
        }
    }

    /// Of `a / b`, unsigned.
    pub fn quotient(self, other: Interval, size: Size) -> Interval
        ensures { result ≡ intervals.quotient size self other }
    {
        if other.lo == 0 {
            return Interval::each(size);
        }
        let most = if other.hi == 0 { 1 } else { other.hi };
        Interval {
            lo: self.lo / most,
            hi: self.hi / other.lo,
        }
    }

    /// Of a remainder by a divisor that lies in this one, unsigned.
    pub fn remainder(self, size: Size) -> Interval
        ensures { result ≡ intervals.remainder size self }
    {
        if self.lo == 0 {
            return Interval::each(size);
        }
        Interval {
            lo: 0,
            hi: self.hi.saturating_sub(1),
        }
    }

    /// Of `a >> count`, unsigned.
    pub fn shifted_by(self, count: u128) -> Interval
        ensures { result ≡ intervals.shifted_by count self }
    {
        Interval {
            lo: shifted(self.lo, count),
            hi: shifted(self.hi, count),
        }
    }

    /// As a word of a size, where what lies in it is a word of another one.
    pub fn fitted(self, size: Size) -> Interval
        ensures { result ≡ intervals.fitted size self }
    {
        let most = greatest_word(size);
        if self.hi > most {
            return Interval::each(size);
        }
        Interval {
            lo: lower(self.lo, most),
            hi: self.hi,
        }
    }
}
