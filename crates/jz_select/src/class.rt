//! What an operand is, in the words of the table.

ghost use Rattle.std.specs.Prelude.{◌≡◌};
ghost use Rattle.jz_select.specs.Sums.{joined_sum, capped_count as capped_of};
ghost use Rattle.jz_select.specs.Sums.{is_address as is_address_of};
ghost use Rattle.jz_select.specs.Sums.{is_sum as is_sum_of, is_index as is_index_of};

use jz_words::Size;

/// A mask of a count: what keeps five bits, or what keeps six.
#[derive(Clone, Copy)]
pub enum Mask {
    Five,
    Six,
}

/// What an operand or a result is.
#[derive(Clone, Copy)]
pub enum Class {
    /// A word in a register.
    Reg(Size),
    /// A word of the stack, a cell of a stack array, or an access, whose size may be that of the
    /// other side.
    Mem(Option<Size>),
    Inline,
    /// A bool variable.
    Flag,
    /// A byte in a register with a mask.
    Masked(Mask),
    /// `_`.
    Skip,
    Other,
}

/// How an operand and a destination meet.
#[derive(Clone, Copy)]
pub enum Meeting {
    /// They are one place.
    Same,
    /// The destination stands in the operand.
    Within,
    /// The destination does not stand in the operand.
    Apart,
}

/// An operand beside a destination.
#[derive(Clone, Copy)]
pub struct Operand {
    pub class: Class,
    pub meeting: Meeting,
}

/// The terms of a sum: registers alone, registers times a scale (three stands for more), and
/// whether each other one is inline.
#[derive(Clone, Copy)]
pub struct Sum {
    pub plain: u8,
    pub scaled: u8,
    pub good: bool,
}

fn capped(a: u8, b: u8) -> u8
    ensures { result ≡ capped_of a b }
{
    let n = a as u16 + b as u16;
    if n < 3 { n as u8 } else { 3 }
}

impl Sum {
    ghost use Rattle.jz_select.specs.declared.class.Sum.{Sum};

    #[tactic(auto, using(crate::proofs::Joins::joins))]
    pub fn join(self, other: Sum) -> Sum
        ensures is { result ≡ joined_sum self other }
        ensures before { (rest : Sum) →
            joined_sum result rest ≡ joined_sum self (joined_sum other rest) }
    {
        Sum {
            plain: capped(self.plain, other.plain),
            scaled: capped(self.scaled, other.scaled),
            good: self.good && other.good,
        }
    }

    /// A base, at most one index, and inline terms.
    pub fn is_address(self) -> bool
        ensures { result ≡ is_address_of self }
    {
        self.is_sum() && 1 <= self.plain
    }

    /// The same, also without a base.
    pub fn is_sum(self) -> bool
        ensures { result ≡ is_sum_of self }
    {
        self.good && self.scaled <= 1 && self.plain as u16 + self.scaled as u16 <= 2
    }

    /// At most one register, and inline terms.
    pub fn is_index(self) -> bool
        ensures { result ≡ is_index_of self }
    {
        self.good && self.plain <= 1 && self.scaled == 0
    }
}
