//! Instructions by what they take.

ghost use Rattle.std.specs.Prelude.{◌≡◌, List};
ghost use Rattle.jz_tree.specs.Span.{Span};
ghost use Rattle.x64_insn.specs.Size.{Size};
ghost use Rattle.jz_tree.specs.declared.expr.Expr.{Expr};
ghost use Rattle.jz_meaning.specs.States.{State};
ghost use Rattle.jz_meaning.specs.Intrinsics as intrinsics;
ghost use Rattle.x64_insn.specs.declared.types.FlagVal.{FlagVal};
ghost use Rattle.jz_run_instruct.specs.InnerRows.{shift_flags, row_results, flags_set_by};

use jz_tree::{Intrinsic, Span};
use x64_insn::{Alu, One, Shift, Size};

/// Which of OF, CF, SF, PF, ZF an instruction sets.
#[derive(Clone, Copy)]
pub(crate) enum Sets {
    Nothing,
    All,
    FirstTwo,
    AllButCarry,
}

/// An instruction on one word.
#[derive(Clone, Copy)]
pub(crate) enum OneWord {
    Alu(Sets, One),
    /// The bytes in the other order.
    Swapped,
    Same,
}

/// An instruction on two words.
#[derive(Clone, Copy)]
pub(crate) enum TwoWords {
    Alu(Alu),
    /// Flags alone.
    Compare(Alu),
    /// The low word of the signed product.
    LowProduct,
    /// Both words of the unsigned product.
    Product,
}

/// An operation at words of a size, and where the instruction stands.
#[derive(Clone, Copy)]
pub(crate) struct SizedOp {
    pub(crate) op: Alu,
    pub(crate) span: Span,
    pub(crate) size: Size,
}

/// An instruction by what it takes.
#[derive(Clone, Copy)]
pub(crate) enum Row {
    One(OneWord),
    /// An address, which is a word of 64 bits.
    Address,
    Two(TwoWords),
    /// Two words and a flag.
    Carry(Alu),
    /// A word and a count.
    Count(Shift),
    Division,
    Condition,
}

/// The flags that a shift or a rotation sets.
pub(crate) fn set_by_shift(kind: Shift) -> Sets
    ensures { (flags : List FlagVal) → flags_set_by result flags ≡ shift_flags kind flags }
{
    match kind {
        Shift::Rol | Shift::Ror => Sets::FirstTwo,
        Shift::Shl | Shift::Shr | Shift::Sar => Sets::All,
    }
}

/// What an instruction takes.
pub(crate) fn row_of(name: Intrinsic) -> Row
    ensures { (at : Span) (z : Size) (es : List Expr) (s : State) →
        intrinsics.intrinsic_results name at z es s ≡ row_results result at z es s }
{
    match name {
        Intrinsic::Add => Row::Two(TwoWords::Alu(Alu::Add)),
        Intrinsic::Sub => Row::Two(TwoWords::Alu(Alu::Sub)),
        Intrinsic::And => Row::Two(TwoWords::Alu(Alu::And)),
        Intrinsic::Or => Row::Two(TwoWords::Alu(Alu::Or)),
        Intrinsic::Xor => Row::Two(TwoWords::Alu(Alu::Xor)),
        Intrinsic::Adc => Row::Carry(Alu::Adc),
        Intrinsic::Sbb => Row::Carry(Alu::Sbb),
        Intrinsic::Neg => Row::One(OneWord::Alu(Sets::All, One::Neg)),
        Intrinsic::Inc => Row::One(OneWord::Alu(Sets::AllButCarry, One::Inc)),
        Intrinsic::Dec => Row::One(OneWord::Alu(Sets::AllButCarry, One::Dec)),
        Intrinsic::Not => Row::One(OneWord::Alu(Sets::Nothing, One::Not)),
        Intrinsic::Bswap => Row::One(OneWord::Swapped),
        Intrinsic::Lea => Row::Address,
        Intrinsic::Cmp => Row::Two(TwoWords::Compare(Alu::Cmp)),
        Intrinsic::Test => Row::Two(TwoWords::Compare(Alu::Test)),
        Intrinsic::Shl => Row::Count(Shift::Shl),
        Intrinsic::Shr => Row::Count(Shift::Shr),
        Intrinsic::Sar => Row::Count(Shift::Sar),
        Intrinsic::Rol => Row::Count(Shift::Rol),
        Intrinsic::Ror => Row::Count(Shift::Ror),
        Intrinsic::Imul => Row::Two(TwoWords::LowProduct),
        Intrinsic::Mul => Row::Two(TwoWords::Product),
        Intrinsic::Div => Row::Division,
        Intrinsic::Setcc => Row::Condition,
    }
}
