//! What an intrinsic makes of its results and operands.

ghost use Rattle.std.specs.Prelude.{◌≡◌};
ghost use Rattle.jz_one_flag_row.specs.Forms as forms;
ghost use Rattle.jz_instructions.specs.InnerRows.{form_in, lead_in};

use jz_tree::Intrinsic;
use x64_insn::{Alu, One, Shift};

/// The rows behind the flags. An operation whose operands may be swapped has `true`.
#[derive(Clone, Copy)]
pub(crate) enum Form {
    Two(Alu, bool),
    /// With a flag that is read.
    Carried(Alu, bool),
    One(One),
    Swap,
    Address,
    Compare(Alu),
    Shift(Shift),
    Times,
    Wide,
    Divide,
    Byte,
}

/// The flags that lead the results, in the order OF, CF, SF, PF, ZF.
#[derive(Clone, Copy)]
pub(crate) enum Lead {
    Nothing,
    /// OF and CF.
    Two,
    /// All but CF.
    Four,
    Five,
}

pub(crate) fn form_of(name: Intrinsic) -> Form
    ensures { form_in result ≡ forms.form_of name }
{
    match name {
        Intrinsic::Add => Form::Two(Alu::Add, true),
        Intrinsic::Sub => Form::Two(Alu::Sub, false),
        Intrinsic::And => Form::Two(Alu::And, true),
        Intrinsic::Or => Form::Two(Alu::Or, true),
        Intrinsic::Xor => Form::Two(Alu::Xor, true),
        Intrinsic::Adc => Form::Carried(Alu::Adc, true),
        Intrinsic::Sbb => Form::Carried(Alu::Sbb, false),
        Intrinsic::Neg => Form::One(One::Neg),
        Intrinsic::Inc => Form::One(One::Inc),
        Intrinsic::Dec => Form::One(One::Dec),
        Intrinsic::Not => Form::One(One::Not),
        Intrinsic::Bswap => Form::Swap,
        Intrinsic::Lea => Form::Address,
        Intrinsic::Cmp => Form::Compare(Alu::Cmp),
        Intrinsic::Test => Form::Compare(Alu::Test),
        Intrinsic::Shl => Form::Shift(Shift::Shl),
        Intrinsic::Shr => Form::Shift(Shift::Shr),
        Intrinsic::Sar => Form::Shift(Shift::Sar),
        Intrinsic::Rol => Form::Shift(Shift::Rol),
        Intrinsic::Ror => Form::Shift(Shift::Ror),
        Intrinsic::Imul => Form::Times,
        Intrinsic::Mul => Form::Wide,
        Intrinsic::Div => Form::Divide,
        Intrinsic::Setcc => Form::Byte,
    }
}

pub(crate) fn lead_of(name: Intrinsic) -> Lead
    ensures { lead_in result ≡ forms.lead_of name }
{
    match name {
        Intrinsic::Inc => Lead::Four,
        Intrinsic::Dec => Lead::Four,
        Intrinsic::Not => Lead::Nothing,
        Intrinsic::Bswap => Lead::Nothing,
        Intrinsic::Lea => Lead::Nothing,
        Intrinsic::Rol => Lead::Two,
        Intrinsic::Ror => Lead::Two,
        Intrinsic::Setcc => Lead::Nothing,
        Intrinsic::Add => Lead::Five,
        Intrinsic::Sub => Lead::Five,
        Intrinsic::And => Lead::Five,
        Intrinsic::Or => Lead::Five,
        Intrinsic::Xor => Lead::Five,
        Intrinsic::Adc => Lead::Five,
        Intrinsic::Sbb => Lead::Five,
        Intrinsic::Neg => Lead::Five,
        Intrinsic::Cmp => Lead::Five,
        Intrinsic::Test => Lead::Five,
        Intrinsic::Shl => Lead::Five,
        Intrinsic::Shr => Lead::Five,
        Intrinsic::Sar => Lead::Five,
        Intrinsic::Imul => Lead::Five,
        Intrinsic::Mul => Lead::Five,
        Intrinsic::Div => Lead::Five,
    }
}
