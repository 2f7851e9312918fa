//! The row of an intrinsic.

ghost use Rattle.std.specs.Prelude.{◌≡◌};
ghost use Rattle.jz_flag_rows.specs.Results as results;
ghost use Rattle.jz_one_flag_row.specs.Forms.{HasForm, IsFormed};
ghost use Rattle.jz_one_flag_row.specs.Forms as forms;
ghost use Rattle.jz_instructions.specs.TableHomes.{homes_of};
ghost use Rattle.jz_instructions.specs.Refusals.{FindsOr};
ghost use Rattle.jz_pinned_rows.specs.Rows.{FindsActs, FindsRow};
ghost use Rattle.jz_instructions.specs.Rows.{IsInstructionRow, NeverInstruction};
ghost use Rattle.jz_instructions.specs.InnerRows.{form_in, IsSized, NeverSized};
ghost use Rattle.jz_instructions.specs.InnerRows.{IsByteOf, NeverByteOf};

use crate::addressing::lea_row;
use crate::binary::{carried_row, compare_row, two_row};
use crate::counting::count_row;
use crate::forms::{Form, form_of, lead_of};
use crate::leading::led;
use crate::products::{division_row, times_row};
use crate::shaping::{none_two, one_one, one_three, one_two, two_three, two_two};
use crate::testing::byte_row;
use crate::unary::{one_row, swap_row};
use jz_meaning::left_span;
use jz_operands::Homes;
use jz_pinned_rows::{Acts, PinnedRow, can_encode_all, product_row};
use jz_rows::Target;
use jz_run_instruct::intrinsic_size;
use jz_tree::{Expr, Instance, Intrinsic, Lval, Seq, Size, Span, Text, spelled};
use x64_insn::{Alu, One, Shift};

fn two_at(
    homes: &Homes,
    size: Size,
    alu: Alu,
    swaps: bool,
    to: &[Lval],
    args: &[Expr],
) -> Option<Acts>
    ensures { let home = homes_of homes.now in
        FindsActs (HasForm home size (forms.f_two alu swaps) to.now args.now) result }
{
    let parts = one_two(to, args)?;
    let target = Target {
        homes,
        size,
        to: parts.0,
    };
    two_row(&target, alu, swaps, None, parts.1, parts.2)
}

fn carried_at(
    homes: &Homes,
    size: Size,
    alu: Alu,
    swaps: bool,
    to: &[Lval],
    args: &[Expr],
) -> Option<Acts>
    ensures { let home = homes_of homes.now in
        FindsActs (HasForm home size (forms.f_carried alu swaps) to.now args.now) result }
{
    let parts = one_three(to, args)?;
    let target = Target {
        homes,
        size,
        to: parts.0,
    };
    carried_row(&target, alu, swaps, parts.1, parts.2, parts.3)
}

fn one_at(homes: &Homes, size: Size, kind: One, to: &[Lval], args: &[Expr]) -> Option<Acts>
    ensures { let home = homes_of homes.now in
        FindsActs (HasForm home size (forms.f_one kind) to.now args.now) result }
{
    let parts = one_one(to, args)?;
    let target = Target {
        homes,
        size,
        to: parts.0,
    };
    one_row(&target, kind, parts.1)
}

fn swap_at(homes: &Homes, size: Size, to: &[Lval], args: &[Expr]) -> Option<Acts>
    ensures { let home = homes_of homes.now in
        FindsActs (HasForm home size forms.f_swap to.now args.now) result }
{
    let parts = one_one(to, args)?;
    let target = Target {
        homes,
        size,
        to: parts.0,
    };
    swap_row(&target, parts.1)
}

/// LEA, whose words have 64 bits.
fn lea_at(homes: &Homes, size: Size, to: &[Lval], args: &[Expr]) -> Option<Acts>
    ensures { let home = homes_of homes.now in
        FindsActs (HasForm home size forms.f_address to.now args.now) result }
{
    let parts = one_one(to, args)?;
    let target = Target {
        homes,
        size: Size::S64,
        to: parts.0,
    };
    lea_row(&target, parts.1)
}

fn compare_at(homes: &Homes, size: Size, alu: Alu, to: &[Lval], args: &[Expr]) -> Option<Acts>
    ensures { let home = homes_of homes.now in
        FindsActs (HasForm home size (forms.f_compare alu) to.now args.now) result }
{
    let parts = none_two(to, args)?;
    compare_row(homes, size, alu, parts.0, parts.1)
}

fn count_at(homes: &Homes, size: Size, kind: Shift, to: &[Lval], args: &[Expr]) -> Option<Acts>
    ensures { let home = homes_of homes.now in
        FindsActs (HasForm home size (forms.f_shift kind) to.now args.now) result }
{
    let parts = one_two(to, args)?;
    let target = Target {
        homes,
        size,
        to: parts.0,
    };
    count_row(&target, kind, parts.1, parts.2)
}

fn times_at(homes: &Homes, size: Size, to: &[Lval], args: &[Expr]) -> Option<Acts>
    ensures { let home = homes_of homes.now in
        FindsActs (HasForm home size forms.f_times to.now args.now) result }
{
    let parts = one_two(to, args)?;
    let target = Target {
        homes,
        size,
        to: parts.0,
    };
    times_row(&target, parts.1, parts.2)
}

fn wide_at(homes: &Homes, size: Size, to: &[Lval], args: &[Expr]) -> Option<Acts>
    ensures { let home = homes_of homes.now in
        FindsActs (HasForm home size forms.f_wide to.now args.now) result }
{
    let parts = two_two(to, args)?;
    product_row(homes, size, parts.0, parts.1, parts.2, parts.3)
}

fn divide_at(homes: &Homes, size: Size, to: &[Lval], args: &[Expr]) -> Option<Acts>
    ensures { let home = homes_of homes.now in
        FindsActs (HasForm home size forms.f_divide to.now args.now) result }
{
    let parts = two_three(to, args)?;
    division_row(homes, size, &parts)
}

/// The actions of a form, of the left sides and operands behind the flags.
fn acts_of(homes: &Homes, size: Size, form: Form, to: &[Lval], args: &[Expr]) -> Option<Acts>
    ensures { let home = homes_of homes.now in
        FindsActs (HasForm home size (form_in form) to.now args.now) result }
{
    match form {
        Form::Two(alu, swaps) => two_at(homes, size, alu, swaps, to, args),
        Form::Carried(alu, swaps) => carried_at(homes, size, alu, swaps, to, args),
        Form::One(kind) => one_at(homes, size, kind, to, args),
        Form::Swap => swap_at(homes, size, to, args),
        Form::Address => lea_at(homes, size, to, args),
        Form::Compare(alu) => compare_at(homes, size, alu, to, args),
        Form::Shift(kind) => count_at(homes, size, kind, to, args),
        Form::Times => times_at(homes, size, to, args),
        Form::Wide => wide_at(homes, size, to, args),
        Form::Divide => divide_at(homes, size, to, args),
        Form::Byte => None,
    }
}

/// The row of an intrinsic but SETcc, at this size.
fn formed_row(
    homes: &Homes,
    size: Size,
    name: Intrinsic,
    to: &[Lval],
    args: &[Expr],
) -> Option<PinnedRow>
    ensures { let home = homes_of homes.now in
        FindsRow (IsFormed home size name to.now args.now) result }
{
    let parts = led(homes, lead_of(name), to)?;
    let acts = acts_of(homes, size, form_of(name), parts.1, args)?;
    Some(PinnedRow {
        acts,
        flags: parts.0,
    })
}

/// The row of an intrinsic but SETcc, whose actions can be encoded.
fn sized_row(
    homes: &Homes,
    instance: Instance,
    to: &Seq<Lval>,
    args: &Seq<Expr>,
) -> Option<PinnedRow>
    ensures { let home = homes_of homes.now in
        FindsOr result (IsSized home instance to.now args.now)
        (NeverSized home instance to.now args.now) }
{
    let size = intrinsic_size(instance, to, args.as_slice())?;
    let row = formed_row(homes, size, instance.name, to.as_slice(), args.as_slice())?;
    if can_encode_all(row.acts) {
        Some(row)
    } else {
        None
    }
}

/// The row of SETcc.
fn set_row(homes: &Homes, to: &[Lval], args: &[Expr]) -> Option<PinnedRow>
    ensures { let home = homes_of homes.now in
        FindsOr result (IsByteOf home to.now args.now) (NeverByteOf home to.now args.now) }
{
    let parts = one_one(to, args)?;
    byte_row(homes, parts.0, parts.1)
}

/// Where a statement of an intrinsic begins; one without a left side, at its name.
pub fn begins_at(to: &Seq<Lval>, at: Span) -> Span
    ensures { result ≡ results.begins_at to.now at }
{
    match to.as_slice() {
        [] => at,
        [first, ..] => left_span(first),
    }
}

/// The row of an intrinsic by its name, in the table of flags, RAX, RDX and RCX; nothing where that
/// has none. Its operations stand where the statement begins.
pub fn instruction_row(
    homes: &Homes,
    to: &Seq<Lval>,
    name: &Text,
    args: &Seq<Expr>,
) -> Option<PinnedRow>
    ensures { let home = homes_of homes.now in
        FindsOr result (IsInstructionRow home to.now name.now args.now)
        (NeverInstruction home to.now name.now args.now) }
{
    let instance = spelled(name.as_str())?;
    match instance.name {
        Intrinsic::Setcc => set_row(homes, to.as_slice(), args.as_slice()),
        _ => sized_row(homes, instance, to, args),
    }
}
