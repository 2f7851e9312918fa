//! Operands compared.

ghost use Rattle.std.specs.Prelude.{◌≡◌, ◌++◌, ◌&&◌};
ghost use Rattle.std.specs.Option.{option_to_list};
ghost use Rattle.jz_ir.specs.Paths.{among};
ghost use Rattle.jz_operations.specs.declared.operation.Arg.TheVariants as arg;
ghost use Rattle.jz_operations.specs.Reading.{is_var, found_by, index_var, address_vars};
ghost use Rattle.jz_row_operations.specs.Table as table;

use jz_operations::{Address, Arg, Cell, Pinned};

fn same_option(a: Option<u32>, b: Option<u32>) -> bool
    ensures { result ≡ table.same_option a b }
{
    match a {
        None => b.is_none(),
        Some(x) => match b {
            None => false,
            Some(y) => x == y,
        },
    }
}

fn same_index(a: Option<(u32, u8)>, b: Option<(u32, u8)>) -> bool
    ensures { result ≡ table.same_index a b }
{
    match a {
        None => b.is_none(),
        Some((x, k)) => match b {
            None => false,
            Some((y, l)) => x == y && k == l,
        },
    }
}

fn same_address(a: Address, b: Address) -> bool
    ensures { result ≡ table.same_arg (arg.Mem a) (arg.Mem b) }
{
    same_option(a.base, b.base) && same_index(a.index, b.index) && a.disp == b.disp
}

fn same_cell(a: Cell, b: Cell) -> bool
    ensures { result ≡ table.same_arg (arg.Cell a) (arg.Cell b) }
{
    a.of == b.of && same_option(a.index, b.index) && a.offset == b.offset
}

/// Whether both are one variable, one access or one cell.
pub fn same_arg(a: Arg, b: Arg) -> bool
    ensures { result ≡ table.same_arg a b }
{
    match a {
        Arg::Var(v) => match b {
            Arg::Var(w) => v == w,
            Arg::Imm(_) => false,
            Arg::Mem(_) => false,
            Arg::Cell(_) => false,
            Arg::At(_, _) => false,
        },
        Arg::Mem(x) => match b {
            Arg::Var(_) => false,
            Arg::Imm(_) => false,
            Arg::Mem(y) => same_address(x, y),
            Arg::Cell(_) => false,
            Arg::At(_, _) => false,
        },
        Arg::Cell(x) => match b {
            Arg::Var(_) => false,
            Arg::Imm(_) => false,
            Arg::Mem(_) => false,
            Arg::Cell(y) => same_cell(x, y),
            Arg::At(_, _) => false,
        },
        Arg::Imm(_) => false,
        Arg::At(_, _) => false,
    }
}

pub fn is_imm(operand: Arg) -> bool
    ensures { result ≡ table.is_imm operand }
{
    match operand {
        Arg::Imm(_) => true,
        Arg::Var(_) => false,
        Arg::Mem(_) => false,
        Arg::Cell(_) => false,
        Arg::At(_, _) => false,
    }
}

/// Whether both are numbers.
pub(crate) fn are_imm(first: Arg, second: Arg) -> bool
    ensures { result ≡ (table.is_imm first && table.is_imm second) }
{
    is_imm(first) && is_imm(second)
}

#[tactic(auto, using(crate::proofs::ArgLemmas::among_one))]
fn is_one(variable: u32, other: Option<u32>) -> bool
    ensures { result ≡ among (option_to_list other) variable }
{
    match other {
        None => false,
        Some(other) => other == variable,
    }
}

#[tactic(auto, using(crate::proofs::ArgLemmas::among_one))]
fn is_index(variable: u32, index: Option<(u32, u8)>) -> bool
    ensures { result ≡ among (index_var index) variable }
{
    match index {
        None => false,
        Some((other, _)) => other == variable,
    }
}

#[tactic(auto, using(crate::proofs::ArgLemmas::among_both))]
fn is_in_address(variable: u32, address: Address) -> bool
    ensures { result ≡ among (address_vars address) variable }
{
    is_one(variable, address.base) || is_index(variable, address.index)
}

#[tactic(auto, using(crate::proofs::ArgLemmas::among_one))]
fn is_pinned(variable: u32, pinned: Option<Pinned>) -> bool
    ensures { result ≡ among (Rattle.jz_operations.specs.Reading.pinned_var pinned) variable }
{
    match pinned {
        None => false,
        Some(pinned) => pinned.variable == variable,
    }
}

/// Whether an operand is a variable, or is found by it.
#[tactic(auto, using(crate::proofs::ArgLemmas::among_none_behind))]
fn names(operand: Arg, variable: u32) -> bool
    ensures { result ≡ among (is_var operand ++ found_by operand) variable }
{
    match operand {
        Arg::Var(other) => is_one(variable, Some(other)),
        Arg::Imm(_) => false,
        Arg::Mem(address) => is_in_address(variable, address),
        Arg::Cell(cell) => is_one(variable, cell.index),
        Arg::At(_, pinned) => is_pinned(variable, pinned),
    }
}

/// Whether it is a variable that stands nowhere in the other operand.
pub fn is_free(operand: Arg, other: Arg) -> bool
    ensures { result ≡ table.is_free operand other }
{
    match operand {
        Arg::Var(variable) => !names(other, variable),
        Arg::Imm(_) => false,
        Arg::Mem(_) => false,
        Arg::Cell(_) => false,
        Arg::At(_, _) => false,
    }
}
