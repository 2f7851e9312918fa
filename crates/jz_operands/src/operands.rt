//! Operands and destinations of statements.

ghost use Rattle.std.specs.Prelude.{◌≡◌, ◌↔◌, ℕ, IsTrue, None, Some, pos};
ghost use Rattle.jz_tree.specs.declared.expr.Expr.TheVariants as expr;
ghost use Rattle.jz_tree.specs.declared.stmt.Lval.TheVariants as lval;
ghost use Rattle.jz_homes.specs.Operands.{cell_leaks, IsArg, IsDest};
ghost use Rattle.jz_meaning.specs.Values.{ref_of};
ghost use Rattle.jz_meaning.specs.declared.access.Kind.TheVariants as kind;
ghost use Rattle.jz_tree.specs.declared.expr.Expr.TheViews.{out-Var};
ghost use Rattle.jz_operands.specs.TableHomes.{homes_of, leaks_of, IsArrayAt, HasSize};
ghost use Rattle.jz_operands.specs.TableHomes.{entry_at, one_cell, IsStackOf, HasNoCell, have_cells};
ghost use Rattle.jz_operands.specs.Refusals.{FindsOr, NeverArg, NeverDest};

use crate::homes::{Home, Homes};
use crate::sums::{address_of, index_of};
use jz_meaning::{Kind, kind_of};
use jz_operations::{Arg, Cell};
use jz_tree::{Access, Expr, Lval, Size, Var};
use jz_type_names::same_size;
use jz_words::reading;

/// What a part of a statement leaks.
#[derive(Clone, Copy)]
pub enum Leaks {
    Silent,
    /// A number that the operation does not show.
    Hidden,
    /// The number that the operation shows.
    Told,
}

/// An operand, and what it leaks.
#[derive(Clone, Copy)]
pub struct Operand {
    pub arg: Arg,
    pub leaks: Leaks,
}

/// The cell of a scalar.
fn scalar(of: u32) -> Operand
    ensures arg { result.arg ≡ Arg.Cell (record { of = of; index = None; offset = pos 0 }) }
    ensures leaks { result.leaks ≡ Leaks.Silent }
{
    Operand {
        arg: Arg::Cell(Cell {
            of,
            index: None,
            offset: 0,
        }),
        leaks: Leaks::Silent,
    }
}

/// A word in a variable, or in a stack variable.
#[tactic(auto, using(crate::proofs::OperandLemmas::word_arg, crate::proofs::OperandLemmas::word_dest, crate::proofs::OperandLemmas::slot_arg, crate::proofs::OperandLemmas::slot_dest))]
fn word(homes: &Homes, size: Size, var: &Var) -> Option<Operand>
    ensures read { let home = homes_of homes.now in
        let e = expr.Var var.now in
        FindsOr result (λ x. IsArg home size e x.arg (leaks_of x.leaks)) (NeverArg home size e) }
    ensures written { (ref_of var.now).kind ≡ kind.Word size → let home = homes_of homes.now in
        let d = lval.Var var.now in
        FindsOr result (λ x. IsDest home size d x.arg (leaks_of x.leaks)) (NeverDest home size d) }
{
    match homes.scalar(var) {
        None => None,
        Some(Home::Word(n, z)) => {
            if same_size(z, size) {
                Some(Operand {
                    arg: Arg::Var(n),
                    leaks: Leaks::Silent,
                })
            } else {
                None
            }
        }
        Some(Home::Slot(w, z)) => {
            if same_size(z, size) {
                Some(scalar(w))
            } else {
                None
            }
        }
        Some(Home::Flag(_)) => None,
        Some(Home::Cells(_, _, _)) => None,
    }
}

/// The stack variable of an array of one cell, which is where a scalar is.
fn only_cell(homes: &Homes, var: &Var) -> Option<(u32, Size, u128)>
    ensures { result ≡ one_cell (entry_at homes.now (out-Var var.now).name (out-Var var.now).copy
        (Some 0)) }
{
    match homes.at(&var.name, var.copy, Some(0)) {
        Some(Home::Slot(of, size)) => Some((of, size, 1)),
        Some(Home::Word(_, _)) => None,
        Some(Home::Flag(_)) => None,
        Some(Home::Cells(_, _, _)) => None,
        None => None,
    }
}

/// The stack variable that has the cells of a variable, their size, and how many they are.
fn stack_of(homes: &Homes, var: &Var) -> Option<(u32, Size, u128)>
    ensures { let home = homes_of homes.now in
        FindsOr result (λ s. IsStackOf home var.now s.0 s.1 s.2) (HasNoCell home var.now) }
{
    match homes.at(&var.name, var.copy, None) {
        Some(Home::Cells(of, size, count)) => Some((of, size, count)),
        Some(Home::Word(_, _)) => only_cell(homes, var),
        Some(Home::Flag(_)) => only_cell(homes, var),
        Some(Home::Slot(_, _)) => only_cell(homes, var),
        None => only_cell(homes, var),
    }
}

/// Whether an array has cells, of this size, and a stack variable has so many.
fn are_cells(size: Size, own: Size, count: u128, other: Size, many: u128) -> bool
    ensures { result ≡ have_cells size own count other many }
{
    same_size(own, size) && same_size(other, size) && 0 < count && count <= many
}

/// The stack variable of an array whose cells have this size.
fn cells(homes: &Homes, size: Size, var: &Var) -> Option<u32>
    ensures { let home = homes_of homes.now in
        FindsOr result (IsArrayAt home var.now size)
        ((w : ℕ) → IsArrayAt home var.now size w → ⊥) }
{
    match kind_of(var) {
        Kind::Array(own, count) => {
            let (of, z, many) = stack_of(homes, var)?;
            if are_cells(size, own, count, z, many) {
                Some(of)
            } else {
                None
            }
        }
        Kind::Undeclared => None,
        Kind::Int => None,
        Kind::Bool => None,
        Kind::Word(_) => None,
    }
}

/// What an index leaks: it is shown where a run finds it.
fn index_leaks(variable: Option<u32>) -> Leaks
    ensures { leaks_of result ≡ cell_leaks variable }
{
    match variable {
        None => Leaks::Hidden,
        Some(_) => Leaks::Told,
    }
}

/// A cell of a stack array.
#[tactic(auto, using(crate::proofs::OperandLemmas::cell_arg, crate::proofs::OperandLemmas::cell_dest))]
fn cell(homes: &Homes, size: Size, var: &Var, at: &Expr) -> Option<Operand>
    ensures read { let home = homes_of homes.now in
        let e = expr.Cell var.now at.now in
        FindsOr result (λ x. IsArg home size e x.arg (leaks_of x.leaks)) (NeverArg home size e) }
    ensures written { let home = homes_of homes.now in
        let d = lval.Cell var.now at.now in
        FindsOr result (λ x. IsDest home size d x.arg (leaks_of x.leaks)) (NeverDest home size d) }
{
    let of = cells(homes, size, var)?;
    let found = index_of(homes, at)?;
    Some(Operand {
        arg: Arg::Cell(Cell {
            of,
            index: found.variable,
            offset: found.offset,
        }),
        leaks: index_leaks(found.variable),
    })
}

#[tactic(auto, using(crate::proofs::OperandLemmas::with_size, crate::proofs::OperandLemmas::without_size))]
fn has_size(access: &Access, size: Size) -> bool
    ensures { IsTrue result ↔ HasSize access.now size }
{
    match access.size {
        None => true,
        Some(z) => same_size(z, size),
    }
}

/// What memory holds.
#[tactic(auto, using(crate::proofs::OperandLemmas::load_arg, crate::proofs::OperandLemmas::store_dest))]
fn load(homes: &Homes, size: Size, access: &Access) -> Option<Operand>
    ensures read { let home = homes_of homes.now in
        let e = expr.Load access.now in
        FindsOr result (λ x. IsArg home size e x.arg (leaks_of x.leaks)) (NeverArg home size e) }
    ensures written { let home = homes_of homes.now in
        let d = lval.Store access.now in
        FindsOr result (λ x. IsDest home size d x.arg (leaks_of x.leaks)) (NeverDest home size d) }
{
    if !has_size(access, size) {
        return None;
    }
    let found = address_of(homes, access.at.get())?;
    Some(Operand {
        arg: Arg::Mem(found),
        leaks: Leaks::Told,
    })
}

/// An operand of that size: a number, a variable, a cell or an access. There is none where its
/// displacement, its offset or its scale has no field.
pub fn operand_of(homes: &Homes, size: Size, e: &Expr) -> Option<Operand>
    ensures { let home = homes_of homes.now in
        FindsOr result (λ x. IsArg home size e.now x.arg (leaks_of x.leaks))
        (NeverArg home size e.now) }
{
    match e {
        Expr::Num(number, _) => Some(Operand {
            arg: Arg::Imm(reading(size, *number) as i64),
            leaks: Leaks::Silent,
        }),
        Expr::Var(var) => word(homes, size, var),
        Expr::Cell(var, at) => cell(homes, size, var, at.get()),
        Expr::Load(access) => load(homes, size, access),
        Expr::Bool(_, _) => None,
        Expr::Neg(_, _) => None,
        Expr::Not(_, _) => None,
        Expr::Cast { .. } => None,
        Expr::Bin(_, _, _, _) => None,
    }
}

/// A variable that is written.
fn written(homes: &Homes, size: Size, var: &Var) -> Option<Operand>
    ensures { let home = homes_of homes.now in
        let d = lval.Var var.now in
        FindsOr result (λ x. IsDest home size d x.arg (leaks_of x.leaks)) (NeverDest home size d) }
{
    match kind_of(var) {
        Kind::Word(z) => {
            if same_size(z, size) {
                word(homes, size, var)
            } else {
                None
            }
        }
        Kind::Undeclared => None,
        Kind::Int => None,
        Kind::Bool => None,
        Kind::Array(_, _) => None,
    }
}

/// A destination of that size. There is none where its displacement, its offset or its scale has no
/// field.
pub fn destination_of(homes: &Homes, size: Size, d: &Lval) -> Option<Operand>
    ensures { let home = homes_of homes.now in
        FindsOr result (λ x. IsDest home size d.now x.arg (leaks_of x.leaks))
        (NeverDest home size d.now) }
{
    match d {
        Lval::Skip(_) => None,
        Lval::Var(var) => written(homes, size, var),
        Lval::Cell(var, at) => cell(homes, size, var, at.get()),
        Lval::Store(access) => load(homes, size, access),
    }
}
