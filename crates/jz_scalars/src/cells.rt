//! Cells of register arrays at constant indices.

ghost use Rattle.std.specs.Prelude.{◌≡◌, Some, IfOk};
ghost use Rattle.jz_tree.specs.declared.expr.Expr.TheViews.{out-Ty};
ghost use Rattle.jz_arrays.specs.Cells as cells;
ghost use Rattle.jz_scalars.specs.InnerCells as inner;

use jz_meaning::{Kind, kind_of};
use jz_tree::{Decl, Expr, Size, Storage, Ty, Var};
use std::alloc::{AllocError, Global};

/// A cell of a register array: the size of its word, and its number.
#[derive(Clone, Copy)]
pub(crate) struct RegisterCell {
    pub size: Size,
    pub number: u32,
}

fn is_register(storage: Storage) -> bool
    ensures { result ≡ cells.is_register storage }
{
    match storage {
        Storage::Reg => true,
        Storage::Stack => false,
        Storage::Inline => false,
    }
}

fn cells_of_ty(ty: &Ty) -> Option<Size>
    ensures { result ≡ cells.cells_of_ty (out-Ty ty.now) }
{
    match ty {
        Ty::Int => None,
        Ty::Bool => None,
        Ty::Word(_) => None,
        Ty::Array(size, _) => Some(*size),
    }
}

fn cells_of_decl(decl: &Decl) -> Option<Size>
    ensures { result ≡ cells.cells_of_decl (Some decl.now) }
{
    if is_register(decl.storage) {
        cells_of_ty(&decl.ty)
    } else {
        None
    }
}

/// The size of the cells of a register array.
fn size_at(var: &Var) -> Option<Size>
    ensures { result ≡ cells.size_at var.now }
{
    match &var.decl {
        None => None,
        Some(decl) => cells_of_decl(decl),
    }
}

/// The number that an index is, where it is written as one.
fn index_in(at: &Expr) -> Option<u128>
    ensures { result ≡ cells.index_in at.now }
{
    match at {
        Expr::Num(number, _) => {
            if *number < 0 {
                None
            } else {
                Some(*number as u128)
            }
        }
        Expr::Bool(_, _) => None,
        Expr::Var(_) => None,
        Expr::Cell(_, _) => None,
        Expr::Load(_) => None,
        Expr::Neg(_, _) => None,
        Expr::Not(_, _) => None,
        Expr::Cast { .. } => None,
        Expr::Bin(_, _, _, _) => None,
    }
}

/// The number of a cell that an array of this kind has, where it has 32 bits.
fn number_below(kind: Kind, index: u128) -> Option<u32>
    ensures { result ≡ cells.number_below kind (Some index) }
{
    match kind {
        Kind::Undeclared => None,
        Kind::Int => None,
        Kind::Bool => None,
        Kind::Word(_) => None,
        Kind::Array(_, cells) => {
            if index < cells && index < 4_294_967_296 {
                Some(index as u32)
            } else {
                None
            }
        }
    }
}

fn cell_in(var: &Var, at: &Expr) -> Option<u32>
    ensures { result ≡ cells.cell_in var.now at.now }
{
    match index_in(at) {
        None => None,
        Some(index) => number_below(kind_of(var), index),
    }
}

/// The cell of a register array that an access with this index is of, where it becomes a scalar.
pub(crate) fn register_cell(var: &Var, at: &Expr) -> Option<RegisterCell>
    ensures { result ≡ inner.register_cell (cells.size_at var.now) (cells.cell_in var.now at.now) }
{
    match size_at(var) {
        None => None,
        Some(size) => match cell_in(var, at) {
            None => None,
            Some(number) => Some(RegisterCell { size, number }),
        },
    }
}

/// A cell of an array as a variable.
pub(crate) fn scalar(alloc: Global, array: &Var, cell: RegisterCell) -> Result<Var, AllocError>
    ensures { IfOk result (λ var. var ≡ cells.scalar array.now cell.size cell.number) }
{
    Ok(Var {
        name: array.name.clone()?,
        copy: array.copy,
        cell: Some(cell.number),
        decl: Some(Decl {
            storage: Storage::Reg,
            ty: Ty::Word(cell.size),
        }),
        span: array.span,
    })
}
