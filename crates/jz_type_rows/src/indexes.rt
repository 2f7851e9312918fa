//! Indexes of register arrays.

ghost use Rattle.std.specs.Prelude.{◌≡◌, IfOk};
ghost use Rattle.jz_type_names.specs.Order.{earliest, first_in};
ghost use Rattle.jz_type_names.specs.Lent.{these, paired_lists};
ghost use Rattle.jz_type_names.specs.Parts.{layer_of};
ghost use Rattle.jz_type_rows.specs.Indexes.{is_inline_integer, indexed_at, indexed_in, indexed_by};

use jz_select::gives_number;
use jz_tree::{Expr, Span, Stmt, Var};
use jz_type_names::{
    cells, cells_set, earlier_of, exprs_of, is_inline_int, is_register_array, known, span_of,
    unless,
};
use std::alloc::{AllocError, Global};

/// Whether it is an integer that is known when the text is compiled; an unknown name counts as one.
fn is_inline_integer(expr: &Expr) -> bool
    ensures { result ≡ is_inline_integer expr.now }
{
    let mut cur = expr;
    loop {
        match cur {
            Expr::Num(_, _) => return true,
            Expr::Bool(_, _) => return false,
            Expr::Var(var) => return is_inline_int(known(var)),
            Expr::Cell(_, _) => return false,
            Expr::Load(_) => return false,
            Expr::Neg(e, _) => cur = e.get(),
            Expr::Not(e, _) => cur = e.get(),
            Expr::Cast { .. } => return false,
            Expr::Bin(op, left, right, _) => {
                if !gives_number(*op) {
                    return false;
                }
                if !is_inline_integer(right.get()) {
                    return false;
                }
                cur = left.get();
            }
        }
    }
}

fn indexed_at(array: &Var, index: &Expr) -> Option<Span>
    ensures { result ≡ earliest (indexed_at (array.now, index.now)) }
{
    unless(
        !is_register_array(known(array)) || is_inline_integer(index),
        span_of(index),
    )
}

fn indexed_among(cells: &[(&Var, &Expr)]) -> Option<Span>
    ensures { result ≡ first_in indexed_at (paired_lists cells.now) }
{
    let mut first = None;
    for (array, index) in cells {
        first = earlier_of(first, indexed_at(array, index));
    }
    first
}

#[tactic(auto, using(jz_type_names::proofs::Earliest::joining))]
fn indexed_in(alloc: Global, expr: &Expr) -> Result<Option<Span>, AllocError>
    ensures { IfOk result (λ at. at ≡ earliest (indexed_in expr.now)) }
{
    let cells = cells(alloc, expr)?;
    Ok(indexed_among(&cells))
}

fn indexed_in_all(alloc: Global, exprs: &[&Expr]) -> Result<Option<Span>, AllocError>
    ensures { IfOk result (λ at. at ≡ first_in indexed_in (these exprs.now)) }
{
    let mut first = None;
    for expr in exprs {
        first = earlier_of(first, indexed_in(alloc, expr)?);
    }
    Ok(first)
}

/// The first index of a register array, in a statement without those that stand in it, that is no
/// inline integer.
#[tactic(auto, using(jz_type_names::proofs::Earliest::joining))]
pub fn indexed(alloc: Global, stmt: &Stmt) -> Result<Option<Span>, AllocError>
    ensures { IfOk result (λ at. at ≡ earliest (indexed_by (layer_of stmt.now))) }
{
    let set = cells_set(alloc, stmt)?;
    let exprs = exprs_of(alloc, stmt)?;
    let read = indexed_in_all(alloc, &exprs)?;
    Ok(earlier_of(indexed_among(&set), read))
}
