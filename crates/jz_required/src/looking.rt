//! What expressions read, by a loop down their left sides.

ghost use Rattle.std.specs.Prelude.{◌≡◌, IfOk};
ghost use Rattle.jz_tree.specs.LeftSides.{IsSingle};
ghost use Rattle.jz_terms.specs.Terms.{term_of};
ghost use Rattle.jz_required.specs.Readings.{reading};
ghost use Rattle.jz_required.specs.Kept.{reading_of};
ghost use Rattle.jz_required.specs.InnerSides.{on_operands};

use crate::found::{Found, cell, load, nothing, one, operation};
use crate::part::Part;
use jz_tree::{Expr, Span, divides};
use std::alloc::{AllocError, Global};

/// An operation with its right operand.
#[derive(Drop)]
pub(crate) struct Operand<'a> {
    pub(crate) divides: bool,
    pub(crate) span: Span,
    pub(crate) right: Found<'a>,
}

/// The left side of an expression: its operations from the outermost, and the operand where it
/// ends.
#[derive(Drop)]
pub(crate) struct Side<'a> {
    pub(crate) operands: Vec<Operand<'a>>,
    pub(crate) first: Found<'a>,
}

#[tactic(auto, using(crate::proofs::Sides::last_operand))]
fn joined_side<'a>(side: Side<'a>) -> Result<Found<'a>, AllocError>
    ensures { IfOk result
        (λ f. reading_of f ≡ on_operands side.entry.operands.items (reading_of side.entry.first)) }
{
    let Side {
        mut operands,
        mut first,
    } = side;
    while let Some(operand) = operands.pop() {
        let Operand {
            divides,
            span,
            right,
        } = operand;
        first = operation(divides, span, first, right)?;
    }
    Ok(first)
}

/// What an expression reads, also one whose left side is as long as memory lets it be.
#[cycle(look)]
pub(crate) fn look<'a>(alloc: Global, expr: &'a Expr) -> Result<Found<'a>, AllocError>
    ensures { IfOk result (λ f. reading_of f ≡ reading (term_of expr.now)) }
{
    let side = look_side(alloc, expr)?;
    let whole = joined_side(side)?;
    Ok(whole)
}

#[cycle(look)]
fn look_side<'a>(alloc: Global, expr: &'a Expr) -> Result<Side<'a>, AllocError>
    ensures { IfOk result (λ s. on_operands s.operands.items (reading_of s.first)
        ≡ reading (term_of expr.now)) }
{
    let mut operands = Vec::new(alloc);
    let mut rest = expr;
    while let Expr::Bin(op, left, right, span) = rest {
        let read = look(alloc, right.get())?;
        operands.push(Operand {
            divides: divides(*op),
            span: *span,
            right: read,
        })?;
        rest = left.get();
    }
    let first = look_single(alloc, rest)?;
    Ok(Side { operands, first })
}

#[cycle(look)]
fn look_single<'a>(alloc: Global, expr: &'a Expr) -> Result<Found<'a>, AllocError>
    requires { IsSingle expr.now }
    ensures { IfOk result (λ f. reading_of f ≡ reading (term_of expr.now)) }
{
    match expr {
        Expr::Num(_, _) => Ok(nothing(alloc)),
        Expr::Bool(_, _) => Ok(nothing(alloc)),
        Expr::Var(var) => {
            let found = one(alloc, Part::Scalar(var))?;
            Ok(found)
        }
        Expr::Cell(var, index) => {
            let inner = look(alloc, index.get())?;
            let found = cell(alloc, var, inner, var.span)?;
            Ok(found)
        }
        Expr::Load(access) => {
            let inner = look(alloc, access.at.get())?;
            let found = load(alloc, inner, access.span)?;
            Ok(found)
        }
        Expr::Neg(e, _) => {
            let found = look(alloc, e.get())?;
            Ok(found)
        }
        Expr::Not(e, _) => {
            let found = look(alloc, e.get())?;
            Ok(found)
        }
        Expr::Cast {
            size: _,
            signed: _,
            e,
            span: _,
        } => {
            let found = look(alloc, e.get())?;
            Ok(found)
        }
        Expr::Bin(_, _, _, _) => unreachable!(),
    }
}
