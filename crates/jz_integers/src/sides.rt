//! Expressions by their left side, which may be as long as a text.

ghost use Rattle.std.specs.Prelude.{◌≡◌, IfOk};
ghost use Rattle.jz_tree.specs.LeftSides.{IsSingle};
ghost use Rattle.jz_integers.specs.InnerLeftSides.{on_left};

use jz_tree::{BinOp, Expr, Span};
use std::alloc::{AllocError, Global};

/// An operation whose left operand has no value yet.
#[derive(Drop)]
pub struct Waiting<'a> {
    pub op: BinOp,
    pub right: &'a Expr,
    pub span: Span,
}

/// The operations of a left side from the outermost, and the operand where it ends.
#[derive(Drop)]
pub struct LeftSide<'a> {
    pub waiting: Vec<Waiting<'a>>,
    pub first: &'a Expr,
}

pub fn left_side<'a>(alloc: Global, e: &'a Expr) -> Result<LeftSide<'a>, AllocError>
    ensures whole { IfOk result (λ side. on_left side.waiting.items side.first.now ≡ e.now) }
    ensures single { IfOk result (λ side. IsSingle side.first.now) }
{
    let mut waiting = Vec::new(alloc);
    let mut first = e;
    while let Expr::Bin(op, left, right, span) = first {
        waiting.push(Waiting {
            op: *op,
            right: right.get(),
            span: *span,
        })?;
        first = left.get();
    }
    Ok(LeftSide { waiting, first })
}
