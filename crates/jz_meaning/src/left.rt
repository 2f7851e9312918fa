//! Expressions by their left side, which may be as long as a text, and the sizes that are wanted of
//! operands.

ghost use Rattle.std.specs.Prelude.{◌≡◌, IfOk};
ghost use Rattle.std.specs.Option.{option_or};
ghost use Rattle.jz_meaning.specs.InnerEvaluating.{IsDetermined, IsLeftSide};
ghost use Rattle.jz_meaning.specs.Values as values;
ghost use Rattle.std.specs.Prelude.{if◌then◌else◌};
ghost use Rattle.jz_tree.specs.LeftSides.{IsSingle};
ghost use Rattle.jz_tree.specs.Operators.{is_shift};

use crate::access::{kind_of, size_of};
use jz_tree::{BinOp, Expr, Span, is_shift};
use std::alloc::{AllocError, Global};
use x64_insn::Size;

/// An operation whose left operand has no value yet.
#[derive(Drop)]
pub struct Waiting<'a> {
    pub op: BinOp,
    pub right: &'a Expr,
    pub span: Span,
    /// The size that is wanted of the left operand.
    pub wanted: Option<Size>,
}

/// The operations of a left side from the outermost, and the operand where it ends, with the size
/// that is wanted of it.
#[derive(Drop)]
pub struct LeftSide<'a> {
    pub waiting: Vec<Waiting<'a>>,
    pub first: &'a Expr,
    pub wanted: Option<Size>,
}

/// Whether an operation gives a word: a comparison, `&&` and `||` give none.
pub fn gives_word(op: BinOp) -> bool
    ensures { result ≡ values.gives_word op }
{
    match op {
        BinOp::OrElse | BinOp::AndThen => false,
        BinOp::Eq | BinOp::Ne => false,
        BinOp::Lt | BinOp::Le | BinOp::Gt | BinOp::Ge => false,
        BinOp::LtS | BinOp::LeS | BinOp::GtS | BinOp::GeS => false,
        _ => true,
    }
}

/// What stands at the right of a left operand without a size.
#[cycle(sizes)]
fn size_behind(op: BinOp, right: &Expr, found: Option<Size>) -> Option<Size>
    ensures { result ≡ (if is_shift op then found else option_or (values.own_size right.now)
        found) }
{
    if is_shift(op) {
        found
    } else {
        own_size(right).or(found)
    }
}

#[cycle(sizes)]
fn single_size(e: &Expr) -> Option<Size>
    requires { IsSingle e.now }
    ensures { result ≡ values.own_size e.now }
{
    match e {
        Expr::Num(_, _) => None,
        Expr::Bool(_, _) => None,
        Expr::Var(var) => size_of(kind_of(var)),
        Expr::Cell(var, _) => size_of(kind_of(var)),
        Expr::Load(access) => access.size,
        Expr::Neg(operand, _) => own_size(operand.get()),
        Expr::Not(operand, _) => own_size(operand.get()),
        Expr::Cast {
            size,
            signed: _,
            e: _,
            span: _,
        } => Some(*size),
        Expr::Bin(_, _, _, _) => unreachable!(),
    }
}

/// The size that an expression has by itself.
#[cycle(sizes)]
pub fn own_size(e: &Expr) -> Option<Size>
    ensures { result ≡ values.own_size e.now }
{
    let mut found = None;
    let mut rest = e;
    while let Expr::Bin(op, left, right, _) = rest {
        if !gives_word(*op) {
            return found;
        }
        found = size_behind(*op, right.get(), found);
        rest = left.get();
    }
    single_size(rest).or(found)
}

/// What is wanted of both operands where this size is wanted of the whole.
fn left_wanted(op: BinOp, wanted: Option<Size>, left: &Expr, right: &Expr) -> Option<Size>
    ensures { result ≡ (if values.gives_word op then wanted else option_or
        (values.own_size left.now) (values.own_size right.now)) }
{
    if gives_word(op) {
        return wanted;
    }
    match own_size(left) {
        None => own_size(right),
        Some(size) => Some(size),
    }
}

/// The left side of an expression.
pub fn left_side<'a>(
    alloc: Global,
    e: &'a Expr,
    wanted: Option<Size>,
) -> Result<LeftSide<'a>, AllocError>
    requires { IsDetermined wanted e.now }
    ensures parts { IfOk result (λ side. IsLeftSide wanted e.now side.waiting.items side.first.now
        side.wanted) }
    ensures single { IfOk result (λ side. IsSingle side.first.now) }
{
    let mut waiting = Vec::new(alloc);
    let mut first = e;
    let mut inner = wanted;
    while let Expr::Bin(op, left, right, span) = first {
        inner = left_wanted(*op, inner, left.get(), right.get());
        waiting.push(Waiting {
            op: *op,
            right: right.get(),
            span: *span,
            wanted: inner,
        })?;
        first = left.get();
    }
    Ok(LeftSide {
        waiting,
        first,
        wanted: inner,
    })
}
