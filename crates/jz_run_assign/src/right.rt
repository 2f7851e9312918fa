//! Right sides: an expression, or an operation on what a left side has.

ghost use Rattle.std.specs.Prelude.{◌≡◌, ◌&&◌, true, IsTrue, IfSome, None, option_map};
ghost use Rattle.std.specs.Option.{option_copied};
ghost use Rattle.jz_tree.specs.Operators as operators;
ghost use Rattle.jz_tree.specs.declared.expr.Expr.TheViews.{out-Expr};
ghost use Rattle.jz_meaning.specs.Values as values;
ghost use Rattle.jz_meaning.specs.Assignments as assignments;
ghost use Rattle.jz_run_assign.specs.InnerRights.{read_of, right_side, IsCarry};

use jz_meaning::{gives_word, is_flag, kind_of, left_span, own_size, size_of};
use jz_tree::{Access, BinOp, Expr, Lval, Seq, Span, Var, carries, is_shift};
use jz_words::Size;

/// A left side that is read.
#[derive(Clone, Copy)]
pub(crate) enum Place<'a> {
    Variable(&'a Var),
    Cell(&'a Var, &'a Expr),
    Memory(&'a Access),
}

/// An expression, or what a left side has.
#[derive(Clone, Copy)]
pub(crate) enum Operand<'a> {
    Value(&'a Expr),
    Old(Place<'a>),
}

/// A right side: an expression, `left op right`, or `left inner right op flag` with a bool flag.
#[derive(Clone, Copy)]
pub(crate) enum Right<'a> {
    Plain(&'a Expr),
    Update {
        op: BinOp,
        left: Place<'a>,
        right: &'a Expr,
        span: Span,
    },
    Carry {
        op: BinOp,
        inner: BinOp,
        left: Place<'a>,
        right: &'a Expr,
        flag: &'a Expr,
        span: Span,
    },
}

/// Where a left side is read. None of `_`.
pub(crate) fn place_of(left: &Lval) -> Option<Place<'_>>
    ensures { option_map read_of result ≡ assignments.as_expr left.now }
{
    match left {
        Lval::Skip(_) => None,
        Lval::Var(var) => Some(Place::Variable(var)),
        Lval::Cell(var, at) => Some(Place::Cell(var, at.get())),
        Lval::Store(access) => Some(Place::Memory(access)),
    }
}

/// Whether the flag is the carry of a sum, or the borrow of a difference.
pub(crate) fn is_carry(op: BinOp, other: BinOp, flag: &Expr) -> bool
    ensures value { result ≡ (operators.carries op other && assignments.is_flag flag.now) }
    ensures turned { IsTrue result → (operators.carries other op ≡ true)
        × (assignments.is_flag flag.now ≡ true) }
{
    carries(op, other) && is_flag(flag)
}

fn updated<'a>(op: BinOp, left: Place<'a>, e: &'a Expr, span: Span) -> Right<'a>
    ensures side { right_side result ≡ assignments.updated_layer op (read_of left.entry) e.now span
        (out-Expr e.now) }
    ensures carry { IsCarry result }
{
    let update = Right::Update {
        op,
        left,
        right: e,
        span,
    };
    match e {
        Expr::Bin(outer, right, flag, _) => {
            if is_carry(op, *outer, flag.get()) {
                Right::Carry {
                    op: *outer,
                    inner: op,
                    left,
                    right: right.get(),
                    flag: flag.get(),
                    span,
                }
            } else {
                update
            }
        }
        Expr::Num(_, _) => update,
        Expr::Bool(_, _) => update,
        Expr::Var(_) => update,
        Expr::Cell(_, _) => update,
        Expr::Load(_) => update,
        Expr::Neg(_, _) => update,
        Expr::Not(_, _) => update,
        Expr::Cast { .. } => update,
    }
}

#[tactic(auto, using(crate::proofs::LastLeft::last_is))]
pub(crate) fn last_left(to: &Seq<Lval>) -> Option<&Lval>
    ensures { option_copied result ≡ assignments.last_left to.now }
{
    to.as_slice().last()
}

fn right_from<'a>(left: &'a Lval, op: BinOp, value: &'a Expr) -> Option<Right<'a>>
    ensures side { option_map right_side result ≡ assignments.updated (assignments.as_expr left.now)
        op value.now (assignments.left_span left.now) }
    ensures carry { IfSome result IsCarry }
{
    match place_of(left) {
        None => None,
        Some(place) => Some(updated(op, place, value, left_span(left))),
    }
}

/// The right side of an assignment. None where an operation reads `_`, or there is no left side to
/// read.
pub(crate) fn right_of<'a>(
    to: &'a Seq<Lval>,
    op: Option<BinOp>,
    value: &'a Expr,
) -> Option<Right<'a>>
    ensures side { option_map right_side result ≡ assignments.whole_of
        (assignments.last_left to.now) op value.now }
    ensures carry { IfSome result IsCarry }
{
    match op {
        None => Some(Right::Plain(value)),
        Some(op) => match last_left(to) {
            None => None,
            Some(left) => right_from(left, op, value),
        },
    }
}

fn size_of_operation(op: BinOp, left: Option<Size>, right: Option<Size>) -> Option<Size>
    ensures { result ≡ values.size_of_operation op left right }
{
    if !gives_word(op) {
        return None;
    }
    if is_shift(op) { left } else { left.or(right) }
}

/// What is wanted of the left operand, where the operands have these sizes by themselves.
pub(crate) fn left_wanted(
    op: BinOp,
    wanted: Option<Size>,
    left: Option<Size>,
    right: Option<Size>,
) -> Option<Size>
    ensures { result ≡ values.left_wanted op wanted left right }
{
    if gives_word(op) {
        wanted.or(size_of_operation(op, left, right))
    } else {
        left.or(right)
    }
}

pub(crate) fn place_size(place: Place<'_>) -> Option<Size>
    ensures { result ≡ values.own_size (read_of place.entry) }
{
    match place {
        Place::Variable(var) => size_of(kind_of(var)),
        Place::Cell(var, _) => size_of(kind_of(var)),
        Place::Memory(access) => access.size,
    }
}

/// The size that `left op right` has by itself.
pub(crate) fn update_size(op: BinOp, left: Place<'_>, right: &Expr) -> Option<Size>
    ensures { result ≡ values.size_of_operation op (values.own_size (read_of left.entry))
        (values.own_size right.now) }
{
    size_of_operation(op, place_size(left), own_size(right))
}

/// The size that a right side has by itself.
pub(crate) fn right_size(right: Right<'_>) -> Option<Size>
    ensures { result ≡ values.own_size (right_side right.entry) }
{
    match right {
        Right::Plain(e) => own_size(e),
        Right::Update {
            op,
            left,
            right,
            span: _,
        } => update_size(op, left, right),
        Right::Carry {
            op,
            inner,
            left,
            right,
            flag,
            span: _,
        } => size_of_operation(op, update_size(inner, left, right), own_size(flag)),
    }
}
