//! How many numbers an expression leaks, by a loop down its left side.

ghost use Rattle.std.specs.Prelude.{◌≡◌, ◌+◌, IfOk};
ghost use Rattle.jz_meaning.specs.Values.{ref_of};
ghost use Rattle.jz_bodies.specs.Kinds.{sort_of_kind};
ghost use Rattle.jz_inline.specs.Widths as widths;
ghost use Rattle.jz_inline.specs.Widths.{capped, declared_shape};
ghost use Rattle.jz_inline.specs.InnerWidths.{is_whole, counted_of, count_of_operation};
ghost use Rattle.jz_inline.specs.InnerWidths.{counted_operation, counted_left};

use jz_meaning::{Kind, gives_word, kind_of};
use jz_tree::{BinOp, Expr, Lval, Var, divides};
use std::alloc::{AllocError, Global};

/// Whether an expression is a whole number that is known when the text is compiled, and how many
/// numbers it leaks, as far as a u64 counts.
#[derive(Clone, Copy)]
struct Counted {
    whole: bool,
    count: u64,
}

/// An operation with its right operand.
#[derive(Clone, Copy)]
struct Operand {
    op: BinOp,
    right: Counted,
}

/// The left side of an expression: its operations from the outermost, and the operand where it
/// ends.
#[derive(Drop)]
struct Side {
    operands: Vec<Operand>,
    first: Counted,
}

fn sum(one: u64, other: u64) -> u64
    ensures { result ≡ capped (one + other) }
{
    one.saturating_add(other)
}

fn own_count(op: BinOp, both_whole: bool) -> u64
    ensures { result ≡ count_of_operation op both_whole }
{
    if divides(op) {
        if both_whole { 0 } else { 3 }
    } else {
        0
    }
}

fn operation(op: BinOp, left: Counted, right: Counted) -> Counted
    ensures { result ≡ counted_operation op left right }
{
    let both = left.whole && right.whole;
    let behind = sum(right.count, own_count(op, both));
    Counted {
        whole: gives_word(op) && both,
        count: sum(left.count, behind),
    }
}

/// An expression that leaks no number.
fn silent(whole: bool) -> Counted
    ensures { result ≡ record { whole = whole; count = 0 } }
{
    Counted { whole, count: 0 }
}

pub fn is_int(var: &Var) -> bool
    ensures { result ≡ is_whole (sort_of_kind (ref_of var.now).kind) }
{
    match kind_of(var) {
        Kind::Int => true,
        Kind::Undeclared => false,
        Kind::Bool => false,
        Kind::Word(_) => false,
        Kind::Array(_, _) => false,
    }
}

#[tactic(auto, using(crate::proofs::Counting::last_operand))]
fn joined(side: Side) -> Counted
    ensures { result ≡ counted_left side.operands.items side.first }
{
    let Side {
        mut operands,
        mut first,
    } = side;
    while let Some(Operand { op, right }) = operands.pop() {
        first = operation(op, first, right);
    }
    first
}

#[cycle(count)]
fn count_numbers(alloc: Global, expr: &Expr) -> Result<Counted, AllocError>
    ensures { IfOk result (λ c. c ≡ counted_of (declared_shape expr.now)) }
{
    let side = count_side(alloc, expr)?;
    Ok(joined(side))
}

#[cycle(count)]
fn count_side(alloc: Global, expr: &Expr) -> Result<Side, AllocError>
    ensures { let whole = counted_of (declared_shape expr.now) in
        IfOk result (λ side. counted_left side.operands.items side.first ≡ whole) }
{
    let mut operands = Vec::new(alloc);
    let mut rest = expr;
    while let Expr::Bin(op, left, right, _) = rest {
        operands.push(Operand {
            op: *op,
            right: count_numbers(alloc, right.get())?,
        })?;
        rest = left.get();
    }
    let first = count_single(alloc, rest)?;
    Ok(Side { operands, first })
}

/// An expression with one access more.
#[cycle(count)]
fn accessed(alloc: Global, whole: bool, at: &Expr) -> Result<Counted, AllocError>
    ensures { let count = capped ((declared_shape at.now).count + 1) in
        IfOk result (λ c. (c.whole ≡ whole) × (c.count ≡ count)) }
{
    let place = count_numbers(alloc, at)?;
    Ok(Counted {
        whole,
        count: sum(place.count, 1),
    })
}

#[cycle(count)]
fn count_single(alloc: Global, expr: &Expr) -> Result<Counted, AllocError>
    ensures { IfOk result (λ c. c ≡ counted_of (declared_shape expr.now)) }
{
    match expr {
        Expr::Num(_, _) => Ok(silent(true)),
        Expr::Bool(_, _) => Ok(silent(false)),
        Expr::Var(var) => Ok(silent(is_int(var))),
        Expr::Cell(var, at) => {
            let cell = accessed(alloc, is_int(var), at.get())?;
            Ok(cell)
        }
        Expr::Load(access) => {
            let loaded = accessed(alloc, false, access.at.get())?;
            Ok(loaded)
        }
        Expr::Neg(e, _) => {
            let inner = count_numbers(alloc, e.get())?;
            Ok(inner)
        }
        Expr::Not(e, _) => {
            let inner = count_numbers(alloc, e.get())?;
            Ok(inner)
        }
        Expr::Cast { e, .. } => {
            let inner = count_numbers(alloc, e.get())?;
            Ok(Counted {
                whole: false,
                count: inner.count,
            })
        }
        Expr::Bin(op, left, right, _) => {
            let first = count_numbers(alloc, left.get())?;
            let second = count_numbers(alloc, right.get())?;
            Ok(operation(*op, first, second))
        }
    }
}

/// How many numbers an expression leaks, as far as a u64 counts.
pub fn width(alloc: Global, expr: &Expr) -> Result<u64, AllocError>
    ensures { IfOk result (λ n. n ≡ capped (widths.width expr.now)) }
{
    let whole = count_numbers(alloc, expr)?;
    Ok(whole.count)
}

/// How many an index or an address on the left leaks, with the access itself, as far as a u64
/// counts.
pub fn left_width(alloc: Global, lval: &Lval) -> Result<u64, AllocError>
    ensures { IfOk result (λ n. n ≡ capped (widths.left_width lval.now)) }
{
    match lval {
        Lval::Skip(_) => Ok(0),
        Lval::Var(_) => Ok(0),
        Lval::Cell(_, at) => {
            let cell = accessed(alloc, false, at.get())?;
            Ok(cell.count)
        }
        Lval::Store(access) => {
            let stored = accessed(alloc, false, access.at.get())?;
            Ok(stored.count)
        }
    }
}
