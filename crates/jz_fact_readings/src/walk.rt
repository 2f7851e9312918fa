//! The intervals of expressions.

ghost use Rattle.std.specs.Prelude.{◌≡◌, ◌≤◌};
ghost use Rattle.jz_tree.specs.LeftSides.{IsSingle};
ghost use Rattle.jz_integers.specs.InnerLeftSides.{left_at, left_of};
ghost use Rattle.jz_tree.specs.Span.{Span};
ghost use Rattle.jz_tree.specs.declared.expr.BinOp.TheVariants.{Add, Sub};
ghost use Rattle.jz_meaning.specs.Assignments as assignments;
ghost use Rattle.jz_terms.specs.Terms.{num, term_of};
ghost use Rattle.jz_facts.specs.Intervals as intervals;

use crate::known::Knows;
use crate::sides::{down, way_down};
use jz_intervals::Interval;
use jz_meaning::{Kind, kind_of, own_size};
use jz_tree::{BinOp, Expr};
use x64_insn::{Size, residue};

/// The interval of an expression as a word of a size.
#[cycle(interval)]
pub fn interval<K: Knows>(set: &K, size: Size, e: &Expr) -> Interval
    ensures { result ≡ intervals.interval (K.given set.now) (K.facts set.now) size
        (term_of e.now) }
{
    let way = way_down(e);
    if way.steps == 0 {
        return single(set, size, e);
    }
    let start = interval(set, size, way.first);
    climb(set, size, e, way.steps, start)
}

/// The same, by the interval of what stands so many steps down its left side.
#[cycle(interval)]
fn climb<K: Knows>(set: &K, size: Size, e: &Expr, steps: u64, start: Interval) -> Interval
    requires few { steps ≤ 4294967296 }
    requires start { start ≡ intervals.interval (K.given set.now) (K.facts set.now) size
        (term_of (left_at steps e.now)) }
    ensures { result ≡ intervals.interval (K.given set.now) (K.facts set.now) size
        (term_of e.now) }
{
    if steps == 0 {
        return start;
    }
    if steps == 1 {
        return one_up(set, size, e, start);
    }
    let half = steps / 2;
    let lower = down(e, half);
    let middle = climb(set, size, lower, steps - half, start);
    climb(set, size, e, half, middle)
}

/// The same, by that of its left operand, or of itself where it has none.
#[cycle(interval)]
fn one_up<K: Knows>(set: &K, size: Size, e: &Expr, left: Interval) -> Interval
    requires { left ≡ intervals.interval (K.given set.now) (K.facts set.now) size
        (term_of (left_of e.now)) }
    ensures { result ≡ intervals.interval (K.given set.now) (K.facts set.now) size
        (term_of e.now) }
{
    match e {
        Expr::Num(_, _) => left,
        Expr::Bool(_, _) => left,
        Expr::Var(_) => left,
        Expr::Cell(_, _) => left,
        Expr::Load(_) => left,
        Expr::Neg(_, _) => left,
        Expr::Not(_, _) => left,
        Expr::Cast { .. } => left,
        Expr::Bin(op, _, right, _) => operation(set, size, *op, left, right.get()),
    }
}

#[cycle(interval)]
fn operation<K: Knows>(set: &K, size: Size, op: BinOp, left: Interval, right: &Expr) -> Interval
    ensures { result ≡ intervals.of_operation size op left
        (intervals.interval (K.given set.now) (K.facts set.now) size (term_of right.now))
        (term_of right.now) }
{
    match op {
        BinOp::Add => sum(size, left, interval(set, size, right), right),
        BinOp::Sub => difference(size, left, interval(set, size, right), right),
        BinOp::Mul => left.product(interval(set, size, right), size),
        BinOp::And => left.mask(interval(set, size, right)),
        BinOp::Div => left.quotient(interval(set, size, right), size),
        BinOp::Rem => interval(set, size, right).remainder(size),
        BinOp::Shr => shifted(size, left, right),
        _ => Interval::each(size),
    }
}

/// Whether an expression is a flag.
fn is_flag(e: &Expr) -> bool
    ensures { result ≡ intervals.is_flag (term_of e.now) }
{
    match e {
        Expr::Num(_, _) => false,
        Expr::Bool(_, _) => false,
        Expr::Var(var) => is_bool(kind_of(var)),
        Expr::Cell(_, _) => false,
        Expr::Load(_) => false,
        Expr::Neg(_, _) => false,
        Expr::Not(_, _) => false,
        Expr::Cast { .. } => false,
        Expr::Bin(_, _, _, _) => false,
    }
}

fn is_bool(kind: Kind) -> bool
    ensures { result ≡ assignments.is_bool kind }
{
    match kind {
        Kind::Undeclared => false,
        Kind::Int => false,
        Kind::Bool => true,
        Kind::Word(_) => false,
        Kind::Array(_, _) => false,
    }
}

/// The interval of a sum, by those of its operands; with a flag on the right any word.
fn sum(size: Size, left: Interval, of_right: Interval, right: &Expr) -> Interval
    ensures { result ≡ intervals.of_operation size Add left of_right (term_of right.now) }
{
    if is_flag(right) {
        return Interval::each(size);
    }
    left.sum(of_right, size)
}

/// The same of a difference.
fn difference(size: Size, left: Interval, of_right: Interval, right: &Expr) -> Interval
    ensures { result ≡ intervals.of_operation size Sub left of_right (term_of right.now) }
{
    if is_flag(right) {
        return Interval::each(size);
    }
    left.difference(of_right, size)
}

fn shifted_by_number(size: Size, left: Interval, n: i128) -> Interval
    ensures { (at : Span) → result ≡ intervals.of_shift size left (num n at) }
{
    if n < 0 {
        Interval::each(size)
    } else {
        left.shifted_by(n as u128)
    }
}

/// What an interval becomes where its words are shifted to the right.
fn shifted(size: Size, left: Interval, count: &Expr) -> Interval
    ensures { result ≡ intervals.of_shift size left (term_of count.now) }
{
    match count {
        Expr::Num(n, _) => shifted_by_number(size, left, *n),
        Expr::Bool(_, _) => Interval::each(size),
        Expr::Var(_) => Interval::each(size),
        Expr::Cell(_, _) => Interval::each(size),
        Expr::Load(_) => Interval::each(size),
        Expr::Neg(_, _) => Interval::each(size),
        Expr::Not(_, _) => Interval::each(size),
        Expr::Cast { .. } => Interval::each(size),
        Expr::Bin(_, _, _, _) => Interval::each(size),
    }
}

#[cycle(interval)]
fn single<K: Knows>(set: &K, size: Size, e: &Expr) -> Interval
    requires { IsSingle e.now }
    ensures { result ≡ intervals.interval (K.given set.now) (K.facts set.now) size
        (term_of e.now) }
{
    match e {
        Expr::Num(n, _) => Interval::only(residue(size, *n).bits()),
        Expr::Bool(_, _) => Interval::each(size),
        Expr::Var(var) => set.interval_of(size, var),
        Expr::Cell(_, _) => Interval::each(size),
        Expr::Load(_) => Interval::each(size),
        Expr::Neg(_, _) => Interval::each(size),
        Expr::Not(_, _) => Interval::each(size),
        Expr::Cast {
            size: _,
            signed,
            e,
            span: _,
        } => {
            if *signed {
                return Interval::each(size);
            }
            let own = own_size(e.get()).unwrap_or(Size::S64);
            interval(set, own, e.get()).fitted(size)
        }
        Expr::Bin(_, _, _, _) => unreachable!(),
    }
}
