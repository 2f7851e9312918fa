//! Whether expressions are multiples of 2, 4 or 8.

ghost use Rattle.std.specs.Prelude.{◌≡◌, ◌∷◌, true, Bool, unwrap_or};
ghost use Rattle.jz_tree.specs.LeftSides.{IsSingle};
ghost use Rattle.jz_tree.specs.Span.{Span};
ghost use Rattle.jz_terms.specs.Terms.{num, term_of};
ghost use Rattle.jz_facts.specs.Facts.{is_among, multiples};
ghost use Rattle.jz_facts.specs.Intervals as intervals;
ghost use Rattle.jz_fact_readings.specs.Multiples.{times_of};

use crate::known::Knows;
use crate::times::Times;
use jz_tree::{BinOp, Expr};

/// Whether an expression is a multiple of `m`, which is 1, 2, 4 or 8.
pub fn is_multiple<K: Knows>(set: &K, e: &Expr, m: u64) -> bool
    requires { is_among m (1 ∷ multiples) ≡ true }
    ensures { result ≡ intervals.is_multiple (K.given set.now) (K.facts set.now)
        (term_of e.now) m }
{
    if m == 1 {
        return true;
    }
    times(set, e, Times::from_value(m))
}

/// Whether an expression is a number that is a multiple.
fn is_number_times(e: &Expr, m: Times) -> bool
    ensures { result ≡ intervals.is_number_times (term_of e.now) (times_of m) }
{
    match e {
        Expr::Num(n, _) => m.divides(*n),
        Expr::Bool(_, _) => false,
        Expr::Var(_) => false,
        Expr::Cell(_, _) => false,
        Expr::Load(_) => false,
        Expr::Neg(_, _) => false,
        Expr::Not(_, _) => false,
        Expr::Cast { .. } => false,
        Expr::Bin(_, _, _, _) => false,
    }
}

fn is_number_power(n: i128, m: Times) -> bool
    ensures { (at : Span) → result ≡ intervals.is_power_times (num n at) (times_of m) }
{
    if n < 0 {
        false
    } else {
        m.divides_power(n as u128)
    }
}

/// Whether 2 to a written power is a multiple.
fn is_power_times(power: &Expr, m: Times) -> bool
    ensures { result ≡ intervals.is_power_times (term_of power.now) (times_of m) }
{
    match power {
        Expr::Num(n, _) => is_number_power(*n, m),
        Expr::Bool(_, _) => false,
        Expr::Var(_) => false,
        Expr::Cell(_, _) => false,
        Expr::Load(_) => false,
        Expr::Neg(_, _) => false,
        Expr::Not(_, _) => false,
        Expr::Cast { .. } => false,
        Expr::Bin(_, _, _, _) => false,
    }
}

/// Whether an expression is a multiple by what is known of its variables.
#[cycle(times)]
fn times<K: Knows>(set: &K, e: &Expr, m: Times) -> bool
    ensures { result ≡ intervals.multiple (K.given set.now) (K.facts set.now)
        (term_of e.now) (times_of m) }
{
    let mut rest = e;
    while let Expr::Bin(op, left, right, _) = rest {
        match settled(set, *op, left.get(), right.get(), m) {
            Some(answer) => return answer,
            None => rest = left.get(),
        }
    }
    single(set, rest, m)
}

/// The answer of an operation, where that of its left operand doesn't settle it.
#[cycle(times)]
fn settled<K: Knows>(set: &K, op: BinOp, left: &Expr, right: &Expr, m: Times) -> Option<bool>
    ensures { (x : Bool) → intervals.of_multiples op x (intervals.multiple (K.given set.now)
        (K.facts set.now) (term_of right.now) (times_of m)) (term_of left.now) (term_of right.now)
        (times_of m) ≡ unwrap_or result x }
{
    match op {
        BinOp::Add | BinOp::Sub => {
            if times(set, right, m) {
                None
            } else {
                Some(false)
            }
        }
        BinOp::Mul => {
            if times(set, right, m) {
                Some(true)
            } else {
                None
            }
        }
        BinOp::Shl => Some(is_power_times(right, m)),
        BinOp::And => Some(is_number_times(right, m)),
        _ => Some(false),
    }
}

fn single<K: Knows>(set: &K, e: &Expr, m: Times) -> bool
    requires { IsSingle e.now }
    ensures { result ≡ intervals.multiple (K.given set.now) (K.facts set.now)
        (term_of e.now) (times_of m) }
{
    match e {
        Expr::Num(n, _) => m.divides(*n),
        Expr::Bool(_, _) => false,
        Expr::Var(var) => set.is_multiple(var, m),
        Expr::Cell(_, _) => false,
        Expr::Load(_) => false,
        Expr::Neg(_, _) => false,
        Expr::Not(_, _) => false,
        Expr::Cast { .. } => false,
        Expr::Bin(_, _, _, _) => unreachable!(),
    }
}
