//! The numbers that expressions without variables are, found without memory.

ghost use Rattle.std.specs.Prelude.{◌≡◌, ◌<◌, ◌^◌, ◌-◌};
ghost use Rattle.jz_integers.specs.Integers as values;
ghost use Rattle.jz_integers.specs.Integers.{plain_value};
ghost use Rattle.jz_integers.specs.InnerLeftSides.{left_of, left_at};

use crate::Constant;
use crate::inline::{is_settled, minus, on_both, opposite};
use jz_tree::{BinOp, Expr};

fn left(e: &Expr) -> &Expr
    ensures { result.now ≡ left_of e.now }
{
    match e {
        Expr::Bin(_, left, _, _) => left.get(),
        _ => e,
    }
}

#[tactic(auto, using(crate::proofs::StepLemmas::one_more))]
fn down(e: &Expr, steps: u32) -> &Expr
    ensures { result.now ≡ left_at steps e.now }
{
    let mut rest = e;
    for _step in 0..steps {
        rest = left(rest);
    }
    rest
}

/// How many operations stand on the left side, up to what may still be counted one further.
fn left_length(e: &Expr) -> u32
    ensures { result < 2 ^ 32 - 1 }
{
    let mut length = 0;
    let mut rest = e;
    while let Expr::Bin(_, left, _, _) = rest {
        if length == u32::MAX - 1 {
            return length;
        }
        length += 1;
        rest = left.get();
    }
    length
}

fn joined(op: BinOp, left: Option<Constant>, right: Option<Constant>) -> Option<Constant>
    ensures { result ≡ values.joined op left right }
{
    let left = left?;
    if is_settled(op, left) {
        return Some(left);
    }
    match right {
        None => None,
        Some(right) => on_both(op, left, right),
    }
}

/// The value of an expression, given that of the operand that stands some steps down its left side.
/// The lower half of the steps comes first, so the calls nest as deep as the number of steps has
/// bits.
#[cycle(written)]
fn climbed(e: &Expr, steps: u32, value: Option<Constant>) -> Option<Constant>
    requires { value ≡ plain_value (left_at steps e.now) }
    ensures { result ≡ plain_value e.now }
{
    if steps == 0 {
        return value;
    }
    if steps > 1 {
        let half = steps / 2;
        let middle = climbed(down(e, half), steps - half, value);
        return climbed(e, half, middle);
    }
    match e {
        Expr::Bin(op, _, right, _) => joined(*op, value, value_of(right.get())),
        _ => value,
    }
}

#[cycle(written)]
fn value_of(e: &Expr) -> Option<Constant>
    ensures { result ≡ plain_value e.now }
{
    match e {
        Expr::Num(n, _) => Some(Constant::Int(*n)),
        Expr::Bool(truth, _) => Some(Constant::Bool(*truth)),
        Expr::Var(_) => None,
        Expr::Cell(_, _) => None,
        Expr::Load(_) => None,
        Expr::Neg(e, _) => minus(value_of(e.get())),
        Expr::Not(e, _) => opposite(value_of(e.get())),
        Expr::Cast { .. } => None,
        Expr::Bin(_, left, _, _) => {
            let length = left_length(left.get());
            let first = value_of(down(left.get(), length));
            climbed(e, length + 1, first)
        }
    }
}

/// The number that an expression without variables is. None where a variable is asked for, or where
/// there is no value.
pub fn written_number(e: &Expr) -> Option<i128>
    ensures { result ≡ values.written_number e.now }
{
    match value_of(e) {
        Some(Constant::Int(n)) => Some(n),
        Some(Constant::Bool(_)) => None,
        None => None,
    }
}
