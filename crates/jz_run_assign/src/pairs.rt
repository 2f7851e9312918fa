//! Two results: a carry or a borrow and a word, or the high and the low word of a product.

ghost use Rattle.std.specs.Prelude.{◌≡◌, ◌*◌, ◌/◌, ◌%◌, Some, IfOk, List, ℕ};
ghost use Rattle.jz_tree.specs.declared.expr.Expr.TheViews.{out-Expr};
ghost use Rattle.jz_words.specs.declared.size.Size.{Size};
ghost use Rattle.jz_words.specs.Sizes.{modulus};
ghost use Rattle.jz_meaning.specs.Attempts.{did, numbers_first};
ghost use Rattle.jz_meaning.specs.States as states;
ghost use Rattle.jz_meaning.specs.Stores.{state_of};
ghost use Rattle.jz_meaning.specs.Assignments as assignments;
ghost use Rattle.jz_run_assign.specs.Answers.{pair_in, GivesBits, GivesResults};
ghost use Rattle.jz_run_assign.specs.InnerRights.{operand_of, right_side, IsCarry};
ghost use Rattle.jz_run_assign.specs.InnerPairs.{two_from, three_from, results_of_pair, results_or};

use crate::operands::{truth_in, word_at, word_in};
use crate::reading::operand;
use crate::right::{Operand, Right};
use jz_meaning::{State, Stuck, Value, is_flag, missing};
use jz_tree::{BinOp, Expr, Failure, Seq, Span, carries};
use jz_words::{Size, Word, add_carry, mul_wide, sub_borrow};

/// An operation with two results, `left op right` or `left op right op flag`.
#[derive(Clone, Copy)]
enum Pair<'a> {
    Two {
        op: BinOp,
        left: Operand<'a>,
        right: &'a Expr,
        span: Span,
    },
    Three {
        op: BinOp,
        left: Operand<'a>,
        right: &'a Expr,
        flag: &'a Expr,
        span: Span,
    },
}

/// `left op flag` with two results, where the left operand is the sum or difference of two.
fn with_flag<'a>(op: BinOp, left: &'a Expr, flag: &'a Expr, span: Span) -> Result<Pair<'a>, Stuck>
    ensures { (s : Size) (st : states.State) → results_or s st result ≡ assignments.with_three op
        (out-Expr left.now) left.now flag.now span s st }
{
    match left {
        Expr::Bin(inner, left, right, _) => {
            if carries(op, *inner) {
                Ok(Pair::Three {
                    op,
                    left: Operand::Value(left.get()),
                    right: right.get(),
                    flag,
                    span,
                })
            } else {
                Err(missing(span))
            }
        }
        Expr::Num(_, _) => Err(missing(span)),
        Expr::Bool(_, _) => Err(missing(span)),
        Expr::Var(_) => Err(missing(span)),
        Expr::Cell(_, _) => Err(missing(span)),
        Expr::Load(_) => Err(missing(span)),
        Expr::Neg(_, _) => Err(missing(span)),
        Expr::Not(_, _) => Err(missing(span)),
        Expr::Cast { .. } => Err(missing(span)),
    }
}

fn pair_of_expr(e: &Expr, span: Span) -> Result<Pair<'_>, Stuck>
    ensures { (s : Size) (st : states.State) → results_or s st result ≡ assignments.two_of
        (out-Expr e.now)
        span (Some s) st }
{
    match e {
        Expr::Bin(op, left, right, inner) => {
            if is_flag(right.get()) {
                with_flag(*op, left.get(), right.get(), *inner)
            } else {
                Ok(Pair::Two {
                    op: *op,
                    left: Operand::Value(left.get()),
                    right: right.get(),
                    span: *inner,
                })
            }
        }
        Expr::Num(_, _) => Err(missing(span)),
        Expr::Bool(_, _) => Err(missing(span)),
        Expr::Var(_) => Err(missing(span)),
        Expr::Cell(_, _) => Err(missing(span)),
        Expr::Load(_) => Err(missing(span)),
        Expr::Neg(_, _) => Err(missing(span)),
        Expr::Not(_, _) => Err(missing(span)),
        Expr::Cast { .. } => Err(missing(span)),
    }
}

/// The operation that a right side is; stuck for Init where it has not two results.
fn pair_of<'a>(right: Right<'a>, span: Span) -> Result<Pair<'a>, Stuck>
    requires { IsCarry right }
    ensures { (s : Size) (st : states.State) → results_or s st result ≡ assignments.two_of
        (out-Expr (right_side right.entry)) span (Some s) st }
{
    match right {
        Right::Plain(e) => pair_of_expr(e, span),
        Right::Update {
            op,
            left,
            right,
            span,
        } => {
            if is_flag(right) {
                Err(missing(span))
            } else {
                Ok(Pair::Two {
                    op,
                    left: Operand::Old(left),
                    right,
                    span,
                })
            }
        }
        Right::Carry {
            op,
            inner: _,
            left,
            right,
            flag,
            span,
        } => Ok(Pair::Three {
            op,
            left: Operand::Old(left),
            right,
            flag,
            span,
        }),
    }
}

fn high_word(a: Word, b: Word) -> Word
    requires { a.size ≡ b.size }
    ensures size { result.size ≡ a.size }
    ensures bits { result.bits ≡ a.bits * b.bits / modulus a.size }
{
    let high = mul_wide(a, b) / a.size().modulus();
    Word::new(a.size(), high as u64)
}

fn low_word(a: Word, b: Word) -> Word
    requires { a.size ≡ b.size }
    ensures size { result.size ≡ a.size }
    ensures bits { result.bits ≡ a.bits * b.bits % modulus a.size }
{
    let low = mul_wide(a, b) % a.size().modulus();
    Word::new(a.size(), low as u64)
}

/// The results in the order of their left sides.
fn two_values(op: BinOp, span: Span, a: Word, b: Word, flag: bool) -> Result<(Value, Value), Stuck>
    requires { a.size ≡ b.size }
    ensures { (ns : List ℕ) → did ns (pair_in result) ≡ numbers_first ns
        (assignments.two_results op span a.size a.bits b.bits flag) }
{
    match op {
        BinOp::Add => {
            let (sum, carry) = add_carry(a, b, flag);
            Ok((Value::Bool(carry), Value::Word(sum)))
        }
        BinOp::Sub => {
            let (difference, borrow) = sub_borrow(a, b, flag);
            Ok((Value::Bool(borrow), Value::Word(difference)))
        }
        BinOp::Mul => Ok((Value::Word(high_word(a, b)), Value::Word(low_word(a, b)))),
        _ => Err(missing(span)),
    }
}

fn two_results(
    op: BinOp,
    span: Span,
    a: Word,
    b: Word,
    flag: bool,
    out: &Seq<u64>,
) -> Result<Seq<Option<Value>>, Failure<Stuck>>
    requires { a.size ≡ b.size }
    ensures { GivesResults result out.now out.now
        (assignments.two_results op span a.size a.bits b.bits flag) }
{
    let (first, second) = two_values(op, span, a, b, flag)?;
    let results = Seq::from_slice(out.allocator(), &[Some(first), Some(second)])?;
    Ok(results)
}

/// An operand as a word.
fn operand_word(
    span: Span,
    size: Size,
    from: Operand<'_>,
    state: &State,
    out: &mut Seq<u64>,
) -> Result<Word, Failure<Stuck>>
    ensures bits { GivesBits result out.old out.new
        (assignments.word_in span size (operand_of from.entry) (state_of state.now)) }
    ensures size { IfOk result (λ w. w.size ≡ size) }
{
    let value = operand(from, Some(size), state, out)?;
    let word = word_at(span, size, value)?;
    Ok(word)
}

/// `left op right op flag`, where the first operand is this word.
fn of_three(
    op: BinOp,
    left: Word,
    right: &Expr,
    flag: &Expr,
    span: Span,
    state: &State,
    out: &mut Seq<u64>,
) -> Result<Seq<Option<Value>>, Failure<Stuck>>
    ensures { GivesResults result out.old out.new
        (three_from op span left.size left.bits right.now flag.now (state_of state.now)) }
{
    let right = word_in(span, left.size(), right, state, out)?;
    let flag = truth_in(span, flag, state, out)?;
    let results = two_results(op, span, left, right, flag, out)?;
    Ok(results)
}

/// `left op right`, where the first operand is this word.
fn of_two(
    op: BinOp,
    left: Word,
    right: &Expr,
    span: Span,
    state: &State,
    out: &mut Seq<u64>,
) -> Result<Seq<Option<Value>>, Failure<Stuck>>
    ensures { GivesResults result out.old out.new
        (two_from op span left.size left.bits right.now (state_of state.now)) }
{
    let right = word_in(span, left.size(), right, state, out)?;
    let results = two_results(op, span, left, right, false, out)?;
    Ok(results)
}

fn of_pair(
    pair: Pair<'_>,
    size: Size,
    state: &State,
    out: &mut Seq<u64>,
) -> Result<Seq<Option<Value>>, Failure<Stuck>>
    ensures { GivesResults result out.old out.new
        (results_of_pair pair.entry size (state_of state.now)) }
{
    match pair {
        Pair::Two {
            op,
            left,
            right,
            span,
        } => {
            let left = operand_word(span, size, left, state, out)?;
            let results = of_two(op, left, right, span, state, out)?;
            Ok(results)
        }
        Pair::Three {
            op,
            left,
            right,
            flag,
            span,
        } => {
            let left = operand_word(span, size, left, state, out)?;
            let results = of_three(op, left, right, flag, span, state, out)?;
            Ok(results)
        }
    }
}

/// The two results of a right side, of this size; stuck for Init where it has not two.
pub(crate) fn pair_results(
    right: Right<'_>,
    span: Span,
    size: Option<Size>,
    state: &State,
    out: &mut Seq<u64>,
) -> Result<Seq<Option<Value>>, Failure<Stuck>>
    requires { IsCarry right }
    ensures { GivesResults result out.old out.new
        (assignments.two_of (out-Expr (right_side right.entry)) span size (state_of state.now)) }
{
    match size {
        None => Err(Failure::Refused(missing(span))),
        Some(size) => {
            let pair = pair_of(right, span)?;
            let results = of_pair(pair, size, state, out)?;
            Ok(results)
        }
    }
}
