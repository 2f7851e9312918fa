//! Sums of variables, of scaled variables and of numbers.

ghost use Rattle.std.specs.Prelude.{◌≡◌, pos, ◌+ℤ◌, ◌-ℤ◌, IfOk, OnOk, Some, option_map};
ghost use Rattle.jz_tree.specs.Span.{Span};
ghost use Rattle.jz_tree.specs.LeftSides.{IsSingle};
ghost use Rattle.jz_meaning.specs.Values.{ref_of};
ghost use Rattle.jz_terms.specs.Terms.{bin, term_of};
ghost use Rattle.jz_alarms.specs.Conditions.{joined, sum_of};
ghost use Rattle.jz_wide.specs.Values.{sum};
ghost use Rattle.jz_inside.specs.InnerSums as inner;
ghost use Rattle.jz_inside.specs.InnerSums.{seen, if_sum, behind};

use jz_tree::{BinOp, Expr, Var};
use std::alloc::{AllocError, Global};

/// A variable that is scaled by a number.
#[derive(Clone, Copy)]
pub(crate) struct Scaled<'e> {
    pub(crate) var: &'e Var,
    pub(crate) by: u128,
}

/// A sum; of each kind of its parts the last one of the text comes first.
#[derive(Drop)]
pub(crate) struct Sum<'e> {
    pub(crate) plain: Vec<&'e Var>,
    pub(crate) scaled: Vec<Scaled<'e>>,
    /// Numbers that are added.
    pub(crate) added: Vec<u128>,
    /// Numbers that are taken away.
    pub(crate) taken: Vec<u128>,
}

impl<'e> Sum<'e> {
    /// Nothing.
    pub(crate) fn new(alloc: Global) -> Sum<'e>
        ensures { seen result ≡ inner.nothing }
    {
        Sum {
            plain: Vec::new(alloc),
            scaled: Vec::new(alloc),
            added: Vec::new(alloc),
            taken: Vec::new(alloc),
        }
    }
}

/// Adds a number to those that are added, its amount to those that are taken away where it is below
/// 0.
fn add_number(more: &mut Vec<u128>, less: &mut Vec<u128>, n: i128) -> Result<(), AllocError>
    ensures { OnOk result (pos (sum more.new.items) -ℤ pos (sum less.new.items)
        ≡ (pos (sum more.old.items) -ℤ pos (sum less.old.items)) +ℤ n) }
{
    if n < 0 {
        less.push(n.unsigned_abs())?;
        return Ok(());
    }
    more.push(n.unsigned_abs())?;
    Ok(())
}

/// Adds an expression, if it is a sum; whether it is one.
#[cycle(sums)]
pub(crate) fn add_sum<'e>(sum: &mut Sum<'e>, e: &'e Expr) -> Result<bool, AllocError>
    ensures { IfOk result (λ yes. if_sum yes (seen sum.new)
        ≡ joined (sum_of (term_of e.now)) (Some (seen sum.old))) }
{
    let mut rest = e;
    while let Expr::Bin(op, left, right, _) = rest {
        let answer = add_behind(sum, *op, left.get(), right.get())?;
        match answer {
            Some(settled) => return Ok(settled),
            None => rest = left.get(),
        }
    }
    let answer = add_single(sum, rest)?;
    Ok(answer)
}

/// Adds what stands behind a left operand. The answer for the whole, where the left operand doesn't
/// settle it.
#[cycle(sums)]
fn add_behind<'e>(
    sum: &mut Sum<'e>,
    op: BinOp,
    left: &'e Expr,
    right: &'e Expr,
) -> Result<Option<bool>, AllocError>
    ensures { IfOk result (λ answer. (at : Span)
        → behind answer (sum_of (term_of left.now)) (seen sum.new)
        ≡ joined (sum_of (bin op (term_of left.now) (term_of right.now) at))
        (Some (seen sum.old))) }
{
    match join_of(op) {
        Join::Added => {
            let yes = add_sum(sum, right)?;
            Ok(unless_no(yes))
        }
        Join::Taken => {
            let yes = take_number(sum, right)?;
            Ok(unless_no(yes))
        }
        Join::Product => {
            let yes = add_product(sum, left, right)?;
            Ok(Some(yes))
        }
        Join::Nothing => Ok(Some(false)),
    }
}

/// How an operation joins a sum and its right operand.
#[derive(Clone, Copy)]
enum Join {
    Added,
    Taken,
    Product,
    Nothing,
}

fn join_of(op: BinOp) -> Join
    ensures { result ≡ inner.join_of op }
{
    match op {
        BinOp::Add => Join::Added,
        BinOp::Sub => Join::Taken,
        BinOp::Mul => Join::Product,
        _ => Join::Nothing,
    }
}

/// What is no sum settles that the whole is none.
fn unless_no(yes: bool) -> Option<bool>
    ensures { result ≡ inner.unless_no yes }
{
    if yes { None } else { Some(false) }
}

/// Takes an expression away, if it is a number; whether it is one.
fn take_number(sum: &mut Sum<'_>, e: &Expr) -> Result<bool, AllocError>
    ensures { IfOk result (λ yes. if_sum yes (seen sum.new)
        ≡ inner.taken_from (seen sum.old) (term_of e.now)) }
{
    match e {
        Expr::Num(n, _) => {
            add_number(&mut sum.taken, &mut sum.added, *n)?;
            Ok(true)
        }
        Expr::Bool(_, _) => Ok(false),
        Expr::Var(_) => Ok(false),
        Expr::Cell(_, _) => Ok(false),
        Expr::Load(_) => Ok(false),
        Expr::Neg(_, _) => Ok(false),
        Expr::Not(_, _) => Ok(false),
        Expr::Cast { .. } => Ok(false),
        Expr::Bin(_, _, _, _) => Ok(false),
    }
}

/// A number that is not negative.
fn factor(e: &Expr) -> Option<u128>
    ensures { result ≡ inner.factor (term_of e.now) }
{
    match e {
        Expr::Num(n, _) => factor_of(*n),
        Expr::Bool(_, _) => None,
        Expr::Var(_) => None,
        Expr::Cell(_, _) => None,
        Expr::Load(_) => None,
        Expr::Neg(_, _) => None,
        Expr::Not(_, _) => None,
        Expr::Cast { .. } => None,
        Expr::Bin(_, _, _, _) => None,
    }
}

fn factor_of(n: i128) -> Option<u128>
    ensures { result ≡ inner.factor_of n }
{
    if n < 0 { None } else { Some(n as u128) }
}

fn variable<'e>(e: &'e Expr) -> Option<&'e Var>
    ensures { option_map (λ v. ref_of v.now) result ≡ inner.variable (term_of e.now) }
{
    match e {
        Expr::Num(_, _) => None,
        Expr::Bool(_, _) => None,
        Expr::Var(var) => Some(var),
        Expr::Cell(_, _) => None,
        Expr::Load(_) => None,
        Expr::Neg(_, _) => None,
        Expr::Not(_, _) => None,
        Expr::Cast { .. } => None,
        Expr::Bin(_, _, _, _) => None,
    }
}

/// The one operand scaled by the other one.
fn scaled_by<'e>(number: &Expr, var: &'e Expr) -> Option<Scaled<'e>>
    ensures { option_map inner.scaled_of result
        ≡ inner.scaled (term_of number.now) (term_of var.now) }
{
    match factor(number) {
        None => None,
        Some(by) => match variable(var) {
            None => None,
            Some(var) => Some(Scaled { var, by }),
        },
    }
}

fn product<'e>(left: &'e Expr, right: &'e Expr) -> Option<Scaled<'e>>
    ensures { option_map inner.scaled_of result
        ≡ inner.product (term_of left.now) (term_of right.now) }
{
    match scaled_by(left, right) {
        None => scaled_by(right, left),
        Some(scaled) => Some(scaled),
    }
}

/// Adds a product, if it is a scaled variable; whether it is one.
fn add_product<'e>(sum: &mut Sum<'e>, left: &'e Expr, right: &'e Expr) -> Result<bool, AllocError>
    ensures { IfOk result (λ yes. if_sum yes (seen sum.new)
        ≡ joined (inner.of_product (inner.product (term_of left.now) (term_of right.now)))
        (Some (seen sum.old))) }
{
    match product(left, right) {
        None => Ok(false),
        Some(scaled) => {
            sum.scaled.push(scaled)?;
            Ok(true)
        }
    }
}

/// Adds an expression without an operation.
fn add_single<'e>(sum: &mut Sum<'e>, e: &'e Expr) -> Result<bool, AllocError>
    requires { IsSingle e.now }
    ensures { IfOk result (λ yes. if_sum yes (seen sum.new)
        ≡ joined (sum_of (term_of e.now)) (Some (seen sum.old))) }
{
    match e {
        Expr::Num(n, _) => {
            add_number(&mut sum.added, &mut sum.taken, *n)?;
            Ok(true)
        }
        Expr::Bool(_, _) => Ok(false),
        Expr::Var(var) => {
            sum.plain.push(var)?;
            Ok(true)
        }
        Expr::Cell(_, _) => Ok(false),
        Expr::Load(_) => Ok(false),
        Expr::Neg(_, _) => Ok(false),
        Expr::Not(_, _) => Ok(false),
        Expr::Cast { .. } => Ok(false),
        Expr::Bin(_, _, _, _) => unreachable!(),
    }
}
