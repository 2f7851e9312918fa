//! Expressions whose inline parts are their values, by a loop down the left side of an expression.

ghost use Rattle.std.specs.Prelude.{◌≡◌, IfOk, true, false, map, option_map};
ghost use Rattle.std.specs.List.{list_all};
ghost use Rattle.jz_tree.specs.LeftSides.{IsSingle};
ghost use Rattle.jz_tree.specs.declared.expr.Expr.{Expr as Tree};
ghost use Rattle.jz_tree.specs.declared.expr.Expr.TheVariants as expr;
ghost use Rattle.jz_integers.specs.Integers.{KnownNumbers};
ghost use Rattle.jz_integers.specs.declared.constant.Constant.TheVariants as constant;
ghost use Rattle.jz_unroll.specs.Values.{with_values as values_of, access_with_values};
ghost use Rattle.jz_unroll.specs.Values.{left_with_values as left_values_of};
ghost use Rattle.jz_unroll.specs.Values.{has_values, access_has_values, left_has_values};
ghost use Rattle.jz_unroll.specs.Values.{InlineNames, is_inline_var, if_has_values};
ghost use Rattle.jz_unroll.specs.Unrolling.{HasValue};
ghost use Rattle.jz_unrolling_values.specs.InlineNames.{names_in};
ghost use Rattle.jz_unrolling_values.specs.Numbers.{numbers_in};
ghost use Rattle.jz_tree.specs.Failures.{IfAnswered};
ghost use Rattle.jz_unrolling_values.specs.Parts.{on_left, IsPart, IsValued};
ghost use Rattle.jz_unrolling_values.specs.Refusals.{OrElse, is_part, NeverNumber};

use crate::inline_vars::InlineVars;
use crate::known::Known;
use crate::parts::{Part, join};
use jz_integers::{Constant, constant_of, minus, opposite};
use jz_tree::{Access, BinOp, Boxed, Expr, Failure, Lval, Seq, Size, Span, Var};
use jz_type_names::{is_inline_int, known, span_of};
use std::alloc::{AllocError, Global};

/// What the values of inline expressions are found by.
#[derive(Clone, Copy)]
pub struct Values<'a> {
    pub alloc: Global,
    pub vars: &'a InlineVars,
    pub known: &'a Known,
}

/// An operation whose left operand is not there yet.
#[derive(Drop)]
pub(crate) struct Waiting<'a> {
    pub op: BinOp,
    pub right: &'a Expr,
    pub span: Span,
}

/// The operations of a left side from the outermost, and the operand where it ends.
#[derive(Drop)]
pub(crate) struct Side<'a> {
    pub waiting: Vec<Waiting<'a>>,
    pub first: &'a Expr,
}

fn left_side<'a>(alloc: Global, expr: &'a Expr) -> Result<Side<'a>, AllocError>
    ensures whole { IfOk result (λ side. on_left side.waiting.items side.first.now ≡ expr.now) }
    ensures single { IfOk result (λ side. IsSingle side.first.now) }
{
    let mut waiting = Vec::new(alloc);
    let mut first = expr;
    while let Expr::Bin(op, left, right, span) = first {
        waiting.push(Waiting {
            op: *op,
            right: right.get(),
            span: *span,
        })?;
        first = left.get();
    }
    Ok(Side { waiting, first })
}

/// An expression as a part. Refused where an inline part that is none of a larger one has no value,
/// and where what is inline and what is not are mixed up.
#[cycle(part)]
pub(crate) fn part_of(values: &Values<'_>, expr: &Expr) -> Result<Part, Failure<Span>>
    ensures { let names = names_in values.now.vars.now in
        let e = numbers_in values.now.known.now in
        IfAnswered result (OrElse (IsPart names e expr.now)
        (is_part names e expr.now ≡ false)) }
{
    let Side { mut waiting, first } = left_side(values.alloc, expr)?;
    let mut part = single_part(values, first)?;
    while let Some(Waiting { op, right, span }) = waiting.pop() {
        let right = part_of(values, right)?;
        part = join(values.alloc, op, part, right, span)?;
    }
    Ok(part)
}

#[cycle(part)]
fn single_part(values: &Values<'_>, expr: &Expr) -> Result<Part, Failure<Span>>
    requires { IsSingle expr.now }
    ensures { let names = names_in values.now.vars.now in
        let e = numbers_in values.now.known.now in
        IfAnswered result (OrElse (IsPart names e expr.now)
        (is_part names e expr.now ≡ false)) }
{
    match expr {
        Expr::Num(n, span) => Ok(Part::Inline(Some(Constant::Int(*n)), *span)),
        Expr::Bool(truth, span) => Ok(Part::Inline(Some(Constant::Bool(*truth)), *span)),
        Expr::Var(var) => {
            let part = variable_part(values, var)?;
            Ok(part)
        }
        Expr::Cell(var, at) => {
            let array = plain_variable(values, var)?;
            let at = boxed_with_values(values, at)?;
            Ok(Part::Plain(Expr::Cell(array, at)))
        }
        Expr::Load(access) => {
            let access = access_of(values, access)?;
            Ok(Part::Plain(Expr::Load(access)))
        }
        Expr::Neg(e, span) => {
            let operand = part_of(values, e.get())?;
            let part = negated_part(values.alloc, operand, *span)?;
            Ok(part)
        }
        Expr::Not(e, span) => {
            let operand = part_of(values, e.get())?;
            let part = inverted_part(values.alloc, operand, *span)?;
            Ok(part)
        }
        Expr::Cast {
            size,
            signed,
            e,
            span,
        } => {
            let e = boxed_with_values(values, e)?;
            Ok(converted_part(*size, *signed, e, *span))
        }
        Expr::Bin(_, _, _, _) => unreachable!(),
    }
}

#[cycle(part)]
fn boxed_with_values(values: &Values<'_>, expr: &Boxed<Expr>) -> Result<Boxed<Expr>, Failure<Span>>
    ensures { let names = names_in values.now.vars.now in
        let e = numbers_in values.now.known.now in
        IfAnswered result (OrElse (IsValued names e expr.now)
        (has_values names e expr.now ≡ false)) }
{
    let part = part_of(values, expr.get())?;
    let whole = part.into_expr()?;
    let boxed = Boxed::new(values.alloc, whole)?;
    Ok(boxed)
}

#[cycle(part)]
fn access_of(values: &Values<'_>, access: &Access) -> Result<Access, Failure<Span>>
    ensures copy { IfOk result (λ y. y ≡ access_with_values (numbers_in values.now.known.now)
        access.now) }
    ensures known { let names = names_in values.now.vars.now in
        let has = access_has_values names (numbers_in values.now.known.now) access.now in
        IfAnswered result (OrElse (λ y. has ≡ true) (has ≡ false)) }
{
    let at = boxed_with_values(values, &access.at)?;
    Ok(Access {
        size: access.size,
        at,
        unaligned: access.unaligned,
        span: access.span,
    })
}

fn variable_part(values: &Values<'_>, var: &Var) -> Result<Part, Failure<Span>>
    ensures { let names = names_in values.now.vars.now in
        let e = numbers_in values.now.known.now in
        IfAnswered result (OrElse (IsPart names e (expr.Var var.now))
        (is_part names e (expr.Var var.now) ≡ false)) }
{
    if !is_inline_int(known(var)) {
        let var = plain_variable(values, var)?;
        return Ok(Part::Plain(Expr::Var(var)));
    }
    match var.cell {
        Some(_) => Err(Failure::Refused(var.span)),
        None => {
            let value = constant_of(values.known.number(&var.name, var.copy));
            Ok(Part::Inline(value, var.span))
        }
    }
}

/// A variable that is not inline.
fn plain_variable(values: &Values<'_>, var: &Var) -> Result<Var, Failure<Span>>
    ensures copy { IfOk result (λ copy. copy ≡ var.now) }
    ensures plain { let inline = is_inline_var (names_in values.now.vars.now) var.now in
        IfAnswered result (OrElse (λ copy. inline ≡ false) (inline ≡ true)) }
{
    if values.vars.has(&var.name, var.copy) {
        return Err(Failure::Refused(var.span));
    }
    let copy = var.copy(values.alloc)?;
    Ok(copy)
}

fn negated_part(alloc: Global, operand: Part, span: Span) -> Result<Part, AllocError>
    ensures { (names : InlineNames) (e : KnownNumbers) (x : Tree) → IsPart names e x operand
        → IfOk result (IsPart names e (expr.Neg x span)) }
{
    match operand {
        Part::Inline(value, _) => Ok(Part::Inline(minus(value), span)),
        Part::Plain(e) => {
            let e = Boxed::new(alloc, e)?;
            Ok(Part::Plain(Expr::Neg(e, span)))
        }
    }
}

fn inverted_part(alloc: Global, operand: Part, span: Span) -> Result<Part, AllocError>
    ensures { (names : InlineNames) (e : KnownNumbers) (x : Tree) → IsPart names e x operand
        → IfOk result (IsPart names e (expr.Not x span)) }
{
    match operand {
        Part::Inline(value, _) => Ok(Part::Inline(opposite(value), span)),
        Part::Plain(e) => {
            let e = Boxed::new(alloc, e)?;
            Ok(Part::Plain(Expr::Not(e, span)))
        }
    }
}

/// A cast, which is never inline.
fn converted_part(size: Size, signed: bool, inner: Boxed<Expr>, span: Span) -> Part
    ensures { (names : InlineNames) (e : KnownNumbers) (x : Tree) → IsValued names e x inner
        → IsPart names e (expr.Cast size signed x span) result }
{
    Part::Plain(Expr::Cast {
        size,
        signed,
        e: inner,
        span,
    })
}

/// An expression whose inline parts are their values. Refused where one has none.
pub fn with_values(values: &Values<'_>, expr: &Expr) -> Result<Expr, Failure<Span>>
    ensures { let names = names_in values.now.vars.now in
        let e = numbers_in values.now.known.now in
        IfAnswered result (OrElse (IsValued names e expr.now)
        (has_values names e expr.now ≡ false)) }
{
    let part = part_of(values, expr)?;
    let whole = part.into_expr()?;
    Ok(whole)
}

/// A left side whose inline parts are their values. Refused where one has none, or where it is an
/// inline variable.
fn left_with_values(values: &Values<'_>, lval: &Lval) -> Result<Lval, Failure<Span>>
    ensures copy { IfOk result (λ y. y ≡ left_values_of (numbers_in values.now.known.now)
        lval.now) }
    ensures known { let names = names_in values.now.vars.now in
        let has = left_has_values names (numbers_in values.now.known.now) lval.now in
        IfAnswered result (OrElse (λ y. has ≡ true) (has ≡ false)) }
{
    match lval {
        Lval::Skip(span) => Ok(Lval::Skip(*span)),
        Lval::Var(var) => {
            if is_inline_int(known(var)) {
                return Err(Failure::Refused(var.span));
            }
            let var = plain_variable(values, var)?;
            Ok(Lval::Var(var))
        }
        Lval::Cell(var, at) => {
            let array = plain_variable(values, var)?;
            let at = boxed_with_values(values, at)?;
            Ok(Lval::Cell(array, at))
        }
        Lval::Store(access) => {
            let access = access_of(values, access)?;
            Ok(Lval::Store(access))
        }
    }
}

/// Left sides in their order.
pub fn lefts_with_values(values: &Values<'_>, lvals: &Seq<Lval>) -> Result<Seq<Lval>, Failure<Span>>
    ensures copy { IfOk result (λ ys. ys ≡ map (left_values_of (numbers_in values.now.known.now))
        lvals.now) }
    ensures known { let has = left_has_values (names_in values.now.vars.now)
        (numbers_in values.now.known.now) in
        let all = list_all has lvals.now in
        IfAnswered result (OrElse (λ ys. all ≡ true) (all ≡ false)) }
{
    let mut lefts = Seq::new(values.alloc);
    for lval in lvals.as_slice() {
        let left = left_with_values(values, lval)?;
        lefts.push(left)?;
    }
    Ok(lefts)
}

/// Expressions in their order.
pub fn all_with_values(values: &Values<'_>, exprs: &Seq<Expr>) -> Result<Seq<Expr>, Failure<Span>>
    ensures copy { IfOk result (λ ys. ys ≡ map (values_of (numbers_in values.now.known.now))
        exprs.now) }
    ensures known { let has = has_values (names_in values.now.vars.now)
        (numbers_in values.now.known.now) in
        let all = list_all has exprs.now in
        IfAnswered result (OrElse (λ ys. all ≡ true) (all ≡ false)) }
{
    let mut all = Seq::new(values.alloc);
    for expr in exprs.as_slice() {
        let whole = with_values(values, expr)?;
        all.push(whole)?;
    }
    Ok(all)
}

/// The condition of an assignment, if it has one.
pub fn condition_with_values(
    values: &Values<'_>,
    cond: &Option<Expr>,
) -> Result<Option<Expr>, Failure<Span>>
    ensures copy { IfOk result (λ y. y ≡ option_map (values_of (numbers_in values.now.known.now))
        cond.now) }
    ensures known { let names = names_in values.now.vars.now in
        let has = if_has_values names (numbers_in values.now.known.now) cond.now in
        IfAnswered result (OrElse (λ y. has ≡ true) (has ≡ false)) }
{
    match cond {
        None => Ok(None),
        Some(expr) => {
            let whole = with_values(values, expr)?;
            Ok(Some(whole))
        }
    }
}

/// The number that an inline expression is. Refused where it is none.
pub fn number_of(values: &Values<'_>, expr: &Expr) -> Result<i128, Failure<Span>>
    ensures { let e = numbers_in values.now.known.now in
        IfAnswered result (OrElse (λ n. HasValue e expr.now (constant.Int n))
        (NeverNumber e expr.now)) }
{
    match part_of(values, expr)? {
        Part::Inline(Some(Constant::Int(n)), _) => Ok(n),
        Part::Inline(Some(Constant::Bool(_)), span) => Err(Failure::Refused(span)),
        Part::Inline(None, span) => Err(Failure::Refused(span)),
        Part::Plain(_) => Err(Failure::Refused(span_of(expr))),
    }
}
