//! What operations read, and what of it has to be public.

ghost use Rattle.std.specs.Prelude.{◌≡◌, IfOk, map, option_map};
ghost use Rattle.std.specs.Option.{option_copied};
ghost use Rattle.jz_tree.specs.Span.{Span as Place};
ghost use Rattle.jz_tree.specs.Spellings.{spelled as spelled_as};
ghost use Rattle.jz_meaning.specs.Assignments as assignments;
ghost use Rattle.jz_meaning.specs.Statements as statements;
ghost use Rattle.jz_terms.specs.Terms.{term_of};
ghost use Rattle.jz_labels.specs.Operations as plain;
ghost use Rattle.jz_labels.specs.Required.{begin_of};
ghost use Rattle.jz_required.specs.Readings as readings;
ghost use Rattle.jz_required.specs.Kept.{reading_of, demands_of};

use crate::found::{Found, both, cell, load, nothing, one, operation, place, require};
use crate::looking::look;
use crate::part::{Part, Reason, Required};
use jz_meaning::left_span;
use jz_tree::{BinOp, Expr, Intrinsic, Lval, Seq, Span, Text, divides, spelled};
use std::alloc::{AllocError, Global};

#[tactic(auto, using(crate::proofs::Assigning::last_is))]
fn last_left(to: &Seq<Lval>) -> Option<&Lval>
    ensures { option_copied result ≡ assignments.last_left to.now }
{
    to.as_slice().last()
}

/// A left side where it is read; `_` is not.
fn old_reads<'a>(alloc: Global, left: &'a Lval) -> Result<Option<Found<'a>>, AllocError>
    ensures { IfOk result (λ f. option_map reading_of f
        ≡ option_map (λ e. readings.reading (term_of e)) (assignments.as_expr left.now)) }
{
    match left {
        Lval::Skip(_) => Ok(None),
        Lval::Var(var) => {
            let found = one(alloc, Part::Scalar(var))?;
            Ok(Some(found))
        }
        Lval::Cell(var, index) => {
            let inner = look(alloc, index.get())?;
            let found = cell(alloc, var, inner, var.span)?;
            Ok(Some(found))
        }
        Lval::Store(access) => {
            let inner = look(alloc, access.at.get())?;
            let found = load(alloc, inner, access.span)?;
            Ok(Some(found))
        }
    }
}

/// `left op value`.
fn updated_reads<'a>(
    alloc: Global,
    left: &'a Lval,
    op: BinOp,
    value: &'a Expr,
) -> Result<Found<'a>, AllocError>
    ensures { IfOk result (λ f. reading_of f ≡ readings.all_readings
        (plain.read_if (assignments.updated (assignments.as_expr left.now) op value.now
        (assignments.left_span left.now)))) }
{
    let old = old_reads(alloc, left)?;
    match old {
        None => Ok(nothing(alloc)),
        Some(first) => {
            let second = look(alloc, value)?;
            let found = operation(divides(op), left_span(left), first, second)?;
            Ok(found)
        }
    }
}

/// The whole right side.
fn whole_reads<'a>(
    alloc: Global,
    last: Option<&'a Lval>,
    op: Option<BinOp>,
    value: &'a Expr,
) -> Result<Found<'a>, AllocError>
    ensures { IfOk result (λ f. reading_of f ≡ readings.all_readings
        (plain.read_if (assignments.whole_of (option_copied last.entry) op value.now))) }
{
    match op {
        None => {
            let found = look(alloc, value)?;
            Ok(found)
        }
        Some(op) => match last {
            None => Ok(nothing(alloc)),
            Some(left) => {
                let found = updated_reads(alloc, left, op, value)?;
                Ok(found)
            }
        },
    }
}

/// The old value of what a condition guards.
fn kept_reads<'a>(alloc: Global, last: Option<&'a Lval>) -> Result<Found<'a>, AllocError>
    ensures { IfOk result (λ f. reading_of f
        ≡ readings.all_readings (plain.old_of (option_copied last.entry))) }
{
    match last {
        None => Ok(nothing(alloc)),
        Some(left) => {
            let old = old_reads(alloc, left)?;
            match old {
                None => Ok(nothing(alloc)),
                Some(found) => Ok(found),
            }
        }
    }
}

/// The condition, and the old value.
fn guard_reads<'a>(
    alloc: Global,
    last: Option<&'a Lval>,
    cond: &'a Option<Expr>,
) -> Result<Found<'a>, AllocError>
    ensures { IfOk result (λ f. reading_of f
        ≡ readings.all_readings (plain.with_condition cond.now (option_copied last.entry))) }
{
    match cond {
        None => Ok(nothing(alloc)),
        Some(cond) => {
            let read = look(alloc, cond)?;
            let old = kept_reads(alloc, last)?;
            let found = both(read, old)?;
            Ok(found)
        }
    }
}

/// What an assignment reads before it writes: the right side, with an operation also the last left
/// side, and with a condition this and the old value.
pub fn assignment_reads<'a>(
    alloc: Global,
    to: &'a Seq<Lval>,
    op: Option<BinOp>,
    value: &'a Expr,
    cond: &'a Option<Expr>,
) -> Result<Found<'a>, AllocError>
    ensures { IfOk result (λ f. (at : Place) → reading_of f ≡ readings.right_reading
        (plain.plain_of (statements.assign to.now op value.now cond.now at))) }
{
    let last = last_left(to);
    let read = whole_reads(alloc, last, op, value)?;
    let guard = guard_reads(alloc, last, cond)?;
    let found = both(read, guard)?;
    Ok(found)
}

fn all_reads<'a>(alloc: Global, args: &'a Seq<Expr>) -> Result<Found<'a>, AllocError>
    ensures { IfOk result
        (λ f. reading_of f ≡ readings.all_readings (map term_of args.now)) }
{
    let mut found = nothing(alloc);
    for arg in args.as_slice() {
        let read = look(alloc, arg)?;
        found = both(found, read)?;
    }
    Ok(found)
}

fn division_at(name: &Text, at: Span) -> Option<Span>
    ensures { result ≡ plain.division_of (spelled_as name.now) at }
{
    match spelled(name.as_str()) {
        None => None,
        Some(instance) => match instance.name {
            Intrinsic::Div => Some(at),
            _ => None,
        },
    }
}

/// What an instruction at a place reads: its operands.
pub fn instruction_reads<'a>(
    alloc: Global,
    name: &Text,
    args: &'a Seq<Expr>,
    at: Span,
) -> Result<Found<'a>, AllocError>
    ensures { IfOk result (λ f. reading_of f ≡ readings.division_reading
        (plain.division_of (spelled_as name.now) at)
        (readings.all_readings (map term_of args.now))) }
{
    let found = all_reads(alloc, args)?;
    match division_at(name, at) {
        None => Ok(found),
        Some(span) => {
            let Found {
                parts,
                mut required,
            } = found;
            require(&mut required, &parts, span, Reason::Divide)?;
            Ok(Found { parts, required })
        }
    }
}

/// What has to be public of a left side: its index or its address.
pub fn left_demands<'a>(alloc: Global, left: &'a Lval) -> Result<Seq<Required<'a>>, AllocError>
    ensures { IfOk result (λ r. demands_of r ≡ readings.left_demands (plain.left_of left.now)) }
{
    match left {
        Lval::Skip(_) => Ok(Seq::new(alloc)),
        Lval::Var(_) => Ok(Seq::new(alloc)),
        Lval::Cell(var, index) => {
            let inner = look(alloc, index.get())?;
            let required = place(inner, var.span)?;
            Ok(required)
        }
        Lval::Store(access) => {
            let inner = look(alloc, access.at.get())?;
            let required = place(inner, access.span)?;
            Ok(required)
        }
    }
}

/// Where an expression begins.
fn begin(e: &Expr) -> Span
    ensures { result ≡ begin_of (term_of e.now) }
{
    match e {
        Expr::Num(_, span) => *span,
        Expr::Bool(_, span) => *span,
        Expr::Var(var) => var.span,
        Expr::Cell(var, _) => var.span,
        Expr::Load(access) => access.span,
        Expr::Neg(_, span) => *span,
        Expr::Not(_, span) => *span,
        Expr::Cast {
            size: _,
            signed: _,
            e: _,
            span,
        } => *span,
        Expr::Bin(_, _, _, span) => *span,
    }
}

/// What has to be public of the condition of an `if` or a `while`: all of it.
pub fn test_demands<'a>(alloc: Global, cond: &'a Expr) -> Result<Seq<Required<'a>>, AllocError>
    ensures { IfOk result (λ r. demands_of r ≡ readings.test_demands (term_of cond.now)) }
{
    let found = look(alloc, cond)?;
    let Found {
        parts,
        mut required,
    } = found;
    require(&mut required, &parts, begin(cond), Reason::Branch)?;
    Ok(required)
}
