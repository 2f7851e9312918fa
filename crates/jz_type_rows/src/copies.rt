//! Where a statement would have to copy an array.

ghost use Rattle.std.specs.Prelude.{◌≡◌, ℕ, ◌++◌, List, map, flat_map, option_to_list, Some, IfOk};
ghost use Rattle.std.specs.Prelude.{OnOk};
ghost use Rattle.std.specs.Option.{option_copied};
ghost use Rattle.jz_type_names.specs.Order.{earliest, first_in};
ghost use Rattle.jz_type_names.specs.Parts.{layer_of};
ghost use Rattle.jz_type_names.specs.Kinds.{array_of};
ghost use Rattle.jz_type_rows.specs.InnerPairs.{pair_of};
ghost use Rattle.jz_type_rows.specs.InnerPassing.{passed_of};
ghost use Rattle.jz_type_rows.specs.InnerTables.{HasNumbers};
ghost use Rattle.jz_type_rows.specs.Copies.{passed_as, is_one, not_passed, gets_back, numbers_back};
ghost use Rattle.jz_type_rows.specs.Copies.{is_written_at, passed_at, passed_from, not_back};
ghost use Rattle.jz_type_rows.specs.Copies.{given_results};
ghost use Rattle.jz_type_rows.specs.Copies.{passed_wrongly, wrong_arguments, copied_by_call};
ghost use Rattle.jz_type_rows.specs.Copies.{copied_places};
ghost use Rattle.jz_type_rows.specs.Copies.{array_arg, array_left};

use crate::arrays::{array_args, array_lefts};
use crate::callee::Callee;
use crate::exports::is_exported;
use crate::pairs::{Pair, pairs};
use crate::tables::Numbers;
use crate::twice::passed_twice;
use jz_tree::{Expr, Lval, Rhs, Seq, Span, Stmt, StmtKind, Var};
use jz_type_names::{array_of, earlier_of, unless, whole_array};
use std::alloc::{AllocError, Global};

fn passed_as(args: &Seq<Expr>, number: Option<usize>) -> Option<&Var>
    ensures { option_copied result ≡ passed_as args.now number }
{
    match number {
        None => None,
        Some(number) => match args.get(number) {
            None => None,
            Some(arg) => array_of(arg),
        },
    }
}

fn is_one(array: Option<&Var>, var: &Var) -> bool
    ensures { result ≡ is_one (option_copied array.entry) var.now }
{
    match array {
        None => false,
        Some(array) => array.name == var.name,
    }
}

fn not_passed(args: &Seq<Expr>, number: Option<usize>, to: &Lval) -> Option<Span>
    ensures { result ≡ earliest (not_passed args.now (number, to.now)) }
{
    match whole_array(to) {
        None => None,
        Some(array) => unless(is_one(passed_as(args, number), array), array.span),
    }
}

fn not_passed_among(args: &Seq<Expr>, given: &[Pair<'_, Option<usize>, Lval>]) -> Option<Span>
    ensures { result ≡ first_in (not_passed args.now) (map pair_of given.now) }
{
    let mut first = None;
    for pair in given {
        first = earlier_of(first, not_passed(args, *pair.left, pair.right));
    }
    first
}

fn gets_back(args: &Seq<Expr>, number: Option<usize>, to: &Lval) -> Option<usize>
    ensures { result ≡ gets_back args.now (number, to.now) }
{
    match to {
        Lval::Var(var) => if is_one(passed_as(args, number), var) {
            number
        } else {
            None
        },
        _ => None,
    }
}

fn add_number(list: &mut Vec<usize>, number: Option<usize>) -> Result<(), AllocError>
    ensures { OnOk result (list.new.items ≡ list.old.items ++ option_to_list number) }
{
    if let Some(number) = number {
        list.push(number)?;
    }
    Ok(())
}

fn numbers_back(
    alloc: Global,
    args: &Seq<Expr>,
    given: &[Pair<'_, Option<usize>, Lval>],
) -> Result<Vec<usize>, AllocError>
    ensures { IfOk result (λ ns. ns.items ≡ numbers_back args.now (map pair_of given.now)) }
{
    let mut numbers = Vec::new(alloc);
    for pair in given {
        add_number(&mut numbers, gets_back(args, *pair.left, pair.right))?;
    }
    Ok(numbers)
}

/// An array that is passed, and the number of the parameter that it is there.
#[derive(Clone, Copy)]
pub(crate) struct Argument<'a> {
    pub(crate) number: usize,
    pub(crate) array: &'a Var,
}

fn add_passed<'a>(
    list: &mut Vec<Argument<'a>>,
    number: usize,
    arg: &'a Expr,
) -> Result<(), AllocError>
    ensures { let more = passed_at number (array_of arg.now) in
        OnOk result (map passed_of list.new.items ≡ map passed_of list.old.items ++ more) }
{
    if let Some(array) = array_of(arg) {
        list.push(Argument { number, array })?;
    }
    Ok(())
}

fn passed(alloc: Global, args: &Seq<Expr>) -> Result<Vec<Argument<'_>>, AllocError>
    ensures { IfOk result (λ ps. map passed_of ps.items ≡ passed_from 0 args.now) }
{
    let mut list = Vec::new(alloc);
    for (number, arg) in args.as_slice().iter().enumerate() {
        add_passed(&mut list, number, arg)?;
    }
    Ok(list)
}

pub(crate) fn is_written_at(callee: &Callee, number: usize) -> bool
    ensures { result ≡ is_written_at callee.now.written number }
{
    match callee.written.get(number) {
        None => false,
        Some(written) => *written,
    }
}

fn not_back(callee: &Callee, back: &Numbers, passed: &Argument<'_>) -> Option<Span>
    ensures { (ns : List ℕ) → HasNumbers back.now ns
        → result ≡ earliest (not_back callee.now.written ns (passed_of passed.now)) }
{
    let fine = !is_written_at(callee, passed.number) || back.has(passed.number);
    unless(fine, passed.array.span)
}

fn not_back_among(callee: &Callee, back: &Numbers, passed: &[Argument<'_>]) -> Option<Span>
    ensures { (ns : List ℕ) → HasNumbers back.now ns
        → result ≡ first_in (not_back callee.now.written ns) (map passed_of passed.now) }
{
    let mut first = None;
    for one in passed {
        first = earlier_of(first, not_back(callee, back, one));
    }
    first
}

fn passed_wrongly(
    alloc: Global,
    callee: &Callee,
    results: &[Pair<'_, Option<usize>, Lval>],
    args: &Seq<Expr>,
) -> Result<Option<Span>, AllocError>
    ensures { (to : List Lval) → map pair_of results.now ≡ given_results callee.now to
        → IfOk result (λ at. at ≡ earliest (passed_wrongly callee.now to args.now)) }
{
    let passed = passed(alloc, args)?;
    let numbers = numbers_back(alloc, args, results)?;
    let back = Numbers::of(alloc, &numbers)?;
    let not_back = not_back_among(callee, &back, &passed);
    let twice = passed_twice(alloc, callee, &passed)?;
    Ok(earlier_of(not_back, twice))
}

fn wrong_arguments(
    alloc: Global,
    callee: &Callee,
    results: &[Pair<'_, Option<usize>, Lval>],
    args: &Seq<Expr>,
) -> Result<Option<Span>, AllocError>
    ensures { (to : List Lval) → map pair_of results.now ≡ given_results callee.now to
        → IfOk result (λ at. at ≡ earliest (wrong_arguments callee.now to args.now)) }
{
    if is_exported(callee.kind) {
        Ok(array_args(args))
    } else {
        passed_wrongly(alloc, callee, results, args)
    }
}

fn copied_with(
    alloc: Global,
    callee: &Callee,
    to: &Seq<Lval>,
    args: &Seq<Expr>,
) -> Result<Option<Span>, AllocError>
    ensures { IfOk result (λ at. at ≡ earliest (copied_by_call (Some callee.now) to.now args.now)) }
{
    let results = pairs(alloc, callee.returned.as_slice(), to.as_slice())?;
    let arguments = wrong_arguments(alloc, callee, &results, args)?;
    Ok(earlier_of(not_passed_among(args, &results), arguments))
}

fn copied_by_call(
    alloc: Global,
    callee: Option<&Callee>,
    to: &Seq<Lval>,
    args: &Seq<Expr>,
) -> Result<Option<Span>, AllocError>
    ensures { IfOk result
        (λ at. at ≡ earliest (copied_by_call (option_copied callee.entry) to.now args.now)) }
{
    match callee {
        None => Ok(None),
        Some(callee) => copied_with(alloc, callee, to, args),
    }
}

#[tactic(auto, using(jz_type_names::proofs::Earliest::joining))]
fn given_to_intrinsic(to: &Seq<Lval>, args: &Seq<Expr>) -> Option<Span>
    ensures { result ≡ earliest (flat_map array_left to.now ++ flat_map array_arg args.now) }
{
    earlier_of(array_lefts(to), array_args(args))
}

/// The first name at which a statement would have to copy an array: it assigns an array, or passes
/// one to an intrinsic or to an export function; an array that the callee writes is not given back
/// to the same variable, or is passed twice; what is given back is not the array that was passed.
/// Of a call the function is given; where there is none nothing is asked.
pub fn copied(
    alloc: Global,
    callee: Option<&Callee>,
    stmt: &Stmt,
) -> Result<Option<Span>, AllocError>
    ensures { IfOk result
        (λ at. at ≡ earliest (copied_places (option_copied callee.entry) (layer_of stmt.now))) }
{
    let StmtKind::Assign {
        to,
        op: _,
        rhs,
        cond: _,
    } = &stmt.kind
    else {
        return Ok(None);
    };
    match rhs {
        Rhs::Value(_) => Ok(array_lefts(to)),
        Rhs::Call(_, args, _) => copied_by_call(alloc, callee, to, args),
        Rhs::Intrinsic(_, args, _) => Ok(given_to_intrinsic(to, args)),
    }
}
