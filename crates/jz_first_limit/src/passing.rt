//! What a call copies.

ghost use Rattle.std.specs.Prelude.{◌≡◌, IfOk, OnOk};
ghost use Rattle.jz_tree.specs.Span.{Span as Place};
ghost use Rattle.jz_limits.specs.InnerKnown.{numbers_of};
ghost use Rattle.jz_limits.specs.InnerLooked.{first};
ghost use Rattle.jz_limits.specs.Walks as walks;
ghost use Rattle.jz_limits.specs.Walks.{argument_limits, one_argument, one_result, result_limits};
ghost use Rattle.jz_limits.specs.Walks.{given_limits, with_argument, with_arguments};
ghost use Rattle.jz_meaning.specs.Values.{ref_of};

use jz_integers::inline_value;
use jz_limits::{Known, Limit, ask_argument, ask_result, is_int, the_number};
use jz_meaning::{Kind, kind_of};
use jz_tree::{Expr, Lval, Param, Seq, Var};
use std::alloc::{AllocError, Global};

fn is_array(var: &Var) -> bool
    ensures { result ≡ walks.is_array (ref_of var.now).kind }
{
    match kind_of(var) {
        Kind::Array(_, _) => true,
        Kind::Undeclared => false,
        Kind::Int => false,
        Kind::Bool => false,
        Kind::Word(_) => false,
    }
}

/// The first limit of one argument; an array is not copied.
fn ask_one_argument(
    alloc: Global,
    known: &Known,
    param: &Var,
    arg: &Expr,
) -> Result<Option<Limit>, AllocError>
    ensures { (at : Place) →
        let limits = one_argument (numbers_of known.now) at param.now arg.now in
        IfOk result (λ found. found ≡ first limits) }
{
    if is_array(param) {
        Ok(None)
    } else {
        ask_argument(alloc, known, param, arg)
    }
}

/// The first limit of the arguments that are copied to parameters.
pub fn ask_arguments(
    alloc: Global,
    known: &Known,
    params: &Seq<Param>,
    args: &Seq<Expr>,
) -> Result<Option<Limit>, AllocError>
    ensures { (at : Place) →
        let limits = argument_limits (numbers_of known.now) at params.now args.now in
        IfOk result (λ found. found ≡ first limits) }
{
    for (i, param) in params.as_slice().iter().enumerate() {
        match args.get(i) {
            None => break,
            Some(arg) => match ask_one_argument(alloc, known, &param.var, arg)? {
                None => {}
                Some(limit) => return Ok(Some(limit)),
            },
        }
    }
    Ok(None)
}

/// An inline parameter gets its number.
fn pass_one(
    alloc: Global,
    known: &Known,
    param: &Var,
    arg: &Expr,
    inner: &mut Known,
) -> Result<(), AllocError>
    ensures { let after = with_argument (numbers_of known.now) param.now arg.now
        (numbers_of inner.old) in
        OnOk result (numbers_of inner.new ≡ after) }
{
    if is_int(param) {
        let value = inline_value(alloc, known, arg)?;
        inner.set(param, the_number(value))?;
        Ok(())
    } else {
        Ok(())
    }
}

/// The inline parameters get their numbers.
pub fn pass_numbers(
    alloc: Global,
    known: &Known,
    params: &Seq<Param>,
    args: &Seq<Expr>,
    inner: &mut Known,
) -> Result<(), AllocError>
    ensures { let before = numbers_of inner.old in
        let after = with_arguments (numbers_of known.now) params.now args.now before in
        OnOk result (numbers_of inner.new ≡ after) }
{
    for (i, param) in params.as_slice().iter().enumerate() {
        match args.get(i) {
            None => break,
            Some(arg) => pass_one(alloc, known, &param.var, arg, inner)?,
        }
    }
    Ok(())
}

/// The first limit of a result that is no array; what is dropped is not copied.
fn ask_given(
    alloc: Global,
    known: &Known,
    left: &Lval,
    var: &Var,
) -> Result<Option<Limit>, AllocError>
    ensures { (at : Place) →
        let limits = given_limits (numbers_of known.now) at left.now var.now in
        IfOk result (λ found. found ≡ first limits) }
{
    match left {
        Lval::Skip(_) => Ok(None),
        Lval::Var(_) => ask_result(alloc, known, left, var),
        Lval::Cell(_, _) => ask_result(alloc, known, left, var),
        Lval::Store(_) => ask_result(alloc, known, left, var),
    }
}

/// The first limit of one result; an array is not copied.
fn ask_one_result(
    alloc: Global,
    known: &Known,
    left: &Lval,
    var: &Var,
) -> Result<Option<Limit>, AllocError>
    ensures { (at : Place) →
        let limits = one_result (numbers_of known.now) at left.now var.now in
        IfOk result (λ found. found ≡ first limits) }
{
    if is_array(var) {
        Ok(None)
    } else {
        ask_given(alloc, known, left, var)
    }
}

/// The first limit of the results that are copied to left sides.
pub fn ask_results(
    alloc: Global,
    known: &Known,
    to: &Seq<Lval>,
    results: &Seq<Var>,
) -> Result<Option<Limit>, AllocError>
    ensures { (at : Place) →
        let limits = result_limits (numbers_of known.now) at to.now results.now in
        IfOk result (λ found. found ≡ first limits) }
{
    for (i, left) in to.as_slice().iter().enumerate() {
        match results.get(i) {
            None => break,
            Some(var) => match ask_one_result(alloc, known, left, var)? {
                None => {}
                Some(limit) => return Ok(Some(limit)),
            },
        }
    }
    Ok(None)
}
