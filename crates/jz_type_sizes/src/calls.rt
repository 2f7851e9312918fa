//! Calls of functions, and what functions give back.

ghost use Rattle.std.specs.Prelude.{◌≡◌, None, Some, is_some};
ghost use Rattle.jz_type_names.specs.Order.{earliest};
ghost use Rattle.jz_type_names.specs.Kinds.{array_of, whole_array};
ghost use Rattle.std.specs.Option.{option_copied};
ghost use Rattle.jz_type_sizes.specs.InnerFound.{first_beside};
ghost use Rattle.jz_type_sizes.specs.Sides.{within, any_size};
ghost use Rattle.jz_type_sizes.specs.Intrinsics.{none_more};
ghost use Rattle.jz_type_sizes.specs.Calls.{same_length, same_decl, is_declared, is_that_array, passed_as, passed_wrong, takes_kind, takes_result, given_wrong, is_callee, fits_call, call_wrong, returned_one, none_beyond, returned_wrong};

use crate::sides::{takes, within_any};
use crate::values::within_all;
use crate::walk::fault;
use crate::wants::Want;
use jz_tree::{Decl, Expr, Fun, FunKind, Lval, Param, Ret, Seq, Span, Var};
use jz_type_names::{
    Kind, declaration, earlier_of, is_array, is_skip, known, same_kind, same_storage, span_of,
    unless, written_length,
};

fn same_length(a: Option<i128>, b: Option<i128>) -> bool
    ensures { result ≡ same_length a b }
{
    match a {
        None => true,
        Some(a) => match b {
            None => true,
            Some(b) => a == 0 || b == 0 || a == b,
        },
    }
}

fn same_decl(a: &Decl, b: &Decl) -> bool
    ensures { result ≡ same_decl a.now b.now }
{
    same_storage(a.storage, b.storage)
        && (same_kind(declaration(a).kind, declaration(b).kind)
            && same_length(written_length(a), written_length(b)))
}

/// Whether a variable has that storage and type.
fn is_declared(decl: &Decl, var: &Var) -> bool
    ensures { result ≡ is_declared decl.now var.now }
{
    match &var.decl {
        None => true,
        Some(own) => same_decl(decl, own),
    }
}

/// Whether an argument is an array of that storage and type.
fn is_that_argument(decl: &Decl, arg: &Expr) -> bool
    ensures { result ≡ is_that_array decl.now (array_of arg.now) }
{
    match arg {
        Expr::Var(var) => is_array(known(var)) && is_declared(decl, var),
        _ => false,
    }
}

/// Whether a left side is an array of that storage and type.
fn is_that_side(decl: &Decl, to: &Lval) -> bool
    ensures { result ≡ is_that_array decl.now (whole_array to.now) }
{
    match to {
        Lval::Var(var) => is_array(known(var)) && is_declared(decl, var),
        _ => false,
    }
}

fn is_whole_array(to: &Lval) -> bool
    ensures { result ≡ is_some (whole_array to.now) }
{
    match to {
        Lval::Var(var) => is_array(known(var)),
        _ => false,
    }
}

/// The first wrong place of an argument.
fn passed_fault(param: &Param, arg: &Expr) -> Option<Span>
    ensures { result ≡ earliest (passed_wrong param.now arg.now) }
{
    match &param.var.decl {
        None => None,
        Some(decl) => match declaration(decl).kind {
            Kind::Int => fault(arg, Want::Int),
            Kind::Truth => fault(arg, Want::Truth),
            Kind::Word(size) => fault(arg, Want::Word(size)),
            Kind::Array(_) => unless(is_that_argument(decl, arg), span_of(arg)),
        },
    }
}

fn all_passed_fault(params: &[Param], args: &[Expr]) -> Option<Span>
    ensures { result ≡ first_beside passed_wrong none_more params.now args.now }
{
    let mut first = None;
    let mut rest = params;
    for arg in args {
        match rest {
            [] => {}
            [param, more @ ..] => {
                first = earlier_of(first, passed_fault(param, arg));
                rest = more;
            }
        }
    }
    first
}

fn takes_result(decl: &Decl, to: &Lval) -> bool
    ensures { result ≡ takes_result decl.now to.now }
{
    match declaration(decl).kind {
        Kind::Word(size) => takes(Want::Word(size), to) && !is_whole_array(to),
        Kind::Array(_) => is_skip(to) || is_that_side(decl, to),
        Kind::Int | Kind::Truth => true,
    }
}

#[tactic(auto, using(crate::proofs::Joins::joins))]
fn given_fault(at: Span, ret: &Ret, to: &Lval) -> Option<Span>
    ensures { result ≡ earliest (given_wrong at ret.now to.now) }
{
    earlier_of(within_any(to), unless(takes_result(&ret.decl, to), at))
}

fn all_given_fault(at: Span, rets: &[Ret], to: &[Lval]) -> Option<Span>
    ensures { result ≡ first_beside (given_wrong at) (within any_size) rets.now to.now }
{
    let mut first = None;
    let mut rest = rets;
    for side in to {
        match rest {
            [] => first = earlier_of(first, within_any(side)),
            [ret, more @ ..] => {
                first = earlier_of(first, given_fault(at, ret, side));
                rest = more;
            }
        }
    }
    first
}

fn is_callee(kind: FunKind) -> bool
    ensures { result ≡ is_callee kind }
{
    matches!(kind, FunKind::Inline)
}

fn fits_call(fun: &Fun, to: &Seq<Lval>, args: &Seq<Expr>) -> bool
    ensures { result ≡ fits_call fun.now to.now args.now }
{
    is_callee(fun.kind) && (args.len() == fun.params.len() && to.len() == fun.rets.len())
}

#[tactic(auto, using(crate::proofs::Joins::joins))]
fn known_call_fault(fun: &Fun, to: &Seq<Lval>, args: &Seq<Expr>, at: Span) -> Option<Span>
    ensures { result ≡ earliest (call_wrong (Some fun.now) to.now args.now at) }
{
    let given = all_given_fault(at, fun.rets.as_slice(), to.as_slice());
    let counted = unless(fits_call(fun, to, args), at);
    let passed = all_passed_fault(fun.params.as_slice(), args.as_slice());
    earlier_of(given, earlier_of(counted, passed))
}

#[tactic(auto, using(crate::proofs::Joins::joins))]
fn unknown_call_fault(to: &Seq<Lval>, args: &Seq<Expr>, at: Span) -> Option<Span>
    ensures { result ≡ earliest (call_wrong None to.now args.now at) }
{
    within_all(to)
}

/// The first wrong place of a call; the span is that of the callee's name.
pub(crate) fn call_fault(
    callee: Option<&Fun>,
    to: &Seq<Lval>,
    args: &Seq<Expr>,
    at: Span,
) -> Option<Span>
    ensures { result ≡ earliest (call_wrong (option_copied callee.entry) to.now args.now at) }
{
    match callee {
        None => unknown_call_fault(to, args, at),
        Some(fun) => known_call_fault(fun, to, args, at),
    }
}

fn returned_one(ret: &Ret, var: &Var) -> Option<Span>
    ensures { result ≡ earliest (returned_one ret.now var.now) }
{
    unless(is_declared(&ret.decl, var), var.span)
}

fn all_returned(rets: &[Ret], vars: &[Var]) -> Option<Span>
    ensures { result ≡ first_beside returned_one none_beyond rets.now vars.now }
{
    let mut first = None;
    let mut rest = rets;
    for var in vars {
        match rest {
            [] => {}
            [ret, more @ ..] => {
                first = earlier_of(first, returned_one(ret, var));
                rest = more;
            }
        }
    }
    first
}

/// The first place at which a function gives back another number of results than it declares, told
/// at its name, or a variable of another storage or type.
#[tactic(auto, using(crate::proofs::Joins::joins))]
pub(crate) fn returned_fault(fun: &Fun) -> Option<Span>
    ensures { result ≡ earliest (returned_wrong fun.now) }
{
    let counted = unless(fun.result.len() == fun.rets.len(), fun.span);
    earlier_of(
        counted,
        all_returned(fun.rets.as_slice(), fun.result.as_slice()),
    )
}
