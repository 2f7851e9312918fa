//! Calls of inline functions. A call has fresh variables of its own; its array parameters are the
//! caller's arrays.

ghost use Rattle.std.specs.Prelude.{◌≡◌, OnOk};
ghost use Rattle.jz_tree.specs.Failures.{IfAnswered};
ghost use Rattle.jz_meaning.specs.Attempts.{Changes, numbers_first};
ghost use Rattle.jz_meaning.specs.Stores.{state_of, store_of};
ghost use Rattle.jz_meaning.specs.Statements as statements;
ghost use Rattle.jz_run_assign.specs.Passings.{entered_store, entered_by, left_by};
ghost use Rattle.jz_run_assign.specs.InnerCalls.{value_passed, argument_passed, value_given, result_given};

use crate::arrays::{give_array_back, pass_array};
use crate::{held, set, write};
use jz_meaning::{Kind, State, Store, Stuck, evaluate, kind_of, missing, size_of, variable};
use jz_tree::{Expr, Failure, Fun, Lval, Param, Seq, Span, Var};
use std::alloc::AllocError;

/// A call of an inline function: the left sides of its results, the callee, the arguments and where
/// it stands.
#[derive(Clone, Copy)]
pub struct Call<'a> {
    pub to: &'a Seq<Lval>,
    pub callee: &'a Fun,
    pub args: &'a Seq<Expr>,
    pub span: Span,
}

/// An argument that is no array.
fn pass_value(
    kind: Kind,
    param: &Var,
    arg: &Expr,
    state: &State,
    inner: &mut Store,
    out: &mut Seq<u64>,
) -> Result<(), Failure<Stuck>>
    ensures { Changes result out.old out.new (store_of inner.new)
        (value_passed kind param.now arg.now (state_of state.now) (store_of inner.old)) }
{
    let value = evaluate(arg, size_of(kind), state, out)?;
    let value = held(param.span, kind, value)?;
    set(param, Some(value), inner)?;
    Ok(())
}

fn pass(
    span: Span,
    param: &Var,
    arg: &Expr,
    state: &State,
    inner: &mut Store,
    out: &mut Seq<u64>,
) -> Result<(), Failure<Stuck>>
    ensures { Changes result out.old out.new (store_of inner.new)
        (argument_passed span param.now arg.now (state_of state.now) (store_of inner.old)) }
{
    let kind = kind_of(param);
    match kind {
        Kind::Array(_, cells) => {
            pass_array(span, cells, param, arg, &state.store, inner)?;
            Ok(())
        }
        Kind::Undeclared | Kind::Int | Kind::Bool | Kind::Word(_) => {
            pass_value(kind, param, arg, state, inner, out)?;
            Ok(())
        }
    }
}

/// Parameters and arguments, from left to right.
fn pass_all(
    span: Span,
    params: &Seq<Param>,
    args: &Seq<Expr>,
    state: &State,
    inner: &mut Store,
    out: &mut Seq<u64>,
) -> Result<(), Failure<Stuck>>
    ensures { Changes result out.old out.new (store_of inner.new)
        (statements.all_passed span params.now args.now (state_of state.now) (store_of inner.old)) }
{
    for (i, param) in params.as_slice().iter().enumerate() {
        match args.get(i) {
            None => return Err(Failure::Refused(missing(span))),
            Some(arg) => pass(span, &param.var, arg, state, inner, out)?,
        }
    }
    if params.len() < args.len() {
        return Err(Failure::Refused(missing(span)));
    }
    Ok(())
}

/// The variables of a callee as it begins: each parameter has its argument, which is evaluated
/// among the caller's variables, and nothing else has a value. The numbers of the arguments are
/// appended to `out`. Stuck as the first argument that is, and for Init at the call where they are
/// not as many as the parameters.
pub fn enter(call: Call<'_>, state: &State, out: &mut Seq<u64>) -> Result<Store, Failure<Stuck>>
    ensures { IfAnswered result (λ r. entered_store out.new r ≡ numbers_first out.old
        (entered_by call.entry (state_of state.now))) }
{
    let mut inner = Store::new(out.allocator());
    pass_all(
        call.span,
        &call.callee.params,
        call.args,
        state,
        &mut inner,
        out,
    )?;
    Ok(inner)
}

fn give_arrays_back(
    params: &Seq<Param>,
    args: &Seq<Expr>,
    inner: &Store,
    outer: &mut Store,
) -> Result<(), AllocError>
    ensures { OnOk result (store_of outer.new ≡ statements.arrays_back params.now args.now
        (store_of inner.now) (store_of outer.old)) }
{
    for (i, param) in params.as_slice().iter().enumerate() {
        match args.get(i) {
            None => return Ok(()),
            Some(arg) => give_array_back(&param.var, arg, inner, outer)?,
        }
    }
    Ok(())
}

/// A result that is no array.
fn give_value(
    kind: Kind,
    to: &Lval,
    from: &Var,
    inner: &Store,
    state: &mut State,
    out: &mut Seq<u64>,
) -> Result<(), Failure<Stuck>>
    ensures { Changes result out.old out.new (state_of state.new)
        (value_given kind to.now from.now (store_of inner.now) (state_of state.old)) }
{
    let value = variable(from, inner)?;
    write(size_of(kind), to, Some(value), state, out)?;
    Ok(())
}

fn give(
    to: &Lval,
    from: &Var,
    inner: &Store,
    state: &mut State,
    out: &mut Seq<u64>,
) -> Result<(), Failure<Stuck>>
    ensures { Changes result out.old out.new (state_of state.new)
        (result_given to.now from.now (store_of inner.now) (state_of state.old)) }
{
    let kind = kind_of(from);
    match to {
        Lval::Skip(_) => Ok(()),
        Lval::Var(_) | Lval::Cell(_, _) | Lval::Store(_) => match kind {
            Kind::Array(_, _) => Ok(()),
            Kind::Undeclared | Kind::Int | Kind::Bool | Kind::Word(_) => {
                give_value(kind, to, from, inner, state, out)?;
                Ok(())
            }
        },
    }
}

/// Left sides and results, from left to right.
fn give_all(
    span: Span,
    to: &Seq<Lval>,
    results: &Seq<Var>,
    inner: &Store,
    state: &mut State,
    out: &mut Seq<u64>,
) -> Result<(), Failure<Stuck>>
    ensures { Changes result out.old out.new (state_of state.new)
        (statements.all_given span to.now results.now (store_of inner.now) (state_of state.old)) }
{
    for (i, left) in to.as_slice().iter().enumerate() {
        match results.get(i) {
            None => return Err(Failure::Refused(missing(span))),
            Some(from) => give(left, from, inner, state, out)?,
        }
    }
    if to.len() < results.len() {
        return Err(Failure::Refused(missing(span)));
    }
    Ok(())
}

/// The end of a call: the caller's arrays that were passed have the cells of the callee's, and each
/// result is read just before its left side is evaluated and written. `inner` are the callee's
/// variables at its end, and `state` the caller's with the memory then. The numbers of the left
/// sides are appended to `out`. Stuck for Init at the call where the results are not as many as the
/// left sides.
pub fn leave(
    call: Call<'_>,
    inner: &Store,
    state: &mut State,
    out: &mut Seq<u64>,
) -> Result<(), Failure<Stuck>>
    ensures { Changes result out.old out.new (state_of state.new)
        (left_by call.entry (store_of inner.now) (state_of state.old)) }
{
    let Call {
        to,
        callee,
        args,
        span,
    } = call;
    give_arrays_back(&callee.params, args, inner, &mut state.store)?;
    give_all(span, to, &callee.result, inner, state, out)?;
    Ok(())
}
