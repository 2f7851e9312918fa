//! Left sides: their sizes, and how they are written.

ghost use Rattle.std.specs.Prelude.{◌≡◌, List, ℕ, map, Some, option_map, OnOk};
ghost use Rattle.jz_meaning.specs.Attempts.{seen, numbers_first, Changes, ChangesSilently};
ghost use Rattle.jz_meaning.specs.States.{as_value, put};
ghost use Rattle.jz_meaning.specs.Stores.{state_of, store_of};
ghost use Rattle.jz_meaning.specs.Values.{ref_of, cell_key};
ghost use Rattle.jz_meaning.specs.Assignments as assignments;
ghost use Rattle.jz_run_assign.specs.InnerParts.{variable_written, cell_written};

use crate::variables::set;
use jz_meaning::{
    Kind, State, Store, Stuck, Value, evaluate, index, kind_of, missing, size_of, word_of,
};
use jz_tree::{Failure, Lval, Seq, Span, Var};
use jz_words::Size;
use std::alloc::AllocError;

/// The size of a left side, where it has one by itself.
pub(crate) fn left_size(to: &Lval) -> Option<Size>
    ensures { result ≡ assignments.left_size to.now }
{
    match to {
        Lval::Skip(_) => None,
        Lval::Var(var) => size_of(kind_of(var)),
        Lval::Cell(var, _) => size_of(kind_of(var)),
        Lval::Store(access) => access.size,
    }
}

/// The size of several left sides: that of the first which has one by itself.
pub fn left_sizes(to: &Seq<Lval>) -> Option<Size>
    ensures { result ≡ assignments.left_sizes to.now }
{
    for left in to.as_slice() {
        match left_size(left) {
            None => {}
            Some(size) => return Some(size),
        }
    }
    None
}

/// What a word of a size holds of a value.
fn word_held(span: Span, size: Size, value: Value) -> Result<Value, Stuck>
    ensures { (ns : List ℕ) → seen ns result ≡ numbers_first ns
        (assignments.word_value span size (as_value value)) }
{
    match word_of(size, value) {
        None => Err(missing(span)),
        Some(word) => Ok(Value::Word(word)),
    }
}

/// What a variable of this kind holds of a value; stuck for Init where it holds none.
pub fn held(span: Span, kind: Kind, value: Value) -> Result<Value, Stuck>
    ensures { (ns : List ℕ) → seen ns result ≡ numbers_first ns
        (assignments.held span kind (as_value value)) }
{
    match kind {
        Kind::Word(size) => word_held(span, size, value),
        Kind::Int => match value {
            Value::Int(_) => Ok(value),
            Value::Word(_) => Err(missing(span)),
            Value::Bool(_) => Err(missing(span)),
        },
        Kind::Bool => match value {
            Value::Bool(_) => Ok(value),
            Value::Word(_) => Err(missing(span)),
            Value::Int(_) => Err(missing(span)),
        },
        Kind::Undeclared => Err(missing(span)),
        Kind::Array(_, _) => Err(missing(span)),
    }
}

fn var_span(var: &Var) -> Span
    ensures { result ≡ (ref_of var.now).span }
{
    var.span
}

fn put_cell(var: &Var, index: u64, value: Value, store: &mut Store) -> Result<(), AllocError>
    ensures { OnOk result (store_of store.new ≡ put (store_of store.old)
        (cell_key (ref_of var.now) index) (Some (as_value value))) }
{
    store.put(&var.name, var.copy, Some(index), Some(value))
}

fn write_variable(var: &Var, value: Option<Value>, state: &mut State) -> Result<(), Failure<Stuck>>
    ensures { ChangesSilently result (state_of state.new)
        (variable_written var.now (option_map as_value value) (state_of state.old)) }
{
    match value {
        None => {
            set(var, None, &mut state.store)?;
            Ok(())
        }
        Some(value) => {
            let value = held(var_span(var), kind_of(var), value)?;
            set(var, Some(value), &mut state.store)?;
            Ok(())
        }
    }
}

/// The cell of an array gets a word of this size.
fn write_cell(
    var: &Var,
    index: u64,
    size: Option<Size>,
    value: Option<Value>,
    state: &mut State,
) -> Result<(), Failure<Stuck>>
    ensures { ChangesSilently result (state_of state.new)
        (assignments.in_cell (ref_of var.now) index size (option_map as_value value)
        (state_of state.old)) }
{
    match size {
        None => Err(Failure::Refused(missing(var.span))),
        Some(size) => match value {
            None => Err(Failure::Refused(missing(var.span))),
            Some(value) => {
                let value = word_held(var_span(var), size, value)?;
                put_cell(var, index, value, &mut state.store)?;
                Ok(())
            }
        },
    }
}

/// The same where the index is a value, which is appended to `out`.
fn write_at(
    var: &Var,
    at: Value,
    value: Option<Value>,
    state: &mut State,
    out: &mut Seq<u64>,
) -> Result<(), Failure<Stuck>>
    ensures { Changes result out.old out.new (state_of state.new)
        (cell_written var.now (as_value at) (option_map as_value value) (state_of state.old)) }
{
    let index = index(var, at, out)?;
    write_cell(var, index, size_of(kind_of(var)), value, state)?;
    Ok(())
}

/// Writes a value to a left side, or takes away what it has; an index or address is evaluated first
/// and appended to `out`. `size` is the size of the other side.
pub fn write(
    size: Option<Size>,
    to: &Lval,
    value: Option<Value>,
    state: &mut State,
    out: &mut Seq<u64>,
) -> Result<(), Failure<Stuck>>
    ensures { Changes result out.old out.new (state_of state.new)
        (assignments.written size to.now (option_map as_value value) (state_of state.old)) }
{
    match to {
        Lval::Skip(_) => Ok(()),
        Lval::Var(var) => {
            write_variable(var, value, state)?;
            Ok(())
        }
        Lval::Cell(var, at) => {
            let index = evaluate(at.get(), Some(Size::S64), state, out)?;
            write_at(var, index, value, state, out)?;
            Ok(())
        }
        Lval::Store(access) => {
            let address = evaluate(access.at.get(), Some(Size::S64), state, out)?;
            jz_meaning::write(access, size, address, value, &mut state.memory, out)?;
            Ok(())
        }
    }
}

/// Writes values to left sides from left to right, each before the next is evaluated; stuck for
/// Init at `span` where they are not as many.
pub fn write_all(
    span: Span,
    size: Option<Size>,
    to: &Seq<Lval>,
    values: &[Option<Value>],
    state: &mut State,
    out: &mut Seq<u64>,
) -> Result<(), Failure<Stuck>>
    ensures { Changes result out.old out.new (state_of state.new)
        (assignments.all_written span size to.now (map (option_map as_value) values.now)
        (state_of state.old)) }
{
    for (left, value) in to.as_slice().iter().zip(values.iter()) {
        write(size, left, *value, state, out)?;
    }
    if to.len() == values.len() {
        Ok(())
    } else {
        Err(Failure::Refused(missing(span)))
    }
}
