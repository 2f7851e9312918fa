//! Names that are not declared above.

ghost use Rattle.std.specs.Prelude.{◌≡◌};
ghost use Rattle.jz_type_names.specs.Order.{earliest, first_in, FindsEarliest, FindsFirst};
ghost use Rattle.jz_type_names.specs.Scopes.{name_of, places_of};
ghost use Rattle.jz_type_names.specs.Parts.{statements_of};
ghost use Rattle.jz_type_names.specs.Lent.{var_names};
ghost use Rattle.jz_type_names.specs.Tables.{place_in, value_in, unknown_by, unknown_of_fun};
ghost use Rattle.jz_type_names.specs.InnerTables.{unknown_value_by, unknown_calls, outside_by};
ghost use Rattle.jz_type_names.specs.Names.{stands_above, one_unknown, unknown_value, unknown_in_constant};

use crate::bodies::statements;
use crate::declarations::length_names;
use crate::exprs::names;
use crate::layers::{called_by, read_by};
use crate::order::{earlier_of, is_before, unless};
use crate::tables::{Functions, Places};
use crate::wanted::{arrays, variables_outside, variables_wanted};
use jz_tree::{Const, Fun, Seq, Span, Stmt, Text, Var};
use std::alloc::{AllocError, Global};

/// Whether what is declared there stands above, if it is declared.
pub fn above(place: Option<Span>, at: Span) -> bool
    ensures { result ≡ stands_above place at }
{
    match place {
        None => false,
        Some(declared) => is_before(declared, at),
    }
}

fn value(constants: &Places, variables: &Places, name: &Text) -> Option<Span>
    ensures { result ≡ value_in constants.now variables.now name.now }
{
    earlier_of(variables.place(name), constants.place(name))
}

#[tactic(auto, unfolding(crate::specs::Names::one_unknown))]
fn unknown_value(constants: &Places, variables: &Places, var: &Var) -> Option<Span>
    ensures { result ≡ earliest (unknown_value_by constants.now variables.now (name_of var.now)) }
{
    unless(
        above(value(constants, variables, &var.name), var.span),
        var.span,
    )
}

#[tactic(auto, unfolding(crate::specs::Names::one_unknown))]
fn unknown_variable(variables: &Places, var: &Var) -> Option<Span>
    ensures { result ≡ earliest (one_unknown (place_in variables.now) (name_of var.now)) }
{
    unless(above(variables.place(&var.name), var.span), var.span)
}

fn unknown_values(constants: &Places, variables: &Places, vars: &[&Var]) -> Option<Span>
    ensures { result
        ≡ first_in (unknown_value_by constants.now variables.now) (var_names vars.now) }
{
    let mut first = None;
    for var in vars {
        first = earlier_of(first, unknown_value(constants, variables, var));
    }
    first
}

fn unknown_variables(variables: &Places, vars: &[&Var]) -> Option<Span>
    ensures { result ≡ first_in (one_unknown (place_in variables.now)) (var_names vars.now) }
{
    let mut first = None;
    for var in vars {
        first = earlier_of(first, unknown_variable(variables, var));
    }
    first
}

#[tactic(auto, unfolding(crate::specs::Names::no_function))]
fn unknown_function(functions: &Functions<'_>, stmt: &Stmt) -> Option<Span>
    ensures { result ≡ earliest (unknown_calls functions.now stmt.now) }
{
    match called_by(stmt) {
        None => None,
        Some((name, span)) => match functions.named(name) {
            None => Some(span),
            Some(_) => None,
        },
    }
}

/// The first name in a statement that is not declared above, and what it calls nowhere.
pub fn unknown_of(
    alloc: Global,
    constants: &Places,
    variables: &Places,
    functions: &Functions<'_>,
    stmt: &Stmt,
) -> Result<Option<Span>, AllocError>
    ensures { FindsEarliest result (unknown_by constants.now variables.now functions.now stmt.now) }
{
    let read = read_by(alloc, stmt)?;
    let wanted = variables_wanted(alloc, functions, stmt)?;
    let unread = unknown_values(constants, variables, read.as_slice());
    let unset = unknown_variables(variables, wanted.as_slice());
    let uncalled = unknown_function(functions, stmt);
    Ok(earlier_of(unread, earlier_of(unset, uncalled)))
}

fn outside(
    alloc: Global,
    constants: &Places,
    variables: &Places,
    fun: &Fun,
) -> Result<Option<Span>, AllocError>
    ensures { FindsEarliest result (outside_by constants.now variables.now fun.now) }
{
    let lengths = length_names(alloc, fun)?;
    let wanted = variables_outside(alloc, fun)?;
    let unread = unknown_values(constants, variables, lengths.as_slice());
    let unset = unknown_variables(variables, wanted.as_slice());
    Ok(earlier_of(unread, unset))
}

fn in_body(
    alloc: Global,
    constants: &Places,
    variables: &Places,
    functions: &Functions<'_>,
    body: &Seq<Stmt>,
) -> Result<Option<Span>, AllocError>
    ensures { FindsFirst result
        (unknown_by constants.now variables.now functions.now)
        (statements_of body.now) }
{
    let mut first = None;
    for stmt in statements(alloc, body)? {
        first = earlier_of(
            first,
            unknown_of(alloc, constants, variables, functions, stmt)?,
        );
    }
    Ok(first)
}

/// The first name in a function that is not declared above where it is used, or of a function that
/// stands nowhere.
pub fn unknown_in_fun(
    alloc: Global,
    constants: &Places,
    functions: &Functions<'_>,
    fun: &Fun,
) -> Result<Option<Span>, AllocError>
    ensures { FindsEarliest result (unknown_of_fun constants.now functions.now fun.now) }
{
    let variables = Places::of_variables(alloc, fun)?;
    let around = outside(alloc, constants, &variables, fun)?;
    let within = in_body(alloc, constants, &variables, functions, &fun.body)?;
    Ok(earlier_of(around, within))
}

#[tactic(auto, unfolding(crate::specs::Names::unknown_value))]
fn unknown_in_value(constants: &Places, own: Span, var: &Var) -> Option<Span>
    ensures { result ≡ earliest (unknown_value (place_in constants.now) own (name_of var.now)) }
{
    unless(above(constants.place(&var.name), own), var.span)
}

fn unknown_in_values(constants: &Places, own: Span, vars: &[&Var]) -> Option<Span>
    ensures { result ≡ first_in (unknown_value (place_in constants.now) own) (var_names vars.now) }
{
    let mut first = None;
    for var in vars {
        first = earlier_of(first, unknown_in_value(constants, own, var));
    }
    first
}

fn first_place(vars: &[&Var]) -> Option<Span>
    ensures { result ≡ earliest (places_of (var_names vars.now)) }
{
    let mut first = None;
    for var in vars {
        first = earlier_of(first, Some(var.span));
    }
    first
}

fn in_constant(
    alloc: Global,
    constants: &Places,
    constant: &Const,
) -> Result<Option<Span>, AllocError>
    ensures { FindsEarliest result (unknown_in_constant (place_in constants.now) constant.now) }
{
    let read = names(alloc, &constant.value)?;
    let indexed = arrays(alloc, &constant.value)?;
    let unread = unknown_in_values(constants, constant.span, read.as_slice());
    Ok(earlier_of(unread, first_place(indexed.as_slice())))
}

/// The first name in the values of constants that is not that of a constant above.
pub fn unknown_in_constants(
    alloc: Global,
    constants: &Places,
    consts: &Seq<Const>,
) -> Result<Option<Span>, AllocError>
    ensures { FindsFirst result (unknown_in_constant (place_in constants.now)) consts.now }
{
    let mut first = None;
    for constant in consts.as_slice() {
        first = earlier_of(first, in_constant(alloc, constants, constant)?);
    }
    Ok(first)
}
