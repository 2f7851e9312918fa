//! Names that stand twice.

ghost use Rattle.std.specs.Prelude.{◌≡◌, IfOk, OnOk, map};
ghost use Rattle.jz_type_names.specs.Order.{earliest, first_in, FindsEarliest, FindsFirst};
ghost use Rattle.jz_type_names.specs.Scopes.{name_of, constant_name, function_name, variables_of};
ghost use Rattle.jz_type_names.specs.Parts.{layer_of, statements_of};
ghost use Rattle.jz_type_names.specs.Lent.{var_names};
ghost use Rattle.jz_type_names.specs.InnerLists.{GainsNames, these_names};
ghost use Rattle.jz_type_names.specs.Tables.{Adds, IsEarliestPlaces};
ghost use Rattle.jz_type_names.specs.InnerTables.{one_repeated_in};
ghost use Rattle.jz_type_names.specs.Names.{repeated_places, repeated_by, repeated_in_fun, top_names};

use crate::bodies::statements;
use crate::declarations::variables;
use crate::layers::wholly_set_by;
use crate::order::{earlier_of, is_before, unless};
use crate::tables::Places;
use jz_tree::{Const, Fun, Program, Seq, Span, Stmt, Text, Var};
use std::alloc::{AllocError, Global};

fn add_places(places: &mut Places, names: &[(&Text, Span)]) -> Result<(), AllocError>
    ensures { OnOk result (Adds IsEarliestPlaces places.old places.new (these_names names.now)) }
{
    for (name, span) in names {
        places.add_earlier(name, *span)?;
    }
    Ok(())
}

#[tactic(auto, unfolding(crate::specs::InnerTables::one_repeated_in))]
fn repeated_one(places: &Places, name: &Text, span: Span) -> Option<Span>
    ensures { result ≡ earliest (one_repeated_in places.now (name.now, span)) }
{
    let fine = match places.place(name) {
        None => true,
        Some(first) => !is_before(first, span),
    };
    unless(fine, span)
}

fn repeated_among(places: &Places, names: &[(&Text, Span)]) -> Option<Span>
    ensures { result ≡ first_in (one_repeated_in places.now) (these_names names.now) }
{
    let mut first = None;
    for (name, span) in names {
        first = earlier_of(first, repeated_one(places, name, *span));
    }
    first
}

/// The first name before which an equal one stands.
fn repeated_names(alloc: Global, names: &[(&Text, Span)]) -> Result<Option<Span>, AllocError>
    ensures { FindsEarliest result (repeated_places (these_names names.now)) }
{
    let mut places = Places::new(alloc);
    add_places(&mut places, names)?;
    Ok(repeated_among(&places, names))
}

fn add_consts<'a>(
    list: &mut Vec<(&'a Text, Span)>,
    consts: &'a Seq<Const>,
) -> Result<(), AllocError>
    ensures { OnOk result
        (GainsNames list.old.items list.new.items (map constant_name consts.now)) }
{
    for constant in consts.as_slice() {
        list.push((&constant.name, constant.span))?;
    }
    Ok(())
}

fn add_funs<'a>(list: &mut Vec<(&'a Text, Span)>, funs: &'a Seq<Fun>) -> Result<(), AllocError>
    ensures { OnOk result (GainsNames list.old.items list.new.items (map function_name funs.now)) }
{
    for fun in funs.as_slice() {
        list.push((&fun.name, fun.span))?;
    }
    Ok(())
}

fn names_of<'a>(alloc: Global, vars: &[&'a Var]) -> Result<Vec<(&'a Text, Span)>, AllocError>
    ensures { IfOk result (λ ns. these_names ns.items ≡ var_names vars.now) }
{
    let mut list = Vec::new(alloc);
    for var in vars {
        list.push((&var.name, var.span))?;
    }
    Ok(list)
}

/// The first of the whole variables that a statement sets before which an equal one stands.
pub fn repeated_of(alloc: Global, stmt: &Stmt) -> Result<Option<Span>, AllocError>
    ensures { FindsEarliest result (repeated_by (layer_of stmt.now)) }
{
    let vars = wholly_set_by(alloc, stmt)?;
    let list = names_of(alloc, vars.as_slice())?;
    repeated_names(alloc, list.as_slice())
}

fn in_variables(alloc: Global, fun: &Fun) -> Result<Option<Span>, AllocError>
    ensures { FindsEarliest result (repeated_places (map name_of (variables_of fun.now))) }
{
    let vars = variables(alloc, fun)?;
    let list = names_of(alloc, vars.as_slice())?;
    let first = repeated_names(alloc, list.as_slice())?;
    Ok(first)
}

fn in_body(alloc: Global, body: &Seq<Stmt>) -> Result<Option<Span>, AllocError>
    ensures { FindsFirst result (λ s. repeated_by (layer_of s)) (statements_of body.now) }
{
    let mut first = None;
    for stmt in statements(alloc, body)? {
        first = earlier_of(first, repeated_of(alloc, stmt)?);
    }
    Ok(first)
}

/// The first name in a function before which an equal one stands, among its variables, and among
/// the whole variables that one statement sets.
pub fn repeated_in_fun(alloc: Global, fun: &Fun) -> Result<Option<Span>, AllocError>
    ensures { FindsEarliest result (repeated_in_fun fun.now) }
{
    let declared = in_variables(alloc, fun)?;
    let set = in_body(alloc, &fun.body)?;
    Ok(earlier_of(declared, set))
}

/// The first name of a function or constant before which an equal one stands.
pub fn repeated_at_top(alloc: Global, program: &Program) -> Result<Option<Span>, AllocError>
    ensures { FindsEarliest result (repeated_places (top_names program.now)) }
{
    let mut list = Vec::new(alloc);
    add_consts(&mut list, &program.consts)?;
    add_funs(&mut list, &program.funs)?;
    repeated_names(alloc, list.as_slice())
}
