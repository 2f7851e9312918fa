//! The lengths of arrays.

ghost use Rattle.std.specs.Prelude.{◌≡◌, Some};
ghost use Rattle.jz_type_names.specs.Order.{earliest, first_in, FindsEarliest, FindsFirst};
ghost use Rattle.jz_type_names.specs.Scopes.{name_of};
ghost use Rattle.jz_type_names.specs.Lent.{these, var_names};
ghost use Rattle.jz_type_sizes.specs.Lengths.{is_length, fun_lengths};
ghost use Rattle.jz_type_sizes.specs.InnerLengths.{no_constant_by, unbuilt_by, length_wrong_by, decl_wrong_by};
ghost use Rattle.jz_type_names.specs.Kinds.{declared_of, is_array};
ghost use Rattle.std.specs.List.{list_any};
ghost use Rattle.jz_type_names.specs.Tables.{place_in};

use crate::walk::fault;
use crate::wants::Want;
use jz_tree::{Decl, Expr, Fun, Span, Var};
use jz_type_names::{
    Places, above, declaration, decls_of, earlier_of, is_array, length_of, names, span_of, unless,
};
use std::alloc::{AllocError, Global};

/// What lengths are, as far as they have values.
pub trait Lengths {
    ghost use Rattle.std.specs.Prelude.{◌≡◌, ℤ, Option, IfOk};
    ghost use Rattle.jz_tree.specs.declared.expr.Expr.{Expr};

    ghost length_of: { Self → Expr → Option ℤ };

    /// The number that a length is, if it has a value.
    fn length(&self, alloc: Global, e: &Expr) -> Result<Option<i128>, AllocError>
        ensures { IfOk result (λ n. n ≡ length_of self.now e.now) };
}

fn is_length(length: Option<i128>) -> bool
    ensures { result ≡ is_length length }
{
    match length {
        None => false,
        Some(n) => 1 <= n && n <= 65536,
    }
}

fn no_constant(constants: &Places, variables: &Places, var: &Var) -> Option<Span>
    ensures { result ≡ earliest (no_constant_by constants.now variables.now (name_of var.now)) }
{
    let variable = above(variables.place(&var.name), var.span);
    let constant = above(constants.place(&var.name), var.span);
    unless(!variable && constant, var.span)
}

fn no_constants(constants: &Places, variables: &Places, vars: &[&Var]) -> Option<Span>
    ensures { result ≡ first_in (no_constant_by constants.now variables.now) (var_names vars.now) }
{
    let mut first = None;
    for var in vars {
        first = earlier_of(first, no_constant(constants, variables, var));
    }
    first
}

#[tactic(auto, using(crate::proofs::Joins::joins))]
fn unbuilt(
    alloc: Global,
    constants: &Places,
    variables: &Places,
    e: &Expr,
) -> Result<Option<Span>, AllocError>
    ensures { FindsEarliest result (unbuilt_by constants.now variables.now e.now) }
{
    let vars = names(alloc, e)?;
    let other = no_constants(constants, variables, vars.as_slice());
    Ok(earlier_of(fault(e, Want::Int), other))
}

#[tactic(auto, using(crate::proofs::Joins::joins))]
fn length_fault<L: Lengths>(
    alloc: Global,
    lengths: &L,
    constants: &Places,
    variables: &Places,
    e: &Expr,
) -> Result<Option<Span>, AllocError>
    ensures { FindsEarliest result
        (length_wrong_by constants.now variables.now (L.length_of lengths.now) e.now) }
{
    let other = unbuilt(alloc, constants, variables, e)?;
    let length = lengths.length(alloc, e)?;
    let own = unless(other.is_some() || is_length(length), span_of(e));
    Ok(earlier_of(other, own))
}

#[tactic(auto, using(crate::proofs::Joins::joins))]
fn decl_fault<L: Lengths>(
    alloc: Global,
    lengths: &L,
    constants: &Places,
    variables: &Places,
    decl: &Decl,
) -> Result<Option<Span>, AllocError>
    ensures { FindsEarliest result
        (decl_wrong_by constants.now variables.now (L.length_of lengths.now) decl.now) }
{
    match length_of(decl) {
        None => Ok(None),
        Some(e) => {
            let found = length_fault(alloc, lengths, constants, variables, e)?;
            Ok(found)
        }
    }
}

fn decls_fault<L: Lengths>(
    alloc: Global,
    lengths: &L,
    constants: &Places,
    variables: &Places,
    decls: &[&Decl],
) -> Result<Option<Span>, AllocError>
    ensures { FindsFirst result
        (decl_wrong_by constants.now variables.now (L.length_of lengths.now))
        (these decls.now) }
{
    let mut first = None;
    for decl in decls {
        first = earlier_of(
            first,
            decl_fault(alloc, lengths, constants, variables, decl)?,
        );
    }
    Ok(first)
}

/// Whether one of them is the declaration of an array.
fn declares_array(decls: &[&Decl]) -> bool
    ensures { result ≡ list_any (λ d. is_array (Some (declared_of d))) (these decls.now) }
{
    for decl in decls {
        if is_array(Some(declaration(decl))) {
            return true;
        }
    }
    false
}

/// The first length of an array in a function that is no number from 1 to 65,536 built of numbers
/// and constants.
pub fn lengths_fault<L: Lengths>(
    alloc: Global,
    lengths: &L,
    constants: &Places,
    fun: &Fun,
) -> Result<Option<Span>, AllocError>
    ensures { FindsEarliest result
        (fun_lengths (place_in constants.now) (L.length_of lengths.now) fun.now) }
{
    let decls = decls_of(alloc, fun)?;
    if !declares_array(decls.as_slice()) {
        return Ok(None);
    }
    let variables = Places::of_variables(alloc, fun)?;
    let found = decls_fault(alloc, lengths, constants, &variables, decls.as_slice())?;
    Ok(found)
}
