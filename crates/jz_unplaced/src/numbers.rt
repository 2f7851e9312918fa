//! The variable of a number.

ghost use Rattle.std.specs.Prelude.{◌≡◌, ◌<◌, IfOk, length, map};
ghost use Rattle.std.specs.List.{flat_map};
ghost use Rattle.jz_declared.specs.Declared.{held_for, held_of};
ghost use Rattle.jz_meaning.specs.Values.{ref_of};
ghost use Rattle.jz_unplaced.specs.InnerNumbers.{held_in_registers, cell_by, Finds, IsHere};

use crate::unplaced::Named;
use jz_meaning::{Kind, kind_of};
use jz_tree::{Fun, Param, Seq, Storage, Var};
use std::alloc::AllocError;

/// What a number is in a list of declarations: one of their variables, or so far behind them.
#[derive(Drop)]
pub(crate) enum Found {
    Here(Named),
    Past(u32),
}

/// How many variables a variable in registers is.
fn count_in_registers(var: &Var) -> u128
    ensures { result ≡ length (held_in_registers var.now) }
{
    match kind_of(var) {
        Kind::Word(_) => 1,
        Kind::Bool => 1,
        Kind::Array(_, count) => count,
        Kind::Int => 0,
        Kind::Undeclared => 0,
    }
}

/// How many it is by its declaration.
fn count(var: &Var) -> u128
    ensures { result ≡ length (held_for var.now) }
{
    match &var.decl {
        None => 0,
        Some(decl) => match decl.storage {
            Storage::Reg => count_in_registers(var),
            Storage::Stack => 0,
            Storage::Inline => 0,
        },
    }
}

/// Which cell it is, where it has cells.
fn cell_of(var: &Var, number: u32) -> Option<u32>
    ensures { result ≡ cell_by (ref_of var.now).kind number }
{
    match kind_of(var) {
        Kind::Word(_) => None,
        Kind::Bool => None,
        Kind::Array(_, _) => Some(number),
        Kind::Int => None,
        Kind::Undeclared => None,
    }
}

/// The name of one of the variables that it is.
fn one(var: &Var, number: u32) -> Result<Named, AllocError>
    requires { number < length (held_for var.now) }
    ensures { IfOk result (IsHere (held_for var.now) number) }
{
    let cell = cell_of(var, number);
    let name = var.name.clone()?;
    Ok(Named { name, cell })
}

fn find(var: &Var, number: u32) -> Result<Found, AllocError>
    ensures { IfOk result (Finds (held_for var.now) number) }
{
    let count = count(var);
    if u128::from(number) < count {
        let named = one(var, number)?;
        return Ok(Found::Here(named));
    }
    Ok(Found::Past(number - count as u32))
}

fn find_in_params(params: &Seq<Param>, number: u32) -> Result<Found, AllocError>
    ensures { IfOk result (Finds (flat_map held_for (map (λ p. p.var) params.now)) number) }
{
    let mut rest = number;
    for param in params.as_slice() {
        let found = find(&param.var, rest)?;
        match found {
            Found::Here(named) => return Ok(Found::Here(named)),
            Found::Past(past) => rest = past,
        }
    }
    Ok(Found::Past(rest))
}

fn find_in_vars(vars: &Seq<Var>, number: u32) -> Result<Found, AllocError>
    ensures { IfOk result (Finds (flat_map held_for vars.now) number) }
{
    let mut rest = number;
    for var in vars.as_slice() {
        let found = find(var, rest)?;
        match found {
            Found::Here(named) => return Ok(Found::Here(named)),
            Found::Past(past) => rest = past,
        }
    }
    Ok(Found::Past(rest))
}

/// The variable of that number among those of a function, its parameters first.
pub(crate) fn find_in(fun: &Fun, number: u32) -> Result<Found, AllocError>
    ensures { IfOk result (Finds (held_of fun.now) number) }
{
    let found = find_in_params(&fun.params, number)?;
    match found {
        Found::Here(named) => Ok(Found::Here(named)),
        Found::Past(rest) => {
            let behind = find_in_vars(&fun.vars, rest)?;
            Ok(behind)
        }
    }
}
