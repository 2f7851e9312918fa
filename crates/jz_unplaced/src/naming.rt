//! A refusal by the names of variables.

ghost use Rattle.std.specs.Prelude.{◌≡◌, IfOk};
ghost use Rattle.jz_declared.specs.Declared.{held_of};
ghost use Rattle.jz_unplaced.specs.Names as names;
ghost use Rattle.jz_unplaced.specs.Names.{name_at, holder_of, refusal_of};

use crate::numbers::{Found, find_in};
use crate::unplaced::{Holder, Named, Unplaced};
use jz_alloc::NoPlace;
use jz_tree::{Fun, Text};
use std::alloc::{AllocError, Global};

fn nameless(alloc: Global) -> Named
    ensures { result ≡ names.nameless }
{
    Named {
        name: Text::from_string(String::new(alloc)),
        cell: None,
    }
}

/// The name of the variable of this number.
fn name(alloc: Global, fun: &Fun, number: u32) -> Result<Named, AllocError>
    ensures { IfOk result (λ named. named ≡ name_at (held_of fun.now) number) }
{
    let found = find_in(fun, number)?;
    match found {
        Found::Here(named) => Ok(named),
        Found::Past(_) => Ok(nameless(alloc)),
    }
}

/// A holder by the name of its variable.
fn holder(alloc: Global, fun: &Fun, holder: &jz_alloc::Holder) -> Result<Holder, AllocError>
    ensures { IfOk result (λ named. named ≡ holder_of (held_of fun.now) holder.now) }
{
    let variable = match holder.variable {
        Some(number) => Some(name(alloc, fun, number)?),
        None => None,
    };
    Ok(Holder {
        place: holder.place,
        variable,
        span: holder.span,
    })
}

/// A refusal of the operations of a function, by the names of what the function declares. Work is
/// linear in the function, for each need and holder.
pub fn named(alloc: Global, fun: &Fun, refused: NoPlace) -> Result<Unplaced, AllocError>
    ensures { IfOk result (λ named. named ≡ refusal_of (held_of fun.now) refused) }
{
    Ok(Unplaced {
        variable: name(alloc, fun, refused.variable)?,
        holders: refused
            .holders
            .try_map(alloc, |one| holder(alloc, fun, one))?,
        needs: refused.needs,
    })
}
