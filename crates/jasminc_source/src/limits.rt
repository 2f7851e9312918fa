//! The limits of expansion, asked of each export function.

ghost use Rattle.std.specs.Prelude.{All, MatchOption, IfOk, IfErr};
ghost use Rattle.jz_tree.specs.Failures.{IfRefused};
ghost use Rattle.jasminc_source.specs.Exports.{WithinIfExported, PassesIfExported, HasLimit};

use crate::exports::is_exported;
use jz_first_limit::{Limit, first_limit};
use jz_tree::{Failure, Fun, Program, Text};
use std::alloc::{AllocError, Global};

/// A limit that a function passes.
#[derive(Drop)]
pub struct FunLimit {
    pub fun: Text,
    pub limit: Limit,
}

/// The first limit of an export function, if it passes one.
fn limit_of(alloc: Global, program: &Program, fun: &Fun) -> Result<Option<Limit>, AllocError>
    ensures { IfOk result (λ found. MatchOption found (WithinIfExported program.now fun.now)
        (PassesIfExported program.now fun.now)) }
{
    if is_exported(fun) {
        first_limit(alloc, program, fun)
    } else {
        Ok(None)
    }
}

/// The functions of a program, each after the other: each export function is within the limits, or
/// the first that is not passes this one first.
pub fn within_limits(alloc: Global, program: &Program) -> Result<(), Failure<FunLimit>>
    ensures within { IfOk result (λ _. All (WithinIfExported program.now) program.now.funs) }
    ensures refused { IfErr result (λ e. IfRefused e (HasLimit program.now)) }
{
    for fun in program.funs.as_slice() {
        match limit_of(alloc, program, fun)? {
            None => {}
            Some(limit) => {
                let fun = fun.name.clone()?;
                return Err(Failure::Refused(FunLimit { fun, limit }));
            }
        }
    }
    Ok(())
}
