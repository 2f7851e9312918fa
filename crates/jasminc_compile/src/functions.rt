//! The safe export functions of a program as bytes.

ghost use Rattle.std.specs.Prelude.{IfOk, IfErr};
ghost use Rattle.jz_data.specs.Failures.{IfRefused};
ghost use Rattle.jasminc_compile.specs.SafeFunctions.{AreSafe};
ghost use Rattle.jasminc_compile.specs.Making.{AreMade};
ghost use Rattle.jasminc_compile.specs.InnerMaking.{AreOutcomes, IsTold};

use crate::compiling::outcome_of;
use crate::outcome::{Outcome, Unmade};
use crate::safety::SafeFun;
use crate::settling::settled;
use jz_data::{Failure, Seq};
use jz_listing::Compiled;
use jz_types::Typed;
use std::alloc::{AllocError, Global};

/// What each of them comes to.
fn outcomes_of(
    alloc: Global,
    typed: &Typed,
    safes: Seq<SafeFun>,
) -> Result<Seq<Outcome>, AllocError>
    requires { AreSafe typed.now.program safes }
    ensures { IfOk result (AreOutcomes typed.now.program) }
{
    let mut outcomes = Seq::new(alloc);
    for one in safes.into_vec() {
        let outcome = outcome_of(alloc, typed, one)?;
        outcomes.push(outcome)?;
    }
    Ok(outcomes)
}

/// The export functions of a program, all of which are safe, as bytes, in the order of the text; or
/// a refusal: of the stages the first that refuses a function, and of that the first function.
pub fn compile_functions(
    alloc: Global,
    typed: &Typed,
    safes: Seq<SafeFun>,
) -> Result<Seq<Compiled>, Failure<Unmade>>
    requires { AreSafe typed.now.program safes }
    ensures made { IfOk result (AreMade typed.now.program) }
    ensures refused { IfErr result (λ e. IfRefused e (IsTold typed.now.program)) }
{
    let outcomes = outcomes_of(alloc, typed, safes)?;
    let compiled = settled(alloc, outcomes)?;
    Ok(compiled)
}
