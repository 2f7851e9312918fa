//! The refusals of stages as those of a command.

ghost use Rattle.std.specs.Prelude.{◌≡◌, Ok, IfOk, IfErr};
ghost use Rattle.jz_tree.specs.Failures.{IfRefused};
ghost use Rattle.jasminc_source.specs.Stage.{ComesFrom};

use jz_tree::Failure;

/// A stage's value, or its refusal as one of a command.
pub fn as_refused<T, E, R, F: FnOnce(E) -> R>(
    answer: Result<T, Failure<E>>,
    refused: F,
) -> Result<T, Failure<R>>
    requires { F.IsAlwaysCallable refused }
    ensures ok { IfOk result (λ value. answer ≡ Ok value) }
    ensures refused { IfErr result (λ e. IfRefused e (ComesFrom (F.post refused) answer)) }
{
    match answer {
        Ok(value) => Ok(value),
        Err(Failure::Refused(fault)) => Err(Failure::Refused(refused(fault))),
        Err(Failure::OutOfMemory) => Err(Failure::OutOfMemory),
    }
}
