//! When an expansion is refused at no place.

ghost use Rattle.jz_exact_refusals.specs.ExactRefusals.{LoweredIsNotRefused, CompiledIsNotRefused};
ghost use Rattle.jz_exact_refusals.specs.ExactRefusals.{UnplacedIsNotRefused};

/// The expansion of an export function of a typed text that has become operations, with stack
/// variables within the limit, has a home for each variable and a register for each parameter and
/// result, operations for each statement and test, and is not too long; so it does where it is
/// compiled, and where a variable of its operations is left without a place.
pub fn what_is_compiled_is_not_refused()
    ensures lowered { LoweredIsNotRefused }
    ensures compiled { CompiledIsNotRefused }
    ensures unplaced { UnplacedIsNotRefused }
{}
