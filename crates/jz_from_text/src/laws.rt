//! What holds of compiled functions of typed texts.

ghost use Rattle.jz_from_text.specs.Laws.{TypedFunctionsCarryOver, TypedFunctionsAreCompiled};

/// What the bytes of a compiled export function do carries over from its text, where no input that
/// meets the preconditions is stuck in its expansion; and where the transformer shows of the frame
/// what the statements name alone it is correct compilation.
pub fn typed_functions_carry_over()
    ensures carries { TypedFunctionsCarryOver }
    ensures compilation { TypedFunctionsAreCompiled }
{}
