//! Which functions are refused at none of their statements.

ghost use Rattle.jz_lowering.specs.Laws.{ReadyFunctionsHaveCode, LoweredFunctionsHaveCode};

/// A function whose statements are expanded, well typed, within the limits and have rows of the
/// pattern table is refused at none of them, nor could one be that is lowered.
pub fn functions_have_code()
    ensures ready { ReadyFunctionsHaveCode }
    ensures lowered { LoweredFunctionsHaveCode }
{}
