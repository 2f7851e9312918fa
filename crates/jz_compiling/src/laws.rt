//! What holds of compiled functions.

ghost use Rattle.jz_compiling.specs.Made.{ExpandedCarriesOver};
ghost use Rattle.jz_compiling.specs.Refused.{MadeIsNotCodeless};

/// What compiling an expanded function makes of it carries over from the function of the text,
/// where no input that meets the preconditions is stuck.
pub fn an_expanded_function_carries_over()
    ensures { ExpandedCarriesOver }
{}

/// A function that is compiled is none whose stack variables take too much, or of which a variable
/// is left without a place: of one function these refusals come always, or never.
pub fn what_is_compiled_has_places()
    ensures { MadeIsNotCodeless }
{}
