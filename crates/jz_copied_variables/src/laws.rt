//! The variables of copies.

ghost use Rattle.jz_copied_variables.specs.VariableLaws.{CopiesHaveVariables};

/// Of a function of a typed text whose calls are copies, each part is over variables with their
/// declarations, and each head of a copy marks what may be marked.
pub fn copies_have_variables()
    ensures { CopiesHaveVariables }
{}
