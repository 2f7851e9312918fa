//! Types where calls are copies.

ghost use Rattle.jz_copied_types.specs.CopiedLaws.{CopiesKeepTypes, CopiesStayTyped, CopiesAreTyped};

/// An expression has in a copy the types that it had, and an assignment stays typed. Each assignment
/// and each test of a function of a typed text is typed where its calls are copies of what they call:
/// also those that set a parameter, and those that give a result back.
pub fn copies_are_typed()
    ensures expressions { CopiesKeepTypes }
    ensures assignments { CopiesStayTyped }
    ensures bodies { CopiesAreTyped }
{}
