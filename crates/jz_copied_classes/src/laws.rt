//! Classes of the statements of copies.

ghost use Rattle.jz_copied_classes.specs.CopiedClasses.{CopiesKeepClasses, CopiesStayRowed, CopiesHaveClasses};

/// A copy keeps the classes of operands and results, and so what a row asks of them; in the tree of a
/// function of a typed text, with the bodies that it calls, each statement that needs a row has the
/// classes of one.
pub fn copies_have_classes()
    ensures kept { CopiesKeepClasses }
    ensures stay { CopiesStayRowed }
    ensures all { CopiesHaveClasses }
{}
