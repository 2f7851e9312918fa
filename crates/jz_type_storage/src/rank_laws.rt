//! Laws of the definitions.

ghost use Rattle.std.specs.Prelude.{ℕ, List};
ghost use Rattle.jz_tree.specs.Span.{Span};
ghost use Rattle.jz_tree.specs.declared.program.Program.{Program};
ghost use Rattle.jz_type_storage.specs.Recursion.{IsRanked, IsRecursive};

/// Where the functions of a program have ranks, none of them reaches itself.
pub fn ranks_leave_no_recursion()
    ensures { (program : Program) (ranks : List ℕ) (at : Span)
        → IsRanked program ranks → IsRecursive program at → ⊥ }
{}
