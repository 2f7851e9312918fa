//! What entries say, by the shapes of their strings.

ghost use Rattle.std.specs.Prelude.{◌≡◌, ◌↔◌, Some};
ghost use Rattle.jz_tree.specs.declared.program.Note.{Note};
ghost use Rattle.jz_annotations.specs.declared.precondition.Pre.{Pre};
ghost use Rattle.jz_annotations.specs.Shapes.{Says};
ghost use Rattle.jz_annotations.specs.Sayings.{said};

/// An entry says what its string writes in one of the shapes, and nothing else.
pub fn says_what_is_written()
    ensures { (n : Note) (p : Pre) → (said n ≡ Some p) ↔ Says n p }
{}
