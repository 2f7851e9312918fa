//! What holds of what a listing tells.

ghost use Rattle.std.specs.Prelude.{◌≡◌, ◌↔◌, ℕ, List};
ghost use Rattle.jz_words.specs.Memory.{Memory};
ghost use Rattle.jz_tree.specs.declared.program.Fun.{Fun};
ghost use Rattle.jz_preconditions.specs.Meeting as declared;
ghost use Rattle.jz_listing.specs.declared.compiled.Compiled.{Compiled};
ghost use Rattle.jz_correct.specs.Starts as printed;
ghost use Rattle.jz_correct.specs.Registers.{argument_registers};
ghost use Rattle.jz_compiled.specs.Lines.{AreArgumentLines, listed_preconditions};

/// An input meets the preconditions that are listed exactly where it meets those that the function
/// declares.
pub fn printed_preconditions_are_declared()
    ensures { (f : Fun) (c : Compiled) (words : List ℕ) (memory : Memory)
        → AreArgumentLines argument_registers f.params c.args → c.pre ≡ listed_preconditions f
        → declared.MeetsPreconditions f words memory ↔ printed.MeetsPreconditions c words memory }
{}
