//! What holds of every answer to a text.

ghost use Rattle.std.specs.Prelude.{◌≡◌, ℕ, List, Result};
ghost use Rattle.jz_disasm_text.specs.Shown.{Shows};
ghost use Rattle.jz_disasm_text.specs.declared.Fault.{Fault};

/// A text has one answer: its disassembly or one reason that there is none.
pub fn one_answer()
    ensures { (text : List ℕ) (a b : Result (List ℕ) Fault) → Shows text a → Shows text b
        → a ≡ b }
{}
