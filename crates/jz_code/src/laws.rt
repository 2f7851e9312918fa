//! What machine code comes to.

ghost use Rattle.std.specs.Prelude.{List};
ghost use Rattle.jz_operations.specs.declared.operation.Stacked.{Stacked};
ghost use Rattle.jz_place.specs.declared.tree.Ir.{Ir};
ghost use Rattle.jz_code.specs.Made.{IsCodeOf, HasNoCode};

use crate::{MachineCode, NoCode};

/// A function that has machine code has none of what refuses it.
pub fn code_or_refusal()
    ensures { (f : Ir) (variables : List Stacked) (m : MachineCode) (c : NoCode)
        → IsCodeOf f variables m → HasNoCode f variables c → ⊥ }
{}
