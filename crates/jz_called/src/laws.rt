//! What a call of machine code does.

ghost use Rattle.std.specs.Prelude.{List};
ghost use Rattle.jz_listing.specs.declared.compiled.Compiled.{Compiled};
ghost use Rattle.jz_operations.specs.declared.operation.Stacked.{Stacked};
ghost use Rattle.jz_place.specs.declared.tree.Ir.{Ir};
ghost use Rattle.jz_code.specs.declared.code.MachineCode.{MachineCode};
ghost use Rattle.jz_codable.specs.Ready.{IsReady};
ghost use Rattle.jz_code.specs.Made.{IsCodeOf};
ghost use Rattle.jz_called.specs.Called.{HasCode, DoesAsCalled};

/// From each start of a compiled function the bytes that machine code has do what the body over
/// variables does: they end where it ends, in agreement, and run on where it runs on.
pub fn calls_do_as_the_body()
    ensures { (f : Ir) (variables : List Stacked) (m : MachineCode) (c : Compiled) → IsReady f
        → IsCodeOf f variables m → HasCode c m → DoesAsCalled f variables m c }
{}
