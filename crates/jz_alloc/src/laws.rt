//! What first fit comes to.

ghost use Rattle.std.specs.Prelude.{◌≡◌, List};
ghost use Rattle.x64_insn.specs.declared.types.Place.{Place};
ghost use Rattle.jz_ir.specs.declared.code.Code.{Code};
ghost use Rattle.jz_ir.specs.Straight.{LiveIn};
ghost use Rattle.jz_ir.specs.Places.{Out, FirstFit, IsPlacing, IsWithin, all_of};

/// First fit comes to one outcome alone: places for all, or one variable that is left.
pub fn one_outcome()
    ensures { (code : Code) (first second : Out)
        → FirstFit code.ops code.kinds code.in_use (LiveIn code.ops) first
        → FirstFit code.ops code.kinds code.in_use (LiveIn code.ops) second
        → first ≡ second }
{}

/// The places of first fit meet the rule.
pub fn first_fit_is_a_placing()
    ensures { (code : Code) (places : List Place) → IsWithin code
        → FirstFit code.ops code.kinds code.in_use (LiveIn code.ops) (all_of places)
        → IsPlacing code (LiveIn code.ops) places }
{}
