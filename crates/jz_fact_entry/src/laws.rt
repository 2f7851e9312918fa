//! Inputs and facts at entry.

ghost use Rattle.jz_fact_entry.specs.EntryLaws.{InputsStand};

/// The facts at entry hold of each input that meets the preconditions.
pub fn inputs_stand()
    ensures { InputsStand }
{}
