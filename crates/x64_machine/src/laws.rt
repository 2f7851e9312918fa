//! What holds of steps, whatever the code.

ghost use Rattle.std.specs.Prelude.{◌≡◌, ℕ, ◌+◌, true, List, []};
ghost use Rattle.x64_insn.specs.declared.types.FaultKind.{FaultKind};
ghost use Rattle.x64_machine.specs.Steps.{Config, fault_move, step_of, steps_of};
ghost use Rattle.x64_machine.specs.MachineRuns.{followed};
ghost use Rattle.x64_machine.specs.declared.step.Step.{Step};

/// Steps after steps are steps, and the events of the earlier ones stand first.
pub fn steps_after_steps()
    ensures { (code : List ℕ) (base i j : ℕ) (c : Config) → steps_of code base c (i + j)
        ≡ followed (steps_of code base c i)
        (steps_of code base (steps_of code base c i).after j) }
{}

/// Where the entry has returned nothing changes any more, and nothing is shown.
pub fn an_end_stays()
    ensures { (code : List ℕ) (base k : ℕ) (c : Config) → c.ended ≡ true
        → steps_of code base c k ≡ record { after = c; events = [] } }
{}

/// A fault changes nothing and shows nothing.
pub fn a_fault_changes_nothing()
    ensures { (code : List ℕ) (base : ℕ) (c : Config) (fault : FaultKind)
        → (step_of code base c).answer ≡ Step.Fault fault
        → step_of code base c ≡ fault_move c fault }
{}

/// No step changes the entry's stack pointer and return address.
pub fn the_entry_stays()
    ensures stack_pointer { (code : List ℕ) (base k : ℕ) (c : Config)
        → (steps_of code base c k).after.entry_rsp ≡ c.entry_rsp }
    ensures return_address { (code : List ℕ) (base k : ℕ) (c : Config)
        → (steps_of code base c k).after.entry_return ≡ c.entry_return }
{}
