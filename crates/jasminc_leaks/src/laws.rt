//! What holds of the lines that are told.

ghost use Rattle.std.specs.Prelude.{ℕ, List};
ghost use Rattle.jz_tree.specs.declared.program.Fun.{Fun};
ghost use Rattle.jz_tree.specs.declared.program.Program.{Program};
ghost use Rattle.jz_items.specs.declared.item.Item.{Item};
ghost use Rattle.jz_listing.specs.declared.compiled.Compiled.{Compiled};
ghost use Rattle.x64_machine.specs.Steps.{Config};
ghost use Rattle.jz_correct.specs.Starts.{IsStart};
ghost use Rattle.jz_compiled.specs.Correct.{IsCompilation};
ghost use Rattle.jz_compiled.specs.Matching.{Matches};
ghost use Rattle.jasminc_calls.specs.Calls.{argument_words};
ghost use Rattle.jasminc_runs.specs.declared.telling.Ran.{Ran};
ghost use Rattle.jasminc_steps.specs.Starting.{return_slot};
ghost use Rattle.jasminc_leaks.specs.Leaking.{LeaksOn};

/// From every start on the input with the stack pointer of `exec` the bytes do what the source's
/// outcome asks of them: where it ends, the events that are told are theirs.
pub fn leaks_are_those_of_the_bytes()
    ensures { (p : Program) (f : Fun) (c : Compiled) (items : List Item) (fuel : ℕ) (ran : Ran)
        → IsCompilation p f c → (l : LeaksOn p f c items fuel ran)
        → (base : ℕ) (s : Config) → IsStart c (argument_words f items) l.memory return_slot base s
        → Matches c (argument_words f items) return_slot base s fuel l.out }
{}
