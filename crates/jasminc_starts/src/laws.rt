//! What holds of the starts of `exec`.

ghost use Rattle.std.specs.Prelude.{◌≡◌, ◌≤◌, ◌+◌, ◌^◌, ℕ, List, All, length};
ghost use Rattle.std.specs.List.{AllZip};
ghost use Rattle.jz_words.specs.Memory.{Memory};
ghost use Rattle.jz_tree.specs.declared.program.Fun.{Fun};
ghost use Rattle.jz_tree.specs.declared.program.Program.{Program};
ghost use Rattle.jz_preconditions.specs.Stating.{preconditions_of};
ghost use Rattle.jz_preconditions.specs.Meeting.{IsArgument};
ghost use Rattle.jz_items.specs.declared.item.Item.{Item};
ghost use Rattle.jz_items.specs.Items.{words_of, ItemsFit, AreItems};
ghost use Rattle.jz_inputs.specs.Held.{IsHeld};
ghost use Rattle.jz_inputs.specs.Inputs.{HoldsRegions};
ghost use Rattle.jz_listing.specs.declared.compiled.Compiled.{Compiled};
ghost use Rattle.jz_correct.specs.Registers.{argument_registers};
ghost use Rattle.jz_correct.specs.Starts.{IsStart};
ghost use Rattle.jz_compiled.specs.Correct.{IsCompilation};
ghost use Rattle.jz_compiled.specs.Lines.{AreArgumentLines, listed_preconditions};
ghost use Rattle.jz_compiled.specs.Matching.{values_of};
ghost use Rattle.jasminc_calls.specs.Calls.{argument_values, argument_words};
ghost use Rattle.jasminc_steps.specs.Starting.{code_base, return_slot, exec_start};
ghost use Rattle.jasminc_starts.specs.Memories.{StandApart, most_frame};
ghost use Rattle.jasminc_starts.specs.Memories.{IsStartMemory};
ghost use Rattle.jasminc_starts.specs.Starting.{AreLowBits, IsSafe};

/// The items that words of a command line are have words of 64 bits, and none of their bytes stands
/// where a stack may stand.
pub fn items_stand_apart()
    ensures { (items : List Item) → AreItems items → ItemsFit items × StandApart items }
{}

/// Where `exec` starts a compiled function is a start of it on the low bits of the items' words and
/// the bytes of its regions, whatever code it has.
pub fn exec_is_a_start()
    ensures { (f : Fun) (c : Compiled) (words : List ℕ) (items : List Item) (m : Memory)
        → AreArgumentLines argument_registers f.params c.args → c.pre ≡ listed_preconditions f
        → ItemsFit items → AreLowBits c.args (words_of items) words → StandApart items
        → c.frame ≤ most_frame → code_base + length c.code ≤ 2 ^ 64
        → (s : IsStartMemory c.frame f words items m)
        → IsStart c words s.input return_slot code_base (exec_start (words_of items) m) }
{}

/// There is a memory where `exec` starts a function, on every memory that its items give its regions.
pub fn start_memories_exist()
    ensures { (frame : ℕ) (f : Fun) (words : List ℕ) (items : List Item) (input : Memory)
        → HoldsRegions f words items (preconditions_of f) input → frame ≤ most_frame
        → (m : Memory) × (s : IsStartMemory frame f words items m) × (s.input ≡ input) }
{}

/// Of as many items as a function has parameters the argument words are the low bits of their words,
/// and with the sizes of the lines they are the values that the function is called with.
pub fn arguments_are_low_bits()
    ensures { (f : Fun) (c : Compiled) (items : List Item)
        → AreArgumentLines argument_registers f.params c.args
        → length items ≡ length f.params
        → AreLowBits c.args (words_of items) (argument_words f items)
        × (values_of c.args (argument_words f items)
        ≡ argument_values f.params (words_of items)) }
{}

/// Started on items of which its preconditions hold, a function that is compiled correctly faults in
/// no step.
pub fn correct_functions_never_fault()
    ensures { (p : Program) (f : Fun) (c : Compiled) (words : List ℕ) (items : List Item)
        → IsCompilation p f c → ItemsFit items → AreLowBits c.args (words_of items) words
        → StandApart items → c.frame ≤ most_frame → code_base + length c.code ≤ 2 ^ 64
        → AllZip IsArgument f.params words → All (IsHeld f words items) (preconditions_of f)
        → IsSafe c f words items }
{}
