//! What holds of every operation.

ghost use Rattle.std.specs.Prelude.{◌≡◌, ℕ, List, Bool, Some, IsTrue, IsFalse};
ghost use Rattle.jz_words.specs.Memory.{Memory};
ghost use Rattle.x64_insn.specs.declared.types.Place.{Place};
ghost use Rattle.x64_insn.specs.declared.types.State as machine;
ghost use Rattle.jz_ir.specs.Paths.{among};
ghost use Rattle.jz_operations.specs.declared.operation.Operation.{Operation};
ghost use Rattle.jz_operations.specs.Values.{State};
ghost use Rattle.jz_operations.specs.Rows.{Frame, Output, arg_numbers, Done, step};
ghost use Rattle.jz_operations.specs.Reading.{writes_of};
ghost use Rattle.jz_operations.specs.Standing.{Holding, Agrees, IsPlaced, IsCarriedOut};
ghost use Rattle.jz_operations.specs.Standing.{goes_from, goes_to};
ghost use Rattle.jz_operations.specs.Frames.{IsLaid, Holds};
ghost use Rattle.jz_operations.specs.Laws.{AreBeside, ReadTheSame, ComputesTheSame};

/// Beside memory, cells and flags, an operation computes with the variables that it reads alone.
pub fn operations_read_their_variables()
    ensures { (frame : Frame) (o : Operation) (σ τ : State) → AreBeside σ τ → ReadTheSame o σ τ
        → ComputesTheSame frame o σ τ }
{}

/// A variable that an operation does not write holds the same behind it.
pub fn operations_write_their_variables()
    ensures { (frame : Frame) (o : Operation) (σ : State) (d : Done) (v : ℕ)
        → step frame o σ ≡ Some d → IsFalse (among (writes_of o) v) → d.state.vars v ≡ σ.vars v }
{}

/// The address of an access is told by the numbers that it shows, the stack pointer and the slot.
pub fn accesses_go_by_their_numbers()
    ensures { (slots : ℕ → ℕ) (rsp : ℕ) (o : Output) (σ : State) (ns : List ℕ)
        → arg_numbers o.1 σ ≡ Some ns → goes_from slots rsp o ns ≡ goes_to slots rsp o σ }
{}

/// In a memory that has the cells of stack variables from the stack pointer on, each access of a
/// run to its memory and its cells gives the same, and leaves such a memory.
pub fn a_frame_holds_the_cells()
    ensures { (frame : Frame) (slots : ℕ → ℕ) (end : ℕ) (m0 : Memory) → IsLaid frame slots end
        → Holding frame slots (Holds frame slots end m0) }
{}

/// Where its variables have places, a step of an operation is one of its instruction, which does
/// not fault.
pub fn placed_operations_are_carried_out()
    ensures { (frame : Frame) (slots : ℕ → ℕ) (end : ℕ) (m0 : Memory) (places : ℕ → Place)
        (before behind : ℕ → Bool) (o : Operation) (σ : State) (st : machine.State) (m : Memory)
        (next : ℕ) (d : Done)
        → IsLaid frame slots end
        → IsPlaced places (λ v. IsTrue (before v)) (λ v. IsTrue (behind v)) o
        → Agrees places (Holds frame slots end m0) (λ v. IsTrue (before v)) σ st m
        → step frame o σ ≡ Some d
        → IsCarriedOut places slots (Holds frame slots end m0) (λ v. IsTrue (behind v))
        o σ st m next d }
{}
