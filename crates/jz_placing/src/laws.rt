//! What holds of bodies in their places.

ghost use Rattle.std.specs.Prelude.{◌≡◌, ℕ, Bool, false, List};
ghost use Rattle.jz_words.specs.Memory.{Memory};
ghost use Rattle.x64_insn.specs.declared.types.Place.{Place};
ghost use Rattle.jz_ir.specs.declared.code.Op.{Op};
ghost use Rattle.jz_ir.specs.declared.code.Code.{Code};
ghost use Rattle.jz_ir.specs.Places.{place_at, all_of, FirstFit, IsPlacing, IsWithin};
ghost use Rattle.jz_ir.specs.Tree as ir;
ghost use Rattle.jz_leak.specs.RunLeaks.{Leak};
ghost use Rattle.jz_live.specs.Lives.{live_before};
ghost use Rattle.jz_runs.specs.Rules.{Outcome, Goes};
ghost use Rattle.jz_operations.specs.Values.{State};
ghost use Rattle.jz_operations.specs.Rows.{Frame};
ghost use Rattle.jz_operations.specs.Reading.{seen_of};
ghost use Rattle.jz_operations.specs.Frames.{IsLaid};
ghost use Rattle.jz_placing.specs.Instructions.{Machine, instructions};
ghost use Rattle.jz_placing.specs.Variables.{Body, variables, test_of};
ghost use Rattle.jz_placing.specs.Flow.{flow, then_ops};
ghost use Rattle.jz_placing.specs.Following.{Follows};
ghost use Rattle.jz_placing.specs.Placing.{code_of, leak_of, AreMet, AreSuited, StandsBeside};

/// In code with branches and loops too, the places of first fit keep apart what conflicts.
pub fn first_fit_is_a_placing()
    ensures { (t : ir.Tree) (code : Code) (places : List Place) → IsWithin code
        → code.ops ≡ ir.ops_of t
        → FirstFit code.ops code.kinds code.in_use (ir.LiveInTree t) (all_of places)
        → IsPlacing code (ir.LiveInTree t) places }
{}

/// Places that are allocated by liveness along paths, over the entry, the body and the return, meet
/// what is asked of each operation of the body.
pub fn allocated_places_are_met()
    ensures { (list : List Place) (entry back : List Op) (t : Body) (code : Code) → IsWithin code
        → code.ops ≡ ir.ops_of (then_ops entry (flow seen_of test_of t (then_ops back ir.done)))
        → IsPlacing code
        (ir.LiveInTree (then_ops entry (flow seen_of test_of t (then_ops back ir.done)))) list
        → AreSuited list t
        → AreMet (λ v. place_at list v) t (then_ops back ir.done) (λ v. false) }
{}

/// Beside each run over variables that isn't stuck a machine runs the instructions, with as many
/// turns left and the leak that they make of it, and what is live stands in its places.
pub fn placing_keeps_runs()
    ensures { (frame : Frame) (places : ℕ → Place) (slots : ℕ → ℕ) (end low : ℕ) (r0 m0 : Memory)
        (t : Body) (rest : ir.Tree) (behind : ℕ → Bool) (n : ℕ) (σ : State)
        (o : Outcome State (Unit {0}) Leak) (s : Machine)
        → IsLaid frame slots end
        → AreMet places t rest behind
        → Goes (variables frame) t n σ o
        → StandsBeside places frame slots end low r0 m0
        (λ v. live_before v (flow seen_of test_of t rest) (behind v)) σ s
        → Follows (Goes instructions (code_of places slots t) n s)
        (StandsBeside places frame slots end low r0 m0 (λ v. live_before v rest (behind v)))
        (leak_of slots low t) o }
{}
