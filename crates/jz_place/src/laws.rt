//! What holds of operations, of bodies over variables, and of those whose variables have places.

ghost use Rattle.std.specs.Prelude.{◌≡◌, ℕ, List};
ghost use Rattle.x64_insn.specs.declared.types.FaultKind.{FaultKind};
ghost use Rattle.x64_insn.specs.declared.types.Place.{Place};
ghost use Rattle.jz_data.specs.Laws.{AtMostOne};
ghost use Rattle.jz_ir.specs.declared.code.Code.{Code};
ghost use Rattle.jz_ir.specs.Places.{IsPlacing};
ghost use Rattle.jz_ir.specs.Tree as ir;
ghost use Rattle.jz_leak.specs.Cuts.{IsWhole, IsBroken};
ghost use Rattle.jz_leak.specs.RunLeaks.{Leak};
ghost use Rattle.jz_runs.specs.Rules.{Outcome, Goes, went};
ghost use Rattle.jz_runs.specs.Laws.{AtLeastOne, HoldsCut, StaysWithMore};
ghost use Rattle.jz_operations.specs.declared.operation.Operation.{Operation};
ghost use Rattle.jz_operations.specs.Values.{State};
ghost use Rattle.jz_operations.specs.Rows.{Frame};
ghost use Rattle.jz_operations.specs.Laws.{AreBeside, ReadTheSame};
ghost use Rattle.jz_placing.specs.Instructions.{Machine, instructions};
ghost use Rattle.jz_placing.specs.Instructions as insn;
ghost use Rattle.jz_placing.specs.Variables.{Body, does, variables};
ghost use Rattle.jz_placing.specs.Placing.{AreSuited};
ghost use Rattle.jz_place.specs.Laws.{DoesTheSame};
ghost use Rattle.jz_place.specs.Sorts.{AreSorted};

/// Where the variables of words are told by their kinds, places that meet the rule suit the body.
pub fn sorted_bodies_are_suited()
    ensures { (tree : ir.Tree) (code : Code) (list : List Place) (t : Body)
        → IsPlacing code (ir.LiveInTree tree) list → AreSorted code.kinds t → AreSuited list t }
{}

/// From two states that differ in variables alone, and in none that it reads, an operation shows
/// the same and leaves the same in each variable that it writes.
pub fn operations_do_the_same()
    ensures { (frame : Frame) (o : Operation) (σ τ behind : State) (ns : List ℕ)
        → AreBeside σ τ → ReadTheSame o σ τ → does frame o σ ≡ went ns behind
        → DoesTheSame frame o σ τ ns behind }
{}

/// With the same number of turns left a body has one outcome, and so has code.
pub fn one_outcome()
    ensures bodies { (frame : Frame) (t : Body) (n : ℕ) (σ : State)
        → AtMostOne (Goes (variables frame) t n σ) }
    ensures code { (t : insn.Code) (n : ℕ) (s : Machine) → AtMostOne (Goes instructions t n s) }
{}

/// For each number of turns left there is an outcome.
pub fn some_outcome()
    ensures bodies { (frame : Frame) (t : Body) (n : ℕ) (σ : State)
        → AtLeastOne (Goes (variables frame) t n σ) }
    ensures code { (t : insn.Code) (n : ℕ) (s : Machine) → AtLeastOne (Goes instructions t n s) }
{}

/// What has ended or is stuck is the same with more turns, and at an end so many more are left.
pub fn same_with_more_turns()
    ensures bodies { (frame : Frame) (t : Body) (σ : State)
        → StaysWithMore (λ n. Goes (variables frame) t n σ) }
    ensures code { (t : insn.Code) (s : Machine) → StaysWithMore (λ n. Goes instructions t n s) }
{}

/// A leak holds a cut exactly where its run was cut.
pub fn leaks_hold_the_cuts()
    ensures bodies { (frame : Frame) (t : Body) (n : ℕ) (σ : State)
        (o : Outcome State (Unit {0}) Leak)
        → Goes (variables frame) t n σ o → HoldsCut IsWhole IsBroken o }
    ensures code { (t : insn.Code) (n : ℕ) (s : Machine) (o : Outcome Machine FaultKind Leak)
        → Goes instructions t n s o → HoldsCut IsWhole IsBroken o }
{}
