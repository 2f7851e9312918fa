//! What holds of every value of an expression, apart from any code.

ghost use Rattle.std.specs.Prelude.{◌≡◌, ℕ, ℤ, true, List, [], length, Option, Some};
ghost use Rattle.x64_insn.specs.Memory.{Memory};
ghost use Rattle.x64_insn.specs.Size.{Size};
ghost use Rattle.jz_tree.specs.declared.expr.Expr.{Expr};
ghost use Rattle.jz_tree.specs.declared.program.Program.{Program};
ghost use Rattle.jz_tree.specs.declared.program.Fun.{Fun};
ghost use Rattle.jz_tree.specs.Laws.{AtMostOne};
ghost use Rattle.jz_runs.specs.Laws.{AtLeastOne, StaysWithMore, StaysWithAsMany};
ghost use Rattle.jz_meaning.specs.Statements.{Block, source};
ghost use Rattle.jz_meaning.specs.Runs.{IsInput, IsRun};
ghost use Rattle.jz_integers.specs.declared.constant.Constant.{Constant};
ghost use Rattle.jz_integers.specs.Integers.{inline_value};
ghost use Rattle.jz_runs.specs.Rules.{went, Goes};
ghost use Rattle.jz_meaning.specs.States.{State, Value};
ghost use Rattle.jz_meaning.specs.Operators.{of_constant};
ghost use Rattle.jz_meaning.specs.Values.{evaluated};
ghost use Rattle.jz_meaning.specs.CallLaws.{ArgumentsAreAssigned};
ghost use Rattle.jz_meaning.specs.CutLaws.{BodiesHoldCuts, FunctionsHoldCuts};
ghost use Rattle.jz_meaning.specs.Shapes.{Sorts, HoldsSorts, shape_of, HoldsIntegers};

/// How many numbers an expression leaks where it is not stuck, and whether its value is a word, a
/// flag or a whole number, depends on its text alone, if nothing is leaked by a right part of `&&`
/// or `||`.
pub fn numbers_of_an_expression()
    ensures count { (sorts : Sorts) (e : Expr) (w : Option Size) (s : State) (ns : List ℕ)
        (v : Value)
        → HoldsSorts sorts s.store → (shape_of sorts e).fixed ≡ true
        → evaluated e w s ≡ went ns v → length ns ≡ (shape_of sorts e).count }
    ensures same { (sorts : Sorts) (e : Expr) (w : Option Size) (s t : State) (ms ns : List ℕ)
        (u v : Value)
        → HoldsSorts sorts s.store → HoldsSorts sorts t.store → (shape_of sorts e).fixed ≡ true
        → evaluated e w s ≡ went ms u → evaluated e w t ≡ went ns v → length ms ≡ length ns }
{}

/// An inline expression leaks nothing, and its value is what it is known to be when the text is
/// compiled.
pub fn inline_expressions()
    ensures { (numbers : List ℕ → ℕ → Option ℤ) (e : Expr) (c : Constant) (w : Option Size)
        (s : State) (ns : List ℕ) (v : Value)
        → HoldsIntegers numbers s.store → inline_value numbers e ≡ Some c
        → evaluated e w s ≡ went ns v → (ns ≡ []) × (v ≡ of_constant c) }
{}

/// With the same number of turns left a run has one outcome.
pub fn one_outcome()
    ensures statements { (b : Block) (n : ℕ) (s : State) → AtMostOne (Goes source b n s) }
    ensures functions { (p : Program) (f : Fun) (words : List Value) (memory : Memory) (n : ℕ)
        → AtMostOne (IsRun p f words memory n) }
{}

/// For each number of turns left there is an outcome.
pub fn some_outcome()
    ensures statements { (b : Block) (n : ℕ) (s : State) → AtLeastOne (Goes source b n s) }
    ensures functions { (p : Program) (f : Fun) (words : List Value) (memory : Memory) (n : ℕ)
        → IsInput p f words → AtLeastOne (IsRun p f words memory n) }
{}

/// What has ended or is stuck is the same with more turns, and at an end so many more are left.
pub fn same_with_more_turns()
    ensures statements { (b : Block) (s : State) → StaysWithMore (λ n. Goes source b n s) }
    ensures functions { (p : Program) (f : Fun) (words : List Value) (memory : Memory)
        → StaysWithMore (IsRun p f words memory) }
{}

/// A run that ends has used some number of turns, and comes to the same end wherever there are as
/// many: the others are left.
pub fn same_with_as_many_used()
    ensures statements { (b : Block) (s : State) → StaysWithAsMany (λ n. Goes source b n s) }
    ensures functions { (p : Program) (f : Fun) (words : List Value) (memory : Memory)
        → StaysWithAsMany (IsRun p f words memory) }
{}

/// At an end no part of what was leaked is cut; at a cut the last part of each open list is, and
/// nothing before it.
pub fn a_leak_holds_a_cut_where_its_run_was_cut()
    ensures statements { BodiesHoldCuts }
    ensures functions { FunctionsHoldCuts }
{}

/// A call passes a value to a parameter as an assignment to the parameter writes it. So what the
/// parameter cannot hold is stuck at the parameter's place.
pub fn arguments_are_assigned()
    ensures { ArgumentsAreAssigned }
{}
