//! A rule for one statement as a pass over lists of statements.

ghost use Rattle.std.specs.Prelude.{◌≡◌, ℕ, [], ◌∷◌, IfOk, IfErr};
ghost use Rattle.jz_data.specs.Failures.{IfRefused};
ghost use Rattle.jz_runs.specs.Trees.{Tree, done};
ghost use Rattle.jz_runs.specs.Rules.{Parts, Goes};
ghost use Rattle.jz_change.specs.Views.{change_of};
ghost use Rattle.jz_pass.specs.Laws.{Carries};
ghost use Rattle.jz_pass.specs.Unrolling.{IsKnown};
ghost use Rattle.jz_pass.specs.Cases.{HasItems, IsBetween, cases_of};
ghost use Rattle.jz_pass.specs.Rewriting.{Rewriting, knowing_of, by_rule, Shape, other, all_before, HasTree, IsAbove, first_part, second_part, Rewrites, RewritesTo, RefusesOne};
ghost use Rattle.jz_pass.specs.Forms.{HasForm, OperationMade, QuietMade, ChoiceMade};
ghost use Rattle.jz_pass.specs.declared.form.Form.TheVariants as form;

use crate::form::Form;
use crate::pass::Passed;
use jz_change::{Change, Numbers, Step};
use jz_data::{Failure, Seq};
use std::alloc::{AllocError, Global};

/// What an operation becomes: statements, with the numbers of each.
#[derive(Drop)]
pub struct Operations<T> {
    pub statements: Seq<T>,
    pub items: Seq<Numbers>,
}

/// What an `if` or a `while` becomes: statements; the numbers of the operations of its test, and
/// those of the test.
#[derive(Drop)]
pub struct Choice<T> {
    pub statements: Seq<T>,
    pub items: Seq<Numbers>,
    pub numbers: Numbers,
}

/// A rule for one statement: what each operation and each test becomes. What contracts see of the
/// statements is a tree for each, and what stands in it.
pub trait Local {
    type From;
    /// The statements that come out.
    type To: Drop;
    /// Why a statement is refused.
    type Cause;

    ghost Operation: { Type 0 };

    ghost Test: { Type 0 };

    ghost Counter: { Type 0 };

    ghost Call: { Type 0 };

    ghost State: { Type 0 };

    ghost Reason: { Type 0 };

    ghost NewOperation: { Type 0 };

    ghost NewTest: { Type 0 };

    ghost NewCounter: { Type 0 };

    ghost NewCall: { Type 0 };

    ghost NewState: { Type 0 };

    ghost NewReason: { Type 0 };

    ghost parts: { Parts Self.Operation Self.Test Self.Counter Self.Call Self.State Self.Reason };

    ghost new_parts: { Parts Self.NewOperation Self.NewTest Self.NewCounter Self.NewCall
        Self.NewState Self.NewReason };

    /// The tree of a statement, before what follows.
    ghost before: { Self.From → Tree Self.Operation Self.Test Self.Counter Self.Call
        → Tree Self.Operation Self.Test Self.Counter Self.Call };

    ghost new_before: { Self.To → Tree Self.NewOperation Self.NewTest Self.NewCounter Self.NewCall
        → Tree Self.NewOperation Self.NewTest Self.NewCounter Self.NewCall };

    /// What stands in a statement.
    ghost shape: { Self.From → Shape Self.Operation Self.Test Self.From };

    /// A number for each statement, less for those that stand in it.
    ghost size: { Self.From → ℕ };

    /// What operations and tests become.
    ghost rewriting: { Self → Rewriting Self.Operation Self.Test Self.NewOperation Self.NewTest };

    /// The law on one statement.
    ghost known: { (it : Self) → IsKnown Self.parts Self.new_parts
        (knowing_of (Self.rewriting it)) };

    /// There is an item for each operation.
    ghost items: { (it : Self) → HasItems (knowing_of {F = Self.Counter} (Self.rewriting it)) };

    ghost refuses: { Self → Self.From → Self.Cause → Type 0 };

    /// The kind of a statement.
    fn form(&self, s: &Self::From) -> Form
        ensures { HasForm (shape s.now) result };

    /// The arm of an `if` where the test is true, the prologue of a `while`, and nothing else.
    fn first<'a>(&self, s: &'a Self::From) -> &'a [Self::From]
        ensures { result.now ≡ first_part (shape s.now) };

    /// The other arm of an `if`, the body of a `while`, and nothing else.
    fn second<'a>(&self, s: &'a Self::From) -> &'a [Self::From]
        ensures { result.now ≡ second_part (shape s.now) };

    /// What an operation becomes.
    fn operation(
        &self,
        alloc: Global,
        s: &Self::From,
    ) -> Result<Operations<Self::To>, Failure<Self::Cause>>
        ensures made { IfOk result (λ r. OperationMade (rewriting self.now) new_before
            (shape s.now) r.statements r.items) }
        ensures refused { IfErr result (λ e. IfRefused e (refuses self.now s.now)) };

    /// What an operation without a leak becomes.
    fn quiet(&self, alloc: Global, s: &Self::From) -> Result<Seq<Self::To>, Failure<Self::Cause>>
        ensures made { IfOk result (λ r. QuietMade (rewriting self.now) new_before
            (shape s.now) r) }
        ensures refused { IfErr result (λ e. IfRefused e (refuses self.now s.now)) };

    /// What an `if` becomes, of what its arms have become; or a `while`, of what its prologue and
    /// its body have.
    fn choice(
        &self,
        alloc: Global,
        s: &Self::From,
        first: Seq<Self::To>,
        second: Seq<Self::To>,
    ) -> Result<Choice<Self::To>, Failure<Self::Cause>>
        ensures made { IfOk result (λ r. ChoiceMade (rewriting self.now) new_before
            (shape s.now) first second r.statements r.items r.numbers) }
        ensures refused { IfErr result (λ e. IfRefused e (refuses self.now s.now)) };

    /// Why any other statement is refused.
    fn refusal(&self, s: &Self::From) -> Self::Cause
        requires { shape s.now ≡ other }
        ensures { refuses self.now s.now result };

    ghost has_tree: { (s : Self.From) → HasTree before (shape s) (before s) };

    ghost is_above: { (s : Self.From) → IsAbove size (shape s) (size s) };
}

/// The rule for whole trees.
#[derive(Drop)]
pub struct Rewrite<L> {
    local: L,
}

impl<L: Local> Rewrite<L> {
    pub fn new(local: L) -> Rewrite<L>
        ensures { result.local ≡ local }
    {
        Rewrite { local }
    }

    /// What statements become: the law of a pass, for the trees of lists of statements. Refused is
    /// what the rule refuses of a statement that stands in them.
    pub fn run(
        &self,
        alloc: Global,
        ss: &Seq<L::From>,
    ) -> Result<Passed<Seq<L::To>>, Failure<L::Cause>>
        ensures made { IfOk result (λ r. Rewrites (L.rewriting self.now.local)
            (all_before L.before ss.now done) done (all_before L.new_before r.program done)
            (change_of r.change)) }
        ensures law { IfOk result (λ r. Carries (by_rule (L.known self.now.local))
            (λ s n. Goes L.parts (all_before L.before ss.now done) n s)
            (λ t n. Goes L.new_parts (all_before L.new_before r.program done) n t)
            (change_of r.change)) }
        ensures cases { IfOk result (λ r. IsBetween (cases_of (all_before L.before ss.now done))
            (cases_of (all_before L.new_before r.program done)) (change_of r.change)) }
        ensures refused { IfErr result (λ e. IfRefused e
            (RefusesOne L.shape (L.refuses self.now.local) ss.now)) }
    {
        let Rewritten { statements, steps } = rewrite_all(&self.local, alloc, ss.as_slice())?;
        Ok(Passed {
            program: statements,
            change: Change { steps },
        })
    }
}

/// What statements become, and the steps of the change.
#[derive(Drop)]
struct Rewritten<T> {
    statements: Seq<T>,
    steps: Seq<Step>,
}

#[cycle(rewrite)]
fn rewrite_all<L: Local>(
    local: &L,
    alloc: Global,
    ss: &[L::From],
) -> Result<Rewritten<L::To>, Failure<L::Cause>>
    ensures made { IfOk result (λ r. RewritesTo (L.rewriting local.now) L.before L.new_before
        ss.now r.statements r.steps) }
    ensures refused { IfErr result (λ e. IfRefused e
        (RefusesOne L.shape (L.refuses local.now) ss.now)) }
{
    let mut statements = Seq::new(alloc);
    let mut steps = Seq::new(alloc);
    for s in ss {
        let made = rewrite_one(local, alloc, s)?;
        let Rewritten {
            statements: more,
            steps: more_steps,
        } = made;
        statements.append(more)?;
        steps.append(more_steps)?;
    }
    Ok(Rewritten { statements, steps })
}

#[cycle(rewrite)]
fn rewrite_one<L: Local>(
    local: &L,
    alloc: Global,
    s: &L::From,
) -> Result<Rewritten<L::To>, Failure<L::Cause>>
    ensures made { IfOk result (λ r. RewritesTo (L.rewriting local.now) L.before L.new_before
        (s.now ∷ []) r.statements r.steps) }
    ensures refused { IfErr result (λ e. IfRefused e
        (RefusesOne L.shape (L.refuses local.now) (s.now ∷ []))) }
{
    match local.form(s) {
        Form::Operation => rewrite_operation(local, alloc, s),
        Form::Quiet => rewrite_quiet(local, alloc, s),
        Form::If => rewrite_if(local, alloc, s),
        Form::While => rewrite_while(local, alloc, s),
        Form::Other => Err(Failure::Refused(local.refusal(s))),
    }
}

fn rewrite_operation<L: Local>(
    local: &L,
    alloc: Global,
    s: &L::From,
) -> Result<Rewritten<L::To>, Failure<L::Cause>>
    requires { HasForm (L.shape s.now) form.Operation }
    ensures made { IfOk result (λ r. RewritesTo (L.rewriting local.now) L.before L.new_before
        (s.now ∷ []) r.statements r.steps) }
    ensures refused { IfErr result (λ e. IfRefused e (L.refuses local.now s.now)) }
{
    let made = local.operation(alloc, s)?;
    let Operations { statements, items } = made;
    let steps = one_step(alloc, Step::Ops(items))?;
    Ok(Rewritten { statements, steps })
}

fn rewrite_quiet<L: Local>(
    local: &L,
    alloc: Global,
    s: &L::From,
) -> Result<Rewritten<L::To>, Failure<L::Cause>>
    requires { HasForm (L.shape s.now) form.Quiet }
    ensures made { IfOk result (λ r. RewritesTo (L.rewriting local.now) L.before L.new_before
        (s.now ∷ []) r.statements r.steps) }
    ensures refused { IfErr result (λ e. IfRefused e (L.refuses local.now s.now)) }
{
    let statements = local.quiet(alloc, s)?;
    Ok(Rewritten {
        statements,
        steps: Seq::new(alloc),
    })
}

#[cycle(rewrite)]
fn rewrite_if<L: Local>(
    local: &L,
    alloc: Global,
    s: &L::From,
) -> Result<Rewritten<L::To>, Failure<L::Cause>>
    requires { HasForm (L.shape s.now) form.If }
    ensures made { IfOk result (λ r. RewritesTo (L.rewriting local.now) L.before L.new_before
        (s.now ∷ []) r.statements r.steps) }
    ensures refused { IfErr result (λ e. IfRefused e
        (RefusesOne L.shape (L.refuses local.now) (s.now ∷ []))) }
{
    let then_arm = rewrite_all(local, alloc, local.first(s))?;
    let else_arm = rewrite_all(local, alloc, local.second(s))?;
    let Rewritten {
        statements: then_statements,
        steps: then_steps,
    } = then_arm;
    let Rewritten {
        statements: else_statements,
        steps: else_steps,
    } = else_arm;
    let made = local.choice(alloc, s, then_statements, else_statements)?;
    let Choice {
        statements,
        items,
        numbers,
    } = made;
    let step = Step::If {
        before: items,
        test: numbers,
        then_part: Change { steps: then_steps },
        else_part: Change { steps: else_steps },
    };
    let steps = one_step(alloc, step)?;
    Ok(Rewritten { statements, steps })
}

#[cycle(rewrite)]
fn rewrite_while<L: Local>(
    local: &L,
    alloc: Global,
    s: &L::From,
) -> Result<Rewritten<L::To>, Failure<L::Cause>>
    requires { HasForm (L.shape s.now) form.While }
    ensures made { IfOk result (λ r. RewritesTo (L.rewriting local.now) L.before L.new_before
        (s.now ∷ []) r.statements r.steps) }
    ensures refused { IfErr result (λ e. IfRefused e
        (RefusesOne L.shape (L.refuses local.now) (s.now ∷ []))) }
{
    let prologue = rewrite_all(local, alloc, local.first(s))?;
    let body = rewrite_all(local, alloc, local.second(s))?;
    let Rewritten {
        statements: prologue_statements,
        steps: prologue_steps,
    } = prologue;
    let Rewritten {
        statements: body_statements,
        steps: body_steps,
    } = body;
    let made = local.choice(alloc, s, prologue_statements, body_statements)?;
    let Choice {
        statements,
        items,
        numbers,
    } = made;
    let step = Step::While {
        prologue: Change {
            steps: prologue_steps,
        },
        before: items,
        test: numbers,
        body: Change { steps: body_steps },
    };
    let steps = one_step(alloc, step)?;
    Ok(Rewritten { statements, steps })
}

fn one_step(alloc: Global, step: Step) -> Result<Seq<Step>, AllocError>
    ensures { IfOk result (λ r. r ≡ step ∷ []) }
{
    let mut steps = Seq::new(alloc);
    steps.push(step)?;
    Ok(steps)
}
