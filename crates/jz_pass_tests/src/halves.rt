//! Numbers that are added by halves.

ghost use Rattle.std.specs.Prelude.{◌≡◌, ℕ, ◌-◌, ◌/◌, [], ◌∷◌, IfOk, IfErr};
ghost use Rattle.jz_change.specs.declared.change.Number.TheVariants.{Fixed};
ghost use Rattle.jz_change.specs.declared.change.Numbers.TheVariants.{These};
ghost use Rattle.jz_data.specs.Failures.{IfRefused};
ghost use Rattle.jz_runs.specs.Trees.{done};
ghost use Rattle.jz_pass.specs.Forms.{ChoiceMade};
ghost use Rattle.jz_pass.specs.Rewriting.{by_rule, other, Rewrites, RefusesOne};
ghost use Rattle.jz_pass_tests.specs.declared.small.Unknown.{Unknown};
ghost use Rattle.jz_pass_tests.specs.declared.small.Small.TheVariants.{Add};
ghost use Rattle.jz_pass_tests.specs.Meaning.{small, then_small, tree_of, shape_of, weight, has_tree, is_above};
ghost use Rattle.jz_pass_tests.specs.Rules.{halving};
ghost use Rattle.jz_pass_tests.specs.Known.{halving_known, halving_items};

use crate::small::{
    Small, SmallLanguage, Unknown, first_of, form_of, no_operation, same_choice, second_of,
};
use jz_change::Number;
use jz_pass::{Choice, Failure, Form, Local, Numbers, Operations, Pass, Passed, Rewrite, Seq};
use std::alloc::{AllocError, Global};

/// What is added is added by halves.
#[derive(Drop)]
pub struct Halves;

impl Local for Halves {
    type From = Small;

    type To = Small;

    type Cause = Unknown;

    ghost Operation = { ℕ };

    ghost Test = { ℕ };

    ghost Counter = { ⊥ };

    ghost Call = { ⊥ };

    ghost State = { ℕ };

    ghost Reason = { Unknown };

    ghost NewOperation = { ℕ };

    ghost NewTest = { ℕ };

    ghost NewCounter = { ⊥ };

    ghost NewCall = { ⊥ };

    ghost NewState = { ℕ };

    ghost NewReason = { Unknown };

    ghost parts = { small };

    ghost new_parts = { small };

    ghost before = { then_small };

    ghost new_before = { then_small };

    ghost shape = { shape_of };

    ghost size = { weight };

    ghost rewriting = { λ it. halving };

    ghost known = { λ it. halving_known };

    ghost items = { λ it. halving_items };

    ghost refuses = { λ it s cause. shape_of s ≡ other };

    fn form(&self, s: &Small) -> Form {
        form_of(s)
    }

    fn first<'a>(&self, s: &'a Small) -> &'a [Small] {
        first_of(s)
    }

    fn second<'a>(&self, s: &'a Small) -> &'a [Small] {
        second_of(s)
    }

    #[tactic(auto, using(crate::proofs::Choices::halves_made))]
    fn operation(&self, alloc: Global, s: &Small) -> Result<Operations<Small>, Failure<Unknown>> {
        match s {
            Small::Add(k) => Ok(halved(alloc, *k)?),
            Small::If(_, _, _) => Ok(no_operation(alloc)),
            Small::While(_, _, _) => Ok(no_operation(alloc)),
            Small::Mark => Ok(no_operation(alloc)),
        }
    }

    fn quiet(&self, alloc: Global, _s: &Small) -> Result<Seq<Small>, Failure<Unknown>> {
        Ok(Seq::new(alloc))
    }

    fn choice(
        &self,
        alloc: Global,
        s: &Small,
        first: Seq<Small>,
        second: Seq<Small>,
    ) -> Result<Choice<Small>, Failure<Unknown>>
        ensures made { IfOk result (λ r. ChoiceMade halving then_small (shape_of s.now) first second
            r.statements r.items r.numbers) }
        ensures refused { IfErr result (λ e. IfRefused e (λ cause. shape_of s.now ≡ other)) }
    {
        Ok(same_choice(alloc, s, first, second)?)
    }

    fn refusal(&self, _s: &Small) -> Unknown {
        Unknown
    }

    ghost has_tree = { has_tree };

    ghost is_above = { is_above };
}

impl Pass for Halves {
    type Src = SmallLanguage;

    type Dst = SmallLanguage;

    type Cause = Unknown;

    ghost relates = { λ it. by_rule halving_known };

    ghost makes = { λ it p q k. Rewrites halving (tree_of p) done (tree_of q) k };

    ghost refuses = { λ it p cause. RefusesOne shape_of (λ s e. shape_of s ≡ other) p cause };

    fn run(&self, alloc: Global, p: &Seq<Small>) -> Result<Passed<Seq<Small>>, Failure<Unknown>> {
        let rule = Rewrite::new(Halves);
        rule.run(alloc, p)
    }
}

/// Both halves.
fn halved(alloc: Global, k: u64) -> Result<Operations<Small>, AllocError>
    ensures statements { IfOk result (λ r. r.statements ≡ Add (k / 2) ∷ Add (k - k / 2) ∷ []) }
    ensures items { IfOk result (λ r. r.items
        ≡ These (Fixed (k / 2) ∷ []) ∷ These (Fixed (k - k / 2) ∷ []) ∷ []) }
{
    let half = k / 2;
    let rest = k - half;
    let mut statements = Seq::new(alloc);
    statements.push(Small::Add(half))?;
    statements.push(Small::Add(rest))?;
    let mut items = Seq::new(alloc);
    items.push(fixed(alloc, half)?)?;
    items.push(fixed(alloc, rest)?)?;
    Ok(Operations { statements, items })
}

/// One number, whatever an item has.
fn fixed(alloc: Global, number: u64) -> Result<Numbers, AllocError>
    ensures { IfOk result (λ r. r ≡ These (Fixed number ∷ [])) }
{
    let mut numbers = Seq::new(alloc);
    numbers.push(Number::Fixed(number))?;
    Ok(Numbers::These(numbers))
}
