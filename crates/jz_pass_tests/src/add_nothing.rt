//! Additions of nothing, which are left out.

ghost use Rattle.std.specs.Prelude.{◌≡◌, ℕ, [], ◌∷◌, IfOk, IfErr};
ghost use Rattle.jz_data.specs.Failures.{IfRefused};
ghost use Rattle.jz_runs.specs.Trees.{done};
ghost use Rattle.jz_pass.specs.Forms.{ChoiceMade};
ghost use Rattle.jz_pass.specs.Rewriting.{by_rule, other, Rewrites, RefusesOne};
ghost use Rattle.jz_change.specs.declared.change.Numbers.TheVariants.{Same};
ghost use Rattle.jz_pass_tests.specs.declared.small.Unknown.{Unknown};
ghost use Rattle.jz_pass_tests.specs.declared.small.Small.TheVariants.{Add};
ghost use Rattle.jz_pass_tests.specs.Meaning.{small, then_small, tree_of, shape_of, weight, has_tree, is_above};
ghost use Rattle.jz_pass_tests.specs.Rules.{dropping};
ghost use Rattle.jz_pass_tests.specs.Known.{dropping_known, dropping_items};

use crate::small::{
    Small, SmallLanguage, Unknown, first_of, form_of, no_operation, same_choice, second_of,
};
use jz_pass::{Choice, Failure, Form, Local, Numbers, Operations, Pass, Passed, Rewrite, Seq};
use std::alloc::{AllocError, Global};

/// Where nothing is added no statement is left.
#[derive(Drop)]
pub struct AddNothing;

impl Local for AddNothing {
    type From = Small;

    type To = Small;

    type Cause = Unknown;

    ghost Operation = { ℕ };

    ghost Test = { ℕ };

    ghost Counter = { ⊥ };

    ghost Call = { ⊥ };

    ghost State = { ℕ };

    ghost Reason = { Unknown };

    ghost NewOperation = { ℕ };

    ghost NewTest = { ℕ };

    ghost NewCounter = { ⊥ };

    ghost NewCall = { ⊥ };

    ghost NewState = { ℕ };

    ghost NewReason = { Unknown };

    ghost parts = { small };

    ghost new_parts = { small };

    ghost before = { then_small };

    ghost new_before = { then_small };

    ghost shape = { shape_of };

    ghost size = { weight };

    ghost rewriting = { λ it. dropping };

    ghost known = { λ it. dropping_known };

    ghost items = { λ it. dropping_items };

    ghost refuses = { λ it s cause. shape_of s ≡ other };

    fn form(&self, s: &Small) -> Form {
        form_of(s)
    }

    fn first<'a>(&self, s: &'a Small) -> &'a [Small] {
        first_of(s)
    }

    fn second<'a>(&self, s: &'a Small) -> &'a [Small] {
        second_of(s)
    }

    #[tactic(auto, using(crate::proofs::Choices::nothing_made, crate::proofs::Choices::something_made))]
    fn operation(&self, alloc: Global, s: &Small) -> Result<Operations<Small>, Failure<Unknown>> {
        match s {
            Small::Add(k) => {
                if *k == 0 {
                    return Ok(no_operation(alloc));
                }
                Ok(same_addition(alloc, *k)?)
            }
            Small::If(_, _, _) => Ok(no_operation(alloc)),
            Small::While(_, _, _) => Ok(no_operation(alloc)),
            Small::Mark => Ok(no_operation(alloc)),
        }
    }

    fn quiet(&self, alloc: Global, _s: &Small) -> Result<Seq<Small>, Failure<Unknown>> {
        Ok(Seq::new(alloc))
    }

    fn choice(
        &self,
        alloc: Global,
        s: &Small,
        first: Seq<Small>,
        second: Seq<Small>,
    ) -> Result<Choice<Small>, Failure<Unknown>>
        ensures made { IfOk result (λ r. ChoiceMade dropping then_small (shape_of s.now)
            first second r.statements r.items r.numbers) }
        ensures refused { IfErr result (λ e. IfRefused e (λ cause. shape_of s.now ≡ other)) }
    {
        Ok(same_choice(alloc, s, first, second)?)
    }

    fn refusal(&self, _s: &Small) -> Unknown {
        Unknown
    }

    ghost has_tree = { has_tree };

    ghost is_above = { is_above };
}

impl Pass for AddNothing {
    type Src = SmallLanguage;

    type Dst = SmallLanguage;

    type Cause = Unknown;

    ghost relates = { λ it. by_rule dropping_known };

    ghost makes = { λ it p q k. Rewrites dropping (tree_of p) done (tree_of q) k };

    ghost refuses = { λ it p cause. RefusesOne shape_of (λ s e. shape_of s ≡ other) p cause };

    fn run(&self, alloc: Global, p: &Seq<Small>) -> Result<Passed<Seq<Small>>, Failure<Unknown>> {
        let rule = Rewrite::new(AddNothing);
        rule.run(alloc, p)
    }
}

/// The same addition.
fn same_addition(alloc: Global, k: u64) -> Result<Operations<Small>, AllocError>
    ensures statements { IfOk result (λ r. r.statements ≡ Add k ∷ []) }
    ensures items { IfOk result (λ r. r.items ≡ Same ∷ []) }
{
    let mut statements = Seq::new(alloc);
    statements.push(Small::Add(k))?;
    let mut items = Seq::new(alloc);
    items.push(Numbers::Same)?;
    Ok(Operations { statements, items })
}
