//! Passes, and one after another.

ghost use Rattle.std.specs.Prelude.{◌≡◌, IfOk, IfErr, ◌⊎◌};
ghost use Rattle.jz_data.specs.Failures.{IfRefused};
ghost use Rattle.jz_change.specs.Changes as model;
ghost use Rattle.jz_change.specs.Composing.{compose_of};
ghost use Rattle.jz_change.specs.Views.{change_of};
ghost use Rattle.jz_pass.specs.Laws.{Relating, Carries, both};
ghost use Rattle.jz_pass.specs.Cases.{IsBetween};

use crate::lang::Lang;
use jz_change::{Change, compose};
use jz_data::Failure;
use std::alloc::Global;

/// What a pass makes of a program, and of the leaks of its runs.
#[derive(Drop)]
pub struct Passed<T> {
    pub program: T,
    pub change: Change,
}

/// A pass between two languages. Its law: each run of the program is followed by one of what is
/// made of it, and where that is stuck the program is.
pub trait Pass {
    type Src: Lang;

    type Dst: Lang;
    /// Why a program is refused.
    type Cause;

    /// What of the one language stands for what of the other.
    ghost relates: { Self → Relating Self.Src.Input Self.Dst.Input Self.Src.Given Self.Dst.Given
        Self.Src.Reason Self.Dst.Reason };

    /// What is made of a program, with its change.
    ghost makes: { Self → Self.Src.Program → Self.Dst.Program → model.Change → Type 0 };

    /// The programs that are refused, with the cause.
    ghost refuses: { Self → Self.Src.Program → Self.Cause → Type 0 };

    fn run(
        &self,
        alloc: Global,
        p: &<Self::Src as Lang>::Program,
    ) -> Result<Passed<<Self::Dst as Lang>::Program>, Failure<Self::Cause>>
        requires { Self.Src.valid p.now }
        ensures made { IfOk result (λ r. makes self.now p.now r.program (change_of r.change)) }
        ensures valid { IfOk result (λ r. Self.Dst.valid r.program) }
        ensures law { IfOk result (λ r. Carries (relates self.now) (Self.Src.runs p.now)
            (Self.Dst.runs r.program) (change_of r.change)) }
        ensures cases { IfOk result (λ r. IsBetween (Self.Src.cases p.now)
            (Self.Dst.cases r.program) (change_of r.change)) }
        ensures refused { IfErr result (λ e. IfRefused e (refuses self.now p.now)) };
}

/// One pass after another. Refused is what the first refuses, or what the second refuses of what
/// the first makes.
#[derive(Drop)]
pub struct Then<P, Q> {
    first: P,
    second: Q,
}

impl<P: Pass, Q: Pass<Src = P::Dst, Cause = P::Cause>> Then<P, Q> {
    pub fn new(first: P, second: Q) -> Then<P, Q>
        ensures first { result.first ≡ first }
        ensures second { result.second ≡ second }
    {
        Then { first, second }
    }
}

impl<P: Pass, Q: Pass<Src = P::Dst, Cause = P::Cause>> Pass for Then<P, Q> {
    type Src = P::Src;

    type Dst = Q::Dst;

    type Cause = P::Cause;

    ghost relates = { λ it. both (P.relates it.first) (Q.relates it.second) };

    ghost makes = { λ it p q k. (m : _) × (a : model.Change) × (b : model.Change)
        × P.makes it.first p m a × Q.makes it.second m q b × (k ≡ compose_of a b) };

    ghost refuses = { λ it p e. P.refuses it.first p e
        ⊎ ((m : _) × (a : model.Change) × P.makes it.first p m a × Q.refuses it.second m e) };

    fn run(
        &self,
        alloc: Global,
        p: &<P::Src as Lang>::Program,
    ) -> Result<Passed<<Q::Dst as Lang>::Program>, Failure<P::Cause>> {
        let Passed {
            program: middle,
            change: first,
        } = self.first.run(alloc, p)?;
        let Passed {
            program,
            change: second,
        } = self.second.run(alloc, &middle)?;
        let change = compose(alloc, first, second)?;
        Ok(Passed { program, change })
    }
}
