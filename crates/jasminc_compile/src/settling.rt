//! The answer of outcomes: all functions, or the first refusal of the first stage that has one.

ghost use Rattle.std.specs.Prelude.{◌≡◌, ◌<◌, true, false, All, None, Some, IfSome, IfOk, IfErr};
ghost use Rattle.std.specs.Prelude.{length, map, slice_get};
ghost use Rattle.jz_data.specs.Failures.{IfRefused};
ghost use Rattle.jasminc_compile.specs.declared.outcome.Outcome.TheVariants.{Made, Not};
ghost use Rattle.jasminc_compile.specs.declared.settling.Stage.TheVariants as stage;
ghost use Rattle.jasminc_compile.specs.InnerSettling.{is_of, comes_to, IsNotAt, IsFirstAt};
ghost use Rattle.jasminc_compile.specs.InnerSettling.{IsMadeOne, IsRefusal, IsFirstRefusal, IsFirstUnmade};

use crate::outcome::{Outcome, Unmade};
use jz_data::{Failure, Seq};
use jz_listing::Compiled;
use std::alloc::{AllocError, Global};

/// The stages of making, in their order.
#[derive(Clone, Copy)]
pub(crate) enum Stage {
    Frame,
    Places,
}

fn is_of(stage: Stage, unmade: &Unmade) -> bool
    ensures { result ≡ is_of stage unmade.now }
{
    match unmade {
        Unmade::Frame(_) => match stage {
            Stage::Frame => true,
            Stage::Places => false,
        },
        Unmade::NoPlace(_) => match stage {
            Stage::Frame => false,
            Stage::Places => true,
        },
    }
}

/// Whether the stage refuses it.
fn comes_to(stage: Stage, outcome: &Outcome) -> bool
    ensures { result ≡ comes_to stage outcome.now }
{
    match outcome {
        Outcome::Made(_) => false,
        Outcome::Not(unmade) => is_of(stage, unmade),
    }
}

/// The first that a stage refuses.
fn first_at(outcomes: &Seq<Outcome>, stage: Stage) -> Option<usize>
    ensures found { IfSome result (IsFirstAt stage outcomes.now) }
    ensures none { result ≡ None → All (IsNotAt stage) outcomes.now }
{
    for (i, outcome) in outcomes.as_slice().iter().enumerate() {
        if comes_to(stage, outcome) {
            return Some(i);
        }
    }
    None
}

/// The first without places, where no frame is too large.
fn first_behind_frames(outcomes: &Seq<Outcome>) -> Option<usize>
    requires { All (IsNotAt stage.Frame) outcomes.now }
    ensures found { IfSome result (IsFirstRefusal outcomes.now) }
    ensures none { result ≡ None → All IsMadeOne outcomes.now }
{
    match first_at(outcomes, Stage::Places) {
        Some(place) => Some(place),
        None => None,
    }
}

/// The first that is refused by the first stage that refuses one.
fn first_refusal(outcomes: &Seq<Outcome>) -> Option<usize>
    ensures found { IfSome result (IsFirstRefusal outcomes.now) }
    ensures none { result ≡ None → All IsMadeOne outcomes.now }
{
    match first_at(outcomes, Stage::Frame) {
        Some(place) => Some(place),
        None => first_behind_frames(outcomes),
    }
}

/// The outcome at a place.
fn taken(outcomes: Seq<Outcome>, place: usize) -> Outcome
    requires { place < length outcomes }
    ensures { slice_get outcomes place ≡ Some result }
{
    let mut list = outcomes.into_vec();
    list.swap_remove(place)
}

/// The refusal at a place.
fn refusal_at(outcomes: Seq<Outcome>, place: usize) -> Unmade
    requires { IsRefusal outcomes place }
    ensures { slice_get outcomes place ≡ Some (Not result) }
{
    match taken(outcomes, place) {
        Outcome::Not(unmade) => unmade,
        Outcome::Made(_) => unreachable!(),
    }
}

/// The function that it is.
fn function_in(outcome: Outcome) -> Compiled
    requires { IsMadeOne outcome }
    ensures { outcome ≡ Made result }
{
    match outcome {
        Outcome::Made(compiled) => compiled,
        Outcome::Not(_) => unreachable!(),
    }
}

/// The functions of outcomes that are all functions.
fn all_made(alloc: Global, outcomes: Seq<Outcome>) -> Result<Seq<Compiled>, AllocError>
    requires { All IsMadeOne outcomes }
    ensures { IfOk result (λ compiled. outcomes ≡ map Made compiled) }
{
    let mut all = Seq::new(alloc);
    for outcome in outcomes.into_vec() {
        all.push(function_in(outcome))?;
    }
    Ok(all)
}

/// The functions, or the first refusal of the first stage that has one.
pub(crate) fn settled(
    alloc: Global,
    outcomes: Seq<Outcome>,
) -> Result<Seq<Compiled>, Failure<Unmade>>
    ensures made { IfOk result (λ compiled. outcomes ≡ map Made compiled) }
    ensures refused { IfErr result (λ e. IfRefused e (IsFirstUnmade outcomes)) }
{
    match first_refusal(&outcomes) {
        None => {
            let compiled = all_made(alloc, outcomes)?;
            Ok(compiled)
        }
        Some(place) => Err(Failure::Refused(refusal_at(outcomes, place))),
    }
}
