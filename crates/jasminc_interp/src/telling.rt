//! The text of a run of the source.

ghost use Rattle.std.specs.Prelude.{◌≡◌, ◌++◌, IfOk, OnOk, All};
ghost use Rattle.jz_preconditions.specs.Stating.{preconditions_of};
ghost use Rattle.jz_preconditions.specs.Meeting.{IsBelowEnd};
ghost use Rattle.jz_preconditions.specs.Meeting.{regions_for};
ghost use Rattle.jz_meaning.specs.Runs.{FunOutcome};
ghost use Rattle.jz_interp.specs.Outcomes.{values_of, Shows};
ghost use Rattle.jasminc_lines.specs.Lines.{cut_line};
ghost use Rattle.jasminc_interp.specs.Telling.{why_name, stuck_line, results_text, end_text};
ghost use Rattle.jasminc_interp.specs.Telling.{Tells};

use jasminc_lines::{write_cut, write_result};
use jasminc_regions::write_regions;
use jz_interp::Outcome;
use jz_io::Bytes;
use jz_leak::MemMap;
use jz_meaning::{Stuck, Why};
use jz_preconditions::Pre;
use jz_text::write_span;
use jz_tree::{Fun, Seq, Var, Word};
use std::alloc::{AllocError, Global};

/// The text of a run.
#[derive(Drop)]
pub enum Ran {
    /// It ended.
    Ended(Bytes),
    /// A turn of a `while` was wanted and none was left.
    Cut(Bytes),
    /// A statement has no meaning where it stood.
    Stuck(Bytes),
}

#[tactic(auto, unfolding(crate::specs::Telling::why_name))]
fn why_name(why: Why) -> &'static str
    ensures { result.now ≡ why_name why }
{
    match why {
        Why::Bounds => "Bounds",
        Why::Address => "Address",
        Why::Align => "Align",
        Why::Init => "Init",
        Why::Divide => "Divide",
    }
}

/// Where a run is stuck, and why.
fn write_stuck(text: &mut Vec<u8>, stuck: Stuck) -> Result<(), AllocError>
    ensures { OnOk result (text.new.items ≡ text.old.items ++ stuck_line stuck) }
{
    text.extend_from_slice(b"stuck ")?;
    write_span(text, stuck.span)?;
    text.extend_from_slice(b" ")?;
    text.extend_from_slice(why_name(stuck.why).as_bytes())?;
    text.extend_from_slice(b"\n")
}

/// The results: each returned variable with its word.
fn write_results(
    alloc: Global,
    text: &mut Vec<u8>,
    results: &Seq<Var>,
    words: &Seq<Word>,
) -> Result<(), AllocError>
    ensures { OnOk result (text.new.items
        ≡ text.old.items ++ results_text results.now (values_of words.now)) }
{
    for (i, var) in results.as_slice().iter().enumerate() {
        match words.get(i) {
            None => return Ok(()),
            Some(word) => {
                write_result(alloc, text, var.name.as_str(), word.size(), word.bits())?;
            }
        }
    }
    Ok(())
}

fn end_text(
    alloc: Global,
    function: &Fun,
    words: &Seq<u64>,
    pres: &Seq<Pre>,
    results: &Seq<Word>,
    memory: &MemMap,
) -> Result<Bytes, AllocError>
    requires pres { pres.now ≡ preconditions_of function.now }
    requires below_end { All IsBelowEnd (regions_for function.now words.now) }
    ensures { IfOk result (λ text.
        text ≡ end_text function.now words.now (values_of results.now) memory.now) }
{
    let mut text = Vec::from_slice(alloc, b"end\n")?;
    write_results(alloc, &mut text, &function.result, results)?;
    write_regions(alloc, &mut text, function, words, memory, pres)?;
    Ok(Bytes::from_vec(text))
}

fn cut_text(alloc: Global, fuel: u64) -> Result<Bytes, AllocError>
    ensures { IfOk result (λ text. text ≡ cut_line fuel) }
{
    let mut text = Vec::new(alloc);
    write_cut(&mut text, fuel)?;
    Ok(Bytes::from_vec(text))
}

fn stuck_text(alloc: Global, stuck: Stuck) -> Result<Bytes, AllocError>
    ensures { IfOk result (λ text. text ≡ stuck_line stuck) }
{
    let mut text = Vec::new(alloc);
    write_stuck(&mut text, stuck)?;
    Ok(Bytes::from_vec(text))
}

/// The text of what a run on argument words with so many turns came to.
pub fn tell(
    alloc: Global,
    function: &Fun,
    words: &Seq<u64>,
    pres: &Seq<Pre>,
    outcome: &Outcome,
    fuel: u64,
) -> Result<Ran, AllocError>
    requires pres { pres.now ≡ preconditions_of function.now }
    requires below_end { All IsBelowEnd (regions_for function.now words.now) }
    ensures { IfOk result (λ ran. (out : FunOutcome) → Shows out outcome.now
        → Tells function.now words.now fuel out ran) }
{
    match outcome {
        Outcome::End(results, memory, _) => {
            let text = end_text(alloc, function, words, pres, results, memory)?;
            Ok(Ran::Ended(text))
        }
        Outcome::Cut(_) => {
            let text = cut_text(alloc, fuel)?;
            Ok(Ran::Cut(text))
        }
        Outcome::Stuck(stuck) => {
            let text = stuck_text(alloc, *stuck)?;
            Ok(Ran::Stuck(text))
        }
    }
}
