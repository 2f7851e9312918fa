//! Reading a listing, line by line.

ghost use Rattle.std.specs.Prelude.{◌≡◌, ◌++◌, MatchOption};
ghost use Rattle.jz_data.specs.Failures.{IfAnswered};
ghost use Rattle.jz_listing_read.specs.Reading.{IsOneLine, ReadsListing, ended};
ghost use Rattle.jz_listing_read.specs.InnerLines.{Follows};

use crate::state::{Stage, State, start, take};
use jz_data::Failure;
use jz_leak::Seq;
use jz_listing::Compiled;
use jz_listing_lines::read_line;
use std::alloc::Global;

/// A line and what stands behind its end; none where the text ends first.
fn next_line(text: &[u8]) -> Option<(&[u8], &[u8])>
    ensures { MatchOption result (IsOneLine text.now)
        (λ p. (text.now ≡ ended p.0.now ++ p.1.now) × IsOneLine p.0.now) }
{
    let length = text.iter().take_while(|byte| **byte != b'\n').count();
    if length == text.len() {
        return None;
    }
    Some((&text[..length], &text[length + 1..]))
}

/// What is known behind a line, the number of which is told where no listing goes on with it.
#[tactic(auto, using(crate::proofs::Nexts::no_next))]
fn after_line(
    alloc: Global,
    state: State,
    line: &[u8],
    number: usize,
) -> Result<State, Failure<usize>>
    ensures { Follows state line.now number result }
{
    let Some(line) = read_line(alloc, line)? else {
        return Err(Failure::Refused(number));
    };
    match take(alloc, state, line) {
        Ok(state) => Ok(state),
        Err(Failure::Refused(_)) => Err(Failure::Refused(number)),
        Err(Failure::OutOfMemory) => Err(Failure::OutOfMemory),
    }
}

/// The functions that a text is the listing of; or the number of its first line, from 1, with which
/// no listing goes on. A text that ends too early is refused at the line in which it ends.
#[tactic(auto, using(crate::proofs::Listings::begun, crate::proofs::Listings::one_more, crate::proofs::Listings::refused, crate::proofs::Listings::ended_early, crate::proofs::Listings::whole, crate::proofs::Listings::number_small))]
pub fn read_listing(alloc: Global, text: &[u8]) -> Result<Seq<Compiled>, Failure<usize>>
    ensures { IfAnswered result (ReadsListing text.now) }
{
    let mut state = start(alloc);
    let mut rest = text;
    let mut number = 1;
    while let Some((line, more)) = next_line(rest) {
        state = after_line(alloc, state, line, number)?;
        rest = more;
        number += 1;
    }
    if rest.is_empty() && state.stage == Stage::Outside {
        Ok(state.done)
    } else {
        Err(Failure::Refused(number))
    }
}
