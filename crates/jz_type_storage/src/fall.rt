//! Whether ranks get smaller with each call, and the first function of which they do not.

ghost use Rattle.std.specs.Prelude.{◌≡◌, ◌⊎◌, Some, length, IsTrue};
ghost use Rattle.jz_tree.specs.Span.{Span};
ghost use Rattle.jz_type_storage.specs.Numbers.{AreBelow};
ghost use Rattle.jz_type_storage.specs.InnerNumbers.{AreCalledBelow, Descends};
ghost use Rattle.jz_type_storage.specs.InnerCandidates.{IsNoLater, IsCandidate};

use crate::reaching::calls_of;
use jz_tree::{Fun, Seq, Span};
use jz_type_names::is_before;

/// A function by its number, and the place of its name.
#[derive(Clone, Copy)]
pub struct Candidate {
    pub number: usize,
    pub name: Span,
}

fn are_below(ranks: &[usize], limit: usize) -> bool
    ensures { IsTrue result → AreBelow ranks.now limit }
{
    for rank in ranks {
        if *rank >= limit {
            return false;
        }
    }
    true
}

/// Whether each function that is called has a rank below the limit.
fn calls_below(limit: usize, called: &[usize], ranks: &[usize]) -> bool
    ensures { IsTrue result → AreCalledBelow ranks.now limit called.now }
{
    for at in called {
        match ranks.get(*at) {
            None => return false,
            Some(low) => {
                if *low >= limit {
                    return false;
                }
            }
        }
    }
    true
}

/// Whether there is a rank for each function, below the number of functions, and no call is of a
/// function of higher rank. Each call is looked at once.
pub fn descends(graph: &Seq<Seq<usize>>, ranks: &[usize]) -> bool
    ensures { IsTrue result → Descends graph.now ranks.now }
{
    if ranks.len() != graph.len() {
        return false;
    }
    if !are_below(ranks, graph.len()) {
        return false;
    }
    for (i, called) in graph.as_slice().iter().enumerate() {
        if !calls_below(ranks[i].saturating_add(1), called.as_slice(), ranks) {
            return false;
        }
    }
    true
}

/// The earlier of the candidate so far and the next function, if a call of that one does not fall.
fn with_next(first: Option<Candidate>, falls: bool, next: Candidate) -> Option<Candidate>
    ensures one { (result ≡ first) ⊎ (result ≡ Some next) }
    ensures first { (at : Span) → IsNoLater first at → IsNoLater result at }
    ensures next { IsTrue falls ⊎ IsNoLater result next.name }
{
    if falls {
        return first;
    }
    match first {
        None => Some(next),
        Some(there) => {
            if is_before(next.name, there.name) {
                Some(next)
            } else {
                Some(there)
            }
        }
    }
}

/// Of the functions with a call of one whose rank is not lower, the one that stands first in the
/// text. Each call is looked at once.
pub fn first_level(graph: &Seq<Seq<usize>>, funs: &Seq<Fun>, ranks: &[usize]) -> Option<Candidate>
    requires functions { length graph.now ≡ length funs.now }
    requires ranks { length ranks.now ≡ length funs.now }
    ensures { IsCandidate graph.now funs.now ranks.now (length funs.now) result }
{
    let mut first = None;
    for (i, fun) in funs.as_slice().iter().enumerate() {
        let falls = calls_below(ranks[i], calls_of(graph, i), ranks);
        let next = Candidate {
            number: i,
            name: fun.span,
        };
        first = with_next(first, falls, next);
    }
    first
}
