//! Ranks of the functions of a program, or the first function that reaches itself.

ghost use Rattle.std.specs.Prelude.{◌≡◌, Some, IfOk};
ghost use Rattle.jz_tree.specs.Span.{Span};
ghost use Rattle.jz_type_storage.specs.InnerNumbers.{graph_of};
ghost use Rattle.jz_type_storage.specs.InnerCandidates.{Stands, IsNoLater};
ghost use Rattle.jz_type_storage.specs.Recursion.{IsRecursive, Tells, recursive_of};

use crate::called::walked_ranks;
use crate::fall::{Candidate, descends, first_level};
use crate::graph::graph;
use crate::reaching::reach;
use jz_tree::{Program, Seq, Span};
use jz_type_names::{earlier_of, unless};
use std::alloc::{AllocError, Global};

/// What the calls of a program are like.
#[derive(Drop)]
pub enum Ranking {
    /// No function reaches itself: a rank for each function, in their order. The functions that one
    /// calls have lower ranks.
    Ranked(Seq<usize>),
    /// The earliest name of a function that reaches itself.
    Recursive(Span),
}

impl Ranking {
    /// The name of the function that reaches itself, if there is one.
    pub fn recursive(&self) -> Option<Span>
        ensures { result ≡ recursive_of self.now }
    {
        match self {
            Ranking::Ranked(_) => None,
            Ranking::Recursive(at) => Some(*at),
        }
    }
}

/// Each function is asked by itself. The number of those that it reaches is a rank, where none
/// reaches itself.
fn ask_each(
    alloc: Global,
    graph: &Seq<Seq<usize>>,
    program: &Program,
) -> Result<Ranking, AllocError>
    requires { graph.now ≡ graph_of program.now.funs }
    ensures { IfOk result (λ ranking. Tells program.now ranking) }
{
    let mut first = None;
    let mut ranks = Vec::new(alloc);
    for (i, fun) in program.funs.as_slice().iter().enumerate() {
        let found = reach(alloc, graph, i)?;
        let again = found.marks[i];
        first = earlier_of(first, unless(!again, fun.span));
        ranks.push(found.order.len())?;
    }
    match first {
        None => Ok(Ranking::Ranked(Seq::from_vec(ranks))),
        Some(at) => Ok(Ranking::Recursive(at)),
    }
}

/// The function before which none reaches itself is asked, and the others only where it does not
/// reach itself.
fn ask_first(
    alloc: Global,
    graph: &Seq<Seq<usize>>,
    program: &Program,
    first: Candidate,
) -> Result<Ranking, AllocError>
    requires graph { graph.now ≡ graph_of program.now.funs }
    requires stands { Stands program.now.funs first }
    requires least { (at : Span) → IsRecursive program.now at → IsNoLater (Some first) at }
    ensures { IfOk result (λ ranking. Tells program.now ranking) }
{
    let found = reach(alloc, graph, first.number)?;
    if found.marks[first.number] {
        return Ok(Ranking::Recursive(first.name));
    }
    let ranking = ask_each(alloc, graph, program)?;
    Ok(ranking)
}

/// Ranks of the functions, or the earliest name of one that reaches itself by its calls. The work
/// grows with the number of functions and calls, where the ranks that are guessed are those of the
/// functions that reach one another. Nothing is promised of the guess: where it were wrong, the
/// work would grow with the number of functions times that of calls.
pub fn find_recursion(alloc: Global, program: &Program) -> Result<Ranking, AllocError>
    ensures { IfOk result (λ ranking. Tells program.now ranking) }
{
    let graph = graph(alloc, &program.funs)?;
    let ranks = walked_ranks(alloc, &graph)?;
    if !descends(&graph, ranks.as_slice()) {
        let ranking = ask_each(alloc, &graph, program)?;
        return Ok(ranking);
    }
    match first_level(&graph, &program.funs, ranks.as_slice()) {
        None => Ok(Ranking::Ranked(Seq::from_vec(ranks))),
        Some(first) => {
            let ranking = ask_first(alloc, &graph, program, first)?;
            Ok(ranking)
        }
    }
}
