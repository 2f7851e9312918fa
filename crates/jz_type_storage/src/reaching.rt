//! Which functions a function reaches.

ghost use Rattle.std.specs.Prelude.{◌≡◌, ◌∷◌, [], ℕ, ◌<◌, length, OnOk, IfOk};
ghost use Rattle.jz_type_storage.specs.InnerNumbers.{Has, row_of, IsClosed, Consistent, IsFound};
ghost use Rattle.jz_type_storage.specs.InnerVisits.{HasVisited};

use jz_tree::Seq;
use std::alloc::{AllocError, Global};

/// The functions found so far, in the order in which they were found.
#[derive(Drop)]
pub struct Found {
    pub marks: Vec<bool>,
    pub order: Vec<usize>,
}

fn visit(found: &mut Found, at: usize) -> Result<(), AllocError>
    requires within { at < length found.old.marks.items }
    requires consistent { Consistent found.old.marks.items found.old.order.items }
    ensures { OnOk result (HasVisited found.old found.new (at ∷ [])) }
{
    if found.marks[at] {
        return Ok(());
    }
    found.order.push(at)?;
    found.marks[at] = true;
    Ok(())
}

fn visit_all(found: &mut Found, all: &[usize]) -> Result<(), AllocError>
    requires within { (j : ℕ) → Has all.now j → j < length found.old.marks.items }
    requires consistent { Consistent found.old.marks.items found.old.order.items }
    ensures { OnOk result (HasVisited found.old found.new all.now) }
{
    for at in all {
        visit(found, *at)?;
    }
    Ok(())
}

/// The numbers of the functions that one calls.
pub fn calls_of(graph: &Seq<Seq<usize>>, at: usize) -> &[usize]
    requires { at < length graph.now }
    ensures { result.now ≡ row_of graph.now at }
{
    graph.as_slice()[at].as_slice()
}

/// The functions to which calls lead from one. Each call is looked at once.
pub fn reach(alloc: Global, graph: &Seq<Seq<usize>>, start: usize) -> Result<Found, AllocError>
    requires within { start < length graph.now }
    requires closed { IsClosed graph.now }
    ensures { IfOk result (λ found. IsFound graph.now start found.marks.items found.order.items) }
{
    let mut found = Found {
        marks: vec![in alloc; false; graph.len()]?,
        order: Vec::new(alloc),
    };
    visit_all(&mut found, calls_of(graph, start))?;
    let mut head = 0;
    while head < found.order.len() {
        let at = found.order[head];
        visit_all(&mut found, calls_of(graph, at))?;
        head += 1;
    }
    Ok(found)
}
