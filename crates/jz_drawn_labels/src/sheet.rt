//! What is drawn: labels, those that come of others, and those that have to be public.

ghost use Rattle.std.specs.Prelude.{◌≡◌, ◌++◌, ◌∷◌, [], ℕ, suc, length, map, IfOk, OnOk};
ghost use Rattle.jz_meaning.specs.States.{Key};
ghost use Rattle.jz_secrets.specs.Graphs.{vertex_of, arrows_of};
ghost use Rattle.jz_required.specs.Kept.{origins_of, demands_of};
ghost use Rattle.jz_drawing.specs.Drawings.{new_arrow, arrow_between, arrows_from, asks_in};
ghost use Rattle.jz_drawn_labels.specs.Kept.{asked_of, nodes_of};

use crate::table::Table;
use jz_required::{Part, Required};
use jz_secrets::{Edge, Node};
use jz_tree::Seq;
use std::alloc::{AllocError, Global};

/// A label that has to be public.
#[derive(Clone, Copy)]
pub struct Ask<'a> {
    pub at: Node<'a>,
    pub required: Required<'a>,
}

/// Labels are numbered; with each new one goes an edge, so that there are as many as edges at most.
#[derive(Drop)]
pub struct Sheet<'a> {
    pub edges: Vec<Edge<'a>>,
    pub asked: Vec<Ask<'a>>,
}

impl<'a> Sheet<'a> {
    /// Nothing is drawn but the label that is public.
    pub fn new(alloc: Global) -> Sheet<'a>
        ensures edges { result.edges.items ≡ [] }
        ensures asked { result.asked.items ≡ [] }
    {
        Sheet {
            edges: Vec::new(alloc),
            asked: Vec::new(alloc),
        }
    }

    /// The number of the next label.
    pub fn next(&self) -> usize
        ensures { result ≡ suc (length self.now.edges.items) }
    {
        let count = self.edges.len();
        count + 1
    }
}

/// Draws that a label comes of another.
pub fn link<'a>(edges: &mut Vec<Edge<'a>>, from: Node<'a>, to: Node<'a>) -> Result<(), AllocError>
    ensures { OnOk result (arrows_of edges.new.items ≡ arrows_of edges.old.items
        ++ arrow_between (vertex_of from.entry) (vertex_of to.entry) ∷ []) }
{
    edges.push(Edge { from, to })?;
    Ok(())
}

/// Draws a new label.
pub fn fresh<'a>(edges: &mut Vec<Edge<'a>>) -> Result<usize, AllocError>
    ensures number { IfOk result (λ n. n ≡ suc (length (arrows_of edges.old.items))) }
    ensures arrows { OnOk result (arrows_of edges.new.items ≡ arrows_of edges.old.items
        ++ new_arrow (suc (length (arrows_of edges.old.items))) ∷ []) }
{
    let count = edges.len();
    let number = count + 1;
    link(edges, Node::Drawn(0), Node::Drawn(number))?;
    Ok(number)
}

/// Draws that a label comes of all of these.
pub(crate) fn link_all<'a>(
    edges: &mut Vec<Edge<'a>>,
    table: &Table<'a>,
    parts: &Seq<Part<'a>>,
    to: usize,
) -> Result<(), AllocError>
    ensures { OnOk result (arrows_of edges.new.items ≡ arrows_of edges.old.items
        ++ arrows_from (nodes_of table.now) (origins_of parts.now) to) }
{
    for part in parts.as_slice() {
        link(edges, table.of_part(*part), Node::Drawn(to))?;
    }
    Ok(())
}

/// Notes that these have to be public.
pub fn ask_all<'a>(
    asked: &mut Vec<Ask<'a>>,
    table: &Table<'a>,
    required: &Seq<Required<'a>>,
) -> Result<(), AllocError>
    ensures { OnOk result (map asked_of asked.new.items ≡ map asked_of asked.old.items
        ++ asks_in (nodes_of table.now) (demands_of required.now)) }
{
    for one in required.as_slice() {
        asked.push(Ask {
            at: table.of_part(one.part),
            required: *one,
        })?;
    }
    Ok(())
}
