//! Edges by the numbers of where they begin.

ghost use Rattle.std.specs.Prelude.{◌≡◌, ◌<◌, ℕ, false, Some, IfOk, OnOk, length};
ghost use Rattle.jz_layers.specs.Spots.{variable_key};
ghost use Rattle.jz_secrets.specs.Graphs.{array, vertex_of, arrow_of, arrows_of, IsBelow, AreBelow};
ghost use Rattle.jz_secrets.specs.InnerGraphs.{number_in, has, row_at};
ghost use Rattle.jz_secrets.specs.InnerGraphs.{IsFine, Grows, AddsArrow, IsGraphOf};

use crate::edge::{Edge, Node};
use indexmap::IndexMap;
use jz_layers::Named;
use jz_tree::{Seq, Var};
use std::alloc::{AllocError, Global};

/// For each number those to which edges go. Those below `count` are drawn, `count` is what is
/// secret, and arrays have those behind it.
#[derive(Drop)]
pub(crate) struct Graph<'a> {
    pub(crate) count: usize,
    pub(crate) rows: Vec<Seq<usize>>,
    pub(crate) arrays: IndexMap<Named<'a>, usize>,
}

/// So many empty rows and one more.
fn empty_rows(alloc: Global, count: usize) -> Result<Vec<Seq<usize>>, AllocError>
    ensures long { IfOk result (λ rows. count < length rows.items) }
    ensures empty { IfOk result
        (λ rows. (u v : ℕ) → has (row_at rows.items u) v ≡ false) }
{
    let mut rows = Vec::new(alloc);
    rows.push(Seq::new(alloc))?;
    for row in 0..count {
        let _ = row;
        rows.push(Seq::new(alloc))?;
    }
    Ok(rows)
}

impl<'a> Graph<'a> {
    /// The number of an array, which is a new one where it had none.
    fn number_of_array(&mut self, alloc: Global, var: &'a Var) -> Result<usize, AllocError>
        requires { IsFine self.old }
        ensures fine { OnOk result (IsFine self.new) }
        ensures grows { OnOk result (Grows self.old self.new) }
        ensures number { IfOk result
            (λ n. number_in self.new (array (variable_key var.now)) ≡ Some n) }
    {
        let named = Named::of(var);
        match self.arrays.get(&named) {
            Some(number) => return Ok(*number),
            None => {}
        }
        let number = self.rows.len();
        self.rows.push(Seq::new(alloc))?;
        self.arrays.insert(named, number)?;
        Ok(number)
    }

    fn number_of(&mut self, alloc: Global, node: Node<'a>) -> Result<usize, AllocError>
        requires { IsFine self.old }
        ensures fine { OnOk result (IsFine self.new) }
        ensures grows { OnOk result (Grows self.old self.new) }
        ensures number { IfOk result (λ n. number_in self.new (vertex_of node.entry) ≡ Some n) }
    {
        match node {
            Node::Secret => Ok(self.count),
            Node::Drawn(number) => Ok(number),
            Node::Array(var) => {
                let number = self.number_of_array(alloc, var)?;
                Ok(number)
            }
        }
    }

    fn add(&mut self, alloc: Global, edge: Edge<'a>) -> Result<(), AllocError>
        requires fine { IsFine self.old }
        requires below { IsBelow self.old.count (arrow_of edge).from }
        ensures fine { OnOk result (IsFine self.new) }
        ensures adds { OnOk result (AddsArrow (arrow_of edge.entry) self.old self.new) }
    {
        let from = self.number_of(alloc, edge.from)?;
        let to = self.number_of(alloc, edge.to)?;
        self.rows[from].push(to)?;
        Ok(())
    }
}

/// The edges by the numbers of where they begin.
pub(crate) fn graph_of<'a>(
    alloc: Global,
    edges: &[Edge<'a>],
    count: usize,
) -> Result<Graph<'a>, AllocError>
    requires { AreBelow count (arrows_of edges.now) }
    ensures count { IfOk result (λ g. g.count ≡ count) }
    ensures graph { IfOk result (IsGraphOf (arrows_of edges.now)) }
{
    let rows = empty_rows(alloc, count)?;
    let mut graph = Graph {
        count,
        rows,
        arrays: IndexMap::new(alloc),
    };
    for edge in edges {
        graph.add(alloc, *edge)?;
    }
    Ok(graph)
}
