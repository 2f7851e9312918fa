//! The labels with the fewest secrets.

ghost use Rattle.std.specs.Prelude.{◌≡◌, ◌<◌, IfOk};
ghost use Rattle.jz_secrets.specs.Graphs.{vertex_of, arrows_of, AreBelow, AreFewest};
ghost use Rattle.jz_secrets.specs.Kept.{public_by, marked_at};

use crate::edge::{Edge, Node};
use crate::graph::{Graph, graph_of};
use crate::reach::reached;
use indexmap::IndexMap;
use jz_layers::Named;
use std::alloc::{AllocError, Global};

/// What is secret because something secret comes to it along edges.
#[derive(Drop)]
pub struct Secrets<'a> {
    pub(crate) marked: Vec<bool>,
    pub(crate) arrays: IndexMap<Named<'a>, usize>,
}

impl<'a> Secrets<'a> {
    fn is_marked(&self, number: usize) -> bool
        ensures { result ≡ marked_at self.now.marked.items number }
    {
        match self.marked.get(number) {
            None => false,
            Some(marked) => *marked,
        }
    }

    /// Whether the label there is public.
    pub fn is_public(&self, node: Node<'a>) -> bool
        ensures { result ≡ public_by self.now (vertex_of node.entry) }
    {
        match node {
            Node::Secret => false,
            Node::Drawn(number) => !self.is_marked(number),
            Node::Array(var) => match self.arrays.get(&Named::of(var)) {
                None => true,
                Some(number) => !self.is_marked(*number),
            },
        }
    }
}

/// The labels with the fewest secrets that the edges allow, of which the first `count` labels are
/// drawn. Work and memory are linear in the edges.
pub fn secrets_of<'a>(
    alloc: Global,
    edges: &[Edge<'a>],
    count: usize,
) -> Result<Secrets<'a>, AllocError>
    requires below { AreBelow count (arrows_of edges.now) }
    requires some { 0 < count }
    ensures { IfOk result (λ s. AreFewest count (arrows_of edges.now) (public_by s)) }
{
    let graph = graph_of(alloc, edges, count)?;
    let marked = reached(alloc, graph.rows.as_slice(), graph.count)?;
    let Graph {
        count: _,
        rows: _,
        arrays,
    } = graph;
    Ok(Secrets { marked, arrays })
}
