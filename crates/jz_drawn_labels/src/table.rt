//! Which label each scalar has.

ghost use Rattle.std.specs.Prelude.{◌≡◌, ◌≤◌, ℕ, None, OnOk};
ghost use Rattle.jz_meaning.specs.States.{Key};
ghost use Rattle.jz_layers.specs.Spots.{spot_of, variable_key, put_in};
ghost use Rattle.jz_layers.specs.Layered.{seen};
ghost use Rattle.jz_required.specs.Kept.{origin_of};
ghost use Rattle.jz_secrets.specs.Graphs.{vertex_of};
ghost use Rattle.jz_drawing.specs.Drawings.{vertex_in, put_node};
ghost use Rattle.jz_drawn_labels.specs.Kept.{nodes_of, standing};

use jz_layers::{Layers, Named};
use jz_required::Part;
use jz_secrets::Node;
use jz_tree::Var;
use std::alloc::{AllocError, Global};

/// The labels of scalars. All are public that have none, or one below the floor: these were drawn
/// before a loop without an end.
#[derive(Drop)]
pub struct Table<'a> {
    pub layers: Layers<'a, usize>,
    pub floor: usize,
}

/// A label that is above the floor, else that which is public.
pub fn above(floor: usize, node: Option<usize>) -> usize
    ensures { result ≡ standing floor node }
{
    match node {
        None => 0,
        Some(node) => { if node < floor { 0 } else { node } }
    }
}

impl<'a> Table<'a> {
    /// All are public.
    pub fn new(alloc: Global) -> Table<'a>
        ensures nodes { (k : Key) → nodes_of result k ≡ 0 }
        ensures floor { result.floor ≡ 0 }
    {
        Table {
            layers: Layers::new(alloc),
            floor: 0,
        }
    }

    /// The label of a scalar.
    pub fn node(&self, var: &'a Var) -> usize
        ensures { result ≡ nodes_of self.now (variable_key var.now) }
    {
        above(self.floor, self.layers.get(Named::of(var)))
    }

    /// The label of what is read.
    pub fn of_part(&self, part: Part<'a>) -> Node<'a>
        ensures { vertex_of result ≡ vertex_in (nodes_of self.now) (origin_of part.entry) }
    {
        match part {
            Part::Memory => Node::Secret,
            Part::Scalar(var) => Node::Drawn(self.node(var)),
            Part::Array(var) => Node::Array(var),
        }
    }
}

/// Gives a scalar a label.
pub fn put_named<'a>(table: &mut Table<'a>, named: Named<'a>, node: usize) -> Result<(), AllocError>
    requires floor { table.old.floor ≤ node }
    requires scalar { (spot_of named).index ≡ None }
    ensures nodes { OnOk result (nodes_of table.new
        ≡ put_node (spot_of named.entry).of node (nodes_of table.old)) }
    ensures seen { OnOk result (seen table.new.layers
        ≡ put_in (seen table.old.layers) (spot_of named.entry) node) }
    ensures floor { table.new.floor ≡ table.old.floor }
    ensures below { table.new.layers.below.items ≡ table.old.layers.below.items }
{
    table.layers.put(named, node)?;
    Ok(())
}

/// Gives a scalar a label.
pub fn put<'a>(table: &mut Table<'a>, var: &'a Var, node: usize) -> Result<(), AllocError>
    requires { table.old.floor ≤ node }
    ensures nodes { OnOk result (nodes_of table.new
        ≡ put_node (variable_key var.now) node (nodes_of table.old)) }
    ensures floor { table.new.floor ≡ table.old.floor }
    ensures below { table.new.layers.below.items ≡ table.old.layers.below.items }
{
    put_named(table, Named::of(var), node)?;
    Ok(())
}
