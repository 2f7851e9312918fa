//! Where two arms meet.

ghost use Rattle.std.specs.Prelude.{◌≡◌, ℕ, Option, None, is_some, OnOk};
ghost use Rattle.jz_meaning.specs.States.{Key};
ghost use Rattle.jz_layers.specs.Spots.{Spot, same_spot, entry_in, over, spot_of};
ghost use Rattle.jz_layers.specs.Layered.{IsOver, ClosesTo};
ghost use Rattle.jz_drawn_labels.specs.Kept.{whole, standing, IsLow};
ghost use Rattle.jz_drawn_labels.specs.Drew.{IsDrawn};
ghost use Rattle.jz_drawn_arms.specs.Meetings as meetings;
ghost use Rattle.jz_drawn_arms.specs.Meetings.{HasEnded, MeetsFor, AreMet};

use indexmap::IndexMap;
use jz_drawn_labels::{Drawing, Table, above, fresh, link, put_named};
use jz_layers::Named;
use jz_secrets::Node;
use std::alloc::AllocError;

/// What an arm, or a turn, laid over the labels before it.
#[derive(Drop)]
pub struct Arm<'a> {
    pub layer: IndexMap<Named<'a>, usize>,
    pub floor: usize,
}

/// Takes away what was laid over the labels, and gives back their floor.
pub fn end_arm<'a>(table: &mut Table<'a>, floor: usize) -> Arm<'a>
    requires { IsOver table.old.layers }
    ensures layer { result.layer ≡ table.old.layers.top }
    ensures floor { result.floor ≡ table.old.floor }
    ensures closes { ClosesTo table.old.layers table.new.layers }
    ensures back { table.new.floor ≡ floor }
{
    let arm = Arm {
        layer: table.layers.close(),
        floor: table.floor,
    };
    table.floor = floor;
    arm
}

impl<'a> Arm<'a> {
    /// The label behind the arm, where this is what is below it.
    fn node(&self, named: Named<'a>, below: Option<usize>) -> usize
        ensures { (f : Spot → Option ℕ) → below ≡ f (spot_of named.entry) → result
            ≡ standing self.now.floor (over self.now.layer f (spot_of named.entry)) }
    {
        match self.layer.get(&named) {
            None => above(self.floor, below),
            Some(node) => above(self.floor, Some(*node)),
        }
    }
}

/// The floor where arms meet that end with these: no path goes on where none of them does.
fn met_floor(floor: usize, first: usize, second: usize, start: usize) -> usize
    ensures { result ≡ meetings.met_floor floor first second start }
{
    if first == floor {
        return floor;
    }
    if second == floor {
        return floor;
    }
    start
}

/// A label for a scalar of which one of the arms has one, unless it has been given one from `start`
/// on: it comes of those behind both.
fn meet_scalar<'a>(
    drawing: &mut Drawing<'a>,
    first: &Arm<'a>,
    second: &Arm<'a>,
    start: usize,
    named: Named<'a>,
) -> Result<(), AllocError>
    requires low { IsLow drawing.old }
    requires scalar { (spot_of named).index ≡ None }
    ensures { OnOk result (MeetsFor first.now second.now start
        (λ k. same_spot (spot_of named.entry) (whole k)) drawing.old drawing.new) }
{
    let below = drawing.table.layers.get(named);
    let before = above(drawing.table.floor, below);
    if before >= start {
        return Ok(());
    }
    let node = fresh(&mut drawing.sheet.edges)?;
    let left = first.node(named, below);
    let right = second.node(named, below);
    link(
        &mut drawing.sheet.edges,
        Node::Drawn(left),
        Node::Drawn(node),
    )?;
    link(
        &mut drawing.sheet.edges,
        Node::Drawn(right),
        Node::Drawn(node),
    )?;
    put_named(&mut drawing.table, named, node)?;
    Ok(())
}

/// The same; a cell of an array has no label.
fn meet_one<'a>(
    drawing: &mut Drawing<'a>,
    first: &Arm<'a>,
    second: &Arm<'a>,
    start: usize,
    named: Named<'a>,
) -> Result<(), AllocError>
    requires { IsLow drawing.old }
    ensures { OnOk result (MeetsFor first.now second.now start
        (λ k. same_spot (spot_of named.entry) (whole k)) drawing.old drawing.new) }
{
    match named.index {
        Some(_) => Ok(()),
        None => {
            meet_scalar(drawing, first, second, start, named)?;
            Ok(())
        }
    }
}

/// The same for all of a layer.
fn meet_layer<'a>(
    drawing: &mut Drawing<'a>,
    first: &Arm<'a>,
    second: &Arm<'a>,
    start: usize,
    layer: &IndexMap<Named<'a>, usize>,
) -> Result<(), AllocError>
    requires { IsLow drawing.old }
    ensures { OnOk result (MeetsFor first.now second.now start
        (λ k. is_some (entry_in layer.now (whole k))) drawing.old drawing.new) }
{
    let count = layer.len();
    let mut i = 0;
    while i < count {
        match layer.get_index(i) {
            None => unreachable!(),
            Some(entry) => meet_one(drawing, first, second, start, *entry.0)?,
        }
        i += 1;
    }
    Ok(())
}

/// The labels where two arms meet.
pub fn meet<'a>(
    drawing: &mut Drawing<'a>,
    first: &Arm<'a>,
    second: &Arm<'a>,
) -> Result<(), AllocError>
    requires drawn { IsDrawn drawing.old }
    requires first { HasEnded first.now drawing.old }
    requires second { HasEnded second.now drawing.old }
    ensures { OnOk result (AreMet first.now second.now drawing.old drawing.new) }
{
    let start = drawing.sheet.next();
    drawing.table.floor = met_floor(drawing.table.floor, first.floor, second.floor, start);
    meet_layer(drawing, first, second, start, &first.layer)?;
    meet_layer(drawing, first, second, start, &second.layer)?;
    Ok(())
}
