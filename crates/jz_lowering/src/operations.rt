//! The operations of a row, and the numbers that they show.

ghost use Rattle.std.specs.Prelude.{◌≡◌, ◌++◌, ◌∷◌, [], IfOk, OnOk};
ghost use Rattle.jz_place.specs.declared.tree.Node.TheVariants.{Do};
ghost use Rattle.jz_rows.specs.Rows.{nth_of, item_of, items_in};
ghost use Rattle.jz_row_operations.specs.Codes.{no_flag, plain};
ghost use Rattle.jz_pinned_rows.specs.Rows as pinned;
ghost use Rattle.jz_lowering.specs.InnerParts.{nodes_in, row_lowered, pinned_lowered};

use crate::parts::Lowered;
use jz_change::{Number, Numbers, Step};
use jz_operations::{Action, Flags, Operation};
use jz_pinned_rows::{Divided, PinnedRow};
use jz_place::Node;
use jz_rows::{Act, Row, Shown};
use jz_tree::{Seq, Span};
use std::alloc::{AllocError, Global};

fn no_flags() -> Flags
    ensures { result ≡ no_flag }
{
    Flags {
        of: None,
        cf: None,
        sf: None,
        pf: None,
        zf: None,
    }
}

/// An action whose flags become no variables.
pub(crate) fn operation(span: Span, action: Action) -> Operation
    ensures { result ≡ plain span action }
{
    Operation {
        span,
        action,
        flags: no_flags(),
    }
}

fn push_place(list: &mut Seq<Number>, place: Option<u64>) -> Result<(), AllocError>
    ensures { OnOk result (list.new ≡ list.old ++ nth_of place) }
{
    match place {
        None => Ok(()),
        Some(place) => {
            list.push(Number::Nth(place))?;
            Ok(())
        }
    }
}

/// The numbers of an item.
#[tactic(auto, using(crate::proofs::PartLemmas::item_made))]
pub(crate) fn numbers(alloc: Global, shown: Shown) -> Result<Numbers, AllocError>
    ensures { IfOk result (λ item. item ≡ item_of shown) }
{
    let mut list = Seq::new(alloc);
    push_place(&mut list, shown.first)?;
    push_place(&mut list, shown.second)?;
    Ok(Numbers::These(list))
}

fn push_item(alloc: Global, act: Act, items: &mut Seq<Numbers>) -> Result<(), AllocError>
    ensures { OnOk result (items.new ≡ items.old ++ (item_of act.shown ∷ [])) }
{
    let item = numbers(alloc, act.shown)?;
    items.push(item)?;
    Ok(())
}

fn push_items(alloc: Global, act: Option<Act>, items: &mut Seq<Numbers>) -> Result<(), AllocError>
    ensures { OnOk result (items.new ≡ items.old ++ items_in act) }
{
    match act {
        None => Ok(()),
        Some(act) => {
            push_item(alloc, act, items)?;
            Ok(())
        }
    }
}

fn push_node(span: Span, act: Act, nodes: &mut Seq<Node>) -> Result<(), AllocError>
    ensures { OnOk result (nodes.new ≡ nodes.old ++ (Do (plain span act.action) ∷ [])) }
{
    nodes.push(Node::Do(operation(span, act.action)))?;
    Ok(())
}

fn push_nodes(span: Span, act: Option<Act>, nodes: &mut Seq<Node>) -> Result<(), AllocError>
    ensures { OnOk result (nodes.new ≡ nodes.old ++ nodes_in span act) }
{
    match act {
        None => Ok(()),
        Some(act) => {
            push_node(span, act, nodes)?;
            Ok(())
        }
    }
}

fn row_items(alloc: Global, row: Row) -> Result<Seq<Numbers>, AllocError>
    ensures { IfOk result (λ items. items ≡ items_in row.before ++ (item_of row.last.shown ∷ [])) }
{
    let mut items = Seq::new(alloc);
    push_items(alloc, row.before, &mut items)?;
    push_item(alloc, row.last, &mut items)?;
    Ok(items)
}

fn row_nodes(alloc: Global, span: Span, row: Row) -> Result<Seq<Node>, AllocError>
    ensures { IfOk result (λ nodes.
        nodes ≡ nodes_in span row.before ++ (Do (plain span row.last.action) ∷ [])) }
{
    let mut nodes = Seq::new(alloc);
    push_nodes(span, row.before, &mut nodes)?;
    push_node(span, row.last, &mut nodes)?;
    Ok(nodes)
}

/// The operations of a statement of this row, and its step.
pub(crate) fn row_at(alloc: Global, span: Span, row: Row) -> Result<Lowered, AllocError>
    ensures { IfOk result (λ made. made ≡ row_lowered span row) }
{
    let items = row_items(alloc, row)?;
    let nodes = row_nodes(alloc, span, row)?;
    let mut steps = Seq::new(alloc);
    steps.push(Step::Ops(items))?;
    Ok(Lowered { nodes, steps })
}

/// The numbers of a division behind those of its operand.
fn push_three(list: &mut Seq<Number>, divided: Option<Divided>) -> Result<(), AllocError>
    ensures { OnOk result (list.new ≡ list.old ++ pinned.three_in divided) }
{
    match divided {
        None => Ok(()),
        Some(places) => {
            list.push(Number::Nth(places.high))?;
            list.push(Number::Nth(places.low))?;
            list.push(Number::Nth(places.by))?;
            Ok(())
        }
    }
}

/// The numbers of the last action.
#[tactic(auto, using(crate::proofs::PartLemmas::last_made))]
fn last_numbers(alloc: Global, row: PinnedRow) -> Result<Numbers, AllocError>
    ensures { IfOk result (λ item. item ≡ pinned.last_item row.acts) }
{
    let mut list = Seq::new(alloc);
    push_place(&mut list, row.acts.last.shown.first)?;
    push_place(&mut list, row.acts.last.shown.second)?;
    push_three(&mut list, row.acts.divided)?;
    Ok(Numbers::These(list))
}

#[tactic(auto, using(crate::proofs::PartLemmas::three_made))]
fn pinned_items(alloc: Global, row: PinnedRow) -> Result<Seq<Numbers>, AllocError>
    ensures { IfOk result (λ items. items ≡ pinned.items_of row.acts) }
{
    let mut items = Seq::new(alloc);
    push_items(alloc, row.acts.before, &mut items)?;
    push_items(alloc, row.acts.between, &mut items)?;
    let last = last_numbers(alloc, row)?;
    items.push(last)?;
    Ok(items)
}

#[tactic(auto, using(crate::proofs::PartLemmas::three_made))]
fn pinned_nodes(alloc: Global, span: Span, row: PinnedRow) -> Result<Seq<Node>, AllocError>
    ensures { IfOk result (λ nodes. nodes ≡ (pinned_lowered span row).nodes) }
{
    let mut nodes = Seq::new(alloc);
    push_nodes(span, row.acts.before, &mut nodes)?;
    push_nodes(span, row.acts.between, &mut nodes)?;
    let last = Operation {
        span,
        action: row.acts.last.action,
        flags: row.flags,
    };
    nodes.push(Node::Do(last))?;
    Ok(nodes)
}

/// The operations of a statement of flags, RAX, RDX and RCX of this row, and its step.
pub(crate) fn pinned_at(alloc: Global, span: Span, row: PinnedRow) -> Result<Lowered, AllocError>
    ensures { IfOk result (λ made. made ≡ pinned_lowered span row) }
{
    let items = pinned_items(alloc, row)?;
    let nodes = pinned_nodes(alloc, span, row)?;
    let mut steps = Seq::new(alloc);
    steps.push(Step::Ops(items))?;
    Ok(Lowered { nodes, steps })
}
