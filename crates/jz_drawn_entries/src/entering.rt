//! The labels at entry.

ghost use Rattle.std.specs.Prelude.{◌≡◌, ◌≤◌, ◌&&◌, ◌∷◌, [], IfOk, OnOk};
ghost use Rattle.std.specs.Str.{bytes_eq};
ghost use Rattle.jz_labels.specs.ConstantTime as labels;
ghost use Rattle.jz_drawn_bodies.specs.Bodies.{entry_view};
ghost use Rattle.jz_drawn_labels.specs.Kept.{view_of};
ghost use Rattle.jz_drawn_entries.specs.InnerEntries.{HasSecrets};

use jz_drawn_labels::{Drawing, Sheet, Table, fresh, link, put};
use jz_secrets::Node;
use jz_tree::{Note, NoteValue, Param, Seq};
use std::alloc::{AllocError, Global};

fn is_bare(value: &NoteValue) -> bool
    ensures { result ≡ labels.is_bare value.now }
{
    match value {
        NoteValue::None => true,
        NoteValue::Name(_) => false,
        NoteValue::Num(_) => false,
        NoteValue::Str(_) => false,
    }
}

/// An entry of this name without a value.
fn is_label(note: &Note, name: &str) -> bool
    ensures { result ≡ (bytes_eq note.now.name name.now && labels.is_bare note.now.value) }
{
    note.name.as_str() == name && is_bare(&note.value)
}

fn has_label(notes: &Seq<Note>, name: &str) -> bool
    ensures { result ≡ labels.has_label name.now notes.now }
{
    for note in notes.as_slice() {
        if is_label(note, name) {
            return true;
        }
    }
    false
}

/// Labelled `#public`, and not `#secret` too.
fn is_public(notes: &Seq<Note>) -> bool
    ensures { result ≡ labels.is_labelled_public notes.now }
{
    has_label(notes, "public") && !has_label(notes, "secret")
}

/// The label that is secret, unless the parameter is public.
fn put_secret<'a>(table: &mut Table<'a>, param: &'a Param, node: usize) -> Result<(), AllocError>
    requires { table.old.floor ≤ node }
    ensures { OnOk result (HasSecrets (param.now ∷ []) node table.old table.new) }
{
    if is_public(&param.notes) {
        return Ok(());
    }
    put(table, &param.var, node)?;
    Ok(())
}

/// The label that is secret, for the parameters that are not public.
fn put_secrets<'a>(
    table: &mut Table<'a>,
    params: &'a Seq<Param>,
    node: usize,
) -> Result<(), AllocError>
    requires { table.old.floor ≤ node }
    ensures { OnOk result (HasSecrets params.now node table.old table.new) }
{
    for param in params.as_slice() {
        put_secret(table, param, node)?;
    }
    Ok(())
}

/// The drawing before the first statement: one label that is secret, which all parameters have that
/// are not public.
pub fn entry<'a>(alloc: Global, params: &'a Seq<Param>) -> Result<Drawing<'a>, AllocError>
    ensures floor { IfOk result (λ d. d.table.floor ≡ 0) }
    ensures view { IfOk result
        (λ d. view_of d ≡ entry_view (labels.at_entry params.now)) }
{
    let mut table = Table::new(alloc);
    let mut sheet = Sheet::new(alloc);
    let node = fresh(&mut sheet.edges)?;
    link(&mut sheet.edges, Node::Secret, Node::Drawn(node))?;
    put_secrets(&mut table, params, node)?;
    Ok(Drawing { table, sheet })
}
