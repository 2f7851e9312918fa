//! Reads annotations.

ghost use Rattle.jz_grammar.specs.Gave.{Gave};
ghost use Rattle.jz_parse.specs.NotesReaders.{note_value, equal_value, entry, next_entry, entries_more, entry_list, notes_bracketed, entries, annotation, notes};

use jz_grammar::{Cursor, Stop};
use jz_tree::{Note, NoteValue, Seq, Span};
use std::alloc::Global;

#[tactic(auto, unfolding(crate::specs::NotesReaders::note_value))]
fn note_value(alloc: Global, c: &mut Cursor) -> Result<NoteValue, Stop>
    ensures { Gave result c.new (note_value c.old) }
{
    if c.is_identifier() {
        let (name, _place) = c.name(alloc)?;
        return Ok(NoteValue::Name(name));
    }
    if c.is_number() {
        let (value, _place) = c.number()?;
        return Ok(NoteValue::Num(value));
    }
    let bytes = c.string(alloc)?;
    Ok(NoteValue::Str(bytes))
}

#[tactic(auto, unfolding(crate::specs::NotesReaders::equal_value))]
fn equal_value(alloc: Global, c: &mut Cursor) -> Result<NoteValue, Stop>
    ensures { Gave result c.new (equal_value c.old) }
{
    let _equal = c.sign("=")?;
    let value = note_value(alloc, c)?;
    Ok(value)
}

/// An entry of the annotation at this place.
#[tactic(auto, unfolding(crate::specs::NotesReaders::entry))]
fn entry(alloc: Global, c: &mut Cursor, span: Span) -> Result<Note, Stop>
    ensures { Gave result c.new (entry span c.old) }
{
    let (name, _place) = c.name(alloc)?;
    let value = if c.is_sign("=") {
        equal_value(alloc, c)?
    } else {
        NoteValue::None
    };
    Ok(Note { name, value, span })
}

#[tactic(auto, unfolding(crate::specs::NotesReaders::next_entry))]
fn next_entry(alloc: Global, c: &mut Cursor, span: Span) -> Result<Note, Stop>
    ensures { Gave result c.new (next_entry span c.old) }
{
    let _comma = c.sign(",")?;
    let note = entry(alloc, c, span)?;
    Ok(note)
}

#[tactic(auto, using(crate::proofs::NoteLemmas::entries_done, crate::proofs::NoteLemmas::entries_next, crate::proofs::NoteLemmas::entries_wrong, crate::proofs::NoteLemmas::entries_shorter))]
fn entries_more(
    alloc: Global,
    c: &mut Cursor,
    span: Span,
    first: Seq<Note>,
) -> Result<Seq<Note>, Stop>
    ensures { Gave result c.new (entries_more span first c.old) }
{
    let mut out = first;
    while c.is_sign(",") {
        let next = next_entry(alloc, c, span)?;
        out.push(next)?;
    }
    Ok(out)
}

#[tactic(auto, unfolding(crate::specs::NotesReaders::entry_list))]
fn entry_list(alloc: Global, c: &mut Cursor, span: Span) -> Result<Seq<Note>, Stop>
    ensures { Gave result c.new (entry_list span c.old) }
{
    let first = entry(alloc, c, span)?;
    let mut out = Seq::new(alloc);
    out.push(first)?;
    entries_more(alloc, c, span, out)
}

/// The entries in brackets.
#[tactic(auto, unfolding(crate::specs::NotesReaders::notes_bracketed))]
fn bracketed(alloc: Global, c: &mut Cursor, depth: u32, span: Span) -> Result<Seq<Note>, Stop>
    ensures { Gave result c.new (notes_bracketed span depth c.old) }
{
    let (_open, _inner) = c.open("[", depth)?;
    let out = entry_list(alloc, c, span)?;
    let _close = c.sign("]")?;
    Ok(out)
}

#[tactic(auto, unfolding(crate::specs::NotesReaders::entries))]
fn entries(alloc: Global, c: &mut Cursor, depth: u32, span: Span) -> Result<Seq<Note>, Stop>
    ensures { Gave result c.new (entries span depth c.old) }
{
    if c.is_identifier() {
        let note = entry(alloc, c, span)?;
        let mut out = Seq::new(alloc);
        out.push(note)?;
        return Ok(out);
    }
    let out = bracketed(alloc, c, depth, span)?;
    Ok(out)
}

#[tactic(auto, unfolding(crate::specs::NotesReaders::annotation))]
fn annotation(alloc: Global, c: &mut Cursor, depth: u32) -> Result<Seq<Note>, Stop>
    ensures { Gave result c.new (annotation depth c.old) }
{
    let span = c.sign("#")?;
    let out = entries(alloc, c, depth, span)?;
    Ok(out)
}

/// The notes of the annotations that stand there, each entry a note.
#[tactic(auto, unfolding(crate::specs::NotesReaders::notes), using(crate::proofs::NoteLemmas::notes_done, crate::proofs::NoteLemmas::notes_next, crate::proofs::NoteLemmas::notes_wrong, crate::proofs::NoteLemmas::notes_shorter))]
pub fn notes(alloc: Global, c: &mut Cursor, depth: u32) -> Result<Seq<Note>, Stop>
    ensures { Gave result c.new (notes depth c.old) }
{
    let mut out = Seq::new(alloc);
    while c.is_sign("#") {
        let next = annotation(alloc, c, depth)?;
        out.append(next)?;
    }
    Ok(out)
}
