//! The shapes of annotations: a region, a range and an alignment.

ghost use Rattle.std.specs.Prelude.{◌≡◌, codes, IfOk};
ghost use Rattle.jz_annotations.specs.Shapes.{is_alignment};
ghost use Rattle.jz_annotations.specs.InnerReaders.{Gave, alone, extent, extent_rest, named};
ghost use Rattle.jz_annotations.specs.InnerReaders.{region, range, align, precondition, final};
ghost use Rattle.jz_annotations.specs.Sayings.{said};

use crate::cursor::{Cursor, Stop, UNREAD};
use crate::precondition::Pre;
use jz_tree::{Failure, Note, NoteValue, Text};
use std::alloc::{AllocError, Global};

const TWO_TO_32: u128 = 0x1_0000_0000;

const TWO_TO_64: u128 = 0x1_0000_0000_0000_0000;

/// How many bytes a region has.
type Extent = (u64, (Option<Text>, u64));

/// A number or a variable alone.
#[tactic(auto, unfolding(crate::specs::InnerReaders::alone))]
fn alone(alloc: Global, c: &mut Cursor) -> Result<Extent, Stop>
    ensures { Gave result c.new (alone c.old) }
{
    if c.is_at_number() {
        let constant = c.number(TWO_TO_32)?;
        return Ok((0, (None, constant)));
    }
    let variable = c.name(alloc)?;
    Ok((1, (Some(variable), 0)))
}

/// What stands behind a factor and a variable.
#[tactic(auto, unfolding(crate::specs::InnerReaders::extent_rest))]
fn extent_rest(c: &mut Cursor, factor: u64, variable: Text) -> Result<Extent, Stop>
    ensures { Gave result c.new (extent_rest factor variable c.old) }
{
    if c.is_at_end() {
        return Ok((factor, (Some(variable), 0)));
    }
    c.sign("+")?;
    let constant = c.number(TWO_TO_32)?;
    Ok((factor, (Some(variable), constant)))
}

/// The factor, the variable and the constant of a region.
#[tactic(auto, unfolding(crate::specs::InnerReaders::extent))]
fn extent(alloc: Global, c: &mut Cursor) -> Result<Extent, Stop>
    ensures { Gave result c.new (extent c.old) }
{
    if c.is_one_word() {
        return alone(alloc, c);
    }
    let factor = c.number(TWO_TO_32)?;
    c.sign("*")?;
    let variable = c.name(alloc)?;
    let extent = extent_rest(c, factor, variable)?;
    Ok(extent)
}

/// A name and a colon.
#[tactic(auto, unfolding(crate::specs::InnerReaders::named))]
fn named(alloc: Global, c: &mut Cursor) -> Result<Text, Stop>
    ensures { Gave result c.new (named c.old) }
{
    let name = c.name(alloc)?;
    c.sign(":")?;
    Ok(name)
}

#[tactic(auto, unfolding(crate::specs::InnerReaders::region))]
fn region(alloc: Global, c: &mut Cursor) -> Result<Pre, Stop>
    ensures { Gave result c.new (region c.old) }
{
    let pointer = named(alloc, c)?;
    let (factor, (variable, constant)) = extent(alloc, c)?;
    Ok(Pre::Region {
        pointer,
        factor,
        variable,
        constant,
    })
}

#[tactic(auto, unfolding(crate::specs::InnerReaders::range))]
fn range(alloc: Global, c: &mut Cursor) -> Result<Pre, Stop>
    ensures { Gave result c.new (range c.old) }
{
    let name = named(alloc, c)?;
    let low = c.number(TWO_TO_64)?;
    c.sign("..")?;
    let high = c.number(TWO_TO_64)?;
    Ok(Pre::Range { name, low, high })
}

fn is_alignment(number: u64) -> bool
    ensures { result ≡ is_alignment number }
{
    number == 1 || number == 2 || number == 4 || number == 8
}

#[tactic(auto, unfolding(crate::specs::InnerReaders::align))]
fn align(alloc: Global, c: &mut Cursor) -> Result<Pre, Stop>
    ensures { Gave result c.new (align c.old) }
{
    let pointer = named(alloc, c)?;
    let multiple = c.number(TWO_TO_64)?;
    if is_alignment(multiple) {
        Ok(Pre::Align { pointer, multiple })
    } else {
        Err(UNREAD)
    }
}

/// What the string of an entry of that name says.
#[tactic(auto, unfolding(crate::specs::InnerReaders::precondition))]
fn precondition(alloc: Global, name: &str, c: &mut Cursor) -> Result<Pre, Stop>
    ensures { Gave result c.new (precondition name.now c.old) }
{
    if name == "region" {
        return region(alloc, c);
    }
    if name == "range" {
        return range(alloc, c);
    }
    if name == "align" {
        return align(alloc, c);
    }
    Err(UNREAD)
}

/// What the whole string of an entry of that name says.
fn whole(alloc: Global, name: &str, string: &[u8]) -> Result<Option<Pre>, AllocError>
    ensures { IfOk result (λ said. said ≡ final (precondition name.now string.now)) }
{
    let mut cursor = Cursor::new(string);
    match precondition(alloc, name, &mut cursor) {
        Ok(said) => {
            if cursor.is_at_end() {
                Ok(Some(said))
            } else {
                Ok(None)
            }
        }
        Err(Failure::Refused(_)) => Ok(None),
        Err(Failure::OutOfMemory) => Err(AllocError),
    }
}

/// What an entry of an annotation says, where it is a region, a range or an alignment in its shape.
pub fn said(alloc: Global, note: &Note) -> Result<Option<Pre>, AllocError>
    ensures { IfOk result (λ pre. pre ≡ said note.now) }
{
    match &note.value {
        NoteValue::Str(string) => whole(alloc, note.name.as_str(), string.as_slice()),
        NoteValue::None => Ok(None),
        NoteValue::Name(_) => Ok(None),
        NoteValue::Num(_) => Ok(None),
    }
}
