//! Events of a transformer.

ghost use Rattle.std.specs.Prelude.{◌≡◌, codes};
ghost use Rattle.jz_listing_lines.specs.InnerReaders.{Gave, behind, more_of};
ghost use Rattle.jz_listing_lines.specs.InnerPieces.{a_form, an_out, division, frame_form};
ghost use Rattle.jz_listing_lines.specs.InnerPieces.{frame_rest, outs, outs_rest, some_outs};

use crate::cursor::{Cursor, Stop};
use jz_leak::{Form, Out, Seq};
use std::alloc::Global;

/// What stands behind an offset.
#[tactic(auto, unfolding(crate::specs::InnerPieces::frame_rest))]
fn frame_rest(c: &mut Cursor, offset: i64) -> Result<Form, Stop>
    ensures { Gave result c.new (frame_rest offset c.old) }
{
    if !c.is_at("+") {
        return Ok(Form::Frame(offset));
    }
    c.literal("+")?;
    let factor = c.number()?;
    c.literal("*$")?;
    let place = c.number()?;
    Ok(Form::Indexed(offset, factor, place))
}

#[tactic(auto, unfolding(crate::specs::InnerPieces::frame_form))]
fn frame_form(c: &mut Cursor) -> Result<Form, Stop>
    ensures { Gave result c.new (frame_form c.old) }
{
    let offset = c.signed_number()?;
    let form = frame_rest(c, offset)?;
    Ok(form)
}

#[tactic(auto, unfolding(crate::specs::InnerPieces::a_form))]
fn a_form(c: &mut Cursor) -> Result<Form, Stop>
    ensures { Gave result c.new (a_form c.old) }
{
    if c.is_at("$") {
        c.literal("$")?;
        let place = c.number()?;
        return Ok(Form::Leaked(place));
    }
    if c.is_at("@") {
        c.literal("@")?;
        return frame_form(c);
    }
    let number = c.number()?;
    Ok(Form::Num(number))
}

#[tactic(auto, unfolding(crate::specs::InnerPieces::division))]
fn division(c: &mut Cursor) -> Result<Out, Stop>
    ensures { Gave result c.new (division c.old) }
{
    let high = a_form(c)?;
    c.literal(":")?;
    let low = a_form(c)?;
    c.literal(":")?;
    let divisor = a_form(c)?;
    Ok(Out::Div(high, low, divisor))
}

/// An event.
#[tactic(auto, unfolding(crate::specs::InnerPieces::an_out))]
fn an_out(c: &mut Cursor) -> Result<Out, Stop>
    ensures { Gave result c.new (an_out c.old) }
{
    if c.is_at("b0") {
        c.literal("b0")?;
        return Ok(Out::Branch(false));
    }
    if c.is_at("b1") {
        c.literal("b1")?;
        return Ok(Out::Branch(true));
    }
    if c.is_at("a:") {
        c.literal("a:")?;
        let address = a_form(c)?;
        return Ok(Out::Addr(address));
    }
    c.literal("d:")?;
    division(c)
}

/// An event behind a space.
fn next_out(c: &mut Cursor) -> Result<Out, Stop>
    ensures { Gave result c.new (behind (codes " ") an_out c.old) }
{
    c.literal(" ")?;
    let event = an_out(c)?;
    Ok(event)
}

/// The events behind those that are out, each behind a space.
#[tactic(auto, using(crate::proofs::Lists::outs_done, crate::proofs::Lists::outs_next, crate::proofs::Lists::outs_wrong, crate::proofs::Lists::outs_shorter))]
fn more_outs(c: &mut Cursor, first: Seq<Out>) -> Result<Seq<Out>, Stop>
    ensures { Gave result c.new (more_of (codes " ") an_out first c.old) }
{
    let mut out = first;
    while c.is_at(" ") {
        let event = next_out(c)?;
        out.push(event)?;
    }
    Ok(out)
}

#[tactic(auto, unfolding(crate::specs::InnerPieces::some_outs))]
fn some_outs(alloc: Global, c: &mut Cursor) -> Result<Seq<Out>, Stop>
    ensures { Gave result c.new (some_outs c.old) }
{
    let first = an_out(c)?;
    let outs = more_outs(c, Seq::from_slice(alloc, &[first])?)?;
    Ok(outs)
}

#[tactic(auto, unfolding(crate::specs::InnerPieces::outs_rest))]
fn outs_rest(alloc: Global, c: &mut Cursor) -> Result<Seq<Out>, Stop>
    ensures { Gave result c.new (outs_rest c.old) }
{
    if c.is_at("]") {
        c.literal("]")?;
        return Ok(Seq::new(alloc));
    }
    let outs = some_outs(alloc, c)?;
    c.literal("]")?;
    Ok(outs)
}

/// A list of events.
#[tactic(auto, unfolding(crate::specs::InnerPieces::outs))]
pub fn outs(alloc: Global, c: &mut Cursor) -> Result<Seq<Out>, Stop>
    ensures { Gave result c.new (outs c.old) }
{
    c.literal("[")?;
    let outs = outs_rest(alloc, c)?;
    Ok(outs)
}
