//! Reading a line.

ghost use Rattle.std.specs.Prelude.{◌≡◌, true, codes, IfOk};
ghost use Rattle.jz_lex.specs.LexingWords.{begins};
ghost use Rattle.jz_listing_lines.specs.Lines.{IsRead};
ghost use Rattle.jz_listing_lines.specs.InnerReaders.{Gave};
ghost use Rattle.jz_listing_lines.specs.InnerLines.{GaveLine, first_lines, last_lines};
ghost use Rattle.jz_listing_lines.specs.InnerLines.{more_lines, number_lines};

use crate::cursor::{Cursor, Stop, UNREAD};
use crate::leakage::transformer;
use crate::line::Line;
use crate::words::{code, held, precondition, saved, verdict};
use jz_data::Failure;
use std::alloc::{AllocError, Global};

/// The last line of a function, or the first line of all.
#[tactic(auto, unfolding(crate::specs::InnerLines::last_lines))]
fn last_lines(c: &mut Cursor) -> Result<Line, Stop>
    ensures { Gave result c.new (last_lines c.old) }
{
    if c.is_at("end") {
        c.literal("end")?;
        return Ok(Line::End);
    }
    c.literal("jasmin-listing 1")?;
    Ok(Line::First)
}

/// A line with a number or with code, or one of those.
#[tactic(auto, unfolding(crate::specs::InnerLines::number_lines))]
fn number_lines(alloc: Global, c: &mut Cursor) -> Result<Line, Stop>
    ensures { Gave result c.new (number_lines c.old) }
{
    if c.is_at("frame ") {
        c.literal("frame ")?;
        let size = c.number()?;
        return Ok(Line::Frame(size));
    }
    if c.is_at("insns ") {
        c.literal("insns ")?;
        let count = c.number()?;
        return Ok(Line::Insns(count));
    }
    if c.is_at("code ") {
        c.literal("code ")?;
        let bytes = code(alloc, c)?;
        return Ok(Line::Code(bytes));
    }
    last_lines(c)
}

/// A line with a precondition, saved registers or a verdict, or one of those.
#[tactic(auto, unfolding(crate::specs::InnerLines::more_lines))]
fn more_lines(alloc: Global, c: &mut Cursor) -> Result<Line, Stop>
    ensures { Gave result c.new (more_lines c.old) }
{
    if c.is_at("pre ") {
        c.literal("pre ")?;
        let pre = precondition(alloc, c)?;
        return Ok(Line::Pre(pre));
    }
    if c.is_at("saved") {
        c.literal("saved")?;
        let regs = saved(alloc, c)?;
        return Ok(Line::Saved(regs));
    }
    if c.is_at("ct ") {
        c.literal("ct ")?;
        let ct = verdict(alloc, c)?;
        return Ok(Line::Ct(ct));
    }
    number_lines(alloc, c)
}

/// Every line but that of a transformer.
#[tactic(auto, unfolding(crate::specs::InnerLines::first_lines))]
fn first_lines(alloc: Global, c: &mut Cursor) -> Result<Line, Stop>
    ensures { Gave result c.new (first_lines c.old) }
{
    if c.is_at("fn ") {
        c.literal("fn ")?;
        let name = c.name(alloc)?;
        return Ok(Line::Fn(name));
    }
    if c.is_at("arg ") {
        c.literal("arg ")?;
        let arg = held(alloc, c)?;
        return Ok(Line::Arg(arg));
    }
    if c.is_at("ret ") {
        c.literal("ret ")?;
        let ret = held(alloc, c)?;
        return Ok(Line::Ret(ret));
    }
    more_lines(alloc, c)
}

/// The line of a transformer.
#[tactic(auto, using(crate::proofs::LineLaws::leakage_there, crate::proofs::LineLaws::leakage_and_more))]
fn leakage_line(alloc: Global, bytes: &[u8]) -> Result<Line, Stop>
    requires { begins (codes "tr ") bytes.now ≡ true }
    ensures { GaveLine result bytes.now }
{
    let mut c = Cursor::new(bytes);
    c.literal("tr ")?;
    let tr = transformer(alloc, &mut c)?;
    if !c.is_at_end() {
        return Err(UNREAD);
    }
    Ok(Line::Leakage(tr))
}

#[tactic(auto, using(crate::proofs::LineLaws::line_read, crate::proofs::LineLaws::no_line, crate::proofs::LineLaws::line_and_more))]
fn whole_line(alloc: Global, bytes: &[u8]) -> Result<Line, Stop>
    ensures { GaveLine result bytes.now }
{
    let mut c = Cursor::new(bytes);
    if c.is_at("tr ") {
        return leakage_line(alloc, bytes);
    }
    let line = first_lines(alloc, &mut c)?;
    if !c.is_at_end() {
        return Err(UNREAD);
    }
    Ok(line)
}

/// The line of a listing that bytes are, without its line feed; none where they are no line. Each
/// line has one text, so numbers have no leading zero, and names are no keywords.
pub fn read_line(alloc: Global, bytes: &[u8]) -> Result<Option<Line>, AllocError>
    ensures { IfOk result (IsRead bytes.now) }
{
    match whole_line(alloc, bytes) {
        Ok(line) => Ok(Some(line)),
        Err(Failure::Refused(_)) => Ok(None),
        Err(Failure::OutOfMemory) => Err(AllocError),
    }
}
