//! Names, registers, preconditions and verdicts of a line.

ghost use Rattle.std.specs.Prelude.{◌≡◌, codes, IfOk};
ghost use Rattle.jz_listing_lines.specs.Lines.{cell_text};
ghost use Rattle.jz_listing_lines.specs.InnerReaders.{Gave, behind, more_of, one_of};
ghost use Rattle.jz_text.specs.Texts.{reg_text};
ghost use Rattle.jz_listing_lines.specs.InnerPieces.{Extent, align, breach, breach_kind, code};
ghost use Rattle.jz_listing_lines.specs.InnerPieces.{extent, extent_rest, held, precondition};
ghost use Rattle.jz_listing_lines.specs.InnerPieces.{a_reg, range, region, saved, secret};
ghost use Rattle.jz_listing_lines.specs.InnerPieces.{numbered, secret_rest, size, some_saved, span};
ghost use Rattle.jz_listing_lines.specs.InnerPieces.{verdict};

use crate::cursor::{Cursor, Stop, UNREAD};
use hex::FromHexError;
use jz_data::Failure;
use jz_io::{Bytes, Ct, CtKind, Span};
use jz_leak::{Seq, Text};
use jz_listing::{Arg, Pre};
use std::alloc::{AllocError, Global};
use x64_insn::{Reg, Size};

#[tactic(auto, unfolding(crate::specs::InnerPieces::size, crate::specs::InnerReaders::literal))]
fn size(c: &mut Cursor) -> Result<Size, Stop>
    ensures { Gave result c.new (size c.old) }
{
    if c.is_at("u8") {
        c.literal("u8")?;
        return Ok(Size::S8);
    }
    if c.is_at("u16") {
        c.literal("u16")?;
        return Ok(Size::S16);
    }
    if c.is_at("u32") {
        c.literal("u32")?;
        return Ok(Size::S32);
    }
    c.literal("u64")?;
    Ok(Size::S64)
}

/// A register that has a number for its name.
#[tactic(auto, unfolding(crate::specs::InnerReaders::literal))]
fn numbered_reg(c: &mut Cursor) -> Result<Reg, Stop>
    ensures { Gave result c.new (one_of reg_text numbered c.old) }
{
    if c.is_at("r8") {
        c.literal("r8")?;
        return Ok(Reg::R8);
    }
    if c.is_at("r9") {
        c.literal("r9")?;
        return Ok(Reg::R9);
    }
    if c.is_at("r10") {
        c.literal("r10")?;
        return Ok(Reg::R10);
    }
    if c.is_at("r11") {
        c.literal("r11")?;
        return Ok(Reg::R11);
    }
    if c.is_at("r12") {
        c.literal("r12")?;
        return Ok(Reg::R12);
    }
    if c.is_at("r13") {
        c.literal("r13")?;
        return Ok(Reg::R13);
    }
    if c.is_at("r14") {
        c.literal("r14")?;
        return Ok(Reg::R14);
    }
    c.literal("r15")?;
    Ok(Reg::R15)
}

/// A register by the name of its 64 bits.
#[tactic(auto, unfolding(crate::specs::InnerPieces::a_reg, crate::specs::InnerReaders::literal))]
fn reg(c: &mut Cursor) -> Result<Reg, Stop>
    ensures { Gave result c.new (a_reg c.old) }
{
    if c.is_at("rax") {
        c.literal("rax")?;
        return Ok(Reg::Rax);
    }
    if c.is_at("rcx") {
        c.literal("rcx")?;
        return Ok(Reg::Rcx);
    }
    if c.is_at("rdx") {
        c.literal("rdx")?;
        return Ok(Reg::Rdx);
    }
    if c.is_at("rbx") {
        c.literal("rbx")?;
        return Ok(Reg::Rbx);
    }
    if c.is_at("rsp") {
        c.literal("rsp")?;
        return Ok(Reg::Rsp);
    }
    if c.is_at("rbp") {
        c.literal("rbp")?;
        return Ok(Reg::Rbp);
    }
    if c.is_at("rsi") {
        c.literal("rsi")?;
        return Ok(Reg::Rsi);
    }
    if c.is_at("rdi") {
        c.literal("rdi")?;
        return Ok(Reg::Rdi);
    }
    numbered_reg(c)
}

/// A name, its size and its register.
#[tactic(auto, unfolding(crate::specs::InnerPieces::held))]
pub fn held(alloc: Global, c: &mut Cursor) -> Result<Arg, Stop>
    ensures { Gave result c.new (held c.old) }
{
    let name = c.name(alloc)?;
    c.literal(" ")?;
    let size = size(c)?;
    c.literal(" ")?;
    let reg = reg(c)?;
    Ok(Arg { name, size, reg })
}

/// What stands behind the first number of an extent.
#[tactic(auto, unfolding(crate::specs::InnerPieces::extent_rest))]
fn extent_rest(
    alloc: Global,
    c: &mut Cursor,
    number: u64,
) -> Result<(u64, (Option<Text>, u64)), Stop>
    ensures { Gave result c.new (extent_rest number c.old) }
{
    if !c.is_at("*") {
        return Ok((0, (None, number)));
    }
    c.literal("*")?;
    let variable = c.name(alloc)?;
    c.literal("+")?;
    let constant = c.number()?;
    Ok((number, (Some(variable), constant)))
}

/// The factor, the variable and the constant of a region.
#[tactic(auto, unfolding(crate::specs::InnerPieces::extent))]
fn extent(alloc: Global, c: &mut Cursor) -> Result<(u64, (Option<Text>, u64)), Stop>
    ensures { Gave result c.new (extent c.old) }
{
    let number = c.number()?;
    let extent = extent_rest(alloc, c, number)?;
    Ok(extent)
}

#[tactic(auto, unfolding(crate::specs::InnerPieces::region))]
fn region(alloc: Global, c: &mut Cursor) -> Result<Pre, Stop>
    ensures { Gave result c.new (region c.old) }
{
    let pointer = c.name(alloc)?;
    c.literal(" ")?;
    let (factor, (variable, constant)) = extent(alloc, c)?;
    Ok(Pre::Region {
        pointer,
        factor,
        variable,
        constant,
    })
}

#[tactic(auto, unfolding(crate::specs::InnerPieces::range))]
fn range(alloc: Global, c: &mut Cursor) -> Result<Pre, Stop>
    ensures { Gave result c.new (range c.old) }
{
    let name = c.name(alloc)?;
    c.literal(" ")?;
    let low = c.number()?;
    c.literal("..")?;
    let high = c.number()?;
    Ok(Pre::Range { name, low, high })
}

#[tactic(auto, unfolding(crate::specs::InnerPieces::align))]
fn align(alloc: Global, c: &mut Cursor) -> Result<Pre, Stop>
    ensures { Gave result c.new (align c.old) }
{
    let pointer = c.name(alloc)?;
    c.literal(" ")?;
    let multiple = c.number()?;
    Ok(Pre::Align { pointer, multiple })
}

#[tactic(auto, unfolding(crate::specs::InnerPieces::precondition))]
pub fn precondition(alloc: Global, c: &mut Cursor) -> Result<Pre, Stop>
    ensures { Gave result c.new (precondition c.old) }
{
    if c.is_at("region ") {
        c.literal("region ")?;
        return region(alloc, c);
    }
    if c.is_at("range ") {
        c.literal("range ")?;
        return range(alloc, c);
    }
    c.literal("align ")?;
    align(alloc, c)
}

#[tactic(auto, unfolding(crate::specs::InnerPieces::span))]
fn span(c: &mut Cursor) -> Result<Span, Stop>
    ensures { Gave result c.new (span c.old) }
{
    let line = c.small_number()?;
    c.literal(":")?;
    let col = c.small_number()?;
    Ok(Span { line, col })
}

#[tactic(auto, unfolding(crate::specs::InnerPieces::breach_kind, crate::specs::InnerReaders::literal))]
fn breach_kind(c: &mut Cursor) -> Result<CtKind, Stop>
    ensures { Gave result c.new (breach_kind c.old) }
{
    if c.is_at("Branch") {
        c.literal("Branch")?;
        return Ok(CtKind::Branch);
    }
    if c.is_at("Address") {
        c.literal("Address")?;
        return Ok(CtKind::Address);
    }
    c.literal("Divide")?;
    Ok(CtKind::Divide)
}

/// The text of a cell.
fn cell(alloc: Global, name: &Text, place: u64) -> Result<Text, AllocError>
    ensures { IfOk result (λ text. text ≡ cell_text name.now place) }
{
    let name = name.as_str();
    Ok(Text::from_string(format!(in alloc; "{name}[{place}]")?))
}

/// What stands behind the name of a variable.
#[tactic(auto, unfolding(crate::specs::InnerPieces::secret_rest))]
fn secret_rest(alloc: Global, c: &mut Cursor, name: Text) -> Result<Text, Stop>
    ensures { Gave result c.new (secret_rest name c.old) }
{
    if !c.is_at("[") {
        return Ok(name);
    }
    c.literal("[")?;
    let place = c.number()?;
    c.literal("]")?;
    Ok(cell(alloc, &name, place)?)
}

/// A variable, or a cell of one.
#[tactic(auto, unfolding(crate::specs::InnerPieces::secret))]
fn secret(alloc: Global, c: &mut Cursor) -> Result<Text, Stop>
    ensures { Gave result c.new (secret c.old) }
{
    let name = c.name(alloc)?;
    let secret = secret_rest(alloc, c, name)?;
    Ok(secret)
}

#[tactic(auto, unfolding(crate::specs::InnerPieces::breach))]
fn breach(alloc: Global, c: &mut Cursor) -> Result<Ct, Stop>
    ensures { Gave result c.new (breach c.old) }
{
    let span = span(c)?;
    c.literal(" ")?;
    let kind = breach_kind(c)?;
    c.literal(" ")?;
    let var = secret(alloc, c)?;
    Ok(Ct::No { span, kind, var })
}

/// Whether a function is constant time.
#[tactic(auto, unfolding(crate::specs::InnerPieces::verdict))]
pub fn verdict(alloc: Global, c: &mut Cursor) -> Result<Ct, Stop>
    ensures { Gave result c.new (verdict c.old) }
{
    if c.is_at("yes") {
        c.literal("yes")?;
        return Ok(Ct::Yes);
    }
    c.literal("no ")?;
    breach(alloc, c)
}

/// A register behind a space.
fn next_reg(c: &mut Cursor) -> Result<Reg, Stop>
    ensures { Gave result c.new (behind (codes " ") a_reg c.old) }
{
    c.literal(" ")?;
    let reg = reg(c)?;
    Ok(reg)
}

/// The registers behind those that are out, each behind a space.
#[tactic(auto, using(crate::proofs::Lists::regs_done, crate::proofs::Lists::regs_next, crate::proofs::Lists::regs_wrong, crate::proofs::Lists::regs_shorter))]
fn more_regs(c: &mut Cursor, first: Seq<Reg>) -> Result<Seq<Reg>, Stop>
    ensures { Gave result c.new (more_of (codes " ") a_reg first c.old) }
{
    let mut out = first;
    while c.is_at(" ") {
        let reg = next_reg(c)?;
        out.push(reg)?;
    }
    Ok(out)
}

#[tactic(auto, unfolding(crate::specs::InnerPieces::some_saved))]
fn some_saved(alloc: Global, c: &mut Cursor) -> Result<Seq<Reg>, Stop>
    ensures { Gave result c.new (some_saved c.old) }
{
    let first = next_reg(c)?;
    let regs = more_regs(c, Seq::from_slice(alloc, &[first])?)?;
    Ok(regs)
}

/// Saved registers, or a dash for none.
#[tactic(auto, unfolding(crate::specs::InnerPieces::saved))]
pub fn saved(alloc: Global, c: &mut Cursor) -> Result<Seq<Reg>, Stop>
    ensures { Gave result c.new (saved c.old) }
{
    if c.is_at(" -") {
        c.literal(" -")?;
        return Ok(Seq::new(alloc));
    }
    some_saved(alloc, c)
}

/// All that is left, as digits of bytes in lower case.
#[tactic(auto, unfolding(crate::specs::InnerPieces::code))]
pub fn code(alloc: Global, c: &mut Cursor) -> Result<Bytes, Stop>
    ensures { Gave result c.new (code c.old) }
{
    let count = c.left();
    let digits = c.take(count);
    let bytes = match hex::decode(alloc, digits) {
        Ok(bytes) => bytes,
        Err(FromHexError::OutOfMemory) => return Err(Failure::OutOfMemory),
        Err(_) => return Err(UNREAD),
    };
    let again = hex::encode(alloc, bytes.as_slice())?;
    if again.as_str().as_bytes() == digits {
        Ok(Bytes::from_vec(bytes))
    } else {
        Err(UNREAD)
    }
}
