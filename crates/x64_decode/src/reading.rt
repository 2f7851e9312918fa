//! The fields of an instruction, read one after the other.

ghost use Rattle.std.specs.Prelude.{◌≡◌, length, IfOk, Some};
ghost use Rattle.std.specs.Option.{option_to_list};
ghost use Rattle.x64_insn.specs.Table.{row_of};
ghost use Rattle.x64_insn.specs.Encoding.{displacement_length, has_sib, is_byte, spelling_of};
ghost use Rattle.x64_decode.specs.ByteReading.{byte_if, byte_where, prefix, some_bytes};
ghost use Rattle.x64_decode.specs.InnerReading.{Gives};
ghost use Rattle.x64_decode.specs.Decoding.{may_be_escape, may_be_modrm, may_be_opcode, may_be_operand_size, may_be_rex, parts, row_has_modrm};
ghost use Rattle.x64_decode.specs.InnerReading.{AreShort, fields_read, parts_read};

use x64_insn::table::{Row, row_of};

/// Why nothing was read.
#[derive(Clone, Copy)]
pub enum Stop {
    /// The bytes end before the instruction does.
    Short,
    /// No instruction begins so.
    Bad,
}

/// The fields of an instruction, and its row of the table.
#[derive(Clone, Copy)]
pub struct FieldsRead<'a> {
    pub operand_size: Option<u8>,
    pub rex: Option<u8>,
    pub escape: Option<u8>,
    pub opcode: u8,
    pub row: Row,
    pub modrm: Option<u8>,
    pub sib: Option<u8>,
    pub displacement: &'a [u8],
    pub immediate: &'a [u8],
}

/// The prefix 66.
#[tactic(auto, unfolding(crate::specs::ByteReading::prefix))]
fn read_operand_size(bytes: &[u8]) -> Result<(Option<u8>, &[u8]), Stop>
    ensures { Gives (λ x. (x.0, x.1.now)) result (prefix may_be_operand_size bytes.now) }
{
    match bytes {
        [] => Err(Stop::Short),
        [0x66, rest @ ..] => Ok((Some(0x66), rest)),
        [_, ..] => Ok((None, bytes)),
    }
}

/// A REX prefix, behind 66 one without W.
#[tactic(auto, unfolding(crate::specs::ByteReading::prefix))]
fn read_rex<'a>(operand_size: Option<u8>, bytes: &'a [u8]) -> Result<(Option<u8>, &'a [u8]), Stop>
    ensures { Gives (λ x. (x.0, x.1.now)) result (prefix (may_be_rex operand_size) bytes.now) }
{
    match bytes {
        [] => Err(Stop::Short),
        [byte, rest @ ..] => {
            let end = if operand_size.is_some() { 0x48 } else { 0x50 };
            if 0x40 <= *byte && *byte < end {
                Ok((Some(*byte), rest))
            } else {
                Ok((None, bytes))
            }
        }
    }
}

/// The escape byte.
#[tactic(auto, unfolding(crate::specs::ByteReading::prefix))]
fn read_escape(bytes: &[u8]) -> Result<(Option<u8>, &[u8]), Stop>
    ensures { Gives (λ x. (x.0, x.1.now)) result (prefix may_be_escape bytes.now) }
{
    match bytes {
        [] => Err(Stop::Short),
        [0x0F, rest @ ..] => Ok((Some(0x0F), rest)),
        [_, ..] => Ok((None, bytes)),
    }
}

/// An opcode, and its row.
#[tactic(auto, unfolding(crate::specs::ByteReading::byte_where, crate::specs::Decoding::may_be_opcode))]
fn read_opcode<'a>(
    operand_size: Option<u8>,
    rex: Option<u8>,
    escape: Option<u8>,
    bytes: &'a [u8],
) -> Result<(u8, Row, &'a [u8]), Stop>
    ensures read { Gives (λ x. (x.0, x.2.now)) result
        (byte_where (may_be_opcode operand_size rex escape) bytes.now) }
    ensures row { IfOk result (λ x. row_of escape x.0 ≡ Some x.1) }
{
    match bytes {
        [] => Err(Stop::Short),
        [byte, rest @ ..] => match row_of(escape, *byte) {
            Some(row) if row.allows(operand_size, rex) => Ok((*byte, row, rest)),
            _ => Err(Stop::Bad),
        },
    }
}

/// The ModRM of a row that has one.
#[tactic(auto, unfolding(crate::specs::ByteReading::byte_where, crate::specs::ByteReading::byte_if, crate::specs::Decoding::may_be_modrm))]
fn read_modrm<'a>(
    rex: Option<u8>,
    escape: Option<u8>,
    opcode: u8,
    row: Row,
    bytes: &'a [u8],
) -> Result<(Option<u8>, &'a [u8]), Stop>
    requires { row_of escape opcode ≡ Some row }
    ensures { Gives (λ x. (x.0, x.1.now)) result
        (byte_if (row_has_modrm (row_of escape opcode)) (may_be_modrm rex escape opcode)
        bytes.now) }
{
    if !row.has_modrm() {
        return Ok((None, bytes));
    }
    match bytes {
        [] => Err(Stop::Short),
        [byte, rest @ ..] => {
            if row.takes_modrm(rex, *byte) {
                Ok((Some(*byte), rest))
            } else {
                Err(Stop::Bad)
            }
        }
    }
}

fn has_sib(modrm: Option<u8>) -> bool
    ensures { result ≡ has_sib modrm }
{
    match modrm {
        None => false,
        Some(byte) => byte / 64 < 3 && byte % 8 == 4,
    }
}

/// The SIB of a ModRM that has one.
#[tactic(auto, unfolding(crate::specs::ByteReading::byte_where, crate::specs::ByteReading::byte_if))]
fn read_sib<'a>(modrm: Option<u8>, bytes: &'a [u8]) -> Result<(Option<u8>, &'a [u8]), Stop>
    ensures { Gives (λ x. (x.0, x.1.now)) result (byte_if (has_sib modrm) is_byte bytes.now) }
{
    if !has_sib(modrm) {
        return Ok((None, bytes));
    }
    match bytes {
        [] => Err(Stop::Short),
        [byte, rest @ ..] => Ok((Some(*byte), rest)),
    }
}

#[tactic(auto, unfolding(x64_insn::specs::Encoding::displacement_length))]
fn displacement_length(modrm: Option<u8>, sib: Option<u8>) -> usize
    ensures { result ≡ displacement_length modrm sib }
{
    let Some(modrm) = modrm else {
        return 0;
    };
    let base = match sib {
        None => modrm % 8,
        Some(sib) => sib % 8,
    };
    match modrm / 64 {
        0 => { if base == 5 { 4 } else { 0 } }
        1 => 1,
        2 => 4,
        _ => 0,
    }
}

/// So many bytes.
fn read_bytes(count: usize, bytes: &[u8]) -> Result<(&[u8], &[u8]), Stop>
    ensures { Gives (λ x. (x.0.now, x.1.now)) result (some_bytes count bytes.now) }
{
    if bytes.len() < count {
        Err(Stop::Short)
    } else {
        Ok(bytes.split_at(count))
    }
}

/// Reads the fields of the instruction that bytes begin with. The bytes after it come back.
#[tactic(auto, unfolding(crate::specs::Decoding::parts, crate::specs::ByteReading::follow, crate::specs::Decoding::immediate_bytes))]
pub fn read_fields(bytes: &[u8]) -> Result<(FieldsRead<'_>, &[u8]), Stop>
    ensures read { Gives (λ x. (parts_read x.0, x.1.now)) result (parts bytes.now) }
    ensures row { IfOk result (λ x. row_of x.0.escape x.0.opcode ≡ Some x.0.row) }
{
    let (operand_size, rest) = read_operand_size(bytes)?;
    let (rex, rest) = read_rex(operand_size, rest)?;
    let (escape, rest) = read_escape(rest)?;
    let (opcode, row, rest) = read_opcode(operand_size, rex, escape, rest)?;
    let (modrm, rest) = read_modrm(rex, escape, opcode, row, rest)?;
    let (sib, rest) = read_sib(modrm, rest)?;
    let (displacement, rest) = read_bytes(displacement_length(modrm, sib), rest)?;
    let field = modrm.unwrap_or(0) / 8 % 8;
    let (immediate, rest) = read_bytes(row.immediate_length(operand_size, rex, field), rest)?;
    let fields = FieldsRead {
        operand_size,
        rex,
        escape,
        opcode,
        row,
        modrm,
        sib,
        displacement,
        immediate,
    };
    Ok((fields, rest))
}

fn count_of(byte: Option<u8>) -> u8
    ensures { result ≡ length (option_to_list byte) }
{
    if byte.is_some() { 1 } else { 0 }
}

impl FieldsRead<'_> {
    /// How many bytes the fields have.
    #[tactic(auto, unfolding(x64_insn::specs::Encoding::spelling_of))]
    pub fn length(&self) -> u8
        requires { AreShort self.now }
        ensures { result ≡ length (spelling_of (fields_read self.now)) }
    {
        count_of(self.operand_size)
            + count_of(self.rex)
            + count_of(self.escape)
            + 1
            + count_of(self.modrm)
            + count_of(self.sib)
            + self.displacement.len() as u8
            + self.immediate.len() as u8
    }
}
