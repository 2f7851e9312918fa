//! The table of opcodes, and the numbers of registers in the fields of a spelling.

ghost use Rattle.std.specs.Prelude.{◌≡◌, ◌<◌};
ghost use Rattle.x64_insn.specs.Table.{allows, allows_by, condition_of, escaped_row, has_byte_reg, has_byte_rm, has_modrm, has_w, immediate_by, immediate_length, is_shift_number, names_low_byte, number_of, one_byte_row, operands_of, operation_of, reg_of, rex_bits, row_of, size_by, prefixed_size, takes_modrm, takes_reg_field, width_length};

use crate::types::{Alu, Cond, Reg, Width};
use jz_words::Size;

/// The size of a row's operands: one byte, or the size that the prefixes give.
#[derive(Clone, Copy)]
pub enum Operands {
    Bytes,
    Sized,
}

/// A row of the table: an instruction, and which fields its operands stand in. The destination is
/// named first; `Rm` is the operand of ModRM's rm field, `Reg` the register of its reg field, `Imm`
/// an immediate.
#[derive(Clone, Copy)]
pub enum Row {
    AluRmReg(Alu, Operands),
    AluRegRm(Alu, Operands),
    /// An operation that the reg field names, with an immediate of the operands' size.
    AluRmImm(Operands),
    /// The same with an immediate of 8 bits.
    AluRmImm8,
    MovRmReg(Operands),
    MovRegRm(Operands),
    MovRmImm(Operands),
    /// The register stands in the opcode.
    MovRegImm64,
    /// MOVZX, MOVSX and MOVSXD.
    Extend { signed: bool, from: Size },
    Lea,
    /// F6 and F7: TEST with an immediate, NOT, NEG, MUL, IMUL, DIV and IDIV, by the reg field.
    Group3(Operands),
    IncDec(Operands),
    ImulRegRm,
    ImulRmImm,
    ImulRmImm8,
    /// A shift or rotation that the reg field names, by an immediate, by one, and by CL.
    ShiftImm(Operands),
    ShiftOne(Operands),
    ShiftCl(Operands),
    /// The register stands in the opcode.
    Bswap,
    CdqCqo,
    Set(Cond),
    Cmov(Cond),
    Jcc(Cond, Width),
    Jmp(Width),
    Call,
    Ret,
}

/// The registers in the order of their numbers.
const REGISTERS: [Reg; 16] = [
    Reg::Rax,
    Reg::Rcx,
    Reg::Rdx,
    Reg::Rbx,
    Reg::Rsp,
    Reg::Rbp,
    Reg::Rsi,
    Reg::Rdi,
    Reg::R8,
    Reg::R9,
    Reg::R10,
    Reg::R11,
    Reg::R12,
    Reg::R13,
    Reg::R14,
    Reg::R15,
];

/// The operations in the order of their numbers; TEST has none.
const OPERATIONS: [Alu; 8] = [
    Alu::Add,
    Alu::Or,
    Alu::Adc,
    Alu::Sbb,
    Alu::And,
    Alu::Sub,
    Alu::Xor,
    Alu::Cmp,
];

/// The conditions in the order of their numbers.
const CONDITIONS: [Cond; 16] = [
    Cond::O,
    Cond::No,
    Cond::B,
    Cond::Ae,
    Cond::E,
    Cond::Ne,
    Cond::Be,
    Cond::A,
    Cond::S,
    Cond::Ns,
    Cond::P,
    Cond::Np,
    Cond::L,
    Cond::Ge,
    Cond::Le,
    Cond::G,
];

/// The operation of a number: it stands in an opcode, or in a reg field.
#[tactic(auto, unfolding(crate::specs::Table::operation_of))]
pub fn operation_of(number: u8) -> Alu
    ensures { result ≡ operation_of number }
{
    match OPERATIONS.get(number as usize) {
        Some(operation) => *operation,
        None => Alu::Cmp,
    }
}

/// The condition of a number: it stands in the lower half of an opcode.
#[tactic(auto, unfolding(crate::specs::Table::condition_of))]
fn condition_of(number: u8) -> Cond
    ensures { result ≡ condition_of number }
{
    match CONDITIONS.get(number as usize) {
        Some(condition) => *condition,
        None => Cond::G,
    }
}

/// The first opcode of a pair has operands of one byte.
fn operands_of(opcode: u8) -> Operands
    ensures { result ≡ operands_of opcode }
{
    if opcode % 2 == 0 {
        Operands::Bytes
    } else {
        Operands::Sized
    }
}

/// The row of an opcode of one byte.
#[tactic(auto, unfolding(crate::specs::Table::one_byte_row))]
fn one_byte_row(opcode: u8) -> Option<Row>
    ensures { result ≡ one_byte_row opcode }
{
    let operands = operands_of(opcode);
    let row = match opcode {
        0x00..=0x3F if opcode % 8 < 2 => Row::AluRmReg(operation_of(opcode / 8), operands),
        0x00..=0x3F if opcode % 8 < 4 => Row::AluRegRm(operation_of(opcode / 8), operands),
        0x63 => Row::Extend {
            signed: true,
            from: Size::S32,
        },
        0x69 => Row::ImulRmImm,
        0x6B => Row::ImulRmImm8,
        0x70..=0x7F => Row::Jcc(condition_of(opcode % 16), Width::Rel8),
        0x80 | 0x81 => Row::AluRmImm(operands),
        0x83 => Row::AluRmImm8,
        0x84 | 0x85 => Row::AluRmReg(Alu::Test, operands),
        0x88 | 0x89 => Row::MovRmReg(operands),
        0x8A | 0x8B => Row::MovRegRm(operands),
        0x8D => Row::Lea,
        0x99 => Row::CdqCqo,
        0xB8..=0xBF => Row::MovRegImm64,
        0xC0 | 0xC1 => Row::ShiftImm(operands),
        0xC3 => Row::Ret,
        0xC6 | 0xC7 => Row::MovRmImm(operands),
        0xD0 | 0xD1 => Row::ShiftOne(operands),
        0xD2 | 0xD3 => Row::ShiftCl(operands),
        0xE8 => Row::Call,
        0xE9 => Row::Jmp(Width::Rel32),
        0xEB => Row::Jmp(Width::Rel8),
        0xF6 | 0xF7 => Row::Group3(operands),
        0xFE | 0xFF => Row::IncDec(operands),
        _ => return None,
    };
    Some(row)
}

/// The row of an opcode behind the escape byte.
#[tactic(auto, unfolding(crate::specs::Table::escaped_row))]
fn escaped_row(opcode: u8) -> Option<Row>
    ensures { result ≡ escaped_row opcode }
{
    let row = match opcode {
        0x40..=0x4F => Row::Cmov(condition_of(opcode % 16)),
        0x80..=0x8F => Row::Jcc(condition_of(opcode % 16), Width::Rel32),
        0x90..=0x9F => Row::Set(condition_of(opcode % 16)),
        0xAF => Row::ImulRegRm,
        0xB6 => Row::Extend {
            signed: false,
            from: Size::S8,
        },
        0xB7 => Row::Extend {
            signed: false,
            from: Size::S16,
        },
        0xBE => Row::Extend {
            signed: true,
            from: Size::S8,
        },
        0xBF => Row::Extend {
            signed: true,
            from: Size::S16,
        },
        0xC8..=0xCF => Row::Bswap,
        _ => return None,
    };
    Some(row)
}

/// The row of an opcode, alone or behind the escape byte 0F.
pub fn row_of(escape: Option<u8>, opcode: u8) -> Option<Row>
    ensures { result ≡ row_of escape opcode }
{
    if escape.is_some() {
        escaped_row(opcode)
    } else {
        one_byte_row(opcode)
    }
}

/// The bits W, R, X and B of a REX, from the left; without REX they are 0.
pub fn rex_bits(rex: Option<u8>) -> u8
    ensures { result ≡ rex_bits rex }
{
    rex.unwrap_or(0) % 16
}

/// Whether a REX has W.
pub fn has_w(rex: Option<u8>) -> bool
    ensures { result ≡ has_w rex }
{
    rex_bits(rex) >= 8
}

/// The size that the prefixes give.
pub fn prefixed_size(operand_size: Option<u8>, rex: Option<u8>) -> Size
    ensures { result ≡ prefixed_size operand_size rex }
{
    if has_w(rex) {
        Size::S64
    } else if operand_size.is_some() {
        Size::S16
    } else {
        Size::S32
    }
}

/// Whether a register of one byte may have this field: without REX the fields 4 to 7 name the
/// second bytes of registers.
fn names_low_byte(rex: Option<u8>, field: u8) -> bool
    ensures { result ≡ names_low_byte rex field }
{
    rex.is_some() || field < 4
}

/// The numbers of ROL, ROR, SHL, SHR and SAR.
fn is_shift_number(number: u8) -> bool
    ensures { result ≡ is_shift_number number }
{
    number < 2 || (4 <= number && number != 6)
}

/// How many bytes an immediate has, by the size of the operands.
pub fn immediate_by(size: Size) -> usize
    ensures { result ≡ immediate_by size }
{
    match size {
        Size::S8 => 1,
        Size::S16 => 2,
        Size::S32 | Size::S64 => 4,
    }
}

/// How many bytes the displacement of a jump has.
pub fn width_length(width: Width) -> usize
    ensures { result ≡ width_length width }
{
    match width {
        Width::Rel8 => 1,
        Width::Rel32 => 4,
    }
}

impl Operands {
    /// The size of the operands.
    pub fn size_by(self, operand_size: Option<u8>, rex: Option<u8>) -> Size
        ensures { result ≡ size_by self operand_size rex }
    {
        match self {
            Operands::Bytes => Size::S8,
            Operands::Sized => prefixed_size(operand_size, rex),
        }
    }

    /// Whether the prefix 66 may stand there.
    fn allows_by(self, operand_size: Option<u8>) -> bool
        ensures { result ≡ allows_by self operand_size }
    {
        match self {
            Operands::Bytes => operand_size.is_none(),
            Operands::Sized => true,
        }
    }
}

impl Row {
    /// Whether an instruction of the row may have these prefixes.
    pub fn allows(self, operand_size: Option<u8>, rex: Option<u8>) -> bool
        ensures { result ≡ allows self operand_size rex }
    {
        match self {
            Row::AluRmReg(_, operands)
            | Row::AluRegRm(_, operands)
            | Row::AluRmImm(operands)
            | Row::MovRmReg(operands)
            | Row::MovRegRm(operands)
            | Row::MovRmImm(operands)
            | Row::ShiftImm(operands)
            | Row::ShiftOne(operands)
            | Row::ShiftCl(operands)
            | Row::Group3(operands)
            | Row::IncDec(operands) => operands.allows_by(operand_size),
            Row::MovRegImm64 | Row::Lea => has_w(rex),
            Row::Extend { signed: _, from } => match from {
                Size::S32 => has_w(rex),
                Size::S16 => operand_size.is_none(),
                Size::S8 | Size::S64 => true,
            },
            Row::Bswap | Row::CdqCqo | Row::Set(_) => operand_size.is_none(),
            Row::Jcc(_, _) | Row::Jmp(_) | Row::Call | Row::Ret => {
                operand_size.is_none() && rex.is_none()
            }
            Row::AluRmImm8 | Row::ImulRegRm | Row::ImulRmImm | Row::ImulRmImm8 | Row::Cmov(_) =>
                true,
        }
    }

    /// Whether a ModRM stands behind the opcode.
    pub fn has_modrm(self) -> bool
        ensures { result ≡ has_modrm self }
    {
        !matches!(
            self,
            Row::MovRegImm64
                | Row::Bswap
                | Row::CdqCqo
                | Row::Jcc(_, _)
                | Row::Jmp(_)
                | Row::Call
                | Row::Ret
        )
    }

    /// Whether the row's ModRM may have a reg field: it names a register, an operation, a kind of
    /// shift, or is given.
    fn takes_reg_field(self, field: u8) -> bool
        ensures { result ≡ takes_reg_field self field }
    {
        match self {
            Row::MovRmImm(_) => field == 0,
            Row::IncDec(_) => field < 2,
            Row::ShiftImm(_) | Row::ShiftOne(_) | Row::ShiftCl(_) => is_shift_number(field),
            Row::Group3(Operands::Bytes) => field == 0 || field == 2 || field == 3,
            Row::Group3(Operands::Sized) => field != 1,
            _ => true,
        }
    }

    /// Whether the reg field names a register of one byte.
    fn has_byte_reg(self) -> bool
        ensures { result ≡ has_byte_reg self }
    {
        matches!(
            self,
            Row::AluRmReg(_, Operands::Bytes)
                | Row::AluRegRm(_, Operands::Bytes)
                | Row::MovRmReg(Operands::Bytes)
                | Row::MovRegRm(Operands::Bytes)
        )
    }

    /// Whether the rm field of mode 3 names a register of one byte.
    fn has_byte_rm(self) -> bool
        ensures { result ≡ has_byte_rm self }
    {
        match self {
            Row::AluRmReg(_, operands)
            | Row::AluRegRm(_, operands)
            | Row::AluRmImm(operands)
            | Row::MovRmReg(operands)
            | Row::MovRegRm(operands)
            | Row::MovRmImm(operands)
            | Row::ShiftImm(operands)
            | Row::ShiftOne(operands)
            | Row::ShiftCl(operands)
            | Row::Group3(operands)
            | Row::IncDec(operands) => matches!(operands, Operands::Bytes),
            Row::Extend { signed: _, from } => matches!(from, Size::S8),
            Row::Set(_) => true,
            _ => false,
        }
    }

    /// Whether a byte may be the row's ModRM.
    pub fn takes_modrm(self, rex: Option<u8>, modrm: u8) -> bool
        ensures { result ≡ takes_modrm self rex modrm }
    {
        let mode = modrm / 64;
        let reg = modrm / 8 % 8;
        self.takes_reg_field(reg)
            && !(matches!(self, Row::Lea) && mode == 3)
            && (!self.has_byte_reg() || names_low_byte(rex, reg))
            && (!self.has_byte_rm() || mode != 3 || names_low_byte(rex, modrm % 8))
    }

    /// How many bytes the row's immediate has, by the prefixes and ModRM's reg field.
    pub fn immediate_length(self, operand_size: Option<u8>, rex: Option<u8>, field: u8) -> usize
        ensures { result ≡ immediate_length self operand_size rex field }
    {
        match self {
            Row::AluRmImm(operands) | Row::MovRmImm(operands) => {
                immediate_by(operands.size_by(operand_size, rex))
            }
            Row::AluRmImm8 | Row::ImulRmImm8 | Row::ShiftImm(_) => 1,
            Row::MovRegImm64 => 8,
            Row::ImulRmImm => immediate_by(prefixed_size(operand_size, rex)),
            Row::Group3(operands) => {
                if field == 0 {
                    immediate_by(operands.size_by(operand_size, rex))
                } else {
                    0
                }
            }
            Row::Jcc(_, width) | Row::Jmp(width) => width_length(width),
            Row::Call => 4,
            _ => 0,
        }
    }
}

/// The number of a register: its lower three bits stand in ModRM or SIB, the fourth in REX.
pub fn number_of(reg: Reg) -> u8
    ensures value { result ≡ number_of reg }
    ensures fits { result < 16 }
{
    reg as u8
}

/// The register of a number.
#[tactic(auto, unfolding(crate::specs::Table::reg_of))]
pub fn reg_of(number: u8) -> Reg
    requires { number < 16 }
    ensures { result ≡ reg_of number }
{
    REGISTERS[number as usize]
}
