//! The instruction that fields spell.

ghost use Rattle.std.specs.Prelude.{◌≡◌, ◌≤◌, ◌/◌, ◌^◌, length};
ghost use Rattle.x64_insn.specs.Table.{reg_field};
ghost use Rattle.x64_insn.specs.Encoding.{immediate_of, index_of, meaning, memory_of, modrm_byte, plain_memory, reg_of_modrm, reg_of_opcode, rm_of_modrm, shift_of, sib_byte, sib_memory, size_in};
ghost use Rattle.x64_insn.specs.declared.types.Insn.{Insn};
ghost use Rattle.x64_insn.specs.declared.types.Operand.{Operand};
ghost use Rattle.x64_insn.specs.declared.table.Row.{Row};
ghost use Rattle.x64_decode.specs.InnerReading.{AreShort, fields_read};

use crate::numbers::{byte_of, signed_of, small_signed_of};
use crate::reading::FieldsRead;
use x64_insn::table::{Operands, Row, has_w, operation_of, reg_of, rex_bits};
use x64_insn::{Alu, Base, Count, Insn, Mem, One, Operand, Reg, Shift, Size, Wide};

/// The kind of shift of a number.
#[tactic(auto, unfolding(x64_insn::specs::Encoding::shift_of))]
fn shift_of(number: u8) -> Shift
    ensures { result ≡ shift_of number }
{
    match number {
        0 => Shift::Rol,
        1 => Shift::Ror,
        4 => Shift::Shl,
        5 => Shift::Shr,
        _ => Shift::Sar,
    }
}

/// The factor of an index.
fn scale_of(sib: u8) -> u8
    ensures { result ≡ 2 ^ (sib / 64) }
{
    match sib / 64 {
        0 => 1,
        1 => 2,
        2 => 4,
        _ => 8,
    }
}

impl FieldsRead<'_> {
    fn modrm_byte(&self) -> u8
        ensures { result ≡ modrm_byte (fields_read self.now) }
    {
        self.modrm.unwrap_or(0)
    }

    fn sib_byte(&self) -> u8
        ensures { result ≡ sib_byte (fields_read self.now) }
    {
        self.sib.unwrap_or(0)
    }

    fn reg_field(&self) -> u8
        ensures { result ≡ reg_field (modrm_byte (fields_read self.now)) }
    {
        self.modrm_byte() / 8 % 8
    }

    /// The register of the reg field.
    fn reg(&self) -> Reg
        ensures { result ≡ reg_of_modrm (fields_read self.now) }
    {
        reg_of(8 * (rex_bits(self.rex) / 4 % 2) + self.reg_field())
    }

    fn register(&self) -> Operand
        ensures { result ≡ Operand.Reg (reg_of_modrm (fields_read self.now)) }
    {
        Operand::Reg(self.reg())
    }

    /// The register in the opcode.
    fn opcode_reg(&self) -> Reg
        ensures { result ≡ reg_of_opcode (fields_read self.now) }
    {
        reg_of(8 * (rex_bits(self.rex) % 2) + self.opcode % 8)
    }

    /// The index of a SIB and its scale.
    fn index(&self) -> Option<(Reg, u8)>
        ensures { result ≡ index_of (fields_read self.now) }
    {
        let sib = self.sib_byte();
        let number = 8 * (rex_bits(self.rex) / 2 % 2) + sib / 8 % 8;
        if number == 4 {
            None
        } else {
            Some((reg_of(number), scale_of(sib)))
        }
    }

    /// An address with a SIB.
    fn sib_memory(&self) -> Mem
        requires { AreShort self.now }
        ensures { result ≡ sib_memory (fields_read self.now) }
    {
        let field = self.sib_byte() % 8;
        let base = if self.modrm_byte() / 64 == 0 && field == 5 {
            Base::Absent
        } else {
            Base::Reg(reg_of(8 * (rex_bits(self.rex) % 2) + field))
        };
        Mem {
            base,
            index: self.index(),
            disp: small_signed_of(self.displacement),
        }
    }

    /// An address without a SIB.
    fn plain_memory(&self) -> Mem
        requires { AreShort self.now }
        ensures { result ≡ plain_memory (fields_read self.now) }
    {
        let field = self.modrm_byte() % 8;
        let base = if self.modrm_byte() / 64 == 0 && field == 5 {
            Base::Rip
        } else {
            Base::Reg(reg_of(8 * (rex_bits(self.rex) % 2) + field))
        };
        Mem {
            base,
            index: None,
            disp: small_signed_of(self.displacement),
        }
    }

    /// The address of the rm field.
    #[tactic(auto, unfolding(x64_insn::specs::Encoding::memory_of))]
    fn memory(&self) -> Mem
        requires { AreShort self.now }
        ensures { result ≡ memory_of (fields_read self.now) }
    {
        if self.modrm_byte() % 8 == 4 {
            self.sib_memory()
        } else {
            self.plain_memory()
        }
    }

    /// The operand of the rm field.
    #[tactic(auto, unfolding(x64_insn::specs::Encoding::rm_of_modrm))]
    fn rm(&self) -> Operand
        requires { AreShort self.now }
        ensures { result ≡ rm_of_modrm (fields_read self.now) }
    {
        let modrm = self.modrm_byte();
        if modrm / 64 == 3 {
            Operand::Reg(reg_of(8 * (rex_bits(self.rex) % 2) + modrm % 8))
        } else {
            Operand::Mem(self.memory())
        }
    }

    /// The immediate, by the signed reading of its bytes.
    fn immediate(&self) -> Operand
        requires { AreShort self.now }
        ensures { result ≡ immediate_of (fields_read self.now) }
    {
        Operand::Imm(signed_of(self.immediate))
    }

    fn size(&self, operands: Operands) -> Size
        ensures { result ≡ size_in operands (fields_read self.now) }
    {
        operands.size_by(self.operand_size, self.rex)
    }

    /// INC or DEC.
    fn inc_or_dec(&self, operands: Operands) -> Insn
        requires { AreShort self.now }
        ensures { result ≡ meaning (Row.IncDec operands) (fields_read self.now) }
    {
        let one = if self.reg_field() == 0 {
            One::Inc
        } else {
            One::Dec
        };
        Insn::One(one, self.size(operands), self.rm())
    }

    /// An instruction of F6 and F7.
    #[tactic(auto, unfolding(x64_insn::specs::Encoding::group3))]
    fn group3(&self, operands: Operands) -> Insn
        requires { AreShort self.now }
        ensures { result ≡ meaning (Row.Group3 operands) (fields_read self.now) }
    {
        let size = self.size(operands);
        let rm = self.rm();
        match self.reg_field() {
            0 => Insn::Alu(Alu::Test, size, rm, self.immediate()),
            2 => Insn::One(One::Not, size, rm),
            3 => Insn::One(One::Neg, size, rm),
            4 => Insn::Wide(Wide::Mul, size, rm),
            5 => Insn::Wide(Wide::Imul, size, rm),
            6 => Insn::Wide(Wide::Div, size, rm),
            _ => Insn::Wide(Wide::Idiv, size, rm),
        }
    }

    fn shift(&self, operands: Operands, count: Count) -> Insn
        requires { AreShort self.now }
        ensures { result ≡ Insn.Shift (shift_of (reg_field (modrm_byte (fields_read self.now))))
            (size_in operands (fields_read self.now)) (rm_of_modrm (fields_read self.now)) count }
    {
        Insn::Shift(
            shift_of(self.reg_field()),
            self.size(operands),
            self.rm(),
            count,
        )
    }

    /// An operation that the reg field names.
    fn alu_immediate(&self, operands: Operands) -> Insn
        requires { AreShort self.now }
        ensures { result ≡ meaning (Row.AluRmImm operands) (fields_read self.now) }
    {
        let alu = operation_of(self.reg_field());
        Insn::Alu(alu, self.size(operands), self.rm(), self.immediate())
    }

    fn alu(&self, alu: Alu, operands: Operands, to: Operand, from: Operand) -> Insn
        ensures { result ≡ Insn.Alu alu (size_in operands (fields_read self.now)) to from }
    {
        Insn::Alu(alu, self.size(operands), to, from)
    }

    fn mov(&self, operands: Operands, to: Operand, from: Operand) -> Insn
        ensures { result ≡ Insn.Mov (size_in operands (fields_read self.now)) to from }
    {
        Insn::Mov(self.size(operands), to, from)
    }

    fn mov_whole(&self) -> Insn
        requires { AreShort self.now }
        ensures { result ≡ meaning Row.MovRegImm64 (fields_read self.now) }
    {
        Insn::Mov(Size::S64, Operand::Reg(self.opcode_reg()), self.immediate())
    }

    fn extend(&self, signed: bool, from: Size) -> Insn
        requires { AreShort self.now }
        ensures { result ≡ meaning (Row.Extend signed from) (fields_read self.now) }
    {
        Insn::Extend {
            signed,
            to: self.size(Operands::Sized),
            from,
            reg: self.reg(),
            rm: self.rm(),
        }
    }

    fn cdq_or_cqo(&self) -> Insn
        ensures { result ≡ meaning Row.CdqCqo (fields_read self.now) }
    {
        if has_w(self.rex) {
            Insn::Cqo
        } else {
            Insn::Cdq
        }
    }

    fn imul_by(&self) -> Insn
        requires short { AreShort self.now }
        requires immediate { length self.now.immediate.now ≤ 4 }
        ensures { result ≡ meaning Row.ImulRmImm (fields_read self.now) }
    {
        let size = self.size(Operands::Sized);
        Insn::ImulBy(size, self.reg(), self.rm(), small_signed_of(self.immediate))
    }

    /// The instruction that the fields spell.
    pub fn insn(&self) -> Insn
        requires { AreShort self.now }
        ensures { result ≡ meaning self.now.row (fields_read self.now) }
    {
        let sized = Operands::Sized;
        match self.row {
            Row::AluRmReg(alu, operands) => self.alu(alu, operands, self.rm(), self.register()),
            Row::AluRegRm(alu, operands) => self.alu(alu, operands, self.register(), self.rm()),
            Row::AluRmImm(operands) => self.alu_immediate(operands),
            Row::AluRmImm8 => self.alu_immediate(sized),
            Row::MovRmReg(operands) => self.mov(operands, self.rm(), self.register()),
            Row::MovRegRm(operands) => self.mov(operands, self.register(), self.rm()),
            Row::MovRmImm(operands) => self.mov(operands, self.rm(), self.immediate()),
            Row::MovRegImm64 => self.mov_whole(),
            Row::Extend { signed, from } => self.extend(signed, from),
            Row::Lea => Insn::Lea(self.reg(), self.memory()),
            Row::Group3(operands) => self.group3(operands),
            Row::IncDec(operands) => self.inc_or_dec(operands),
            Row::ImulRegRm => Insn::Imul(self.size(sized), self.reg(), self.rm()),
            Row::ImulRmImm | Row::ImulRmImm8 => self.imul_by(),
            Row::ShiftImm(operands) => self.shift(operands, Count::Imm(byte_of(self.immediate))),
            Row::ShiftOne(operands) => self.shift(operands, Count::Imm(1)),
            Row::ShiftCl(operands) => self.shift(operands, Count::Cl),
            Row::Bswap => Insn::Bswap(self.size(sized), self.opcode_reg()),
            Row::CdqCqo => self.cdq_or_cqo(),
            Row::Set(cond) => Insn::Set(cond, self.rm()),
            Row::Cmov(cond) => Insn::Cmov(cond, self.size(sized), self.reg(), self.rm()),
            Row::Jcc(cond, width) => Insn::Jcc(cond, width, small_signed_of(self.immediate)),
            Row::Jmp(width) => Insn::Jmp(width, small_signed_of(self.immediate)),
            Row::Call => Insn::Call(small_signed_of(self.immediate)),
            Row::Ret => Insn::Ret,
        }
    }
}
