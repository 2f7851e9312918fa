//! The spelling that is chosen: between registers the destination stands in the rm field.

ghost use Rattle.std.specs.Prelude.{◌≡◌, ◌+◌, ◌≤◌, false, IfSome, None, Some, []};
ghost use Rattle.x64_insn.specs.Chosen.{alu_fields, alu_immediate, chosen_fields, condition_number, extend_fields, imul_by_fields, is_test, jcc_fields, jmp_fields, modrm_fields, mov_fields, mov_immediate, needs_rex, one_number, one_opcode, opcode_alone, opcode_for, shift_fields, signed_bytes, with_number};
ghost use Rattle.x64_insn.specs.Table.{immediate_by, number_of, width_length};
ghost use Rattle.x64_insn.specs.Size.TheVariants.{S8, S64};
ghost use Rattle.x64_insn.specs.declared.types.Alu.TheVariants.{Test};
ghost use Rattle.x64_insn.specs.declared.types.Operand.TheVariants as operand;
ghost use Rattle.x64_encode.specs.InnerFields.{IsShort, named_bytes, named_choice, named_fields};

use crate::fields::{ChosenFields, SignedBytes, needs_rex};
use crate::numbers::{
    alu_number, condition_number, fits_byte, fits_immediate, one_number, one_opcode, opcode_for,
    shift_number, wide_number,
};
use x64_insn::table::{immediate_by, number_of, width_length};
use x64_insn::{Alu, Cond, Count, Insn, Mem, One, Operand, Reg, Shift, Size, Width};

/// An immediate of the operands' size.
fn sized(size: Size, value: i64) -> SignedBytes
    ensures bytes { named_bytes result ≡ signed_bytes (immediate_by size) value }
    ensures count { result.count ≤ 4 }
{
    SignedBytes {
        value,
        count: immediate_by(size),
    }
}

/// An immediate of one byte.
fn short(value: i64) -> SignedBytes
    ensures bytes { named_bytes result ≡ signed_bytes 1 value }
    ensures count { result.count ≤ 4 }
{
    SignedBytes { value, count: 1 }
}

/// An operation with an immediate: of one byte where it holds the number.
fn alu_immediate(alu: Alu, size: Size, rm: Operand, value: i64) -> ChosenFields
    ensures fields { named_fields result ≡ alu_immediate alu size rm value }
    ensures fits { IsShort result }
{
    let number = alu_number(alu);
    match size {
        Size::S8 => ChosenFields::with_number(size, 0x80, number, rm, short(value)),
        Size::S16 | Size::S32 | Size::S64 => {
            if fits_byte(value) {
                ChosenFields::with_number(size, 0x83, number, rm, short(value))
            } else {
                ChosenFields::with_number(size, 0x81, number, rm, sized(size, value))
            }
        }
    }
}

/// TEST has its immediate in full.
fn test_fields(size: Size, to: Operand, from: Operand) -> Option<ChosenFields>
    ensures fields { named_choice result ≡ alu_fields Test size to from }
    ensures fits { IfSome result (λ f. IsShort f) }
{
    match from {
        Operand::Reg(reg) => Some(ChosenFields::with_register(
            size,
            opcode_for(size, 0x84),
            reg,
            to,
        )),
        Operand::Imm(value) => {
            let opcode = opcode_for(size, 0xF6);
            Some(ChosenFields::with_number(size, opcode, 0, to, sized(size, value)))
        }
        Operand::Mem(_) => None,
    }
}

/// The operations but for TEST.
fn other_fields(alu: Alu, size: Size, to: Operand, from: Operand) -> Option<ChosenFields>
    requires { is_test alu ≡ false }
    ensures fields { named_choice result ≡ alu_fields alu size to from }
    ensures fits { IfSome result (λ f. IsShort f) }
{
    let opcode = 8 * alu_number(alu);
    match (to, from) {
        (_, Operand::Reg(reg)) => {
            Some(ChosenFields::with_register(size, opcode_for(size, opcode), reg, to))
        }
        (_, Operand::Imm(value)) => Some(alu_immediate(alu, size, to, value)),
        (Operand::Reg(reg), Operand::Mem(_)) => {
            Some(ChosenFields::with_register(size, opcode_for(size, opcode + 2), reg, from))
        }
        (Operand::Imm(_) | Operand::Mem(_), Operand::Mem(_)) => None,
    }
}

/// The fields of an operation.
fn alu_fields(alu: Alu, size: Size, to: Operand, from: Operand) -> Option<ChosenFields>
    ensures fields { named_choice result ≡ alu_fields alu size to from }
    ensures fits { IfSome result (λ f. IsShort f) }
{
    match alu {
        Alu::Test => test_fields(size, to, from),
        Alu::Add | Alu::Or | Alu::Adc | Alu::Sbb | Alu::And | Alu::Sub | Alu::Xor | Alu::Cmp => {
            other_fields(alu, size, to, from)
        }
    }
}

/// MOV of an immediate: of 64 bits alone where fewer do not hold the number.
fn mov_immediate(size: Size, rm: Operand, value: i64) -> ChosenFields
    ensures fields { named_fields result ≡ mov_immediate size rm value }
    ensures fits { IsShort result }
{
    let opcode = opcode_for(size, 0xC6);
    match rm {
        Operand::Reg(reg) if !fits_immediate(size, value) => {
            let immediate = SignedBytes { value, count: 8 };
            ChosenFields::with_opcode_register(Size::S64, None, 0xB8, reg, immediate)
        }
        Operand::Reg(_) | Operand::Imm(_) | Operand::Mem(_) => {
            ChosenFields::with_number(size, opcode, 0, rm, sized(size, value))
        }
    }
}

/// The fields of MOV.
fn mov_fields(size: Size, to: Operand, from: Operand) -> Option<ChosenFields>
    ensures fields { named_choice result ≡ mov_fields size to from }
    ensures fits { IfSome result (λ f. IsShort f) }
{
    match (to, from) {
        (_, Operand::Reg(reg)) => {
            Some(ChosenFields::with_register(size, opcode_for(size, 0x88), reg, to))
        }
        (_, Operand::Imm(value)) => Some(mov_immediate(size, to, value)),
        (Operand::Reg(reg), Operand::Mem(_)) => {
            Some(ChosenFields::with_register(size, opcode_for(size, 0x8A), reg, from))
        }
        (Operand::Imm(_) | Operand::Mem(_), Operand::Mem(_)) => None,
    }
}

/// The fields of LEA.
fn lea_fields(reg: Reg, mem: Mem) -> ChosenFields
    ensures fields { named_fields result
        ≡ modrm_fields S64 false None 0x8D (number_of reg) (operand.Mem mem) [] }
    ensures fits { IsShort result }
{
    let rm = Operand::Mem(mem);
    let none = SignedBytes::none();
    ChosenFields::with_modrm(Size::S64, false, None, 0x8D, number_of(reg), rm, none)
}

/// The fields of NOT, NEG, INC and DEC.
fn one_fields(one: One, size: Size, rm: Operand) -> ChosenFields
    ensures fields { named_fields result
        ≡ with_number size (opcode_for size (one_opcode one)) (one_number one) rm [] }
    ensures fits { IsShort result }
{
    let opcode = opcode_for(size, one_opcode(one));
    ChosenFields::with_number(size, opcode, one_number(one), rm, SignedBytes::none())
}

/// The fields of SETcc.
fn set_fields(condition: Cond, rm: Operand) -> ChosenFields
    ensures fields { named_fields result ≡ modrm_fields S8 (needs_rex S8 rm) (Some 0x0F)
        (0x90 + condition_number condition) 0 rm [] }
    ensures fits { IsShort result }
{
    let opcode = 0x90 + condition_number(condition);
    let needed = needs_rex(Size::S8, rm);
    let none = SignedBytes::none();
    ChosenFields::with_modrm(Size::S8, needed, Some(0x0F), opcode, 0, rm, none)
}

/// The fields of CMOVcc.
fn cmov_fields(condition: Cond, size: Size, reg: Reg, rm: Operand) -> ChosenFields
    ensures fields { named_fields result ≡ modrm_fields size false (Some 0x0F)
        (0x40 + condition_number condition) (number_of reg) rm [] }
    ensures fits { IsShort result }
{
    let opcode = 0x40 + condition_number(condition);
    let none = SignedBytes::none();
    ChosenFields::with_modrm(size, false, Some(0x0F), opcode, number_of(reg), rm, none)
}

/// The fields of an extension: MOVZX and MOVSX stand behind 0F, MOVSXD does not.
fn extend_fields(signed: bool, to: Size, from: Size, reg: Reg, rm: Operand) -> ChosenFields
    ensures fields { named_fields result ≡ extend_fields signed to from reg rm }
    ensures fits { IsShort result }
{
    let number = number_of(reg);
    let none = SignedBytes::none();
    match from {
        Size::S32 => ChosenFields::with_modrm(to, false, None, 0x63, number, rm, none),
        Size::S8 | Size::S16 | Size::S64 => {
            let opcode = opcode_for(from, if signed { 0xBE } else { 0xB6 });
            let needed = needs_rex(from, rm);
            ChosenFields::with_modrm(to, needed, Some(0x0F), opcode, number, rm, none)
        }
    }
}

/// The fields of IMUL by an immediate.
fn imul_by_fields(size: Size, reg: Reg, rm: Operand, value: i64) -> ChosenFields
    ensures fields { named_fields result ≡ imul_by_fields size reg rm value }
    ensures fits { IsShort result }
{
    let number = number_of(reg);
    if fits_byte(value) {
        ChosenFields::with_modrm(size, false, None, 0x6B, number, rm, short(value))
    } else {
        ChosenFields::with_modrm(size, false, None, 0x69, number, rm, sized(size, value))
    }
}

/// The fields of a shift: a count of 1 stands in the opcode.
fn shift_fields(kind: Shift, size: Size, rm: Operand, count: Count) -> ChosenFields
    ensures fields { named_fields result ≡ shift_fields kind size rm count }
    ensures fits { IsShort result }
{
    let number = shift_number(kind);
    let none = SignedBytes::none();
    match count {
        Count::Cl => ChosenFields::with_number(size, opcode_for(size, 0xD2), number, rm, none),
        Count::Imm(1) => ChosenFields::with_number(size, opcode_for(size, 0xD0), number, rm, none),
        Count::Imm(value) => {
            let immediate = short(i64::from(value));
            ChosenFields::with_number(size, opcode_for(size, 0xC0), number, rm, immediate)
        }
    }
}

/// The fields of a jump on a condition.
fn jcc_fields(condition: Cond, width: Width, disp: i32) -> ChosenFields
    ensures fields { named_fields result ≡ jcc_fields condition width disp }
    ensures fits { IsShort result }
{
    let number = condition_number(condition);
    match width {
        Width::Rel8 => ChosenFields::opcode_alone(None, 0x70 + number, displacement(width, disp)),
        Width::Rel32 => {
            ChosenFields::opcode_alone(Some(0x0F), 0x80 + number, displacement(width, disp))
        }
    }
}

/// The fields of a jump.
fn jmp_fields(width: Width, disp: i32) -> ChosenFields
    ensures fields { named_fields result ≡ jmp_fields width disp }
    ensures fits { IsShort result }
{
    let opcode = match width {
        Width::Rel8 => 0xEB,
        Width::Rel32 => 0xE9,
    };
    ChosenFields::opcode_alone(None, opcode, displacement(width, disp))
}

/// The displacement of a jump.
fn displacement(width: Width, disp: i32) -> SignedBytes
    ensures bytes { named_bytes result ≡ signed_bytes (width_length width) disp }
    ensures count { result.count ≤ 4 }
{
    SignedBytes {
        value: i64::from(disp),
        count: width_length(width),
    }
}

/// The fields of CALL.
fn call_fields(disp: i32) -> ChosenFields
    ensures fields { named_fields result ≡ opcode_alone None 0xE8 (signed_bytes 4 disp) }
    ensures fits { IsShort result }
{
    ChosenFields::opcode_alone(None, 0xE8, displacement(Width::Rel32, disp))
}

/// The fields that are chosen for an instruction, where it has any.
#[tactic(auto, unfolding(x64_insn::specs::Chosen::chosen_fields))]
pub(super) fn choose(insn: Insn) -> Option<ChosenFields>
    ensures fields { named_choice result ≡ chosen_fields insn }
    ensures fits { IfSome result (λ f. IsShort f) }
{
    let none = SignedBytes::none();
    let fields = match insn {
        Insn::Alu(alu, size, to, from) => return alu_fields(alu, size, to, from),
        Insn::Mov(size, to, from) => return mov_fields(size, to, from),
        Insn::Extend {
            signed,
            to,
            from,
            reg,
            rm,
        } => extend_fields(signed, to, from, reg, rm),
        Insn::Lea(reg, mem) => lea_fields(reg, mem),
        Insn::One(one, size, rm) => one_fields(one, size, rm),
        Insn::Wide(wide, size, rm) => {
            ChosenFields::with_number(size, opcode_for(size, 0xF6), wide_number(wide), rm, none)
        }
        Insn::Imul(size, reg, rm) => {
            ChosenFields::with_modrm(size, false, Some(0x0F), 0xAF, number_of(reg), rm, none)
        }
        Insn::ImulBy(size, reg, rm, value) => imul_by_fields(size, reg, rm, i64::from(value)),
        Insn::Shift(kind, size, rm, count) => shift_fields(kind, size, rm, count),
        Insn::Bswap(size, reg) => {
            ChosenFields::with_opcode_register(size, Some(0x0F), 0xC8, reg, none)
        }
        Insn::Cdq => ChosenFields::opcode_alone(None, 0x99, none),
        Insn::Cqo => ChosenFields::with_opcode_register(Size::S64, None, 0x99, Reg::Rax, none),
        Insn::Set(condition, rm) => set_fields(condition, rm),
        Insn::Cmov(condition, size, reg, rm) => cmov_fields(condition, size, reg, rm),
        Insn::Jcc(condition, width, disp) => jcc_fields(condition, width, disp),
        Insn::Jmp(width, disp) => jmp_fields(width, disp),
        Insn::Call(disp) => call_fields(disp),
        Insn::Ret => ChosenFields::opcode_alone(None, 0xC3, none),
    };
    Some(fields)
}
