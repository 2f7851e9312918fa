//! The fields of the spelling that is chosen.

ghost use Rattle.std.specs.Prelude.{◌≡◌, ◌+◌, ◌<◌, ◌≤◌, []};
ghost use Rattle.x64_insn.specs.Encoding.{spelling_of};
ghost use Rattle.x64_insn.specs.Chosen.{address_parts, based_parts, displacement_for, index_code, mode_for, modrm_fields, needs_rex, opcode_alone, operand_size_for, register_parts, rex_with, rm_parts, scale_code, sib_with, w_for, with_number, with_opcode_register, with_register};
ghost use Rattle.x64_encode.specs.InnerFields.{IsShort, Small, named_bytes, named_fields, named_parts};

use crate::code::Code15;
use crate::numbers::fits_byte;
use x64_insn::table::number_of;
use x64_insn::{Base, Operand, Reg, Size};

/// The lowest bytes of a signed number, so many as are counted.
#[derive(Clone, Copy)]
pub(super) struct SignedBytes {
    pub(super) value: i64,
    pub(super) count: usize,
}

/// Mode and rm field of ModRM, the bits X and B of REX, SIB and displacement.
#[derive(Clone, Copy)]
struct RmFields {
    mode: u8,
    field: u8,
    x: u8,
    b: u8,
    sib: Option<u8>,
    displacement: SignedBytes,
}

/// The fields of a spelling, in the order of their bytes.
#[derive(Clone, Copy)]
pub(super) struct ChosenFields {
    pub(super) operand_size: Option<u8>,
    pub(super) rex: Option<u8>,
    pub(super) escape: Option<u8>,
    pub(super) opcode: u8,
    pub(super) modrm: Option<u8>,
    pub(super) sib: Option<u8>,
    pub(super) displacement: SignedBytes,
    pub(super) immediate: SignedBytes,
}

impl SignedBytes {
    /// No bytes.
    pub(super) fn none() -> Self
        ensures bytes { named_bytes result ≡ [] }
        ensures count { result.count ≡ 0 }
    {
        SignedBytes { value: 0, count: 0 }
    }
}

/// The mode of a displacement behind a base register: none where it is 0, but for the field of RBP
/// and R13, which has one; else the shortest.
fn mode_for(field: u8, disp: i32) -> u8
    ensures value { result ≡ mode_for field disp }
    ensures fits { result < 3 }
{
    if disp == 0 && field != 5 {
        0
    } else if fits_byte(i64::from(disp)) {
        1
    } else {
        2
    }
}

/// The displacement of a mode.
fn displacement_for(mode: u8, disp: i32) -> SignedBytes
    ensures bytes { named_bytes result ≡ displacement_for mode disp }
    ensures count { result.count ≤ 4 }
{
    let count = match mode {
        0 => 0,
        1 => 1,
        _ => 4,
    };
    SignedBytes {
        value: i64::from(disp),
        count,
    }
}

/// The number of an index, 4 for none.
fn index_code(index: Option<(Reg, u8)>) -> u8
    ensures value { result ≡ index_code index }
    ensures fits { result < 16 }
{
    match index {
        Some((reg, _)) => number_of(reg),
        None => 4,
    }
}

/// The field of a scale.
fn scale_code(index: Option<(Reg, u8)>) -> u8
    ensures value { result ≡ scale_code index }
    ensures fits { result < 4 }
{
    match index {
        Some((_, scale)) => match scale {
            1 => 0,
            2 => 1,
            4 => 2,
            _ => 3,
        },
        None => 0,
    }
}

/// A SIB with a base field.
fn sib_with(low: u8, index: Option<(Reg, u8)>) -> u8
    requires { low < 8 }
    ensures { result ≡ sib_with low index }
{
    64 * scale_code(index) + 8 * (index_code(index) % 8) + low
}

impl RmFields {
    /// A register.
    fn register(reg: Reg) -> Self
        ensures fields { named_parts result ≡ register_parts reg }
        ensures fits { Small result }
    {
        let number = number_of(reg);
        RmFields {
            mode: 3,
            field: number % 8,
            x: 0,
            b: number / 8,
            sib: None,
            displacement: SignedBytes::none(),
        }
    }

    /// An address with a base register: without a SIB where it has no index, but for the field of
    /// RSP and R12.
    fn based(reg: Reg, index: Option<(Reg, u8)>, disp: i32) -> Self
        ensures fields { named_parts result ≡ based_parts reg index disp }
        ensures fits { Small result }
    {
        let number = number_of(reg);
        let low = number % 8;
        let mode = mode_for(low, disp);
        let displacement = displacement_for(mode, disp);
        if index.is_none() && low != 4 {
            RmFields {
                mode,
                field: low,
                x: 0,
                b: number / 8,
                sib: None,
                displacement,
            }
        } else {
            RmFields {
                mode,
                field: 4,
                x: index_code(index) / 8,
                b: number / 8,
                sib: Some(sib_with(low, index)),
                displacement,
            }
        }
    }

    /// An address: without a base, or with RIP, the displacement has four bytes.
    fn address(base: Base, index: Option<(Reg, u8)>, disp: i32) -> Self
        ensures fields { named_parts result ≡ address_parts base index disp }
        ensures fits { Small result }
    {
        let displacement = SignedBytes {
            value: i64::from(disp),
            count: 4,
        };
        match base {
            Base::Reg(reg) => RmFields::based(reg, index, disp),
            Base::Absent => RmFields {
                mode: 0,
                field: 4,
                x: index_code(index) / 8,
                b: 0,
                sib: Some(sib_with(5, index)),
                displacement,
            },
            Base::Rip => RmFields {
                mode: 0,
                field: 5,
                x: 0,
                b: 0,
                sib: None,
                displacement,
            },
        }
    }

    /// A register or an address.
    #[tactic(auto, unfolding(x64_insn::specs::Chosen::rm_parts))]
    fn of_operand(rm: Operand) -> Self
        ensures fields { named_parts result ≡ rm_parts rm }
        ensures fits { Small result }
    {
        match rm {
            Operand::Reg(reg) => RmFields::register(reg),
            Operand::Mem(mem) => RmFields::address(mem.base, mem.index, mem.disp),
            Operand::Imm(_) => RmFields::register(Reg::Rax),
        }
    }
}

/// The prefix 66 gives 16 bits.
fn operand_size_for(size: Size) -> Option<u8>
    ensures { result ≡ operand_size_for size }
{
    match size {
        Size::S16 => Some(0x66),
        Size::S8 | Size::S32 | Size::S64 => None,
    }
}

/// REX.W gives 64 bits.
fn w_for(size: Size) -> u8
    ensures value { result ≡ w_for size }
    ensures fits { result < 2 }
{
    match size {
        Size::S64 => 1,
        Size::S8 | Size::S16 | Size::S32 => 0,
    }
}

/// REX with the bits W, R, X and B, where one is set or a register needs it.
fn rex_with(w: u8, r: u8, x: u8, b: u8, needed: bool) -> Option<u8>
    requires w { w < 2 }
    requires r { r < 2 }
    requires x { x < 2 }
    requires b { b < 2 }
    ensures { result ≡ rex_with w r x b needed }
{
    let bits = 8 * w + 4 * r + 2 * x + b;
    if bits == 0 && !needed {
        None
    } else {
        Some(0x40 + bits)
    }
}

/// Whether a register of one byte needs a REX: SPL, BPL, SIL and DIL.
pub(super) fn needs_rex(size: Size, operand: Operand) -> bool
    ensures { result ≡ needs_rex size operand }
{
    match (size, operand) {
        (Size::S8, Operand::Reg(reg)) => (4..8).contains(&number_of(reg)),
        _ => false,
    }
}

impl ChosenFields {
    /// An opcode with a ModRM, whose reg field has this number.
    #[tactic(auto, unfolding(x64_insn::specs::Chosen::modrm_fields))]
    pub(super) fn with_modrm(
        size: Size,
        needed: bool,
        escape: Option<u8>,
        opcode: u8,
        number: u8,
        rm: Operand,
        immediate: SignedBytes,
    ) -> Self
        requires number { number < 16 }
        requires immediate { immediate.count ≤ 4 }
        ensures fields { named_fields result
            ≡ modrm_fields size needed escape opcode number rm (named_bytes immediate) }
        ensures fits { IsShort result }
    {
        let parts = RmFields::of_operand(rm);
        ChosenFields {
            operand_size: operand_size_for(size),
            rex: rex_with(w_for(size), number / 8, parts.x, parts.b, needed),
            escape,
            opcode,
            modrm: Some(64 * parts.mode + 8 * (number % 8) + parts.field),
            sib: parts.sib,
            displacement: parts.displacement,
            immediate,
        }
    }

    /// An operation with a register in the reg field.
    pub(super) fn with_register(size: Size, opcode: u8, reg: Reg, rm: Operand) -> Self
        ensures fields { named_fields result ≡ with_register size opcode reg rm }
        ensures fits { IsShort result }
    {
        let needed = needs_rex(size, Operand::Reg(reg)) || needs_rex(size, rm);
        let none = SignedBytes::none();
        ChosenFields::with_modrm(size, needed, None, opcode, number_of(reg), rm, none)
    }

    /// An operation with a number in the reg field.
    pub(super) fn with_number(
        size: Size,
        opcode: u8,
        number: u8,
        rm: Operand,
        immediate: SignedBytes,
    ) -> Self
        requires number { number < 8 }
        requires immediate { immediate.count ≤ 4 }
        ensures fields { named_fields result
            ≡ with_number size opcode number rm (named_bytes immediate) }
        ensures fits { IsShort result }
    {
        let needed = needs_rex(size, rm);
        ChosenFields::with_modrm(size, needed, None, opcode, number, rm, immediate)
    }

    /// An opcode alone.
    pub(super) fn opcode_alone(escape: Option<u8>, opcode: u8, immediate: SignedBytes) -> Self
        requires { immediate.count ≤ 8 }
        ensures fields { named_fields result ≡ opcode_alone escape opcode (named_bytes immediate) }
        ensures fits { IsShort result }
    {
        ChosenFields {
            operand_size: None,
            rex: None,
            escape,
            opcode,
            modrm: None,
            sib: None,
            displacement: SignedBytes::none(),
            immediate,
        }
    }

    /// An opcode with a register in its lowest three bits.
    pub(super) fn with_opcode_register(
        size: Size,
        escape: Option<u8>,
        opcode: u8,
        reg: Reg,
        immediate: SignedBytes,
    ) -> Self
        requires opcode { opcode < 248 }
        requires immediate { immediate.count ≤ 8 }
        ensures fields { named_fields result
            ≡ with_opcode_register size escape opcode reg (named_bytes immediate) }
        ensures fits { IsShort result }
    {
        let number = number_of(reg);
        ChosenFields {
            operand_size: None,
            rex: rex_with(w_for(size), 0, 0, number / 8, false),
            escape,
            opcode: opcode + number % 8,
            modrm: None,
            sib: None,
            displacement: SignedBytes::none(),
            immediate,
        }
    }

    /// The bytes of the fields.
    #[tactic(auto, unfolding(x64_insn::specs::Encoding::spelling_of))]
    pub(super) fn bytes(self) -> Code15
        requires { IsShort self }
        ensures { result ≡ spelling_of (named_fields self) }
    {
        let mut code = Code15::new();
        code.push_option(self.operand_size);
        code.push_option(self.rex);
        code.push_option(self.escape);
        code.push(self.opcode);
        code.push_option(self.modrm);
        code.push_option(self.sib);
        code.push_signed(self.displacement.value, self.displacement.count);
        code.push_signed(self.immediate.value, self.immediate.count);
        code
    }
}
