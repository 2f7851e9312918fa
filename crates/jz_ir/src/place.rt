//! The order of places.

ghost use Rattle.std.specs.Prelude.{◌≡◌, ◌<◌, ◌≤◌};
ghost use Rattle.jz_ir.specs.Order.{number_of};

use x64_insn::{Flag, Place, Reg};

/// The number of a place: the registers but RSP are 0 .. 14, the flags 15 .. 19. RSP, where no
/// variable is, is 20.
pub fn place_number(place: Place) -> u8
    ensures value { result ≡ number_of place }
    ensures fits { result ≤ 20 }
{
    match place {
        Place::Reg(Reg::Rax) => 0,
        Place::Reg(Reg::Rcx) => 1,
        Place::Reg(Reg::Rdx) => 2,
        Place::Reg(Reg::Rbx) => 3,
        Place::Reg(Reg::Rbp) => 4,
        Place::Reg(Reg::Rsi) => 5,
        Place::Reg(Reg::Rdi) => 6,
        Place::Reg(Reg::R8) => 7,
        Place::Reg(Reg::R9) => 8,
        Place::Reg(Reg::R10) => 9,
        Place::Reg(Reg::R11) => 10,
        Place::Reg(Reg::R12) => 11,
        Place::Reg(Reg::R13) => 12,
        Place::Reg(Reg::R14) => 13,
        Place::Reg(Reg::R15) => 14,
        Place::Flag(Flag::Cf) => 15,
        Place::Flag(Flag::Of) => 16,
        Place::Flag(Flag::Sf) => 17,
        Place::Flag(Flag::Pf) => 18,
        Place::Flag(Flag::Zf) => 19,
        Place::Reg(Reg::Rsp) => 20,
    }
}

/// The place of a number.
pub fn place_of(number: u8) -> Place
    requires { number < 20 }
    ensures { number_of result ≡ number }
{
    match number {
        0 => Place::Reg(Reg::Rax),
        1 => Place::Reg(Reg::Rcx),
        2 => Place::Reg(Reg::Rdx),
        3 => Place::Reg(Reg::Rbx),
        4 => Place::Reg(Reg::Rbp),
        5 => Place::Reg(Reg::Rsi),
        6 => Place::Reg(Reg::Rdi),
        7 => Place::Reg(Reg::R8),
        8 => Place::Reg(Reg::R9),
        9 => Place::Reg(Reg::R10),
        10 => Place::Reg(Reg::R11),
        11 => Place::Reg(Reg::R12),
        12 => Place::Reg(Reg::R13),
        13 => Place::Reg(Reg::R14),
        14 => Place::Reg(Reg::R15),
        15 => Place::Flag(Flag::Cf),
        16 => Place::Flag(Flag::Of),
        17 => Place::Flag(Flag::Sf),
        18 => Place::Flag(Flag::Pf),
        _ => Place::Flag(Flag::Zf),
    }
}
