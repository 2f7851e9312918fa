//! Names of places and variables.

use jz_data::Seq;
use jz_ir::place_number;
use std::alloc::{AllocError, Global};
use x64_insn::{Flag, Place, Reg};

pub const PLACES: [(&str, Place); 20] = [
    ("rax", Place::Reg(Reg::Rax)),
    ("rcx", Place::Reg(Reg::Rcx)),
    ("rdx", Place::Reg(Reg::Rdx)),
    ("rbx", Place::Reg(Reg::Rbx)),
    ("rbp", Place::Reg(Reg::Rbp)),
    ("rsi", Place::Reg(Reg::Rsi)),
    ("rdi", Place::Reg(Reg::Rdi)),
    ("r8", Place::Reg(Reg::R8)),
    ("r9", Place::Reg(Reg::R9)),
    ("r10", Place::Reg(Reg::R10)),
    ("r11", Place::Reg(Reg::R11)),
    ("r12", Place::Reg(Reg::R12)),
    ("r13", Place::Reg(Reg::R13)),
    ("r14", Place::Reg(Reg::R14)),
    ("r15", Place::Reg(Reg::R15)),
    ("cf", Place::Flag(Flag::Cf)),
    ("of", Place::Flag(Flag::Of)),
    ("sf", Place::Flag(Flag::Sf)),
    ("pf", Place::Flag(Flag::Pf)),
    ("zf", Place::Flag(Flag::Zf)),
];

/// The place of this name; RSP, where no variable is, for any other.
pub fn place_named(name: &str) -> Place {
    for (known, place) in PLACES {
        if known == name {
            return place;
        }
    }
    Place::Reg(Reg::Rsp)
}

pub fn reg_named(name: &str) -> Reg {
    match place_named(name) {
        Place::Reg(reg) => reg,
        Place::Flag(_) => Reg::Rsp,
    }
}

pub fn name_of(place: Place) -> &'static str {
    for (name, known) in PLACES {
        if place_number(known) == place_number(place) {
            return name;
        }
    }
    "rsp"
}

/// The number of the variable with this letter; past all of them for any other.
pub fn number_of(letters: &[u8], letter: u8) -> u32 {
    let mut number: u32 = 0;
    for known in letters {
        if *known == letter {
            return number;
        }
        number = number.saturating_add(1);
    }
    u32::MAX
}

pub fn numbers_of(alloc: Global, letters: &[u8], text: &str) -> Result<Seq<u32>, AllocError> {
    let mut numbers = Seq::new(alloc);
    for letter in text.as_bytes() {
        numbers.push(number_of(letters, *letter))?;
    }
    Ok(numbers)
}

pub fn letter_of(letters: &[u8], number: u32) -> char {
    match letters.get(number as usize) {
        Some(letter) => char::from(*letter),
        None => '?',
    }
}
