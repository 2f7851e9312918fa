//! Operations on words.

ghost use Rattle.std.specs.Prelude.{◌≡◌, ◌<◌};

use crate::numbers::hexadecimal;
use std::alloc::{AllocError, Global};
use x64_insn::{
    Size, Word, add_carry, and, has_bit, mul_signed, mul_wide, or, parity, residue, rol, ror, sar,
    shl, shr, sub_borrow, swap_bytes, xor,
};

fn size(text: &str) -> Size {
    match text {
        "8" => Size::S8,
        "16" => Size::S16,
        "32" => Size::S32,
        _ => Size::S64,
    }
}

/// Three numbers of a question; 0 for those that it has not.
fn numbers(text: &str) -> [u64; 3] {
    let mut numbers = [0; 3];
    for (place, word) in text.split_whitespace().enumerate() {
        if place < 3 {
            numbers[place] = hexadecimal(word);
        }
    }
    numbers
}

fn of_two(kind: &str, a: Word, b: Word) -> Option<Word>
    requires { a.size ≡ b.size }
{
    match kind {
        "and" => Some(and(a, b)),
        "or" => Some(or(a, b)),
        "xor" => Some(xor(a, b)),
        "swap_bytes" => Some(swap_bytes(a)),
        "truncate" => Some(a),
        _ => None,
    }
}

fn shifted(kind: &str, a: Word, count: u32) -> Option<Word>
    requires { count < 64 }
{
    match kind {
        "shl" => Some(shl(a, count)),
        "shr" => Some(shr(a, count)),
        "sar" => Some(sar(a, count)),
        "rol" => Some(rol(a, count)),
        "ror" => Some(ror(a, count)),
        _ => None,
    }
}

fn carried(kind: &str, a: Word, b: Word, carry: bool) -> Option<(Word, bool)>
    requires { a.size ≡ b.size }
{
    match kind {
        "add_carry" => Some(add_carry(a, b, carry)),
        "sub_borrow" => Some(sub_borrow(a, b, carry)),
        _ => None,
    }
}

fn is_set(kind: &str, a: Word, bit: u32) -> Option<bool>
    requires { bit < 64 }
{
    match kind {
        "has_bit" => Some(has_bit(a, bit)),
        "parity" => Some(parity(a)),
        _ => None,
    }
}

fn write_product(text: &mut String, kind: &str, a: Word, b: Word) -> Result<(), AllocError>
    requires { a.size ≡ b.size }
{
    match kind {
        "mul_wide" => {
            let product = mul_wide(a, b);
            write!(text, " {product:x}")
        }
        "mul_signed" => {
            let product = mul_signed(a, b);
            write!(text, " {product}")
        }
        _ => Ok(()),
    }
}

/// Bits, bytes, and one more than the highest word.
fn write_size(text: &mut String, size: Size) -> Result<(), AllocError> {
    let bits = size.bits();
    let bytes = size.bytes();
    let modulus = size.modulus();
    write!(text, " {bits} {bytes} {modulus:x}")
}

fn write_word(text: &mut String, word: Word) -> Result<(), AllocError> {
    let bits = word.bits();
    write!(text, " {bits:x}")
}

fn write_sized(text: &mut String, word: Word) -> Result<(), AllocError> {
    let bits = word.bits();
    let size = word.size().bits();
    write!(text, " {bits:x} of {size}")
}

fn write_residue(text: &mut String, size: Size, number: &str) -> Result<(), AllocError> {
    match number.parse::<i128>() {
        Ok(number) => write_sized(text, residue(size, number)),
        Err(_) => Ok(()),
    }
}

/// The operations on a word, or on two words of one size.
fn write_operation(
    text: &mut String,
    kind: &str,
    size: Size,
    numbers: [u64; 3],
) -> Result<(), AllocError> {
    let [first, second, third] = numbers;
    let a = Word::truncate(size, first);
    let b = Word::truncate(size, second);
    let count = (second % 64) as u32;
    if let Some(word) = shifted(kind, a, count) {
        return write_word(text, word);
    }
    if let Some(word) = of_two(kind, a, b) {
        return write_word(text, word);
    }
    if let Some(set) = is_set(kind, a, count) {
        return write!(text, " {set}");
    }
    if let Some((word, carry)) = carried(kind, a, b, third == 1) {
        let bits = word.bits();
        return write!(text, " {bits:x} {carry}");
    }
    write_product(text, kind, a, b)
}

fn write_answer(text: &mut String, kind: &str, size: Size, rest: &str) -> Result<(), AllocError> {
    match kind {
        "size" => write_size(text, size),
        "residue" => write_residue(text, size, rest),
        _ => write_operation(text, kind, size, numbers(rest)),
    }
}

/// The answer to an operation, as `add_carry 8 ff 0 1`; nothing for another word.
pub fn answer(alloc: Global, kind: &str, question: &str) -> Result<String, AllocError> {
    let (bits, rest) = question.split_once(' ').unwrap_or((question, ""));
    let mut text = String::new(alloc);
    write_answer(&mut text, kind, size(bits), rest)?;
    Ok(text)
}
