//! Programs from numbers, to try a compiler with: straight code, small branches, a stack array and
//! a loop of two turns.
#![tactic(auto)]

ghost use Rattle.std.specs.Prelude.{◌≡◌, ◌<◌, ◌++◌, ◌^◌, IfOk, OnOk, codes, decimal};
ghost use Rattle.jz_gen.specs.Programs.{next_number, variable, cell, branch, statement_of, line, lines, head, tail, program};

use jz_io::Bytes;
use jz_text::write_number;
use std::alloc::{AllocError, Global};

mod laws;

pub use laws::programs_are_short;

/// What stands before the lines of the loop.
const HEAD: &[u8] = b"export fn main(reg u64 x1 x2 x3 c) -> reg u64 {
  reg u64 x0;
  stack u64[8] s;
  inline int m;
  x0 = 1;
  for m = 0 to 8 { s[m] = m; }
  c = 0;
  while (c < 2) {
";

/// What stands behind them.
const TAIL: &[u8] = b"    c += 1;
  }
  x0 ^= x1;
  x0 ^= x2;
  x0 ^= x3;
  return x0;
}
";

/// The number behind one that is below 2^32.
#[tactic(auto, unfolding(crate::specs::Programs::next_number))]
fn next(number: u64) -> u64
    requires { number < 2 ^ 32 }
    ensures { result ≡ next_number number }
{
    (number * 1_103_515_245 + 12_345) % 0x8000_0000
}

/// Appends a variable, `x0` to `x3`.
fn write_variable(text: &mut Vec<u8>, number: u64) -> Result<(), AllocError>
    ensures { OnOk result (text.new.items ≡ text.old.items ++ variable number) }
{
    text.push(b'x')?;
    write_number(text, number)
}

/// Appends a cell of the array.
fn write_cell(text: &mut Vec<u8>, number: u64) -> Result<(), AllocError>
    ensures { OnOk result (text.new.items ≡ text.old.items ++ cell number) }
{
    text.extend_from_slice(b"s[")?;
    write_number(text, number)?;
    text.push(b']')?;
    Ok(())
}

/// Appends a variable, an operator and a variable.
fn write_with_variable(
    text: &mut Vec<u8>,
    left: u64,
    operator: &[u8],
    right: u64,
) -> Result<(), AllocError>
    ensures { OnOk result (text.new.items
        ≡ text.old.items ++ variable left ++ operator.now ++ variable right ++ codes ";") }
{
    write_variable(text, left)?;
    text.extend_from_slice(operator)?;
    write_variable(text, right)?;
    text.push(b';')?;
    Ok(())
}

/// Appends a variable, an operator and a number.
fn write_with_number(
    text: &mut Vec<u8>,
    left: u64,
    operator: &[u8],
    number: u64,
) -> Result<(), AllocError>
    ensures { OnOk result (text.new.items
        ≡ text.old.items ++ variable left ++ operator.now ++ decimal number ++ codes ";") }
{
    write_variable(text, left)?;
    text.extend_from_slice(operator)?;
    write_number(text, number)?;
    text.push(b';')?;
    Ok(())
}

/// Appends what takes a cell from a variable.
fn write_from_cell(text: &mut Vec<u8>, left: u64, number: u64) -> Result<(), AllocError>
    ensures { OnOk result (text.new.items
        ≡ text.old.items ++ variable left ++ codes " -= " ++ cell number ++ codes ";") }
{
    write_variable(text, left)?;
    text.extend_from_slice(b" -= ")?;
    write_cell(text, number)?;
    text.push(b';')?;
    Ok(())
}

/// Appends what sets a cell to a variable.
fn write_to_cell(text: &mut Vec<u8>, number: u64, right: u64) -> Result<(), AllocError>
    ensures { OnOk result (text.new.items
        ≡ text.old.items ++ cell number ++ codes " = " ++ variable right ++ codes ";") }
{
    write_cell(text, number)?;
    text.extend_from_slice(b" = ")?;
    write_variable(text, right)?;
    text.push(b';')?;
    Ok(())
}

/// Appends what takes 1 from a variable where it is below another one.
fn write_branch(text: &mut Vec<u8>, left: u64, right: u64) -> Result<(), AllocError>
    ensures { OnOk result (text.new.items ≡ text.old.items
        ++ branch (variable left) (variable right)) }
{
    text.extend_from_slice(b"if (")?;
    write_variable(text, left)?;
    text.extend_from_slice(b" < ")?;
    write_variable(text, right)?;
    text.extend_from_slice(b") { ")?;
    write_variable(text, left)?;
    text.extend_from_slice(b" -= 1; }")
}

/// Appends the statement of a number.
fn write_statement(text: &mut Vec<u8>, number: u64) -> Result<(), AllocError>
    ensures { OnOk result (text.new.items ≡ text.old.items ++ statement_of number) }
{
    let bits = number / 0x1_0000;
    let left = bits / 8 % 4;
    let right = bits / 32 % 4;
    let last = bits / 128 % 8;
    match bits % 8 {
        0 => write_with_variable(text, left, b" += ", right),
        1 => write_from_cell(text, left, last),
        2 => write_with_variable(text, left, b" ^= ", right),
        3 => write_to_cell(text, last, left),
        4 => write_with_variable(text, left, b" *= ", right),
        5 => write_with_number(text, left, b" <<r= ", last + 1),
        6 => write_with_number(text, left, b" += ", last + 1),
        _ => write_branch(text, left, right),
    }
}

/// Appends a line with the statement of a number.
#[tactic(auto, unfolding(crate::specs::Programs::line))]
fn write_line(text: &mut Vec<u8>, number: u64) -> Result<(), AllocError>
    ensures { OnOk result (text.new.items ≡ text.old.items ++ line number) }
{
    text.extend_from_slice(b"    ")?;
    write_statement(text, number)?;
    text.push(b'\n')?;
    Ok(())
}

/// Appends so many lines.
fn write_lines(text: &mut Vec<u8>, seed: u32, size: u32) -> Result<(), AllocError>
    ensures { OnOk result (text.new.items ≡ text.old.items ++ lines seed size) }
{
    let mut number = u64::from(seed);
    for _ in 0..size {
        number = next(number);
        write_line(text, number)?;
    }
    Ok(())
}

/// The text of a program of one function `main`, with so many statements in its loop: the same of
/// the same seed. It takes numbers x1 to x3 and one more, and gives back one.
pub fn generate(alloc: Global, seed: u32, size: u32) -> Result<Bytes, AllocError>
    ensures { IfOk result (λ text. text ≡ program seed size) }
{
    let mut text = Vec::from_slice(alloc, HEAD)?;
    write_lines(&mut text, seed, size)?;
    text.extend_from_slice(TAIL)?;
    Ok(Bytes::from_vec(text))
}
