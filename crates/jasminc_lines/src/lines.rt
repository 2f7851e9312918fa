//! Lines of runs, each appended to a text that is begun.

ghost use Rattle.std.specs.Prelude.{◌≡◌, ◌++◌, OnOk};
ghost use Rattle.jasminc_lines.specs.Lines.{hexadecimal, quadword_text, word_text};
ghost use Rattle.jasminc_lines.specs.Lines.{result_text, cut_line};

use jz_text::{write_digits, write_number};
use jz_words::Size;
use std::alloc::{AllocError, Global};

/// Bytes in hexadecimal digits, the highest of a number first.
fn write_hexadecimal(alloc: Global, text: &mut Vec<u8>, bytes: &[u8]) -> Result<(), AllocError>
    ensures { OnOk result (text.new.items ≡ text.old.items ++ hexadecimal bytes.now) }
{
    text.extend_from_slice(b"0x")?;
    write_digits(alloc, text, bytes)
}

/// A number of 64 bits.
pub fn write_quadword(alloc: Global, text: &mut Vec<u8>, number: u64) -> Result<(), AllocError>
    ensures { OnOk result (text.new.items ≡ text.old.items ++ quadword_text number) }
{
    write_hexadecimal(alloc, text, &number.to_be_bytes())
}

/// The low bits of a number, as many as the size has.
fn write_word(alloc: Global, text: &mut Vec<u8>, size: Size, number: u64) -> Result<(), AllocError>
    ensures { OnOk result (text.new.items ≡ text.old.items ++ word_text size number) }
{
    let bytes = number.to_be_bytes();
    write_hexadecimal(alloc, text, &bytes[8 - size.bytes() as usize..])
}

/// A result: its name, and the low bits of a number as its word.
pub fn write_result(
    alloc: Global,
    text: &mut Vec<u8>,
    name: &str,
    size: Size,
    number: u64,
) -> Result<(), AllocError>
    ensures { OnOk result (text.new.items
        ≡ text.old.items ++ result_text name.now size number) }
{
    text.extend_from_slice(b"result ")?;
    text.extend_from_slice(name.as_bytes())?;
    text.extend_from_slice(b" ")?;
    write_word(alloc, text, size, number)?;
    text.extend_from_slice(b"\n")
}

/// That a run was cut, and after how many steps or turns.
pub fn write_cut(text: &mut Vec<u8>, fuel: u64) -> Result<(), AllocError>
    ensures { OnOk result (text.new.items ≡ text.old.items ++ cut_line fuel) }
{
    text.extend_from_slice(b"cut ")?;
    write_number(text, fuel)?;
    text.extend_from_slice(b"\n")
}
