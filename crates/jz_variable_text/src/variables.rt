//! Variables and cells of register arrays.

ghost use Rattle.std.specs.Prelude.{◌≡◌, ◌++◌, OnOk, decimal, string_bytes};
ghost use Rattle.jz_variable_text.specs.Variables.{variable_text};

use itoa::Buffer;
use jz_data::Text;
use jz_text::write_number;
use std::alloc::AllocError;

/// A variable, or the scalar that was this cell of a register array, behind a line that is begun.
pub fn write_variable(line: &mut Vec<u8>, name: &Text, cell: Option<u32>) -> Result<(), AllocError>
    ensures { OnOk result (line.new.items ≡ line.old.items ++ variable_text name.now cell) }
{
    line.extend_from_slice(name.as_str().as_bytes())?;
    match cell {
        None => Ok(()),
        Some(cell) => {
            line.extend_from_slice(b"[")?;
            write_number(line, u64::from(cell))?;
            line.extend_from_slice(b"]")
        }
    }
}

fn push_number(text: &mut String, number: u32) -> Result<(), AllocError>
    ensures { OnOk result (string_bytes text.new ≡ string_bytes text.old ++ decimal number) }
{
    let mut buffer = Buffer::new();
    text.push_str(buffer.format(number))
}

/// The same behind a string.
pub fn push_variable(text: &mut String, name: &Text, cell: Option<u32>) -> Result<(), AllocError>
    ensures { OnOk result
        (string_bytes text.new ≡ string_bytes text.old ++ variable_text name.now cell) }
{
    text.push_str(name.as_str())?;
    match cell {
        None => Ok(()),
        Some(cell) => {
            text.push_str("[")?;
            push_number(text, cell)?;
            text.push_str("]")
        }
    }
}
