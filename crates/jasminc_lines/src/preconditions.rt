//! What a precondition asks, and the bytes of a region, each appended to a text that is begun.

ghost use Rattle.std.specs.Prelude.{◌≡◌, ◌++◌, OnOk};
ghost use Rattle.jasminc_lines.specs.Preconditions.{extent_text, pre_text, bytes_or_dash};
ghost use Rattle.jasminc_lines.specs.Preconditions.{region_line};

use jz_annotations::Pre;
use jz_data::Text;
use jz_text::{write_digits, write_number};
use std::alloc::{AllocError, Global};

fn write_extent(
    text: &mut Vec<u8>,
    factor: u64,
    variable: &Option<Text>,
    constant: u64,
) -> Result<(), AllocError>
    ensures { OnOk result (text.new.items ≡ text.old.items
        ++ extent_text factor variable.now constant) }
{
    if let Some(variable) = variable {
        write_number(text, factor)?;
        text.extend_from_slice(b"*")?;
        text.extend_from_slice(variable.as_str().as_bytes())?;
        text.extend_from_slice(b"+")?;
    }
    write_number(text, constant)
}

/// A precondition, as `region p 8*len+0`, `range y 1..9` or `align p 8`.
pub fn write_pre(text: &mut Vec<u8>, pre: &Pre) -> Result<(), AllocError>
    ensures { OnOk result (text.new.items ≡ text.old.items ++ pre_text pre.now) }
{
    match pre {
        Pre::Region {
            pointer,
            factor,
            variable,
            constant,
        } => {
            text.extend_from_slice(b"region ")?;
            text.extend_from_slice(pointer.as_str().as_bytes())?;
            text.extend_from_slice(b" ")?;
            write_extent(text, *factor, variable, *constant)
        }
        Pre::Range { name, low, high } => {
            text.extend_from_slice(b"range ")?;
            text.extend_from_slice(name.as_str().as_bytes())?;
            text.extend_from_slice(b" ")?;
            write_number(text, *low)?;
            text.extend_from_slice(b"..")?;
            write_number(text, *high)
        }
        Pre::Align { pointer, multiple } => {
            text.extend_from_slice(b"align ")?;
            text.extend_from_slice(pointer.as_str().as_bytes())?;
            text.extend_from_slice(b" ")?;
            write_number(text, *multiple)
        }
    }
}

fn write_bytes(alloc: Global, text: &mut Vec<u8>, bytes: &[u8]) -> Result<(), AllocError>
    ensures { OnOk result (text.new.items ≡ text.old.items ++ bytes_or_dash bytes.now) }
{
    if bytes.is_empty() {
        text.extend_from_slice(b"-")
    } else {
        write_digits(alloc, text, bytes)
    }
}

/// A region: the name of its pointer, and its bytes.
pub fn write_region(
    alloc: Global,
    text: &mut Vec<u8>,
    name: &str,
    bytes: &[u8],
) -> Result<(), AllocError>
    ensures { OnOk result (text.new.items ≡ text.old.items ++ region_line name.now bytes.now) }
{
    text.extend_from_slice(b"region ")?;
    text.extend_from_slice(name.as_bytes())?;
    text.extend_from_slice(b" ")?;
    write_bytes(alloc, text, bytes)?;
    text.extend_from_slice(b"\n")
}
