//! Numbers, places of a text and bytes, each appended to a text that is begun.

ghost use Rattle.std.specs.Prelude.{◌≡◌, ◌++◌, OnOk, decimal};
ghost use Rattle.std.specs.Fmt.{signed_decimal};
ghost use Rattle.hex.specs.Hex.{encode_lower};
ghost use Rattle.jz_text.specs.Texts.{span_text};

use itoa::Buffer;
use jz_io::Span;
use std::alloc::{AllocError, Global};

/// A number in decimal digits.
pub fn write_number(text: &mut Vec<u8>, number: u64) -> Result<(), AllocError>
    ensures { OnOk result (text.new.items ≡ text.old.items ++ decimal number) }
{
    let mut buffer = Buffer::new();
    text.extend_from_slice(buffer.format(number).as_bytes())
}

/// A number in decimal digits, behind a minus sign where it is below 0.
pub fn write_signed(text: &mut Vec<u8>, number: i64) -> Result<(), AllocError>
    ensures { OnOk result (text.new.items ≡ text.old.items ++ signed_decimal number) }
{
    let mut buffer = Buffer::new();
    text.extend_from_slice(buffer.format(number).as_bytes())
}

/// A line and a column.
#[tactic(auto, unfolding(crate::specs::Texts::span_text))]
pub fn write_span(text: &mut Vec<u8>, span: Span) -> Result<(), AllocError>
    ensures { OnOk result (text.new.items ≡ text.old.items ++ span_text span) }
{
    write_number(text, u64::from(span.line))?;
    text.extend_from_slice(b":")?;
    write_number(text, u64::from(span.col))
}

/// Bytes in hexadecimal digits, two for each byte, in lower case.
pub fn write_digits(alloc: Global, text: &mut Vec<u8>, bytes: &[u8]) -> Result<(), AllocError>
    ensures { OnOk result (text.new.items ≡ text.old.items ++ encode_lower bytes.now) }
{
    let digits = hex::encode(alloc, bytes)?;
    text.extend_from_slice(digits.as_str().as_bytes())
}
