//! Bytes from hexadecimal text.

ghost use Rattle.std.specs.Prelude.{◌≡◌, ◌<◌, ◌^◌, IfOk, IfErr};
ghost use Rattle.hex.specs.Hex.{is_hex_digit};
ghost use Rattle.jz_data.specs.Failures.{IfAnswered, IfRefused};
ghost use Rattle.jz_disasm.specs.Hexadecimal.{IsFirstOther, ReadsHex, is_blank};
ghost use Rattle.jz_disasm.specs.InnerDigits.{AreDigits, Took, after_byte};

use jz_data::Failure;
use jz_io::Bytes;
use std::alloc::Global;

/// The digits of a text, and the offset behind the last of them.
#[derive(Drop)]
struct Digits {
    digits: Bytes,
    end: usize,
}

/// A digit in either case.
fn is_digit(byte: u8) -> bool
    ensures { result ≡ is_hex_digit byte }
{
    matches!(byte, b'0'..=b'9' | b'A'..=b'F' | b'a'..=b'f')
}

/// A tab, a line end or a space.
fn is_blank(byte: u8) -> bool
    ensures { result ≡ is_blank byte }
{
    matches!(byte, b'\t' | b'\n' | b'\r' | b' ')
}

/// The digits with one byte more, which stands at an offset; or that offset, where it is no digit
/// and no blank.
#[tactic(auto, unfolding(crate::specs::InnerDigits::after_byte))]
fn with_byte(digits: Digits, offset: usize, byte: u8) -> Result<Digits, Failure<usize>>
    requires { offset < 2 ^ 63 }
    ensures { Took result offset (after_byte digits.digits digits.end offset byte) }
{
    let Digits { mut digits, end } = digits;
    if is_digit(byte) {
        digits.push(byte)?;
        return Ok(Digits {
            digits,
            end: offset + 1,
        });
    }
    if is_blank(byte) {
        return Ok(Digits { digits, end });
    }
    Err(Failure::Refused(offset))
}

/// The digits, or the offset of the first byte that is no digit and no blank.
#[tactic(auto, using(crate::proofs::Digits::byte_more, crate::proofs::Digits::byte_other, crate::proofs::Digits::no_bytes))]
fn digits_of(alloc: Global, text: &[u8]) -> Result<Digits, Failure<usize>>
    ensures digits { IfOk result (λ d. AreDigits text.now d.digits d.end) }
    ensures other { IfErr result (λ failure. IfRefused failure (IsFirstOther text.now)) }
{
    let mut digits = Digits {
        digits: Bytes::new(alloc),
        end: 0,
    };
    for (i, byte) in text.iter().enumerate() {
        digits = with_byte(digits, i, *byte)?;
    }
    Ok(digits)
}

/// The bytes of hexadecimal text, in which tabs, line ends and spaces may stand everywhere; or the
/// offset of the first other byte, else the offset behind the last digit of an odd number.
#[tactic(auto, using(crate::proofs::Digits::bytes_here, crate::proofs::Digits::odd_here))]
pub fn bytes_of_hex(alloc: Global, text: &[u8]) -> Result<Bytes, Failure<usize>>
    ensures { IfAnswered result (ReadsHex text.now) }
{
    let Digits { digits, end } = digits_of(alloc, text)?;
    if digits.len() % 2 == 1 {
        return Err(Failure::Refused(end));
    }
    match hex::decode(alloc, digits.as_slice()) {
        Ok(bytes) => Ok(Bytes::from_vec(bytes)),
        // Digits of whole bytes are refused for want of memory alone.
        Err(_) => Err(Failure::OutOfMemory),
    }
}
