//! The disassembly of a text: of a listing's functions, or of hexadecimal text.
#![tactic(auto)]

ghost use Rattle.std.specs.Prelude.{◌≡◌, ◌<◌, ◌++◌, ◌^◌, All, IfOk, IfErr, OnOk, length};
ghost use Rattle.jz_data.specs.Failures.{IfAnswered, IfRefused};
ghost use Rattle.jz_disasm.specs.Disassembly.{IsDisassembly, IsGap};
ghost use Rattle.jz_disasm_text.specs.Shown.{AreShown, HasFirstGap, IsForHex, IsForListing};
ghost use Rattle.jz_disasm_text.specs.Shown.{IsShort, Shows, shown_text};

mod laws;

use jz_data::Failure;
pub use jz_disasm::{Gap, GapKind};
use jz_disasm::{bytes_of_hex, disasm};
use jz_io::Bytes;
use jz_listing::Compiled;
use jz_listing_read::read_listing;
pub use laws::one_answer;
use std::alloc::{AllocError, Global};

/// Why a text has no disassembly.
#[derive(Clone, Copy, PartialEq, Eq, Drop)]
pub enum Fault {
    /// The first line, from 1, that no listing has.
    BadListing(usize),
    /// Where a text is no hexadecimal text.
    BadHex(usize),
    /// Where no instruction stands: an offset in the code, of a listing in its function's.
    Undecodable(Gap),
}

/// A line with a function's name, and the lines of its code.
fn write_shown(text: &mut Vec<u8>, name: &str, lines: &[u8]) -> Result<(), AllocError>
    ensures { OnOk result (text.new.items ≡ text.old.items ++ shown_text name.now lines.now) }
{
    text.extend_from_slice(b"fn ")?;
    text.extend_from_slice(name.as_bytes())?;
    text.extend_from_slice(b"\n")?;
    text.extend_from_slice(lines)
}

/// The functions in order, each with its name and the lines of its code; or the first place without
/// an instruction.
#[tactic(auto, using(crate::proofs::Functions::none_shown, crate::proofs::Functions::one_shown, crate::proofs::Functions::all_shown, crate::proofs::Functions::gap_there))]
fn show_functions(alloc: Global, funs: &[Compiled]) -> Result<Bytes, Failure<Gap>>
    requires { All IsShort funs.now }
    ensures shown { IfOk result (AreShown funs.now) }
    ensures gap { IfErr result (λ failure. IfRefused failure (HasFirstGap funs.now)) }
{
    let mut text = Vec::new(alloc);
    for fun in funs {
        let lines = disasm(alloc, fun.code.as_slice())?;
        write_shown(&mut text, fun.name.as_str(), lines.as_slice())?;
    }
    Ok(Bytes::from_vec(text))
}

/// The disassembly of a listing's functions.
#[tactic(auto, using(crate::proofs::Sizes::listing_short))]
fn of_listing(alloc: Global, text: &[u8]) -> Result<Bytes, Failure<Fault>>
    requires listing { IsForListing text.now }
    requires short { length text.now < 2 ^ 32 }
    ensures { IfAnswered result (Shows text.now) }
{
    let funs = match read_listing(alloc, text) {
        Ok(funs) => funs,
        Err(Failure::Refused(line)) => return Err(Failure::Refused(Fault::BadListing(line))),
        Err(Failure::OutOfMemory) => return Err(Failure::OutOfMemory),
    };
    match show_functions(alloc, funs.as_slice()) {
        Ok(lines) => Ok(lines),
        Err(Failure::Refused(gap)) => Err(Failure::Refused(Fault::Undecodable(gap))),
        Err(Failure::OutOfMemory) => Err(Failure::OutOfMemory),
    }
}

/// The disassembly of hexadecimal text.
#[tactic(auto, using(crate::proofs::Sizes::hex_short))]
fn of_hex(alloc: Global, text: &[u8]) -> Result<Bytes, Failure<Fault>>
    requires hex { IsForHex text.now }
    requires short { length text.now < 2 ^ 32 }
    ensures { IfAnswered result (Shows text.now) }
{
    let code = match bytes_of_hex(alloc, text) {
        Ok(code) => code,
        Err(Failure::Refused(offset)) => return Err(Failure::Refused(Fault::BadHex(offset))),
        Err(Failure::OutOfMemory) => return Err(Failure::OutOfMemory),
    };
    match disasm(alloc, code.as_slice()) {
        Ok(lines) => Ok(lines),
        Err(Failure::Refused(gap)) => Err(Failure::Refused(Fault::Undecodable(gap))),
        Err(Failure::OutOfMemory) => Err(Failure::OutOfMemory),
    }
}

/// The disassembly of a text that begins as a listing does, a line with its name before those of
/// each function; or of any other as hexadecimal text. The reading refuses before the decoder.
pub fn disasm_text(alloc: Global, text: &[u8]) -> Result<Bytes, Failure<Fault>>
    requires { length text.now < 2 ^ 32 }
    ensures { IfAnswered result (Shows text.now) }
{
    if text.starts_with(b"jasmin-listing") {
        of_listing(alloc, text)
    } else {
        of_hex(alloc, text)
    }
}
