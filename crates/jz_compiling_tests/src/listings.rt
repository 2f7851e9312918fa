//! Lines of listings, with a bar between.

use jz_code::NoCode;
use jz_compiling::NotCompiled;
use jz_listing::{Compiled, listing};
use std::alloc::{AllocError, Global};

/// Why a function was not compiled.
pub fn why(refusal: NotCompiled, out: &mut String) -> Result<(), AllocError> {
    match refusal {
        NotCompiled::Code(NoCode::Frame) => out.push_str("frame"),
        NotCompiled::Code(NoCode::Place(_)) => out.push_str("place"),
        NotCompiled::At(span) => write!(out, "{}:{}", span.line, span.col),
    }
}

/// The lines of the listing.
pub fn in_one_line(alloc: Global, compiled: Compiled, out: &mut String) -> Result<(), AllocError> {
    let bytes = listing(alloc, &[compiled])?;
    let text = str::from_utf8(bytes.as_slice()).unwrap_or("no text");
    for line in text.lines() {
        if !out.is_empty() {
            out.push('|')?;
        }
        out.push_str(line)?;
    }
    Ok(())
}

/// The wanted lines, where all of them are in the listing; else the whole listing.
pub fn pieces(
    alloc: Global,
    compiled: Compiled,
    wanted: &str,
    out: &mut String,
) -> Result<(), AllocError> {
    let mut all = String::new(alloc);
    in_one_line(alloc, compiled, &mut all)?;
    for piece in wanted.split("|") {
        if !all.contains(piece) {
            return out.push_str(all.as_str());
        }
    }
    out.push_str(wanted)
}
