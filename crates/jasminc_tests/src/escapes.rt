//! Texts of many lines in one line.

use std::alloc::{AllocError, Global};

/// The byte that a letter or `x` with two digits stands for behind a backslash, and what follows.
fn escaped(piece: &[u8]) -> Option<(u8, &[u8])> {
    match piece {
        [b'n', rest @ ..] => Some((b'\n', rest)),
        [b'x', high, low, rest @ ..] => {
            let high = char::from(*high).to_digit(16)?;
            let low = char::from(*low).to_digit(16)?;
            let byte = high.wrapping_mul(16).wrapping_add(low) % 256;
            Some((byte as u8, rest))
        }
        _ => None,
    }
}

/// Adds what a piece behind a backslash stands for; one that stands for nothing keeps its backslash.
fn push_piece(out: &mut Vec<u8>, piece: &[u8]) -> Result<(), AllocError> {
    let (byte, rest) = escaped(piece).unwrap_or((b'\\', piece));
    out.push(byte)?;
    out.extend_from_slice(rest)
}

/// The bytes that a text in one line stands for.
pub fn bytes_of(alloc: Global, written: &str) -> Result<Vec<u8>, AllocError> {
    let mut out = Vec::new(alloc);
    for (i, piece) in written.split("\\").enumerate() {
        if i == 0 {
            out.extend_from_slice(piece.as_bytes())?;
        } else {
            push_piece(&mut out, piece.as_bytes())?;
        }
    }
    Ok(out)
}

/// Adds what is written in one line.
pub fn push_written(out: &mut String, written: &[u8]) -> Result<(), AllocError> {
    let Ok(text) = str::from_utf8(written) else {
        return out.push_str("no text");
    };
    for (i, line) in text.split("\n").enumerate() {
        if i > 0 {
            out.push_str("\\n")?;
        }
        out.push_str(line)?;
    }
    Ok(())
}
