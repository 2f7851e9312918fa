//! Numbers and bytes in the text of a row.

use std::alloc::{AllocError, Global};

/// A number in hexadecimal; 0 for any other text.
pub fn hexadecimal(text: &str) -> u64 {
    match u64::from_str_radix(text, 16) {
        Ok(number) => number,
        Err(_) => 0,
    }
}

/// Bytes in hexadecimal with blanks between them.
pub fn bytes(alloc: Global, text: &str) -> Result<Vec<u8>, AllocError> {
    let mut found = Vec::new(alloc);
    for byte in text.split_whitespace() {
        found.push((hexadecimal(byte) % 256) as u8)?;
    }
    Ok(found)
}
