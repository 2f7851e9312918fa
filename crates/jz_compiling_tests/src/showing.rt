//! What a run came to, as text: the results, and behind ` ; ` the bytes of the memory that are not
//! as they were.

use crate::runs::{DATA, LENGTH, byte_at};
use jz_leak::MemMap;
use jz_tree::Seq;
use jz_words::Word;
use std::alloc::AllocError;

/// Results, each with a blank before.
pub fn results(words: &Seq<Word>, out: &mut String) -> Result<(), AllocError> {
    for word in words.as_slice() {
        write!(out, " {}", word.bits())?;
    }
    Ok(())
}

/// The bytes that a run has changed, each as its place in the 64 bytes and its value.
pub fn changed(memory: &MemMap, out: &mut String) -> Result<(), AllocError> {
    out.push_str(" ;")?;
    for place in 0..LENGTH {
        let now = memory.get(DATA + place).unwrap_or(0);
        if now != byte_at(place) {
            write!(out, " {place}={now}")?;
        }
    }
    Ok(())
}
