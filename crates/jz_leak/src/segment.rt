//! Bytes at consecutive addresses.

ghost use Rattle.std.specs.Prelude.{◌≡◌, ◌+◌, ◌-◌, ◌<◌, ◌≤◌, ℕ, [], Some, IfOk, IfSome, IfNone, is_some, length, slice_get, slice_set};
ghost use Rattle.jz_leak.specs.MemoryMap.{byte_from};
ghost use Rattle.jz_leak.specs.InnerSegments.{byte_of, read_at, index_of, with_byte};

use jz_data::Seq;
use std::alloc::{AllocError, Global};

/// Bytes from an address on.
#[derive(Drop)]
pub struct Segment {
    pub start: u64,
    pub bytes: Seq<u8>,
}

/// The same segments.
pub fn copied(alloc: Global, segments: &[Segment]) -> Result<Vec<Segment>, AllocError>
    ensures { IfOk result (λ copies. copies.items ≡ segments.now) }
{
    let mut copies = Vec::new(alloc);
    for segment in segments {
        let bytes = Seq::from_slice(alloc, segment.bytes.as_slice())?;
        copies.push(Segment {
            start: segment.start,
            bytes,
        })?;
    }
    Ok(copies)
}

/// The byte at an address.
fn byte_at(segment: &Segment, addr: u64) -> Option<u8>
    ensures { result ≡ byte_of segment.now addr }
{
    if addr < segment.start {
        return None;
    }
    segment
        .bytes
        .as_slice()
        .get((addr - segment.start) as usize)
        .copied()
}

/// The byte of the first segment that has the address.
pub fn read_at(segments: &[Segment], addr: u64) -> Option<u8>
    ensures { result ≡ read_at segments.now addr }
{
    for segment in segments {
        let byte = byte_at(segment, addr);
        if byte.is_some() {
            return byte;
        }
    }
    None
}

/// The place of the first segment that has the address.
pub fn index_of(segments: &[Segment], addr: u64) -> Option<usize>
    ensures { result ≡ index_of segments.now addr 0 }
{
    for (index, segment) in segments.iter().enumerate() {
        if byte_at(segment, addr).is_some() {
            return Some(index);
        }
    }
    None
}

/// Changes the byte at an address that the segment has.
pub fn set_byte(segment: &mut Segment, addr: u64, value: u8)
    requires from { segment.old.start ≤ addr }
    requires within { addr - segment.old.start < length segment.old.bytes }
    ensures { segment.new ≡ with_byte segment.old addr value }
{
    let at = (addr - segment.start) as usize;
    segment.bytes.set(at, value);
}
