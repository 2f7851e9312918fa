//! Memory as a finite map from addresses to bytes, kept in segments.

ghost use Rattle.std.specs.Prelude.{◌≡◌, ◌+◌, ◌<◌, ◌≤◌, ◌^◌, ◌*◌, length, true, IfOk, IfSome, OnOk, OnErr, is_some, if◌then◌else◌};
ghost use Rattle.std.specs.FinMap as map;
ghost use Rattle.jz_words.specs.Sizes.{bytes_of, modulus};
ghost use Rattle.jz_words.specs.Memory.{loaded, all_valid, stored};
ghost use Rattle.jz_leak.specs.MemoryMap.{AddsBytes, AreFree};

use crate::segment::{Segment, copied, index_of, read_at, set_byte};
use jz_data::Seq;
use jz_words::Size;
use std::alloc::{AllocError, Global};
use std::marker::Model;

/// The valid bytes by their addresses.
#[derive(Drop)]
pub struct MemMap {
    alloc: Global,
    segments: Vec<Segment>,
}

impl Model for MemMap {
    ghost use Rattle.std.specs.Prelude.{ℕ};
    ghost use Rattle.std.specs.Ordering.{nat_cmp};
    ghost use Rattle.std.specs.FinMap as map;
    ghost use Rattle.std.specs.Coded.{coded_ℕ};
    ghost use Rattle.jz_leak.specs.MemoryMapSegments.{all_entries};

    ghost Value = { map.FinMap nat_cmp ℕ };

    ghost coded = { map.code coded_ℕ coded_ℕ };

    ghost view = { λ m. map.from_entries (all_entries m.segments.items) };
}

impl MemMap {
    /// No valid bytes.
    pub fn new(alloc: Global) -> MemMap
        ensures { result ≡ map.empty }
    {
        MemMap {
            alloc,
            segments: Vec::new(alloc),
        }
    }

    /// The same bytes at the same addresses.
    pub fn copy(&self, alloc: Global) -> Result<MemMap, AllocError>
        ensures { IfOk result (λ copy. copy ≡ self.now) }
    {
        let segments = copied(alloc, self.segments.as_slice())?;
        Ok(MemMap { alloc, segments })
    }

    /// Adds bytes from an address on, all of them new; those at or past 2^64 are dropped.
    pub fn add(&mut self, addr: u64, bytes: &[u8]) -> Result<(), AllocError>
        requires { AreFree self.old addr (length bytes.now) }
        ensures ok { OnOk result (AddsBytes self.old self.new addr bytes.now) }
        ensures err { OnErr result (self.new ≡ self.old) }
    {
        let count = count_below_end(addr, bytes.len());
        let copy = Seq::from_slice(self.alloc, &bytes[..count])?;
        self.segments.push(Segment {
            start: addr,
            bytes: copy,
        })?;
        Ok(())
    }

    /// The byte at an address, if that is valid.
    pub fn get(&self, addr: u64) -> Option<u8>
        ensures { result ≡ map.get self.now addr }
    {
        read_at(&self.segments, addr)
    }

    /// Changes a valid byte; where it is none, nothing.
    pub fn set(&mut self, addr: u64, value: u8) -> bool
        ensures valid { result ≡ is_some (map.get self.old addr) }
        ensures after { self.new ≡ (if result then map.insert self.old addr value else self.old) }
    {
        match index_of(&self.segments, addr) {
            None => false,
            Some(index) => {
                set_byte(&mut self.segments[index], addr, value);
                true
            }
        }
    }

    /// The bytes of an access as a little-endian number, where each of them is valid.
    pub fn load(&self, addr: u64, size: Size) -> Option<u64>
        ensures value { result ≡ loaded self.now addr (bytes_of size) }
        ensures fits { IfSome result (λ v. v < modulus size) }
    {
        self.load_bytes(addr, byte_count(size))
    }

    /// Writes the lowest bytes of a number, where each byte of the access is valid; else changes
    /// nothing.
    pub fn store(&mut self, addr: u64, size: Size, value: u64) -> bool
        ensures valid { result ≡ all_valid self.old addr (bytes_of size) }
        ensures bytes { self.new ≡ (if result
            then stored self.old addr (bytes_of size) value else self.old) }
    {
        let count = byte_count(size);
        if !self.are_valid(addr, count) {
            return false;
        }
        self.store_bytes(addr, count, value);
        true
    }

    /// So many bytes from an address on.
    fn load_bytes(&self, addr: u64, count: u8) -> Option<u64>
        requires { count ≤ 8 }
        ensures value { result ≡ loaded self.now addr count }
        ensures fits { IfSome result (λ v. v < 256 ^ count) }
    {
        if count == 0 {
            return Some(0);
        }
        match self.get(addr) {
            None => None,
            Some(low) => match self.load_bytes(addr.wrapping_add(1), count - 1) {
                None => None,
                Some(high) => Some(u64::from(low) + 256 * high),
            },
        }
    }

    /// Whether so many bytes from an address on are valid.
    fn are_valid(&self, addr: u64, count: u8) -> bool
        ensures { result ≡ all_valid self.now addr count }
    {
        if count == 0 {
            return true;
        }
        if self.get(addr).is_none() {
            return false;
        }
        self.are_valid(addr.wrapping_add(1), count - 1)
    }

    /// Writes the lowest bytes of a number, so many of them, from an address on.
    fn store_bytes(&mut self, addr: u64, count: u8, value: u64)
        requires { all_valid self.old addr count ≡ true }
        ensures { self.new ≡ stored self.old addr count value }
    {
        if count == 0 {
            return;
        }
        let _done = self.set(addr, (value % 256) as u8);
        self.store_bytes(addr.wrapping_add(1), count - 1, value / 256);
    }
}

/// How many bytes a word of a size has.
fn byte_count(size: Size) -> u8
    ensures value { result ≡ bytes_of size }
    ensures most { result ≤ 8 }
    ensures words { 256 ^ result ≡ modulus size }
{
    match size {
        Size::S8 => 1,
        Size::S16 => 2,
        Size::S32 => 4,
        Size::S64 => 8,
    }
}

/// How many of so many bytes stand below 2^64.
fn count_below_end(addr: u64, count: usize) -> usize
    ensures most { result ≤ count }
    ensures below { addr + result ≤ 2 ^ 64 }
    ensures cut { result < count → addr + result ≡ 2 ^ 64 }
{
    let room = u64::MAX - addr;
    if count as u64 > room {
        room as usize + 1
    } else {
        count
    }
}
