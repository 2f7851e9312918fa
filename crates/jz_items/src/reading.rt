//! The items that words are.

ghost use Rattle.std.specs.Prelude.{◌≡◌, IfOk, map, length};
ghost use Rattle.std.specs.List.{list_any};
ghost use Rattle.jz_items.specs.Items.{slot_of, bytes_of, in_slot, at_address, bytes_item};
ghost use Rattle.jz_items.specs.Items.{item_of, do_meet, is_reserved, meets_item, is_free};
ghost use Rattle.jz_items.specs.Items.{items_of, is_colon};

use crate::item::{Item, Placed};
use crate::numerals::number;
use hex::FromHexError;
use jz_data::Seq;
use std::alloc::{AllocError, Global};

/// How many bytes an item without an address may have.
const SLOT_SIZE: usize = 0x100_0000;

const FIRST_SLOT: u128 = 0x1000_0000;

/// The bytes of hexadecimal digits.
fn bytes_of(alloc: Global, digits: &str) -> Result<Option<Seq<u8>>, AllocError>
    ensures { IfOk result (λ bytes. bytes ≡ bytes_of digits.now) }
{
    match hex::decode(alloc, digits.as_bytes()) {
        Ok(bytes) => Ok(Some(Seq::from_vec(bytes))),
        Err(FromHexError::OutOfMemory) => Err(AllocError),
        Err(FromHexError::InvalidHexCharacter { .. }) => Ok(None),
        Err(FromHexError::OddLength) => Ok(None),
        Err(FromHexError::InvalidStringLength) => Ok(None),
    }
}

fn slot_of(position: usize) -> u128
    ensures { result ≡ slot_of position }
{
    FIRST_SLOT + position as u128 * SLOT_SIZE as u128
}

/// Bytes where items without an address stand, if there are not too many.
fn in_slot(position: usize, bytes: Seq<u8>) -> Option<Item>
    ensures { result ≡ in_slot position bytes }
{
    let at = slot_of(position);
    if bytes.len() <= SLOT_SIZE && at < 1 << 64 {
        Some(Item::Bytes(Placed {
            at: at as u64,
            bytes,
        }))
    } else {
        None
    }
}

/// An address and bytes.
fn at_address(alloc: Global, addr: &str, digits: &str) -> Result<Option<Item>, AllocError>
    ensures { IfOk result (λ item. item ≡ at_address addr.now digits.now) }
{
    let Some(at) = number(addr) else {
        return Ok(None);
    };
    match bytes_of(alloc, digits)? {
        None => Ok(None),
        Some(bytes) => Ok(Some(Item::Bytes(Placed { at, bytes }))),
    }
}

/// What stands behind an `@`.
fn bytes_item(alloc: Global, position: usize, text: &str) -> Result<Option<Item>, AllocError>
    ensures { IfOk result (λ item. item ≡ bytes_item position text.now) }
{
    match text.split_once(':') {
        Some((addr, digits)) => {
            let item = at_address(alloc, addr, digits)?;
            Ok(item)
        }
        None => match bytes_of(alloc, text)? {
            None => Ok(None),
            Some(bytes) => Ok(in_slot(position, bytes)),
        },
    }
}

/// The item that a word is.
fn item_of(alloc: Global, position: usize, word: &str) -> Result<Option<Item>, AllocError>
    ensures { IfOk result (λ item. item ≡ item_of position word.now) }
{
    if let Some(text) = word.strip_prefix("@") {
        let item = bytes_item(alloc, position, text)?;
        return Ok(item);
    }
    match number(word) {
        None => Ok(None),
        Some(number) => Ok(Some(Item::Number(number))),
    }
}

/// Whether so many bytes from an address on meet so many from another one on.
fn do_meet(a: u64, m: usize, b: u64, n: usize) -> bool
    ensures { result ≡ do_meet a m b n }
{
    0 < m && 0 < n && (a as u128) < b as u128 + n as u128 && (b as u128) < a as u128 + m as u128
}

/// Whether bytes meet those that are kept for the code or the stack.
fn is_reserved(placed: &Placed) -> bool
    ensures { result ≡ is_reserved placed.now }
{
    do_meet(placed.at, placed.bytes.len(), 0x40_0000, 0xfc0_0000)
        || do_meet(
            placed.at,
            placed.bytes.len(),
            0x7fff_0000_0000,
            0x1_0000_0000,
        )
}

fn meets_item(placed: &Placed, item: &Item) -> bool
    ensures { result ≡ meets_item placed.now item.now }
{
    match item {
        Item::Number(_) => false,
        Item::Bytes(other) => {
            do_meet(placed.at, placed.bytes.len(), other.at, other.bytes.len())
        }
    }
}

fn meets_one(placed: &Placed, items: &Seq<Item>) -> bool
    ensures { result ≡ list_any (meets_item placed.now) items.now }
{
    for item in items.as_slice() {
        if meets_item(placed, item) {
            return true;
        }
    }
    false
}

/// Whether the bytes of an item stand apart from those that are kept and from those of items.
fn is_free(before: &Seq<Item>, item: &Item) -> bool
    ensures { result ≡ is_free before.now item.now }
{
    match item {
        Item::Number(_) => true,
        Item::Bytes(placed) => !is_reserved(placed) && !meets_one(placed, before),
    }
}

/// The items that words are, if each is one and the bytes of each stand apart.
pub fn items(alloc: Global, words: &[&str]) -> Result<Option<Seq<Item>>, AllocError>
    ensures { IfOk result (λ items. items ≡ items_of (map (λ w. w.now) words.now)) }
{
    let mut items = Seq::new(alloc);
    for word in words {
        match item_of(alloc, items.len(), word)? {
            None => return Ok(None),
            Some(item) => {
                if !is_free(&items, &item) {
                    return Ok(None);
                }
                items.push(item)?;
            }
        }
    }
    Ok(Some(items))
}
