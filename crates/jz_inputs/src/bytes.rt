//! Bytes of items, and of memories.

ghost use Rattle.std.specs.Prelude.{◌≡◌, ◌≤◌, ◌+◌, ◌++◌, ◌^◌, ◌<◌, IfOk, IfSome, OnOk};
ghost use Rattle.jz_preconditions.specs.Stating.{some_of};
ghost use Rattle.jz_inputs.specs.Held.{byte_in, byte_at};
ghost use Rattle.jz_inputs.specs.Inputs.{range_of, bytes_in};
ghost use Rattle.jz_inputs.specs.InnerCover.{AreGiven};
ghost use Rattle.jz_inputs.specs.InnerFilled.{IsPiece};

use crate::regions::Extent;
use jz_items::Item;
use jz_leak::MemMap;
use jz_tree::Seq;
use std::alloc::{AllocError, Global};

/// The byte of an item at an address.
fn byte_in(address: u64, item: &Item) -> Option<u8>
    ensures value { result ≡ byte_in address item.now }
    ensures small { IfSome result (λ b. b < 256) }
{
    match item {
        Item::Number(_) => None,
        Item::Bytes(placed) => {
            if address < placed.at {
                return None;
            }
            match placed.bytes.get((address - placed.at) as usize) {
                None => None,
                Some(byte) => Some(*byte),
            }
        }
    }
}

/// The byte of the items at an address.
fn byte_at(items: &Seq<Item>, address: u64) -> Option<u8>
    ensures value { result ≡ byte_at items.now address }
    ensures small { IfSome result (λ b. b < 256) }
{
    for item in items.as_slice() {
        match byte_in(address, item) {
            None => {}
            Some(byte) => return Some(byte),
        }
    }
    None
}

/// The bytes of items from one address up to another one.
pub(crate) fn bytes_between(
    alloc: Global,
    items: &Seq<Item>,
    from: u64,
    end: u128,
) -> Result<Vec<u8>, AllocError>
    requires order { from ≤ end }
    requires below { end ≤ 2 ^ 64 }
    requires given { AreGiven items.now from end }
    ensures { IfOk result (λ bytes. IsPiece items.now from end bytes.items) }
{
    let mut bytes = Vec::new(alloc);
    let mut at = from as u128;
    while at < end {
        match byte_at(items, at as u64) {
            None => unreachable!(),
            Some(byte) => bytes.push(byte)?,
        }
        at += 1;
    }
    Ok(bytes)
}

fn push_some(bytes: &mut Vec<u8>, byte: Option<u8>) -> Result<(), AllocError>
    ensures { OnOk result (bytes.new.items ≡ bytes.old.items ++ some_of byte) }
{
    match byte {
        None => Ok(()),
        Some(byte) => {
            bytes.push(byte)?;
            Ok(())
        }
    }
}

/// The valid bytes of a range of addresses, in their order.
pub fn bytes_in(alloc: Global, memory: &MemMap, region: Extent) -> Result<Vec<u8>, AllocError>
    requires { region.from + region.count ≤ 2 ^ 64 }
    ensures { IfOk result (λ bytes. bytes.items ≡ bytes_in memory.now (range_of region)) }
{
    let mut bytes = Vec::new(alloc);
    let mut at = region.from as u128;
    let end = at + region.count;
    while at < end {
        push_some(&mut bytes, memory.get(at as u64))?;
        at += 1;
    }
    Ok(bytes)
}
