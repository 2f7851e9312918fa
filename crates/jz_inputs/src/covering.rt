//! Whether bytes are bytes of items.

ghost use Rattle.std.specs.Prelude.{◌≡◌, ◌≤◌, ◌<◌, ◌^◌, ◌↔◌, IsTrue};
ghost use Rattle.jz_inputs.specs.InnerCover.{AreGiven, GoesOn, is_within, end_of};

use jz_items::Item;
use jz_tree::Seq;

const TWO_TO_64: u128 = 0x1_0000_0000_0000_0000;

fn is_within(address: u128, item: &Item) -> bool
    ensures { result ≡ is_within address item.now }
{
    match item {
        Item::Number(_) => false,
        Item::Bytes(placed) => {
            placed.at as u128 <= address && address < placed.at as u128 + placed.bytes.len() as u128
        }
    }
}

/// Where the bytes of an item end, at 2^64 or before.
fn end_of(item: &Item) -> u128
    ensures { result ≡ end_of item.now }
{
    match item {
        Item::Number(_) => 0,
        Item::Bytes(placed) => {
            let end = placed.at as u128 + placed.bytes.len() as u128;
            if end <= TWO_TO_64 { end } else { TWO_TO_64 }
        }
    }
}

/// Up to where the bytes of an item go on from an address, if it has the byte there.
fn end_behind(items: &Seq<Item>, address: u128) -> Option<u128>
    requires { address < 2 ^ 64 }
    ensures { GoesOn items.now address result }
{
    for item in items.as_slice() {
        if is_within(address, item) {
            return Some(end_of(item));
        }
    }
    None
}

/// Whether the bytes from one address up to another one are bytes of items.
pub(crate) fn are_given(items: &Seq<Item>, from: u64, end: u128) -> bool
    requires { end ≤ 2 ^ 64 }
    ensures { IsTrue result ↔ AreGiven items.now from end }
{
    let mut at = from as u128;
    while at < end {
        match end_behind(items, at) {
            None => return false,
            Some(next) => at = next,
        }
    }
    true
}
