//! The words that items are as arguments.

ghost use Rattle.std.specs.Prelude.{◌≡◌, IfOk};
ghost use Rattle.jz_items.specs.Items.{word_of, words_of};

use crate::item::Item;
use jz_data::Seq;
use std::alloc::{AllocError, Global};

/// The number that an item is, or the address of its bytes.
pub fn word_of(item: &Item) -> u64
    ensures { result ≡ word_of item.now }
{
    match item {
        Item::Number(number) => *number,
        Item::Bytes(placed) => placed.at,
    }
}

/// The words of items, in their order.
pub fn words_of(alloc: Global, items: &Seq<Item>) -> Result<Seq<u64>, AllocError>
    ensures { IfOk result (λ words. words ≡ words_of items.now) }
{
    items.try_map(alloc, |item| Ok(word_of(item)))
}
