//! Whether preconditions hold.

ghost use Rattle.std.specs.Prelude.{◌≡◌, ◌↔◌, IsTrue, Option, List};
ghost use Rattle.jz_preconditions.specs.Meeting.{IsBetween, IsMultiple, IsNamed, names_of};
ghost use Rattle.jz_inputs.specs.Held.{IsHeld, FindsUnmet};
ghost use Rattle.jz_inputs.specs.InnerHeld.{IsRegionHeld};

use crate::covering::are_given;
use crate::regions::{Extent, region_of};
use crate::words::word_named;
use jz_items::Item;
use jz_preconditions::Pre;
use jz_tree::{Fun, Seq, Text};

const TWO_TO_64: u128 = 0x1_0000_0000_0000_0000;

fn is_between(word: Option<u64>, low: u64, high: u64) -> bool
    ensures { IsTrue result ↔ IsBetween word low high }
{
    match word {
        None => false,
        Some(word) => low <= word && word <= high,
    }
}

fn is_multiple(word: Option<u64>, multiple: u64) -> bool
    ensures { IsTrue result ↔ IsMultiple word multiple }
{
    match word {
        None => false,
        Some(word) => {
            if multiple == 0 {
                word == 0
            } else {
                word % multiple == 0
            }
        }
    }
}

/// Whether the region ends at 2^64 or before and has bytes of items alone.
fn is_region_held(items: &Seq<Item>, region: Option<Extent>) -> bool
    ensures { IsTrue result ↔ IsRegionHeld items.now region }
{
    match region {
        None => false,
        Some(region) => {
            if TWO_TO_64 < region.count {
                return false;
            }
            let end = region.from as u128 + region.count;
            end <= TWO_TO_64 && are_given(items, region.from, end)
        }
    }
}

fn is_named(fun: &Fun, words: &Seq<u64>, name: &Option<Text>) -> bool
    ensures { IsTrue result ↔ IsNamed (names_of fun.now) words.now name.now }
{
    match name {
        None => true,
        Some(name) => word_named(fun.params.as_slice(), words.as_slice(), name).is_some(),
    }
}

fn is_held(fun: &Fun, words: &Seq<u64>, items: &Seq<Item>, pre: &Pre) -> bool
    ensures { IsTrue result ↔ IsHeld fun.now words.now items.now pre.now }
{
    let params = fun.params.as_slice();
    match pre {
        Pre::Region { variable, .. } => {
            is_named(fun, words, variable) && is_region_held(items, region_of(fun, words, pre))
        }
        Pre::Range { name, low, high } => {
            is_between(word_named(params, words.as_slice(), name), *low, *high)
        }
        Pre::Align { pointer, multiple } => {
            is_multiple(word_named(params, words.as_slice(), pointer), *multiple)
        }
    }
}

/// The place of the first of the preconditions that does not hold of argument words, or whose
/// region is not of bytes of items.
pub fn first_unmet(fun: &Fun, words: &Seq<u64>, items: &Seq<Item>, pres: &Seq<Pre>) -> Option<usize>
    ensures { FindsUnmet fun.now words.now items.now pres.now result }
{
    for (place, pre) in pres.as_slice().iter().enumerate() {
        if !is_held(fun, words, items, pre) {
            return Some(place);
        }
    }
    None
}
