//! The memory of an input.

ghost use Rattle.std.specs.Prelude.{◌≡◌, ◌≤◌, ◌<◌, ◌^◌, All, None, IfOk, OnOk};
ghost use Rattle.std.specs.FinMap.{get};
ghost use Rattle.jz_inputs.specs.Held.{IsHeld};
ghost use Rattle.jz_inputs.specs.Inputs.{HoldsRegions};
ghost use Rattle.jz_inputs.specs.InnerCover.{AreGiven};
ghost use Rattle.jz_inputs.specs.InnerFilled.{EndsFree, FillsFrom, FillsRegion};

use crate::bytes::bytes_between;
use crate::regions::region_of;
use jz_items::Item;
use jz_leak::MemMap;
use jz_preconditions::Pre;
use jz_tree::{Fun, Seq};
use std::alloc::{AllocError, Global};

/// Where the free bytes end that begin at an address.
fn end_of_free(memory: &MemMap, from: u64, end: u128) -> u128
    requires order { from < end }
    requires below { end ≤ 2 ^ 64 }
    requires free { get memory.now from ≡ None }
    ensures { EndsFree memory.now from end result }
{
    let mut at = from as u128 + 1;
    while at < end {
        if memory.get(at as u64).is_some() {
            return at;
        }
        at += 1;
    }
    end
}

/// Adds the items' bytes from one address up to another one where they are not there yet.
fn fill(
    alloc: Global,
    memory: &mut MemMap,
    items: &Seq<Item>,
    from: u64,
    end: u128,
) -> Result<(), AllocError>
    requires order { from ≤ end }
    requires below { end ≤ 2 ^ 64 }
    requires given { AreGiven items.now from end }
    ensures { OnOk result (FillsFrom items.now from end memory.old memory.new) }
{
    let mut at = from as u128;
    while at < end {
        let here = at as u64;
        if memory.get(here).is_some() {
            at += 1;
        } else {
            let stop = end_of_free(memory, here, end);
            let bytes = bytes_between(alloc, items, here, stop)?;
            memory.add(here, bytes.as_slice())?;
            at = stop;
        }
    }
    Ok(())
}

/// Adds the bytes of the region that a precondition declares, where it declares one.
fn fill_region(
    alloc: Global,
    memory: &mut MemMap,
    fun: &Fun,
    words: &Seq<u64>,
    items: &Seq<Item>,
    pre: &Pre,
) -> Result<(), AllocError>
    requires { IsHeld fun.now words.now items.now pre.now }
    ensures { OnOk result (FillsRegion fun.now words.now items.now pre.now memory.old memory.new) }
{
    match region_of(fun, words, pre) {
        None => Ok(()),
        Some(region) => {
            let end = region.from as u128 + region.count;
            fill(alloc, memory, items, region.from, end)
        }
    }
}

/// The memory that items give a function: exactly the bytes of its regions for argument words, all
/// of whose preconditions hold.
pub fn memory_of(
    alloc: Global,
    fun: &Fun,
    words: &Seq<u64>,
    items: &Seq<Item>,
    pres: &Seq<Pre>,
) -> Result<MemMap, AllocError>
    requires { All (IsHeld fun.now words.now items.now) pres.now }
    ensures { IfOk result (HoldsRegions fun.now words.now items.now pres.now) }
{
    let mut memory = MemMap::new(alloc);
    for pre in pres.as_slice() {
        fill_region(alloc, &mut memory, fun, words, items, pre)?;
    }
    Ok(memory)
}
