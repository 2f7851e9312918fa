//! The regions that a function declares, as lines.

ghost use Rattle.std.specs.Prelude.{◌≡◌, ◌++◌, OnOk, All, map};
ghost use Rattle.std.specs.List.{concat};
ghost use Rattle.jz_preconditions.specs.Meeting.{IsBelowEnd, names_of, region_of, regions_of};
ghost use Rattle.jasminc_regions.specs.Regions.{pointer_of, region_text};

use jasminc_lines::write_region;
use jz_inputs::{bytes_in, region_of};
use jz_leak::MemMap;
use jz_preconditions::Pre;
use jz_tree::{Fun, Seq};
use std::alloc::{AllocError, Global};

/// The parameter that a precondition names first.
fn pointer_of(pre: &Pre) -> &str
    ensures { result.now ≡ pointer_of pre.now }
{
    match pre {
        Pre::Region { pointer, .. } => pointer.as_str(),
        Pre::Range { name, .. } => name.as_str(),
        Pre::Align { pointer, .. } => pointer.as_str(),
    }
}

/// The region that a precondition declares for argument words, where it is one.
fn write_region_of(
    alloc: Global,
    text: &mut Vec<u8>,
    function: &Fun,
    words: &Seq<u64>,
    memory: &MemMap,
    pre: &Pre,
) -> Result<(), AllocError>
    requires { All IsBelowEnd (region_of (names_of function.now) words.now pre.now) }
    ensures { OnOk result (text.new.items
        ≡ text.old.items ++ region_text function.now words.now memory.now pre.now) }
{
    match region_of(function, words, pre) {
        None => Ok(()),
        Some(region) => {
            let bytes = bytes_in(alloc, memory, region)?;
            write_region(alloc, text, pointer_of(pre), &bytes)
        }
    }
}

/// A line for each region that preconditions declare for argument words, in their order.
pub fn write_regions(
    alloc: Global,
    text: &mut Vec<u8>,
    function: &Fun,
    words: &Seq<u64>,
    memory: &MemMap,
    pres: &Seq<Pre>,
) -> Result<(), AllocError>
    requires { All IsBelowEnd (regions_of (names_of function.now) pres.now words.now) }
    ensures { OnOk result (text.new.items ≡ text.old.items
        ++ concat (map (region_text function.now words.now memory.now) pres.now)) }
{
    for pre in pres.as_slice() {
        write_region_of(alloc, text, function, words, memory, pre)?;
    }
    Ok(())
}
