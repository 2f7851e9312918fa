//! The numbers of items, by those of items between.

ghost use Rattle.std.specs.Prelude.{◌≡◌, ◌++◌, IfOk, OnOk, map, slice_index_or};
ghost use Rattle.jz_change.specs.declared.change.Number.TheVariants.{Fixed};
ghost use Rattle.jz_change.specs.Composing.{number_by, numbers_by, all_by};

use crate::change::{Number, Numbers};
use jz_data::Seq;
use std::alloc::{AllocError, Global};

/// The number at a place, from 0; 0 where there is none.
pub(crate) fn number_at(numbers: &[Number], place: u64) -> Number
    ensures { result ≡ slice_index_or numbers.now place (Fixed 0) }
{
    numbers
        .get(place as usize)
        .copied()
        .unwrap_or(Number::Fixed(0))
}

/// A number of an item that has these.
fn number_by(numbers: &[Number], number: Number) -> Number
    ensures { result ≡ number_by numbers.now number }
{
    match number {
        Number::Fixed(n) => Number::Fixed(n),
        Number::Nth(place) => number_at(numbers, place),
    }
}

/// Gives an empty list just the room that it needs for so many; a longer one grows as it is filled.
pub(crate) fn make_room<T>(list: &mut Vec<T>, count: usize) -> Result<(), AllocError>
    ensures { list.new.items ≡ list.old.items }
{
    if list.is_empty() {
        list.reserve_exact(count)?;
    }
    Ok(())
}

/// And of several.
fn these_by(alloc: Global, numbers: &[Number], these: &[Number]) -> Result<Seq<Number>, AllocError>
    ensures { IfOk result (λ all. all ≡ map (number_by numbers.now) these.now) }
{
    let mut all = Vec::with_capacity(alloc, these.len())?;
    for one in these {
        all.push(number_by(numbers, *one))?;
    }
    Ok(Seq::from_vec(all))
}

/// A copy.
fn copied(alloc: Global, numbers: &Numbers) -> Result<Numbers, AllocError>
    ensures { IfOk result (λ copy. copy ≡ numbers.now) }
{
    match numbers {
        Numbers::Same => Ok(Numbers::Same),
        Numbers::These(these) => {
            let all = Seq::from_slice(alloc, these.as_slice())?;
            Ok(Numbers::These(all))
        }
    }
}

/// The numbers of an item, by those of an item between.
pub(crate) fn numbers_by(
    alloc: Global,
    first: &Numbers,
    second: &Numbers,
) -> Result<Numbers, AllocError>
    ensures { IfOk result (λ numbers. numbers ≡ numbers_by first.now second.now) }
{
    match second {
        Numbers::Same => copied(alloc, first),
        Numbers::These(these) => match first {
            Numbers::Same => {
                let all = Seq::from_slice(alloc, these.as_slice())?;
                Ok(Numbers::These(all))
            }
            Numbers::These(numbers) => {
                let all = these_by(alloc, numbers.as_slice(), these.as_slice())?;
                Ok(Numbers::These(all))
            }
        },
    }
}

/// Adds those of so many items.
pub(crate) fn push_all(
    alloc: Global,
    out: &mut Vec<Numbers>,
    first: &Numbers,
    more: &Seq<Numbers>,
) -> Result<(), AllocError>
    ensures { OnOk result (out.new.items ≡ out.old.items ++ all_by first.now more.now) }
{
    make_room(out, more.len())?;
    for one in more.as_slice() {
        let made = numbers_by(alloc, first, one)?;
        out.push(made)?;
    }
    Ok(())
}
