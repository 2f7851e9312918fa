//! First fit.

ghost use Rattle.std.specs.Prelude.{◌≡◌, ◌≢◌, ℕ, ◌*◌, ◌/◌, ◌<◌, length, IfOk, MatchOption, replicate, slice_index_or, None};
ghost use Rattle.std.specs.List.{All};
ghost use Rattle.jz_bits.specs.Has.{has};
ghost use Rattle.jz_ir.specs.Places.{First};
ghost use Rattle.jz_alloc.specs.Tables.{AllWide};
ghost use Rattle.jz_alloc.specs.Fit.{IsOpen, out_of, MeetsIn, ConflictsIn, TakenIn};

use crate::tables::empty_rows;
use jz_bits::Bits;
use std::alloc::{AllocError, Global};

/// Each variable's place, or a variable that has none with the places before it.
#[derive(Drop)]
pub enum Fit {
    Placed(Vec<Option<u8>>),
    Refused(u32, Vec<Option<u8>>),
}

/// The first place that is open to a variable.
fn first_open(
    meets: &[Bits],
    busy: &[Bits],
    holders: &[Bits],
    row: &Bits,
    variable: usize,
) -> Option<usize>
    requires meets { length meets.now ≡ 20 }
    requires busy { length busy.now ≡ 20 }
    requires holders { length holders.now ≡ 20 }
    requires wide { All (λ held. length held ≡ length row.now) holders.now }
    ensures { MatchOption result
        ((place : ℕ) → place < 20
        → IsOpen meets.now busy.now holders.now row.now variable place → ⊥)
        (λ place. (place < 20) × IsOpen meets.now busy.now holders.now row.now variable place
        × ((earlier : ℕ) → earlier < place
        → IsOpen meets.now busy.now holders.now row.now variable earlier → ⊥)) }
{
    for place in 0..20 {
        if meets[place].contains(variable)
            && !busy[place].contains(variable)
            && !row.meets(&holders[place])
        {
            return Some(place);
        }
    }
    None
}

/// Places the variables of the list, one after another.
pub fn place_all(
    alloc: Global,
    order: &[u32],
    meets: &[Bits],
    taken: Vec<Bits>,
    rows: &[Bits],
) -> Result<Fit, AllocError>
    requires order { All (λ variable. variable < length rows.now) order.now }
    requires distinct { (i j : ℕ) → i < j → j < length order.now
        → slice_index_or order.now i 0 ≢ slice_index_or order.now j 0 }
    requires meets { length meets.now ≡ 20 }
    requires taken { length taken.items ≡ 20 }
    requires taken_wide { AllWide (length rows.now) taken.items }
    requires wide { AllWide (length rows.now) rows.now }
    ensures { IfOk result (λ fit.
        First (MeetsIn meets.now) (ConflictsIn rows.now) (TakenIn taken.items)
        order.now (replicate (length rows.now) None) (out_of fit)) }
{
    let mut places = vec![in alloc; None; rows.len()]?;
    let mut busy = taken;
    let mut holders = empty_rows(alloc, 20, rows.len())?;
    for variable in order {
        let index = *variable as usize;
        match first_open(
            meets,
            busy.as_slice(),
            holders.as_slice(),
            &rows[index],
            index,
        ) {
            None => return Ok(Fit::Refused(*variable, places)),
            Some(place) => {
                places[index] = Some(place as u8);
                busy[place].union(&rows[index]);
                holders[place].insert(index);
            }
        }
    }
    Ok(Fit::Placed(places))
}
