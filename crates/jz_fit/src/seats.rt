//! The places so far, and one more.

ghost use Rattle.std.specs.Prelude.{◌≡◌, ℕ, ◌+◌, ◌*◌, ◌/◌, ◌<◌, ◌||◌, Some, None, length, replicate, false, IfOk, MatchOption, slice_index_or, slice_set, []};
ghost use Rattle.std.specs.List.{All};
ghost use Rattle.std.specs.Bool.{MatchBool};
ghost use Rattle.jz_bits.specs.Has.{has, HasExactly};
ghost use Rattle.jz_ir.specs.Paths.{among};
ghost use Rattle.jz_alloc.specs.Tables.{AllWide, row_has};
ghost use Rattle.jz_fit.specs.InnerSpots.{list_at, AreWithin, Common, HasLists};
ghost use Rattle.jz_fit.specs.InnerSeats.{IsTable, IsOpen, HasRows, AddsTo};

use crate::spots::Spots;
use crate::table::Table;
use jz_bits::Bits;
use jz_data::Seq;
use std::alloc::{AllocError, Global};

/// The number of each variable's place, where it has one; and for each place the operations that
/// write a variable there, and those after which one there is live.
#[derive(Drop)]
pub(crate) struct Seats {
    pub(crate) places: Vec<Option<u8>>,
    pub(crate) written: Vec<Bits>,
    pub(crate) live: Vec<Bits>,
}

/// Empty rows, one for each place.
fn empty_rows(alloc: Global, count: usize) -> Result<Vec<Bits>, AllocError>
    ensures rows { IfOk result (λ made. length made.items ≡ 20) }
    ensures wide { IfOk result (λ made. AllWide count made.items) }
    ensures empty { IfOk result
        (λ made. (q i : ℕ) → q < 20 → row_has made.items q i ≡ false) }
{
    let mut made = Vec::new(alloc);
    for row in 0..20usize {
        let _ = row;
        made.push(Bits::new(alloc, count)?)?;
    }
    Ok(made)
}

/// No variable has a place, in code of so many operations.
pub(crate) fn no_seats(
    alloc: Global,
    variables: usize,
    operations: usize,
) -> Result<Seats, AllocError>
    ensures places { IfOk result (λ seats. seats.places.items ≡ replicate variables None) }
    ensures rows { IfOk result HasRows }
    ensures written_wide { IfOk result (λ seats. AllWide operations seats.written.items) }
    ensures live_wide { IfOk result (λ seats. AllWide operations seats.live.items) }
    ensures not_written { IfOk result
        (λ seats. (q i : ℕ) → q < 20 → row_has seats.written.items q i ≡ false) }
    ensures not_live { IfOk result
        (λ seats. (q i : ℕ) → q < 20 → row_has seats.live.items q i ≡ false) }
{
    let places = vec![in alloc; None; variables]?;
    let written = empty_rows(alloc, operations)?;
    let live = empty_rows(alloc, operations)?;
    Ok(Seats {
        places,
        written,
        live,
    })
}

/// Whether some operation of the list is in the row.
fn meets_row(spots: &Seq<usize>, row: &Bits) -> bool
    ensures { MatchBool result (Common spots.now row.now) (Common spots.now row.now → ⊥) }
{
    for spot in spots.as_slice() {
        if row.contains(*spot) {
            return true;
        }
    }
    false
}

/// Whether some operation of the variable is in the row of the place.
fn share(lists: &Vec<Seq<usize>>, variable: usize, rows: &Vec<Bits>, place: usize) -> bool
    requires variable { variable < length lists.now.items }
    requires place { place < length rows.now.items }
    ensures { MatchBool result
        (Common (list_at lists.now.items variable) (slice_index_or rows.now.items place []))
        (Common (list_at lists.now.items variable) (slice_index_or rows.now.items place []) → ⊥) }
{
    let shared = meets_row(&lists[variable], &rows[place]);
    shared
}

/// Whether the variable can have the place.
fn is_open(table: &Table<'_>, spots: &Spots, seats: &Seats, variable: usize, place: u8) -> bool
    requires table { IsTable table.now }
    requires lists { HasLists (length table.now.code.now.kinds) spots.now }
    requires rows { HasRows seats.now }
    requires variable { variable < length table.now.code.now.kinds }
    requires place { place < 20 }
    ensures { MatchBool result (IsOpen table.now spots.now seats.now variable place)
        (IsOpen table.now spots.now seats.now variable place → ⊥) }
{
    let at = place as usize;
    table.meets(variable, place)
        && !share(&spots.writes, variable, &seats.live, at)
        && !share(&spots.lives, variable, &seats.written, at)
        && !share(&spots.crosses, variable, &table.fixed, at)
}

/// The first place that the variable can have.
pub(crate) fn first_open(
    table: &Table<'_>,
    spots: &Spots,
    seats: &Seats,
    variable: usize,
) -> Option<u8>
    requires table { IsTable table.now }
    requires lists { HasLists (length table.now.code.now.kinds) spots.now }
    requires rows { HasRows seats.now }
    requires variable { variable < length table.now.code.now.kinds }
    ensures { MatchOption result
        ((q : ℕ) → q < 20 → IsOpen table.now spots.now seats.now variable q → ⊥)
        (λ q. (q < 20) × IsOpen table.now spots.now seats.now variable q
        × ((p : ℕ) → p < q → IsOpen table.now spots.now seats.now variable p → ⊥)) }
{
    for place in 0..20u8 {
        if is_open(table, spots, seats, variable, place) {
            return Some(place);
        }
    }
    None
}

/// Adds the operations of the list to the row.
fn add_spots(row: &mut Bits, spots: &Seq<usize>)
    requires { All (λ spot. spot < 64 * length row.old) spots.now }
    ensures wide { length row.new ≡ length row.old }
    ensures set { HasExactly row.new (λ spot. among spots.now spot || has row.old spot) }
{
    for spot in spots.as_slice() {
        row.insert(*spot);
    }
}

/// Adds the operations of a variable to the row of a place.
fn add_to_row(
    rows: &mut Vec<Bits>,
    place: usize,
    lists: &Vec<Seq<usize>>,
    variable: usize,
    count: usize,
)
    requires variable { variable < length lists.now.items }
    requires place { place < length rows.old.items }
    requires wide { AllWide count rows.old.items }
    requires within { All (λ spot. spot < count) (list_at lists.now.items variable) }
    ensures { AddsTo place (list_at lists.now.items variable) rows.old.items rows.new.items }
{
    add_spots(&mut rows[place], &lists[variable]);
}

/// Gives the variable the place.
pub(crate) fn take_seat(seats: &mut Seats, spots: &Spots, variable: usize, place: u8, count: usize)
    requires variable { variable < length seats.old.places.items }
    requires lists { HasLists (length seats.old.places.items) spots.now }
    requires rows { HasRows seats.old }
    requires place { place < 20 }
    requires written_wide { AllWide count seats.old.written.items }
    requires live_wide { AllWide count seats.old.live.items }
    requires writes { All (λ spot. spot < count) (list_at spots.now.writes.items variable) }
    requires lives { All (λ spot. spot < count) (list_at spots.now.lives.items variable) }
    ensures places { seats.new.places.items
        ≡ slice_set seats.old.places.items variable (Some place) }
    ensures written { AddsTo place (list_at spots.now.writes.items variable)
        seats.old.written.items seats.new.written.items }
    ensures live { AddsTo place (list_at spots.now.lives.items variable)
        seats.old.live.items seats.new.live.items }
{
    let at = place as usize;
    seats.places[variable] = Some(place);
    add_to_row(&mut seats.written, at, &spots.writes, variable, count);
    add_to_row(&mut seats.live, at, &spots.lives, variable, count);
}
