//! First fit, batch by batch.

ghost use Rattle.std.specs.Prelude.{◌≡◌, ◌≢◌, ℕ, ◌<◌, ◌≤◌, ◌+◌, length, IfOk, IsTrue, MatchOption, slice_index_or};
ghost use Rattle.std.specs.List.{All};
ghost use Rattle.jz_bits.specs.Has.{has, HasExactly};
ghost use Rattle.jz_ir.specs.Paths.{among};
ghost use Rattle.jz_ir.specs.Places.{refused};
ghost use Rattle.jz_fit.specs.Branches.{LiveAt};
ghost use Rattle.jz_fit.specs.InnerSpots.{CountsOf, HasLists};
ghost use Rattle.jz_fit.specs.InnerSeats.{IsTable, IsSeated, ComesTo, out_of, IsDistinct, AreFollowed};

use crate::batches::{batch_end, reaches_of};
use crate::seats::{Seats, first_open, no_seats, take_seat};
use crate::spots::{Spots, spots_of};
use crate::table::Table;
use jz_bits::Bits;
use jz_live_lists::live_of;
use std::alloc::{AllocError, Global};

/// The number of each variable's place; or a variable that has none, and the places before it.
#[derive(Drop)]
pub(crate) enum Fit {
    Placed(Vec<Option<u8>>),
    Refused(u32, Vec<Option<u8>>),
}

/// The variables of a part of the order.
fn followed_in(
    alloc: Global,
    order: &[u32],
    from: usize,
    to: usize,
    count: usize,
) -> Result<Bits, AllocError>
    requires to { to ≤ length order.now }
    requires order { All (λ v. v < count) order.now }
    ensures { IfOk result (AreFollowed order.now from to count) }
{
    let mut followed = Bits::new(alloc, count)?;
    for k in from..to {
        followed.insert(order[k] as usize);
    }
    Ok(followed)
}

/// The lists of the variables of a part of the order.
fn batch_spots(
    alloc: Global,
    table: &Table<'_>,
    order: &[u32],
    from: usize,
    to: usize,
) -> Result<Spots, AllocError>
    requires table { IsTable table.now }
    requires from { from ≤ to }
    requires to { to ≤ length order.now }
    requires order { All (λ v. v < length table.now.code.now.kinds) order.now }
    ensures lists { IfOk result (HasLists (length table.now.code.now.kinds)) }
    ensures counts { IfOk result (λ spots. (k : ℕ) → from ≤ k → k < to
        → CountsOf table.now.ops (LiveAt table.now.code.now) spots
        (slice_index_or order.now k 0)) }
{
    let count = table.code.kinds.len();
    let followed = followed_in(alloc, order, from, to, count)?;
    let after = live_of(alloc, &table.code.nodes, &followed)?;
    let spots = spots_of(alloc, table.ops.as_slice(), after.as_slice(), count)?;
    Ok(spots)
}

/// Places the variables of a part of the order, or up to the first that has no place.
fn place_batch(
    table: &Table<'_>,
    spots: &Spots,
    seats: &mut Seats,
    order: &[u32],
    from: usize,
    to: usize,
) -> Option<u32>
    requires table { IsTable table.now }
    requires from { from ≤ to }
    requires to { to ≤ length order.now }
    requires order { All (λ v. v < length table.now.code.now.kinds) order.now }
    requires distinct { IsDistinct order.now }
    requires seated { IsSeated table.now order.now from seats.old }
    requires lists { HasLists (length table.now.code.now.kinds) spots.now }
    requires counts { (k : ℕ) → from ≤ k → k < to
        → CountsOf table.now.ops (LiveAt table.now.code.now) spots.now
        (slice_index_or order.now k 0) }
    ensures { MatchOption result (IsSeated table.now order.now to seats.new)
        (λ v. ComesTo table.now order.now (refused v seats.new.places.items)) }
{
    for k in from..to {
        let variable = order[k];
        match first_open(table, spots, seats, variable as usize) {
            None => return Some(variable),
            Some(place) => take_seat(seats, spots, variable as usize, place, table.ops.len()),
        }
    }
    None
}

/// Places the variables of the order. They are taken in batches of which few are live at once, so
/// that the lists of what is live stay short.
pub(crate) fn place_all(alloc: Global, table: &Table<'_>, order: &[u32]) -> Result<Fit, AllocError>
    requires table { IsTable table.now }
    requires order { All (λ v. v < length table.now.code.now.kinds) order.now }
    requires distinct { IsDistinct order.now }
    ensures { IfOk result (λ fit. ComesTo table.now order.now (out_of fit)) }
{
    let mut seats = no_seats(alloc, table.code.kinds.len(), table.ops.len())?;
    let reaches = reaches_of(alloc, table.ops.as_slice(), table.code.kinds.len())?;
    let mut from = 0;
    while from < order.len() {
        let to = batch_end(alloc, reaches.as_slice(), table.ops.len(), order, from)?;
        let spots = batch_spots(alloc, table, order, from, to)?;
        match place_batch(table, &spots, &mut seats, order, from, to) {
            Some(variable) => return Ok(Fit::Refused(variable, seats.places)),
            None => from = to,
        }
    }
    Ok(Fit::Placed(seats.places))
}
