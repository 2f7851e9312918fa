//! What the code says of each variable and place, as rows of bits.

ghost use Rattle.std.specs.Prelude.{◌≡◌, ◌+◌, ◌*◌, ◌/◌, ◌<◌, ◌||◌, ◌&&◌, not, length, IfOk, slice_index_or, [], nat_lt, false};
ghost use Rattle.std.specs.List.{All, list_all};
ghost use Rattle.jz_bits.specs.Has.{has, HasExactly};
ghost use Rattle.jz_ir.specs.Order.{has_place};
ghost use Rattle.jz_ir.specs.Paths.{among};
ghost use Rattle.jz_ir.specs.Places.{kind_has, need_fits, meets};
ghost use Rattle.jz_ir.specs.Places.{Below};
ghost use Rattle.jz_alloc.specs.Tables.{AllWide, any_below, EachHas, reaches, is_taken};

use jz_bits::Bits;
use jz_data::Seq;
use jz_ir::{Kind, Need, Op, place_number};
use jz_live::remove_all;
use std::alloc::{AllocError, Global};
use x64_insn::Place;

/// Whether the place is among them.
pub fn holds(places: &[Place], place: u8) -> bool
    ensures { result ≡ has_place places.now place }
{
    for one in places {
        if place_number(*one) == place {
            return true;
        }
    }
    false
}

/// The variables live across an operation.
fn across(alloc: Global, op: &Op, after: &Bits) -> Result<Bits, AllocError>
    requires { Below (64 * length after.now) op.now }
    ensures wide { IfOk result (λ row. length row ≡ length after.now) }
    ensures set { IfOk result (λ row.
        HasExactly row (λ v. not (among op.now.writes v) && has after.now v)) }
{
    let mut live = after.copy(alloc)?;
    remove_all(&mut live, &op.writes);
    Ok(live)
}

/// The variables across which an operation writes the place besides.
fn taken_row(
    alloc: Global,
    ops: &[Op],
    after: &[Bits],
    count: usize,
    place: u8,
) -> Result<Bits, AllocError>
    requires below { All (Below count) ops.now }
    requires rows { length after.now ≡ length ops.now }
    requires wide { AllWide count after.now }
    ensures wide { IfOk result (λ row. length row ≡ count / 64 + 1) }
    ensures set { IfOk result (λ row. HasExactly row
        (λ v. any_below (length ops.now) (λ i. is_taken ops.now after.now i v place))) }
{
    let mut row = Bits::new(alloc, count)?;
    for i in 0..ops.len() {
        if holds(ops[i].fixed.as_slice(), place) {
            row.union(&across(alloc, &ops[i], &after[i])?);
        }
    }
    Ok(row)
}

/// Takes out the variables that some need keeps from the place.
fn leave_fit(row: &mut Bits, needs: &Seq<Need>, place: u8)
    requires { All (λ need. need.variable < 64 * length row.old) needs.now }
    ensures wide { length row.new ≡ length row.old }
    ensures set { HasExactly row.new
        (λ v. list_all (need_fits v place) needs.now && has row.old v) }
{
    for need in needs.as_slice() {
        if place_number(need.place) != place {
            row.remove(need.variable as usize);
        }
    }
}

/// The variables of the place's kind, where the place is in use.
fn kind_row(alloc: Global, kinds: &[Kind], in_use: &[Place], place: u8) -> Result<Bits, AllocError>
    ensures wide { IfOk result (λ row. length row ≡ length kinds.now / 64 + 1) }
    ensures set { IfOk result (λ row. HasExactly row
        (λ v. nat_lt v (length kinds.now) && kind_has kinds.now in_use.now v place)) }
{
    let mut row = Bits::new(alloc, kinds.len())?;
    let is_in_use = holds(in_use, place);
    for (variable, kind) in kinds.iter().enumerate() {
        let fits = match kind {
            Kind::Word => place < 15,
            Kind::Flag => 15 <= place && place < 20,
        };
        if fits && is_in_use {
            row.insert(variable);
        }
    }
    Ok(row)
}

/// The variables whose needs the place meets.
fn meets_row(
    alloc: Global,
    ops: &[Op],
    kinds: &[Kind],
    in_use: &[Place],
    place: u8,
) -> Result<Bits, AllocError>
    requires { All (Below (length kinds.now)) ops.now }
    ensures wide { IfOk result (λ row. length row ≡ length kinds.now / 64 + 1) }
    ensures set { IfOk result (λ row. HasExactly row
        (λ v. nat_lt v (length kinds.now) && meets kinds.now in_use.now ops.now v place)) }
{
    let mut row = kind_row(alloc, kinds, in_use, place)?;
    for op in ops {
        leave_fit(&mut row, &op.needs, place);
    }
    Ok(row)
}

/// Adds a row to those of some variables.
fn add_rows(rows: &mut Vec<Bits>, writes: &Seq<u32>, row: &Bits)
    requires below { All (λ written. written < length rows.old.items) writes.now }
    requires wide { All (λ other. length other ≡ length row.now) rows.old.items }
    ensures rows { length rows.new.items ≡ length rows.old.items }
    ensures wide { All (λ other. length other ≡ length row.now) rows.new.items }
    ensures set { EachHas (length rows.old.items) rows.new.items
        (λ i v. has (slice_index_or rows.old.items i []) v
        || (among writes.now i && has row.now v)) }
{
    for written in writes.as_slice() {
        rows[*written as usize].union(row);
    }
}

/// Empty sets, each for this many variables.
pub fn empty_rows(alloc: Global, rows: usize, count: usize) -> Result<Vec<Bits>, AllocError>
    ensures rows { IfOk result (λ made. length made.items ≡ rows) }
    ensures wide { IfOk result (λ made. AllWide count made.items) }
    ensures empty { IfOk result (λ made. EachHas rows made.items (λ i v. false)) }
{
    let mut made = Vec::new(alloc);
    for row in 0..rows {
        let _ = row;
        made.push(Bits::new(alloc, count)?)?;
    }
    Ok(made)
}

/// For each variable those that are live after it is written.
pub fn write_rows(
    alloc: Global,
    ops: &[Op],
    after: &[Bits],
    count: usize,
) -> Result<Vec<Bits>, AllocError>
    requires below { All (Below count) ops.now }
    requires rows { length after.now ≡ length ops.now }
    requires wide { AllWide count after.now }
    ensures rows { IfOk result (λ rows. length rows.items ≡ count) }
    ensures wide { IfOk result (λ rows. AllWide count rows.items) }
    ensures set { IfOk result (λ rows. EachHas count rows.items
        (λ written v. any_below (length ops.now) (λ i. reaches ops.now after.now i written v))) }
{
    let mut rows = empty_rows(alloc, count, count)?;
    for i in 0..ops.len() {
        add_rows(&mut rows, &ops[i].writes, &after[i]);
    }
    Ok(rows)
}

/// For each place the variables whose needs it meets.
pub fn meets_rows(
    alloc: Global,
    ops: &[Op],
    kinds: &[Kind],
    in_use: &[Place],
) -> Result<Vec<Bits>, AllocError>
    requires { All (Below (length kinds.now)) ops.now }
    ensures rows { IfOk result (λ rows. length rows.items ≡ 20) }
    ensures wide { IfOk result (λ rows. AllWide (length kinds.now) rows.items) }
    ensures set { IfOk result (λ rows. EachHas 20 rows.items (λ place v.
        nat_lt v (length kinds.now) && meets kinds.now in_use.now ops.now v place)) }
{
    let mut rows = Vec::new(alloc);
    for place in 0..20u8 {
        rows.push(meets_row(alloc, ops, kinds, in_use, place)?)?;
    }
    Ok(rows)
}

/// For each place the variables across which it is written.
pub fn taken_rows(
    alloc: Global,
    ops: &[Op],
    after: &[Bits],
    count: usize,
) -> Result<Vec<Bits>, AllocError>
    requires below { All (Below count) ops.now }
    requires rows { length after.now ≡ length ops.now }
    requires wide { AllWide count after.now }
    ensures rows { IfOk result (λ rows. length rows.items ≡ 20) }
    ensures wide { IfOk result (λ rows. AllWide count rows.items) }
    ensures set { IfOk result (λ rows. EachHas 20 rows.items
        (λ place v. any_below (length ops.now) (λ i. is_taken ops.now after.now i v place))) }
{
    let mut rows = Vec::new(alloc);
    for place in 0..20u8 {
        rows.push(taken_row(alloc, ops, after, count, place)?)?;
    }
    Ok(rows)
}
