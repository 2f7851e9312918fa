//! For each variable the operations at which it counts.

ghost use Rattle.std.specs.Prelude.{◌≡◌, ℕ, ◌<◌, ◌≤◌, ◌||◌, ◌&&◌, not, false, length, IfOk, OnOk, nat_lt, nat_eq};
ghost use Rattle.std.specs.List.{All};
ghost use Rattle.jz_ir.specs.Paths.{among};
ghost use Rattle.jz_ir.specs.Places.{op_at, Below};
ghost use Rattle.jz_fit.specs.InnerSpots.{list_at, AreWithin, AreSpots};

use jz_data::Seq;
use jz_ir::Op;
use std::alloc::{AllocError, Global};

/// For each variable the operations that write it, those after which it is live, and those across
/// which it is live: it is live after them and they do not write it.
#[derive(Drop)]
pub(crate) struct Spots {
    pub(crate) writes: Vec<Seq<usize>>,
    pub(crate) lives: Vec<Seq<usize>>,
    pub(crate) crosses: Vec<Seq<usize>>,
}

/// Adds an operation to the lists of some variables.
fn add_spot(
    lists: &mut Vec<Seq<usize>>,
    variables: &Seq<u32>,
    spot: usize,
) -> Result<(), AllocError>
    requires { All (λ v. v < length lists.old.items) variables.now }
    ensures rows { OnOk result (length lists.new.items ≡ length lists.old.items) }
    ensures set { OnOk result ((v i : ℕ) → v < length lists.old.items
        → among (list_at lists.new.items v) i
        ≡ (among (list_at lists.old.items v) i || (among variables.now v && nat_eq spot i))) }
{
    for variable in variables.as_slice() {
        lists[*variable as usize].push(spot)?;
    }
    Ok(())
}

fn empty_lists(alloc: Global, count: usize) -> Result<Vec<Seq<usize>>, AllocError>
    ensures rows { IfOk result (λ made. length made.items ≡ count) }
    ensures empty { IfOk result
        (λ made. (v i : ℕ) → v < count → among (list_at made.items v) i ≡ false) }
{
    let mut made = Vec::new(alloc);
    for row in 0..count {
        let _ = row;
        made.push(Seq::new(alloc))?;
    }
    Ok(made)
}

/// For each variable the operations that write it.
fn write_lists(alloc: Global, ops: &[Op], count: usize) -> Result<Vec<Seq<usize>>, AllocError>
    requires { All (Below count) ops.now }
    ensures rows { IfOk result (λ lists. length lists.items ≡ count) }
    ensures tells { IfOk result (λ lists. (v i : ℕ) → v < count → among (list_at lists.items v) i
        ≡ (nat_lt i (length ops.now) && among (op_at ops.now i).writes v)) }
{
    let mut lists = empty_lists(alloc, count)?;
    for i in 0..ops.len() {
        add_spot(&mut lists, &ops[i].writes, i)?;
    }
    Ok(lists)
}

/// For each variable the operations after which it is live.
fn live_lists(
    alloc: Global,
    after: &[Seq<u32>],
    count: usize,
) -> Result<Vec<Seq<usize>>, AllocError>
    requires { AreWithin count after.now }
    ensures rows { IfOk result (λ lists. length lists.items ≡ count) }
    ensures tells { IfOk result (λ lists. (v i : ℕ) → v < count → among (list_at lists.items v) i
        ≡ (nat_lt i (length after.now) && among (list_at after.now i) v)) }
{
    let mut lists = empty_lists(alloc, count)?;
    for i in 0..after.len() {
        add_spot(&mut lists, &after[i], i)?;
    }
    Ok(lists)
}

pub(crate) fn is_among(variables: &Seq<u32>, variable: u32) -> bool
    ensures { result ≡ among variables.now variable }
{
    for other in variables.as_slice() {
        if *other == variable {
            return true;
        }
    }
    false
}

/// The variables live across an operation.
fn across(alloc: Global, after: &Seq<u32>, writes: &Seq<u32>) -> Result<Seq<u32>, AllocError>
    ensures { IfOk result (λ live. (v : ℕ)
        → among live v ≡ (not (among writes.now v) && among after.now v)) }
{
    let mut live = Seq::new(alloc);
    for variable in after.as_slice() {
        if !is_among(writes, *variable) {
            live.push(*variable)?;
        }
    }
    Ok(live)
}

/// For each variable the operations across which it is live.
fn cross_lists(
    alloc: Global,
    ops: &[Op],
    after: &[Seq<u32>],
    count: usize,
) -> Result<Vec<Seq<usize>>, AllocError>
    requires below { AreWithin count after.now }
    requires rows { length after.now ≡ length ops.now }
    ensures rows { IfOk result (λ lists. length lists.items ≡ count) }
    ensures tells { IfOk result (λ lists. (v i : ℕ) → v < count → among (list_at lists.items v) i
        ≡ (nat_lt i (length ops.now)
        && (not (among (op_at ops.now i).writes v) && among (list_at after.now i) v))) }
{
    let mut lists = empty_lists(alloc, count)?;
    for i in 0..ops.len() {
        add_spot(&mut lists, &across(alloc, &after[i], &ops[i].writes)?, i)?;
    }
    Ok(lists)
}

/// The lists of so many variables, by what is live after each operation.
pub(crate) fn spots_of(
    alloc: Global,
    ops: &[Op],
    after: &[Seq<u32>],
    count: usize,
) -> Result<Spots, AllocError>
    requires ops { All (Below count) ops.now }
    requires below { AreWithin count after.now }
    requires rows { length after.now ≡ length ops.now }
    ensures { IfOk result (AreSpots ops.now after.now count) }
{
    let writes = write_lists(alloc, ops, count)?;
    let lives = live_lists(alloc, after, count)?;
    let crosses = cross_lists(alloc, ops, after, count)?;
    Ok(Spots {
        writes,
        lives,
        crosses,
    })
}
