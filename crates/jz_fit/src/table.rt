//! What first fit goes by.

ghost use Rattle.std.specs.Prelude.{◌≡◌, ℕ, ◌<◌, ◌≤◌, ◌&&◌, length, nat_lt, IfOk, slice_index_or, []};
ghost use Rattle.std.specs.List.{All};
ghost use Rattle.jz_bits.specs.Has.{has};
ghost use Rattle.jz_ir.specs.Order.{has_place};
ghost use Rattle.jz_ir.specs.Places.{Below, op_at, is_of_kind, meets};
ghost use Rattle.jz_ir.specs.Tree.{tree_of, ops_of};
ghost use Rattle.jz_alloc.specs.Tables.{row_has};
ghost use Rattle.jz_fit.specs.InnerSeats.{IsTable};

use crate::code::Branching;
use crate::wants::{Wanted, wants_of};
use jz_bits::Bits;
use jz_data::Seq;
use jz_ir::{Kind, Op, place_number};
use jz_live_lists::flat_ops;
use std::alloc::{AllocError, Global};
use x64_insn::Place;

/// The code and its operations one after another, what the needs of each variable leave it, and for
/// each place the operations that write it besides.
#[derive(Drop)]
pub(crate) struct Table<'a> {
    pub(crate) code: &'a Branching,
    pub(crate) ops: Seq<Op>,
    pub(crate) wants: Vec<Wanted>,
    pub(crate) fixed: Vec<Bits>,
}

/// Whether the place is among them.
pub(crate) fn holds(places: &[Place], place: u8) -> bool
    ensures { result ≡ has_place places.now place }
{
    for one in places {
        if place_number(*one) == place {
            return true;
        }
    }
    false
}

/// Words live in registers, the first fifteen places, and flags in the five behind them.
fn is_of_kind(kind: Kind, place: u8) -> bool
    ensures { result ≡ is_of_kind kind place }
{
    match kind {
        Kind::Word => place < 15,
        Kind::Flag => 15 <= place && place < 20,
    }
}

/// The operations that write the place besides.
fn fixed_row(alloc: Global, ops: &[Op], place: u8) -> Result<Bits, AllocError>
    ensures { IfOk result (λ row. (i : ℕ) → has row i
        ≡ (nat_lt i (length ops.now) && has_place (op_at ops.now i).fixed place)) }
{
    let mut row = Bits::new(alloc, ops.len())?;
    for i in 0..ops.len() {
        if holds(ops[i].fixed.as_slice(), place) {
            row.insert(i);
        }
    }
    Ok(row)
}

/// For each place the operations that write it besides.
fn fixed_rows(alloc: Global, ops: &[Op]) -> Result<Vec<Bits>, AllocError>
    ensures count { IfOk result (λ rows. length rows.items ≡ 20) }
    ensures set { IfOk result (λ rows. (q i : ℕ) → q < 20 → row_has rows.items q i
        ≡ (nat_lt i (length ops.now) && has_place (op_at ops.now i).fixed q)) }
{
    let mut rows = Vec::new(alloc);
    for place in 0..20u8 {
        rows.push(fixed_row(alloc, ops, place)?)?;
    }
    Ok(rows)
}

/// The table of the code.
pub(crate) fn table_of(alloc: Global, code: &Branching) -> Result<Table<'_>, AllocError>
    requires { All (Below (length code.now.kinds)) (ops_of (tree_of code.now.nodes)) }
    ensures code { IfOk result (λ table. table.code.now ≡ code.now) }
    ensures table { IfOk result IsTable }
{
    let ops = flat_ops(alloc, &code.nodes)?;
    let wants = wants_of(alloc, ops.as_slice(), code.kinds.len())?;
    let fixed = fixed_rows(alloc, ops.as_slice())?;
    Ok(Table {
        code,
        ops,
        wants,
        fixed,
    })
}

impl Table<'_> {
    /// Whether the place is of the variable's kind and in use, and meets each of its needs.
    pub(crate) fn meets(&self, variable: usize, place: u8) -> bool
        requires table { IsTable self.now }
        requires variable { variable < length self.now.code.now.kinds }
        ensures { result ≡ meets self.now.code.now.kinds self.now.code.now.in_use self.now.ops
            variable place }
    {
        let kind = self.code.kinds.as_slice()[variable];
        let wanted = self.wants[variable];
        is_of_kind(kind, place) && holds(self.code.in_use.as_slice(), place) && wanted.admits(place)
    }
}
