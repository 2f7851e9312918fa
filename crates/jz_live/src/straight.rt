//! Liveness in code without branches.

ghost use Rattle.std.specs.Prelude.{◌≡◌, ℕ, ◌+◌, ◌*◌, ◌/◌, ◌<◌, ◌||◌, ◌&&◌, not, length, IfOk, slice_index_or, []};
ghost use Rattle.std.specs.List.{All};
ghost use Rattle.jz_bits.specs.Has.{has, HasExactly};
ghost use Rattle.jz_ir.specs.Paths.{among};
ghost use Rattle.jz_ir.specs.Straight.{LiveIn};
ghost use Rattle.jz_ir.specs.Places.{Below};
ghost use Rattle.jz_live.specs.Lives.{EachLives};

use jz_bits::Bits;
use jz_data::Seq;
use jz_ir::Op;
use std::alloc::{AllocError, Global};

/// Takes out the variables.
pub fn remove_all(live: &mut Bits, variables: &Seq<u32>)
    requires { All (λ variable. variable < 64 * length live.old) variables.now }
    ensures wide { length live.new ≡ length live.old }
    ensures set { HasExactly live.new (λ v. not (among variables.now v) && has live.old v) }
{
    for variable in variables.as_slice() {
        live.remove(*variable as usize);
    }
}

fn insert_all(live: &mut Bits, variables: &Seq<u32>)
    requires { All (λ variable. variable < 64 * length live.old) variables.now }
    ensures wide { length live.new ≡ length live.old }
    ensures set { HasExactly live.new (λ v. among variables.now v || has live.old v) }
{
    for variable in variables.as_slice() {
        live.insert(*variable as usize);
    }
}

/// From what is live after an operation to what is live before it.
pub(crate) fn step_back(live: &mut Bits, op: &Op)
    requires { Below (64 * length live.old) op.now }
    ensures wide { length live.new ≡ length live.old }
    ensures set { HasExactly live.new
        (λ v. among op.now.reads v || (not (among op.now.writes v) && has live.old v)) }
{
    remove_all(live, &op.writes);
    insert_all(live, &op.reads);
}

/// For each operation the variables live after it.
pub fn live_after(alloc: Global, ops: &[Op], count: usize) -> Result<Vec<Bits>, AllocError>
    requires { All (Below count) ops.now }
    ensures rows { IfOk result (λ rows. length rows.items ≡ length ops.now) }
    ensures wide { IfOk result (λ rows. (i : ℕ) → i < length ops.now
        → length (slice_index_or rows.items i []) ≡ count / 64 + 1) }
    ensures exact { IfOk result
        (λ rows. EachLives (length ops.now) rows.items (LiveIn ops.now)) }
{
    let mut rows = Vec::new(alloc);
    let mut live = Bits::new(alloc, count)?;
    for i in (0..ops.len()).rev() {
        rows.push(live.copy(alloc)?)?;
        step_back(&mut live, &ops[i]);
    }
    rows.reverse();
    Ok(rows)
}
