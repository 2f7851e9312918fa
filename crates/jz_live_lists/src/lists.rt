//! Ordered lists of variables.

ghost use Rattle.std.specs.Prelude.{◌≡◌, ℕ, ◌||◌, ◌&&◌, not, IfOk, OnOk};
ghost use Rattle.jz_ir.specs.Paths.{among};
ghost use Rattle.jz_live.specs.Lives.{transfer};

use jz_data::Seq;
use jz_ir::Op;
use std::alloc::{AllocError, Global};

fn is_among(variables: &Seq<u32>, variable: u32) -> bool
    ensures { result ≡ among variables.now variable }
{
    for other in variables.as_slice() {
        if *other == variable {
            return true;
        }
    }
    false
}

/// Those of both, in their order where both are in order.
fn joined(alloc: Global, one: &Seq<u32>, other: &Seq<u32>) -> Result<Seq<u32>, AllocError>
    ensures { IfOk result (λ both. (variable : ℕ)
        → among both variable ≡ (among one.now variable || among other.now variable)) }
{
    let first = one.as_slice();
    let second = other.as_slice();
    let mut both = Seq::new(alloc);
    let mut i = 0;
    let mut j = 0;
    while i < first.len() && j < second.len() {
        if first[i] < second[j] {
            both.push(first[i])?;
            i += 1;
        } else if second[j] < first[i] {
            both.push(second[j])?;
            j += 1;
        } else {
            both.push(first[i])?;
            i += 1;
            j += 1;
        }
    }
    while i < first.len() {
        both.push(first[i])?;
        i += 1;
    }
    while j < second.len() {
        both.push(second[j])?;
        j += 1;
    }
    Ok(both)
}

/// Adds those of another list.
pub(crate) fn add_all(alloc: Global, live: &mut Seq<u32>, more: &Seq<u32>) -> Result<(), AllocError>
    ensures { OnOk result ((variable : ℕ)
        → among live.new variable ≡ (among live.old variable || among more.now variable)) }
{
    let both = joined(alloc, live, more)?;
    *live = both;
    Ok(())
}

/// Those that an operation does not write.
fn without(alloc: Global, live: &Seq<u32>, writes: &Seq<u32>) -> Result<Seq<u32>, AllocError>
    ensures { IfOk result (λ left. (variable : ℕ)
        → among left variable ≡ (not (among writes.now variable) && among live.now variable)) }
{
    let mut left = Seq::new(alloc);
    for variable in live.as_slice() {
        if !is_among(writes, *variable) {
            left.push(*variable)?;
        }
    }
    Ok(left)
}

/// What is live before an operation, by what is live after it.
pub(crate) fn before_op(alloc: Global, op: &Op, live: &Seq<u32>) -> Result<Seq<u32>, AllocError>
    ensures { IfOk result (λ before. (variable : ℕ) → among before variable
        ≡ transfer (among op.now.reads variable) (among op.now.writes variable)
        (among live.now variable)) }
{
    let mut before = without(alloc, live, &op.writes)?;
    for variable in op.reads.as_slice() {
        before = joined(alloc, &Seq::from_slice(alloc, &[*variable])?, &before)?;
    }
    Ok(before)
}
