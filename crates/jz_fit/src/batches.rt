//! How many variables to look at together. What is found here promises nothing: whatever part of
//! the order is taken next, the places are the same, and only the time that it takes differs.

ghost use Rattle.std.specs.Prelude.{◌≡◌, ◌<◌, ◌≤◌, length, IfOk, OnOk};
ghost use Rattle.std.specs.List.{All};
ghost use Rattle.jz_ir.specs.Places.{Below};

use jz_data::Seq;
use jz_ir::Op;
use std::alloc::{AllocError, Global};

/// So many variables may be live at once. Where each variable is set before it is read, of those
/// that have places at most twenty are.
const FEW: usize = 64;

/// The first operation that names a variable, and the one behind the last.
#[derive(Clone, Copy, Drop)]
pub(crate) struct Reach {
    first: usize,
    end: usize,
}

fn reach_more(reaches: &mut Vec<Reach>, variables: &Seq<u32>, at: usize)
    ensures { length reaches.new.items ≡ length reaches.old.items }
{
    for variable in variables.as_slice() {
        let index = *variable as usize;
        if index < reaches.len() {
            let reach = reaches[index];
            if reach.first >= reach.end {
                reaches[index].first = at;
            }
            reaches[index].end = at.saturating_add(1);
        }
    }
}

/// From where to where the code names each variable.
pub(crate) fn reaches_of(
    alloc: Global,
    ops: &[Op],
    count: usize,
) -> Result<Vec<Reach>, AllocError> {
    let none = Reach { first: 0, end: 0 };
    let mut reaches = vec![in alloc; none; count]?;
    for i in 0..ops.len() {
        reach_more(&mut reaches, &ops[i].reads, i);
        reach_more(&mut reaches, &ops[i].writes, i);
    }
    Ok(reaches)
}

/// Adds one to a count, or takes one away, where there is one.
fn change(counts: &mut Vec<i64>, at: usize, by: i64)
    ensures { length counts.new.items ≡ length counts.old.items }
{
    if at < counts.len() {
        counts[at] = counts[at].saturating_add(by);
    }
}

/// Whether no more than a few of the variables reach over any operation.
fn are_few(
    alloc: Global,
    reaches: &[Reach],
    operations: usize,
    variables: &[u32],
) -> Result<bool, AllocError> {
    let mut counts = vec![in alloc; 0i64; operations]?;
    for variable in variables {
        if let Some(reach) = reaches.get(*variable as usize) {
            change(&mut counts, reach.first, 1);
            change(&mut counts, reach.end, -1);
        }
    }
    Ok(is_flat(counts.as_slice()))
}

/// Whether the sum of the first so many is never past the limit.
fn is_flat(counts: &[i64]) -> bool {
    let mut sum: i64 = 0;
    for count in counts {
        sum = sum.saturating_add(*count);
        if sum > FEW as i64 {
            return false;
        }
    }
    true
}

/// Where the part of the order ends that is looked at next: all that is left, or its half, and so
/// on, until few of its variables reach over any operation.
pub(crate) fn batch_end(
    alloc: Global,
    reaches: &[Reach],
    operations: usize,
    order: &[u32],
    from: usize,
) -> Result<usize, AllocError>
    requires { from < length order.now }
    ensures more { IfOk result (λ to. from < to) }
    ensures within { IfOk result (λ to. to ≤ length order.now) }
{
    let mut size = order.len() - from;
    while size > FEW {
        if are_few(alloc, reaches, operations, &order[from..from + size])? {
            return Ok(from + size);
        }
        size /= 2;
    }
    Ok(from + size)
}
