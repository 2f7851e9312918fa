//! The needs of a variable, in the order of the text.

ghost use Rattle.std.specs.Prelude.{◌≡◌, ◌<◌, ◌≤◌, ◌+◌, length, take, drop, ◌++◌, IfOk, OnOk, [], false, slice_index_or};
ghost use Rattle.jz_alloc.specs.Needs.{need_before};
ghost use Rattle.jz_alloc.specs.InnerNeeds.{insert_need, add_needs, need_list};
ghost use Rattle.jz_fit.specs.InnerAnswers.{Ascend};

use jz_alloc::Needed;
use jz_data::Seq;
use jz_ir::{Need, Op, place_number};
use std::alloc::{AllocError, Global};

fn is_before(first: Needed, second: Needed) -> bool
    ensures { result ≡ need_before first second }
{
    if first.span.line != second.span.line {
        return first.span.line < second.span.line;
    }
    if first.span.col != second.span.col {
        return first.span.col < second.span.col;
    }
    place_number(first.place) < place_number(second.place)
}

/// Where the need stands among the needs, or would stand.
fn place_among(needs: &Vec<Needed>, need: Needed) -> usize
    requires { Ascend needs.now.items }
    ensures within { result ≤ length needs.now.items }
    ensures behind { insert_need need needs.now.items
        ≡ take result needs.now.items ++ insert_need need (drop result needs.now.items) }
    ensures found { result < length needs.now.items
        → need_before (slice_index_or needs.now.items result need) need ≡ false }
{
    let mut low = 0;
    let mut high = needs.len();
    while low < high {
        let middle = low + (high - low) / 2;
        if is_before(needs[middle], need) {
            low = middle + 1;
        } else {
            high = middle;
        }
    }
    low
}

fn add_need(needs: &mut Vec<Needed>, need: Needed) -> Result<(), AllocError>
    requires { Ascend needs.old.items }
    ensures { OnOk result (needs.new.items ≡ insert_need need needs.old.items) }
{
    let at = place_among(needs, need);
    if at < needs.len() && !is_before(need, needs[at]) {
        return Ok(());
    }
    needs.insert(at, need)?;
    Ok(())
}

fn add_all(needs: &mut Vec<Needed>, all: &Seq<Need>, variable: u32) -> Result<(), AllocError>
    requires { Ascend needs.old.items }
    ensures { OnOk result (needs.new.items ≡ add_needs variable all.now needs.old.items) }
{
    for need in all.as_slice() {
        if need.variable == variable {
            add_need(
                needs,
                Needed {
                    place: need.place,
                    span: need.span,
                },
            )?;
        }
    }
    Ok(())
}

/// Each need of a variable once, in the order of the text.
pub(crate) fn needs_of(alloc: Global, ops: &[Op], variable: u32) -> Result<Seq<Needed>, AllocError>
    ensures { IfOk result (λ needs. needs ≡ need_list variable ops.now []) }
{
    let mut needs = Vec::new(alloc);
    for op in ops {
        add_all(&mut needs, &op.needs, variable)?;
    }
    Ok(Seq::from_vec(needs))
}
