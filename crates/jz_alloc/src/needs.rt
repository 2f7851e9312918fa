//! The needs of a variable, in the order of the text.

ghost use Rattle.std.specs.Prelude.{◌≡◌, ◌<◌, ◌+◌, IfOk, OnOk, []};
ghost use Rattle.jz_alloc.specs.Needs.{need_before};
ghost use Rattle.jz_alloc.specs.InnerNeeds.{insert_need, add_needs, need_list};

use jz_data::Seq;
use jz_io::Span;
use jz_ir::{Need, Op, place_number};
use std::alloc::{AllocError, Global};
use x64_insn::Place;

/// A place that a variable needs, and where in the text.
#[derive(Clone, Copy, PartialEq, Eq)]
pub struct Needed {
    pub place: Place,
    pub span: Span,
}

fn is_before(first: Needed, second: Needed) -> bool
    ensures { result ≡ need_before first second }
{
    if first.span.line != second.span.line {
        return first.span.line < second.span.line;
    }
    if first.span.col != second.span.col {
        return first.span.col < second.span.col;
    }
    place_number(first.place) < place_number(second.place)
}

fn add_need(needs: &mut Vec<Needed>, need: Needed) -> Result<(), AllocError>
    ensures { OnOk result (needs.new.items ≡ insert_need need needs.old.items) }
{
    let mut at = 0;
    while at < needs.len() && is_before(needs[at], need) {
        at += 1;
    }
    if at < needs.len() && !is_before(need, needs[at]) {
        return Ok(());
    }
    needs.insert(at, need)?;
    Ok(())
}

fn add_all(needs: &mut Vec<Needed>, all: &Seq<Need>, variable: u32) -> Result<(), AllocError>
    ensures { OnOk result (needs.new.items ≡ add_needs variable all.now needs.old.items) }
{
    for need in all.as_slice() {
        if need.variable == variable {
            add_need(
                needs,
                Needed {
                    place: need.place,
                    span: need.span,
                },
            )?;
        }
    }
    Ok(())
}

/// Each need of a variable once, in the order of the text.
pub fn needs_of(alloc: Global, ops: &[Op], variable: u32) -> Result<Seq<Needed>, AllocError>
    ensures { IfOk result (λ needs. needs ≡ need_list variable ops.now []) }
{
    let mut needs = Vec::new(alloc);
    for op in ops {
        add_all(&mut needs, &op.needs, variable)?;
    }
    Ok(Seq::from_vec(needs))
}
