//! Arrays that are passed twice.

ghost use Rattle.std.specs.Prelude.{◌≡◌, [], ◌∷◌, ◌++◌, List, map, IfOk, OnOk};
ghost use Rattle.std.specs.List.{list_any};
ghost use Rattle.jz_type_names.specs.Order.{earliest, unless};
ghost use Rattle.jz_type_rows.specs.Copies.{Passed, is_written_at, is_twice, passed_twice};
ghost use Rattle.jz_type_rows.specs.InnerPassing.{passed_of};
ghost use Rattle.jz_type_rows.specs.InnerTables.{HasSeen};

use crate::callee::Callee;
use crate::copies::{Argument, is_written_at};
use crate::tables::Names;
use jz_tree::Span;
use jz_type_names::{earlier_of, unless};
use std::alloc::{AllocError, Global};

/// The names of the arrays that were passed, and of those that are written.
#[derive(Drop)]
struct Seen {
    all: Names,
    written: Names,
}

fn is_twice(seen: &Seen, callee: &Callee, passed: &Argument<'_>) -> bool
    ensures { (before : List Passed) → HasSeen seen.now callee.now.written before
        → result ≡ list_any (is_twice callee.now.written (passed_of passed.now)) before }
{
    let name = &passed.array.name;
    seen.written.has(name) || is_written_at(callee, passed.number) && seen.all.has(name)
}

fn add(seen: &mut Seen, callee: &Callee, passed: &Argument<'_>) -> Result<(), AllocError>
    ensures { (before : List Passed) → HasSeen seen.old callee.now.written before
        → OnOk result (HasSeen seen.new callee.now.written (before ++ passed_of passed.now ∷ [])) }
{
    seen.all.add(&passed.array.name)?;
    if is_written_at(callee, passed.number) {
        seen.written.add(&passed.array.name)?;
    }
    Ok(())
}

/// The first array that was passed before, where one of the two is written.
pub(crate) fn passed_twice(
    alloc: Global,
    callee: &Callee,
    passed: &[Argument<'_>],
) -> Result<Option<Span>, AllocError>
    ensures { let all = map passed_of passed.now in
        IfOk result (λ at. at ≡ earliest (passed_twice callee.now.written [] all)) }
{
    let mut seen = Seen {
        all: Names::new(alloc),
        written: Names::new(alloc),
    };
    let mut first = None;
    for one in passed {
        let fine = !is_twice(&seen, callee, one);
        first = earlier_of(first, unless(fine, one.array.span));
        add(&mut seen, callee, one)?;
    }
    Ok(first)
}
