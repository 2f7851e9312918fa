//! What is reached from a number along rows.

ghost use Rattle.std.specs.Prelude.{◌≡◌, ◌<◌, ◌+◌, ℕ, true, false, [], ◌∷◌, IfOk, OnOk};
ghost use Rattle.std.specs.Prelude.{length, replicate};
ghost use Rattle.jz_secrets.specs.InnerGraphs.{has, row_at, unmarked, MarksRow, AreReached};

use jz_tree::Seq;
use std::alloc::{AllocError, Global};

/// Marks each of a row; those that were not marked are left to be gone on from.
fn mark_row(
    row: &Seq<usize>,
    marked: &mut Vec<bool>,
    left: &mut Vec<usize>,
) -> Result<(), AllocError>
    requires { (n : ℕ) → has row.now n ≡ true → n < length marked.old.items }
    ensures marks { OnOk result
        (MarksRow row.now marked.old.items marked.new.items left.old.items left.new.items) }
    ensures fewer { OnOk result (unmarked marked.new.items + length left.new.items
        ≡ unmarked marked.old.items + length left.old.items) }
{
    for next in row.as_slice() {
        mark(*next, marked, left)?;
    }
    Ok(())
}

/// Marks a number, and leaves it to be gone on from where it was not.
fn mark(number: usize, marked: &mut Vec<bool>, left: &mut Vec<usize>) -> Result<(), AllocError>
    requires { number < length marked.old.items }
    ensures marks { OnOk result (MarksRow (number ∷ []) marked.old.items marked.new.items
        left.old.items left.new.items) }
    ensures fewer { OnOk result (unmarked marked.new.items + length left.new.items
        ≡ unmarked marked.old.items + length left.old.items) }
{
    if marked[number] {
        return Ok(());
    }
    marked[number] = true;
    left.push(number)?;
    Ok(())
}

fn none_marked(alloc: Global, count: usize) -> Result<Vec<bool>, AllocError>
    ensures { IfOk result (λ marked. marked.items ≡ replicate count false) }
{
    let marked = vec![in alloc; false; count]?;
    Ok(marked)
}

/// Which numbers are reached along rows from one of them, with this.
pub(crate) fn reached(
    alloc: Global,
    rows: &[Seq<usize>],
    start: usize,
) -> Result<Vec<bool>, AllocError>
    requires start { start < length rows.now }
    requires within { (u v : ℕ) → has (row_at rows.now u) v ≡ true → v < length rows.now }
    ensures { IfOk result (λ marked. AreReached rows.now start marked.items) }
{
    let mut marked = none_marked(alloc, rows.len())?;
    let mut left = Vec::new(alloc);
    mark(start, &mut marked, &mut left)?;
    while let Some(number) = left.pop() {
        mark_row(&rows[number], &mut marked, &mut left)?;
    }
    Ok(marked)
}
