//! Two lists in step.

ghost use Rattle.std.specs.Prelude.{◌≡◌, IfOk, map};
ghost use Rattle.std.specs.List.{zip};
ghost use Rattle.jz_type_rows.specs.InnerPairs.{pair_of};

use std::alloc::{AllocError, Global};

/// Two items that stand at one place of two lists.
#[derive(Drop)]
pub(crate) struct Pair<'a, A, B> {
    pub(crate) left: &'a A,
    pub(crate) right: &'a B,
}

/// As many pairs as the shorter list has items.
pub(crate) fn pairs<'a, A, B>(
    alloc: Global,
    left: &'a [A],
    right: &'a [B],
) -> Result<Vec<Pair<'a, A, B>>, AllocError>
    ensures { IfOk result (λ ps. map pair_of ps.items ≡ zip left.now right.now) }
{
    let mut pairs = Vec::new(alloc);
    for (left, right) in left.iter().zip(right.iter()) {
        pairs.push(Pair { left, right })?;
    }
    Ok(pairs)
}
