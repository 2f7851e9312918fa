//! How many statements there are, how deep they stand, and how many there may be.

ghost use Rattle.std.specs.Prelude.{◌≡◌, ◌≤◌, ◌∷◌, [], if◌then◌else◌, nat_lt};
ghost use Rattle.jz_copies.specs.Counts.{most_statements};
ghost use Rattle.jz_copies.specs.InnerCounts.{IsWalked};

/// How many statements a function may have with all that it calls.
const MOST_STATEMENTS: usize = 65_536;

/// How many statements there are, and the depth of the deepest.
#[derive(Clone, Copy)]
pub struct Extent {
    pub count: usize,
    pub deepest: usize,
}

/// A limit of what calls copy.
#[derive(Clone, Copy)]
pub enum CopyLimit {
    /// The number of statements.
    Expand,
}

/// The greater depth.
fn deeper(one: usize, other: usize) -> usize
    ensures { result ≡ (if nat_lt one other then other else one) }
{
    if one < other { other } else { one }
}

/// One more statement, at this depth.
pub(crate) fn one_more(before: Extent, depth: usize) -> Result<Extent, CopyLimit>
    requires { before.count ≤ most_statements }
    ensures { IsWalked before (depth ∷ []) result }
{
    if before.count >= MOST_STATEMENTS {
        return Err(CopyLimit::Expand);
    }
    Ok(Extent {
        count: before.count + 1,
        deepest: deeper(before.deepest, depth),
    })
}
