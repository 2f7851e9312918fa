//! Whether the variables of operations are below a number.

ghost use Rattle.std.specs.Prelude.{◌≡◌, ◌<◌, ◌≤◌, ◌↔◌, ℕ, IsTrue, length, take};
ghost use Rattle.std.specs.List.{All};
ghost use Rattle.std.specs.Bool.{MatchBool};
ghost use Rattle.jz_ir.specs.Places.{Below};

use crate::code::{Need, Op};

fn variables_below(variables: &[u32], count: usize) -> bool
    ensures { MatchBool result (All (λ v. v < count) variables.now)
        (All (λ v. v < count) variables.now → ⊥) }
{
    for variable in variables {
        if *variable as usize >= count {
            return false;
        }
    }
    true
}

fn needs_below(needs: &[Need], count: usize) -> bool
    ensures { MatchBool result (All (λ k. k.variable < count) needs.now)
        (All (λ k. k.variable < count) needs.now → ⊥) }
{
    for need in needs {
        if need.variable as usize >= count {
            return false;
        }
    }
    true
}

fn is_below(op: &Op, count: usize) -> bool
    ensures { MatchBool result (Below count op.now) (Below count op.now → ⊥) }
{
    variables_below(op.reads.as_slice(), count)
        && variables_below(op.writes.as_slice(), count)
        && needs_below(op.needs.as_slice(), count)
}

/// Whether each variable of the operations is below the number.
pub fn are_below(ops: &[Op], count: usize) -> bool
    ensures { MatchBool result (All (Below count) ops.now) (All (Below count) ops.now → ⊥) }
{
    for op in ops {
        if !is_below(op, count) {
            return false;
        }
    }
    true
}
