//! How many results and operands there are.

ghost use Rattle.std.specs.Prelude.{◌≡◌, ◌∷◌, []};
ghost use Rattle.jz_instructions.specs.Refusals.{FindsOr};
ghost use Rattle.jz_instructions.specs.InnerRows.{NotOneOne, NotOneTwo, NotOneThree};
ghost use Rattle.jz_instructions.specs.InnerRows.{NotNoneTwo, NotTwoTwo, NotTwoThree};

use jz_tree::{Expr, Lval};

pub(crate) fn one_one<'a>(to: &'a [Lval], args: &'a [Expr]) -> Option<(&'a Lval, &'a Expr)>
    ensures { FindsOr result (λ r. (to.now ≡ r.0.now ∷ []) × (args.now ≡ r.1.now ∷ []))
        (NotOneOne to.now args.now) }
{
    match to {
        [d] => match args {
            [a] => Some((d, a)),
            _ => None,
        },
        _ => None,
    }
}

pub(crate) fn one_two<'a>(
    to: &'a [Lval],
    args: &'a [Expr],
) -> Option<(&'a Lval, &'a Expr, &'a Expr)>
    ensures { FindsOr result
        (λ r. (to.now ≡ r.0.now ∷ []) × (args.now ≡ r.1.now ∷ r.2.now ∷ []))
        (NotOneTwo to.now args.now) }
{
    match to {
        [d] => match args {
            [a, b] => Some((d, a, b)),
            _ => None,
        },
        _ => None,
    }
}

pub(crate) fn one_three<'a>(
    to: &'a [Lval],
    args: &'a [Expr],
) -> Option<(&'a Lval, &'a Expr, &'a Expr, &'a Expr)>
    ensures { FindsOr result
        (λ r. (to.now ≡ r.0.now ∷ []) × (args.now ≡ r.1.now ∷ r.2.now ∷ r.3.now ∷ []))
        (NotOneThree to.now args.now) }
{
    match to {
        [d] => match args {
            [a, b, c] => Some((d, a, b, c)),
            _ => None,
        },
        _ => None,
    }
}

pub(crate) fn none_two<'a>(to: &[Lval], args: &'a [Expr]) -> Option<(&'a Expr, &'a Expr)>
    ensures { FindsOr result (λ r. (to.now ≡ []) × (args.now ≡ r.0.now ∷ r.1.now ∷ []))
        (NotNoneTwo to.now args.now) }
{
    match to {
        [] => match args {
            [a, b] => Some((a, b)),
            _ => None,
        },
        _ => None,
    }
}

pub(crate) fn two_two<'a>(
    to: &'a [Lval],
    args: &'a [Expr],
) -> Option<(&'a Lval, &'a Lval, &'a Expr, &'a Expr)>
    ensures { FindsOr result
        (λ r. (to.now ≡ r.0.now ∷ r.1.now ∷ []) × (args.now ≡ r.2.now ∷ r.3.now ∷ []))
        (NotTwoTwo to.now args.now) }
{
    match to {
        [d, e] => match args {
            [a, b] => Some((d, e, a, b)),
            _ => None,
        },
        _ => None,
    }
}

/// Two results and three operands.
#[derive(Clone, Copy)]
pub(crate) struct TwoThree<'a> {
    pub(crate) first: &'a Lval,
    pub(crate) second: &'a Lval,
    pub(crate) high: &'a Expr,
    pub(crate) low: &'a Expr,
    pub(crate) by: &'a Expr,
}

pub(crate) fn two_three<'a>(to: &'a [Lval], args: &'a [Expr]) -> Option<TwoThree<'a>>
    ensures { FindsOr result
        (λ r. (to.now ≡ r.first.now ∷ r.second.now ∷ [])
        × (args.now ≡ r.high.now ∷ r.low.now ∷ r.by.now ∷ []))
        (NotTwoThree to.now args.now) }
{
    match to {
        [first, second] => match args {
            [high, low, by] => Some(TwoThree {
                first,
                second,
                high,
                low,
                by,
            }),
            _ => None,
        },
        _ => None,
    }
}
