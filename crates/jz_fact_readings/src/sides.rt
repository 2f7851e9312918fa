//! The left side of an expression, which may be as long as a text: it is gone down in steps, so that
//! what recurses over it recurses as deep as the logarithm of its length alone.

ghost use Rattle.std.specs.Prelude.{◌≡◌, ◌<◌, ◌≤◌, ◌+◌, ◌-◌};
ghost use Rattle.jz_tree.specs.declared.expr.Expr.{size-Expr};
ghost use Rattle.jz_tree.specs.LeftSides.{IsSingle};
ghost use Rattle.jz_integers.specs.InnerLeftSides.{left_at, left_of};

use jz_tree::Expr;

/// How many steps are gone at once.
pub const MOST: u64 = 0x1_0000_0000;

/// An expression so many steps down the left side of another one.
#[derive(Clone, Copy, Drop)]
pub struct Way<'a> {
    pub first: &'a Expr,
    pub steps: u64,
}

/// The way down to where the left side ends, or as far as `MOST` steps go.
pub fn way_down<'a>(e: &'a Expr) -> Way<'a>
    ensures at { result.first.now ≡ left_at result.steps e.now }
    ensures few { result.steps ≤ 4294967296 }
    ensures smaller { size-Expr result.first.now + result.steps ≤ size-Expr e.now }
    ensures single { result.steps ≡ 0 → IsSingle e.now }
{
    let mut first = e;
    let mut steps = 0;
    while let Expr::Bin(_, left, _, _) = first {
        if steps >= MOST {
            return Way { first, steps };
        }
        first = left.get();
        steps += 1;
    }
    Way { first, steps }
}

/// The left operand, or the expression itself where it has none.
fn left_or_itself<'a>(e: &'a Expr) -> &'a Expr
    ensures { result.now ≡ left_of e.now }
{
    match e {
        Expr::Num(_, _) => e,
        Expr::Bool(_, _) => e,
        Expr::Var(_) => e,
        Expr::Cell(_, _) => e,
        Expr::Load(_) => e,
        Expr::Neg(_, _) => e,
        Expr::Not(_, _) => e,
        Expr::Cast { .. } => e,
        Expr::Bin(_, left, _, _) => left.get(),
    }
}

/// The expression so many steps down.
pub fn down<'a>(e: &'a Expr, steps: u64) -> &'a Expr
    ensures { result.now ≡ left_at steps e.now }
{
    let mut first = e;
    let mut rest = steps;
    while rest > 0 {
        first = left_or_itself(first);
        rest -= 1;
    }
    first
}
