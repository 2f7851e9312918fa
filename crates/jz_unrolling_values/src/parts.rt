//! What an expression becomes, as long as it is a part of another one.

ghost use Rattle.std.specs.Prelude.{◌≡◌, false};
ghost use Rattle.jz_tree.specs.Failures.{IfAnswered};
ghost use Rattle.jz_integers.specs.Integers.{KnownNumbers};
ghost use Rattle.jz_tree.specs.declared.expr.Expr.{Expr as Tree};
ghost use Rattle.jz_tree.specs.declared.expr.Expr.TheVariants as expr;
ghost use Rattle.jz_unroll.specs.Values.{InlineNames, has_values};
ghost use Rattle.jz_unrolling_values.specs.Parts.{IsPart, IsValued, written_at};
ghost use Rattle.jz_unrolling_values.specs.Refusals.{OrElse, is_part};

use jz_integers::{Constant, joined};
use jz_tree::{BinOp, Boxed, Expr, Failure, Span};
use std::alloc::Global;

/// An inline expression, whose value counts where no larger one is inline; or any other one, whose
/// inline parts are their values.
#[derive(Drop)]
pub(crate) enum Part {
    Inline(Option<Constant>, Span),
    Plain(Expr),
}

impl Part {
    /// The part as an expression by itself. Refused where it is inline and has no value.
    pub(crate) fn into_expr(self) -> Result<Expr, Failure<Span>>
        ensures { (names : InlineNames) (e : KnownNumbers) (x : Tree) → IsPart names e x self
            → IfAnswered result (OrElse (IsValued names e x) (has_values names e x ≡ false)) }
    {
        match self {
            Part::Plain(expr) => Ok(expr),
            Part::Inline(value, span) => match value {
                None => Err(Failure::Refused(span)),
                Some(constant) => Ok(written(constant, span)),
            },
        }
    }
}

/// A constant as it stands in a text.
fn written(constant: Constant, span: Span) -> Expr
    ensures { result ≡ written_at span constant }
{
    match constant {
        Constant::Int(n) => Expr::Num(n, span),
        Constant::Bool(truth) => Expr::Bool(truth, span),
    }
}

/// An operation on two parts.
pub(crate) fn join(
    alloc: Global,
    op: BinOp,
    left: Part,
    right: Part,
    span: Span,
) -> Result<Part, Failure<Span>>
    ensures { (names : InlineNames) (e : KnownNumbers) (x y : Tree) → IsPart names e x left
        → IsPart names e y right
        → IfAnswered result (OrElse (IsPart names e (expr.Bin op x y span))
        (is_part names e (expr.Bin op x y span) ≡ false)) }
{
    match left {
        Part::Inline(a, at) => match right {
            Part::Inline(b, _) => Ok(Part::Inline(joined(op, a, b), span)),
            Part::Plain(right) => {
                let left = Part::Inline(a, at).into_expr()?;
                let left = Boxed::new(alloc, left)?;
                let right = Boxed::new(alloc, right)?;
                Ok(Part::Plain(Expr::Bin(op, left, right, span)))
            }
        },
        Part::Plain(left) => {
            let right = right.into_expr()?;
            let left = Boxed::new(alloc, left)?;
            let right = Boxed::new(alloc, right)?;
            Ok(Part::Plain(Expr::Bin(op, left, right, span)))
        }
    }
}
