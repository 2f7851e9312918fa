//! The sizes that are wanted of operands.

ghost use Rattle.std.specs.Prelude.{◌≡◌, ◌∷◌, true};
ghost use Rattle.jz_facts.specs.Facts.{is_among, multiples};
ghost use Rattle.jz_facts.specs.Intervals.{size_or_64};
ghost use Rattle.x64_insn.specs.Sizes.{bytes_of};
ghost use Rattle.jz_meaning.specs.Values as values;
ghost use Rattle.jz_terms.specs.Terms.{size_in, term_of};

use jz_meaning::{gives_word, own_size};
use jz_tree::{BinOp, Expr, is_shift};
use x64_insn::Size;

/// The size that an expression has by itself.
pub(crate) fn size_of(e: &Expr) -> Option<Size>
    ensures { result ≡ size_in (term_of e.now) }
{
    own_size(e)
}

/// The size of an operation.
fn size_of_operation(op: BinOp, left: &Expr, right: &Expr) -> Option<Size>
    requires { values.gives_word op ≡ true }
    ensures { result ≡ values.size_of_operation op (size_in (term_of left.now))
        (size_in (term_of right.now)) }
{
    if is_shift(op) {
        return size_of(left);
    }
    size_of(left).or(size_of(right))
}

/// What is wanted of the left operand where this is wanted of the whole.
pub(crate) fn left_wanted(
    op: BinOp,
    wanted: Option<Size>,
    left: &Expr,
    right: &Expr,
) -> Option<Size>
    ensures { result ≡ values.left_wanted op wanted (size_in (term_of left.now))
        (size_in (term_of right.now)) }
{
    if !gives_word(op) {
        return size_of(left).or(size_of(right));
    }
    match wanted {
        None => size_of_operation(op, left, right),
        Some(size) => Some(size),
    }
}

pub(crate) fn or_64(size: Option<Size>) -> Size
    ensures { result ≡ size_or_64 size }
{
    match size {
        None => Size::S64,
        Some(size) => size,
    }
}

/// The bytes of a size.
pub(crate) fn bytes(size: Size) -> u64
    ensures value { result ≡ bytes_of size }
    ensures multiple { is_among result (1 ∷ multiples) ≡ true }
{
    match size {
        Size::S8 => 1,
        Size::S16 => 2,
        Size::S32 => 4,
        Size::S64 => 8,
    }
}
