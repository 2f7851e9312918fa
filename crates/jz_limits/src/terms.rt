//! Sums of inline terms, which may be larger than a number of 128 bits.

ghost use Rattle.std.specs.Prelude.{◌≡◌, ◌||◌, IfOk, pos, ◌+ℤ◌, ◌-ℤ◌};
ghost use Rattle.std.specs.Ordering.{int_eq};
ghost use Rattle.jz_meaning.specs.declared.access.Kind.TheVariants as kind;
ghost use Rattle.jz_limits.specs.Asked.{has_displacement, has_index, is_scale};
ghost use Rattle.jz_limits.specs.InnerLooked.{total, turned_by};

use jz_meaning::Kind;
use jz_words::{Size, fits_four_bytes, reading};
use std::alloc::AllocError;

/// A sum, as what is left of it in 128 bits with a sign, and how many times 2 to the 128 that is too
/// little.
#[derive(Clone, Copy)]
pub struct Terms {
    pub rest: i128,
    pub turns: i64,
}

pub fn of_number(n: i128) -> Terms
    ensures { total result ≡ n }
{
    Terms { rest: n, turns: 0 }
}

fn sum(a: i128, b: i128) -> Terms
    ensures { total result ≡ a +ℤ b }
{
    match a.checked_add(b) {
        Some(rest) => Terms { rest, turns: 0 },
        None => {
            if a < 0 {
                Terms {
                    rest: (a + i128::MAX + 1) + (b + i128::MAX + 1),
                    turns: -1,
                }
            } else {
                Terms {
                    rest: (a + i128::MIN) + (b + i128::MIN),
                    turns: 1,
                }
            }
        }
    }
}

fn difference(a: i128, b: i128) -> Terms
    ensures { total result ≡ a -ℤ b }
{
    if b != i128::MIN {
        return sum(a, -b);
    }
    if a < 0 {
        Terms {
            rest: a - i128::MIN,
            turns: 0,
        }
    } else {
        Terms {
            rest: a + i128::MIN,
            turns: 1,
        }
    }
}

/// A sum with the turns of another. No memory has room for so many terms that their turns have no
/// 64 bits.
fn turned(terms: Terms, more: Terms) -> Result<Terms, AllocError>
    ensures { IfOk result (λ t. total t ≡ total terms +ℤ turned_by more) }
{
    match terms.turns.checked_add(more.turns) {
        None => Err(AllocError),
        Some(turns) => Ok(Terms {
            rest: terms.rest,
            turns,
        }),
    }
}

pub fn added(a: Terms, b: Terms) -> Result<Terms, AllocError>
    ensures { IfOk result (λ t. total t ≡ total a +ℤ total b) }
{
    let rest = turned(sum(a.rest, b.rest), a)?;
    let whole = turned(rest, b)?;
    Ok(whole)
}

pub fn less(a: Terms, b: i128) -> Result<Terms, AllocError>
    ensures { IfOk result (λ t. total t ≡ total a -ℤ b) }
{
    let whole = turned(difference(a.rest, b), a)?;
    Ok(whole)
}

/// Whether a displacement has room for a sum.
#[tactic(auto, using(crate::proofs::Sums::same_displacement))]
pub fn is_displacement(terms: Terms) -> bool
    ensures { result ≡ has_displacement (total terms) }
{
    fits_four_bytes(reading(Size::S64, terms.rest))
}

/// Whether the displacement of an index of cells of that size has room for a sum.
fn is_cell_index(size: Size, terms: Terms) -> bool
    ensures { result ≡ has_index (kind.Array size 0) (total terms) }
{
    if terms.turns != 0 {
        return false;
    }
    match terms.rest.checked_mul(size.bytes() as i128) {
        None => false,
        Some(bytes) => -0x8000_0000 <= bytes && bytes < 0x4000_0000,
    }
}

pub fn is_index(kind: Kind, terms: Terms) -> bool
    ensures { result ≡ has_index kind (total terms) }
{
    match kind {
        Kind::Undeclared => true,
        Kind::Int => true,
        Kind::Bool => true,
        Kind::Word(_) => true,
        Kind::Array(size, _) => is_cell_index(size, terms),
    }
}

fn is_one_or_two(scale: i128) -> bool
    ensures { result ≡ (int_eq scale (pos 1) || int_eq scale (pos 2)) }
{
    scale == 1 || scale == 2
}

fn is_four_or_eight(scale: i128) -> bool
    ensures { result ≡ (int_eq scale (pos 4) || int_eq scale (pos 8)) }
{
    scale == 4 || scale == 8
}

/// Whether an address has a field for that scale.
pub fn is_scale(n: i128) -> bool
    ensures { result ≡ is_scale n }
{
    let scale = reading(Size::S64, n);
    is_one_or_two(scale) || is_four_or_eight(scale)
}
