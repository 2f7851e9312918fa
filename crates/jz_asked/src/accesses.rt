//! Conditions of accesses to memory, and of divisions.

ghost use Rattle.std.specs.Prelude.{◌≡◌, nat_lt, IfOk};
ghost use Rattle.std.specs.Option.{option_or};
ghost use Rattle.jz_terms.specs.Terms.{term_of, place_of};
ghost use Rattle.jz_facts.specs.Intervals as intervals;
ghost use Rattle.jz_facts.specs.Intervals.{size_or_64};
ghost use Rattle.jz_meaning.specs.declared.value.Why.TheVariants.{Divide};
ghost use Rattle.jz_inside.specs.Said.{given_in, facts_in};
ghost use Rattle.jz_alarms.specs.Conditions as conditions;
ghost use Rattle.jz_asked.specs.InnerAsked.{shown};

use crate::alarms::{About, Asked, first_of, unless};
use crate::sizes::{bytes, or_64};
use jz_fact_readings::{interval, is_multiple};
use jz_fact_sets::Saying;
use jz_inside::is_inside;
use jz_meaning::Why;
use jz_tree::{Access, BinOp, Expr, Intrinsic, Span};
use std::alloc::{AllocError, Global};
use x64_insn::Size;

/// The size of an access, where this is the size of the other side.
fn access_size(access: &Access, wanted: Option<Size>) -> Size
    ensures { result ≡ size_or_64 (option_or (place_of access.now).spot.size wanted) }
{
    or_64(access.size.or(wanted))
}

fn access_span(access: &Access) -> Span
    ensures { result ≡ (place_of access.now).spot.span }
{
    access.span
}

fn is_unaligned(access: &Access) -> bool
    ensures { result ≡ (place_of access.now).spot.unaligned }
{
    access.unaligned
}

fn address_of<'e>(access: &'e Access) -> &'e Expr
    ensures { term_of result.now ≡ (place_of access.now).at }
{
    access.at.get()
}

/// An access lies in a region, and its address is a multiple of its size.
pub(crate) fn asks_access<'e>(
    alloc: Global,
    says: Saying<'_, '_>,
    wanted: Option<Size>,
    access: &'e Access,
) -> Result<Option<Asked<'e>>, AllocError>
    ensures { IfOk result (λ found. shown found
        ≡ conditions.asks_access (given_in says.entry) (facts_in says.entry)
        (place_of access.now).spot
        (size_or_64 (option_or (place_of access.now).spot.size wanted))
        (place_of access.now).at) }
{
    let size = access_size(access, wanted);
    let span = access_span(access);
    let address = address_of(access);
    let inside = is_inside(alloc, says, size, address)?;
    let aligned = is_unaligned(access) || is_multiple(&says, address, bytes(size));
    let first = unless(inside, span, Why::Address, About::Memory);
    Ok(first_of(first, unless(aligned, span, Why::Align, About::Memory)))
}

/// Whether a division by this is never stuck.
fn divides(says: Saying<'_, '_>, op: BinOp, size: Size, divisor: &Expr) -> bool
    ensures { result ≡ conditions.divides (given_in says.entry) (facts_in says.entry) op size
        (term_of divisor.now) }
{
    match op {
        BinOp::Div | BinOp::Rem => interval(&says, size, divisor).lo >= 1,
        BinOp::DivS | BinOp::RemS => {
            let found = interval(&says, size, divisor);
            found.lo >= 1 && found.hi < size.half()
        }
        _ => true,
    }
}

/// What a word is divided by is not 0, nor minus one.
pub(crate) fn asks_divisor<'e>(
    says: Saying<'_, '_>,
    op: BinOp,
    wanted: Option<Size>,
    divisor: &Expr,
    span: Span,
) -> Option<Asked<'e>>
    ensures { shown result ≡ conditions.unless (conditions.divides (given_in says.entry)
        (facts_in says.entry) op (size_or_64 wanted) (term_of divisor.now)) span Divide
        conditions.division }
{
    unless(
        divides(says, op, or_64(wanted), divisor),
        span,
        Why::Divide,
        About::Division,
    )
}

/// Whether the high word of a dividend is below the divisor.
fn is_below(says: Saying<'_, '_>, size: Size, high: &Expr, divisor: &Expr) -> bool
    ensures { result ≡ nat_lt
        (intervals.interval (given_in says.entry) (facts_in says.entry) size (term_of high.now)).hi
        (intervals.interval (given_in says.entry) (facts_in says.entry) size
        (term_of divisor.now)).lo }
{
    interval(&says, size, high).hi < interval(&says, size, divisor).lo
}

/// The quotient of an instruction that divides has room.
pub(crate) fn asks_division<'e>(
    says: Saying<'_, '_>,
    name: Intrinsic,
    size: Size,
    args: &[Expr],
    span: Span,
) -> Option<Asked<'e>>
    ensures { shown result ≡ conditions.asks_division (given_in says.entry) (facts_in says.entry)
        name size args.now span }
{
    match name {
        Intrinsic::Div => match args {
            [high, _, divisor] => unless(
                is_below(says, size, high, divisor),
                span,
                Why::Divide,
                About::Division,
            ),
            _ => None,
        },
        _ => None,
    }
}
