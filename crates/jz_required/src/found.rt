//! What is found of expressions.

ghost use Rattle.std.specs.Prelude.{◌≡◌, ◌++◌, IfOk, OnOk};
ghost use Rattle.jz_layers.specs.Spots.{variable_key};
ghost use Rattle.jz_required.specs.Readings as readings;
ghost use Rattle.jz_required.specs.Kept.{origin_of, origins_of, demands_of, reason_of, reading_of};

use crate::part::{Part, Reason, Required};
use jz_tree::{Seq, Span, Var};
use std::alloc::{AllocError, Global};

/// What is read, from left to right, and what of it has to be public, in the order of evaluation.
#[derive(Drop)]
pub struct Found<'a> {
    pub parts: Seq<Part<'a>>,
    pub required: Seq<Required<'a>>,
}

/// Nothing.
pub(crate) fn nothing<'a>(alloc: Global) -> Found<'a>
    ensures { reading_of result ≡ readings.no_reading }
{
    Found {
        parts: Seq::new(alloc),
        required: Seq::new(alloc),
    }
}

/// One part, which may be secret.
pub(crate) fn one<'a>(alloc: Global, part: Part<'a>) -> Result<Found<'a>, AllocError>
    ensures { IfOk result (λ f. reading_of f ≡ readings.one_reading (origin_of part.entry)) }
{
    let mut parts = Seq::new(alloc);
    parts.push(part)?;
    Ok(Found {
        parts,
        required: Seq::new(alloc),
    })
}

/// These parts have to be public.
pub(crate) fn require<'a>(
    required: &mut Seq<Required<'a>>,
    parts: &Seq<Part<'a>>,
    span: Span,
    why: Reason,
) -> Result<(), AllocError>
    ensures { OnOk result (demands_of required.new ≡ demands_of required.old
        ++ readings.demands_at span (reason_of why) (origins_of parts.now)) }
{
    for part in parts.as_slice() {
        required.push(Required {
            span,
            why,
            part: *part,
        })?;
    }
    Ok(())
}

/// What has to be public of an index or an address.
pub(crate) fn place<'a>(inner: Found<'a>, span: Span) -> Result<Seq<Required<'a>>, AllocError>
    ensures { IfOk result
        (λ r. demands_of r ≡ readings.place_demands span (reading_of inner.entry)) }
{
    let Found {
        parts,
        mut required,
    } = inner;
    require(&mut required, &parts, span, Reason::Address)?;
    Ok(required)
}

/// A cell of an array.
pub(crate) fn cell<'a>(
    alloc: Global,
    array: &'a Var,
    inner: Found<'a>,
    span: Span,
) -> Result<Found<'a>, AllocError>
    ensures { IfOk result (λ f. reading_of f ≡ readings.cell_reading (variable_key array.now) span
        (reading_of inner.entry)) }
{
    let Found {
        parts: read,
        mut required,
    } = inner;
    require(&mut required, &read, span, Reason::Address)?;
    let mut parts = Seq::new(alloc);
    parts.push(Part::Array(array))?;
    parts.append(read)?;
    Ok(Found { parts, required })
}

/// What memory holds at an address.
pub(crate) fn load<'a>(alloc: Global, inner: Found<'a>, span: Span) -> Result<Found<'a>, AllocError>
    ensures { IfOk result
        (λ f. reading_of f ≡ readings.load_reading span (reading_of inner.entry)) }
{
    let required = place(inner, span)?;
    let mut parts = Seq::new(alloc);
    parts.push(Part::Memory)?;
    Ok(Found { parts, required })
}

/// One after another.
pub(crate) fn both<'a>(left: Found<'a>, right: Found<'a>) -> Result<Found<'a>, AllocError>
    ensures { IfOk result (λ f. reading_of f
        ≡ readings.both_readings (reading_of left.entry) (reading_of right.entry)) }
{
    let Found {
        mut parts,
        mut required,
    } = left;
    let Found {
        parts: more,
        required: rest,
    } = right;
    parts.append(more)?;
    required.append(rest)?;
    Ok(Found { parts, required })
}

/// Both operands of an operation, which have to be public where it divides.
pub(crate) fn operation<'a>(
    divides: bool,
    span: Span,
    left: Found<'a>,
    right: Found<'a>,
) -> Result<Found<'a>, AllocError>
    ensures { IfOk result (λ f. reading_of f ≡ readings.operation_reading divides span
        (reading_of left.entry) (reading_of right.entry)) }
{
    let joined = both(left, right)?;
    if !divides {
        return Ok(joined);
    }
    let Found {
        parts,
        mut required,
    } = joined;
    require(&mut required, &parts, span, Reason::Divide)?;
    Ok(Found { parts, required })
}
