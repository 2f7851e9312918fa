//! Preconditions as they are listed.

ghost use Rattle.std.specs.Prelude.{◌≡◌, IfOk, IfErr, [], map};
ghost use Rattle.jz_data.specs.Failures.{IfRefused};
ghost use Rattle.jz_type_names.specs.Order.{earliest};
ghost use Rattle.jz_preconditions.specs.Refusals.{refused_places};
ghost use Rattle.jz_compiled.specs.Lines.{listed, listed_preconditions};

use jz_listing::Pre;
use jz_preconditions::{Pre as Asked, preconditions};
use jz_tree::{Failure, Fun, Seq, Span};
use std::alloc::{AllocError, Global};

fn listed(pre: Asked) -> Pre
    ensures { result ≡ listed pre }
{
    match pre {
        Asked::Region {
            pointer,
            factor,
            variable,
            constant,
        } => Pre::Region {
            pointer,
            factor,
            variable,
            constant,
        },
        Asked::Range { name, low, high } => Pre::Range { name, low, high },
        Asked::Align { pointer, multiple } => Pre::Align { pointer, multiple },
    }
}

fn one_listed(pre: Asked) -> Result<Pre, AllocError>
    ensures { IfOk result (λ line. line ≡ listed pre) }
{
    Ok(listed(pre))
}

fn all_listed(alloc: Global, pres: Seq<Asked>) -> Result<Seq<Pre>, AllocError>
    ensures { IfOk result (λ lines. lines ≡ map listed pres) }
{
    pres.into_try_map(alloc, one_listed)
}

/// The preconditions that the annotations of an export function state, or the place of the first
/// annotation that is refused.
pub fn asked_lines(alloc: Global, fun: &Fun) -> Result<Seq<Pre>, Failure<Span>>
    ensures lines { IfOk result (λ lines. lines ≡ listed_preconditions fun.now) }
    ensures clear { IfOk result (λ lines. refused_places fun.now ≡ []) }
    ensures refused { IfErr result
        (λ e. IfRefused e (λ at. earliest (refused_places fun.now) ≡ Some at)) }
{
    let pres = preconditions(alloc, fun)?;
    let lines = all_listed(alloc, pres)?;
    Ok(lines)
}
