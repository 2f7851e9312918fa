//! The first breach.

ghost use Rattle.std.specs.Prelude.{◌≡◌, map, IfOk};
ghost use Rattle.jz_labels.specs.ConstantTime.{IsFirstBreach};
ghost use Rattle.jz_secrets.specs.Graphs.{array, drawn};
ghost use Rattle.jz_secrets.specs.Kept.{public_by};
ghost use Rattle.jz_drawing.specs.Drawings as drawings;
ghost use Rattle.jz_drawing.specs.Drawings.{IsFree};
ghost use Rattle.jz_drawn_labels.specs.Kept.{asked_of};
ghost use Rattle.jz_breaches.specs.Answers.{plain_block, told};

use crate::statements::draw_block;
use jz_drawn_entries::entry;
use jz_drawn_labels::Ask;
use jz_required::Required;
use jz_secrets::{Secrets, secrets_of};
use jz_tree::{Param, Seq, Stmt};
use std::alloc::{AllocError, Global};

/// The first that is asked to be public and is not.
fn first_asked<'a>(secrets: &Secrets<'a>, asked: &[Ask<'a>]) -> Option<Required<'a>>
    ensures { told result ≡ drawings.first_asked (λ k. public_by secrets.now (array k))
        (λ i. public_by secrets.now (drawn i)) (map asked_of asked.now) }
{
    for ask in asked {
        if !secrets.is_public(ask.at) {
            return Some(ask.required);
        }
    }
    None
}

/// The first that has to be public in expanded order and is secret under the labels with the fewest
/// secrets; none where some labels meet the rules.
pub fn first_breach<'a>(
    alloc: Global,
    params: &'a Seq<Param>,
    body: &'a Seq<Stmt>,
) -> Result<Option<Required<'a>>, AllocError>
    ensures { IfOk result (λ r. IsFree (plain_block body.now)
        → IsFirstBreach params.now (plain_block body.now) (told r)) }
{
    let mut drawing = entry(alloc, params)?;
    draw_block(alloc, &mut drawing, body)?;
    let count = drawing.sheet.next();
    let secrets = secrets_of(alloc, drawing.sheet.edges.as_slice(), count)?;
    Ok(first_asked(&secrets, drawing.sheet.asked.as_slice()))
}
