//! Which annotations of a function are refused, and what the others ask.

ghost use Rattle.std.specs.Prelude.{◌≡◌, ◌++◌, [], Option, Some, map, IfOk, OnOk, MatchResult};
ghost use Rattle.jz_tree.specs.Failures.{IfRefused};
ghost use Rattle.jz_type_names.specs.Order.{earliest, first_in, FindsEarliest};
ghost use Rattle.jz_preconditions.specs.Naming.{parameters_of};
ghost use Rattle.jz_preconditions.specs.Stating.{stated_by, stated_in, some_of, pres_of};
ghost use Rattle.jz_preconditions.specs.Stating.{preconditions_of};
ghost use Rattle.jz_preconditions.specs.Refusals.{shapeless_places, shapeless_by, empty_places};
ghost use Rattle.jz_preconditions.specs.Refusals.{is_empty_range, refused_places};
ghost use Rattle.jz_preconditions.specs.InnerTables.{parameter_in};

use crate::naming::{is_precondition, names_parameters};
use crate::parameters::Parameters;
use crate::stated::Stated;
use crate::table::Table;
use jz_annotations::{Pre, said};
use jz_tree::{Failure, Fun, Note, Seq, Span};
use jz_type_names::{earlier_of, unless};
use std::alloc::{AllocError, Global};

/// What the entries before a function say, and the first that ought to say something and does not.
#[derive(Drop)]
struct Entries {
    stated: Seq<Stated>,
    shapeless: Option<Span>,
}

/// What an entry says, where it names parameters.
fn stated_by(
    alloc: Global,
    parameters: &Parameters,
    note: &Note,
) -> Result<Option<Stated>, AllocError>
    ensures { IfOk result (λ s. s ≡ stated_by (parameter_in parameters.now) note.now) }
{
    match said(alloc, note)? {
        None => Ok(None),
        Some(pre) => {
            if names_parameters(parameters, &pre) {
                Ok(Some(Stated {
                    pre,
                    span: note.span,
                }))
            } else {
                Ok(None)
            }
        }
    }
}

fn shapeless(note: &Note, stated: &Option<Stated>) -> Option<Span>
    ensures { result ≡ earliest (shapeless_by note.now stated.now) }
{
    unless(!is_precondition(note) || stated.is_some(), note.span)
}

fn add(list: &mut Seq<Stated>, stated: Option<Stated>) -> Result<(), AllocError>
    ensures { OnOk result (list.new ≡ list.old ++ some_of stated) }
{
    match stated {
        None => Ok(()),
        Some(stated) => {
            list.push(stated)?;
            Ok(())
        }
    }
}

fn read_entries(
    alloc: Global,
    parameters: &Parameters,
    notes: &Seq<Note>,
) -> Result<Entries, AllocError>
    ensures stated { IfOk result
        (λ e. e.stated ≡ stated_in (parameter_in parameters.now) notes.now) }
    ensures shapeless { IfOk result
        (λ e. e.shapeless ≡ first_in (shapeless_places (parameter_in parameters.now)) notes.now) }
{
    let mut stated = Seq::new(alloc);
    let mut first = None;
    for note in notes.as_slice() {
        let one = stated_by(alloc, parameters, note)?;
        first = earlier_of(first, shapeless(note, &one));
        add(&mut stated, one)?;
    }
    Ok(Entries {
        stated,
        shapeless: first,
    })
}

fn is_empty_range(pre: &Pre) -> bool
    ensures { result ≡ is_empty_range pre.now }
{
    match pre {
        Pre::Region { .. } => false,
        Pre::Range { low, high, .. } => high < low,
        Pre::Align { .. } => false,
    }
}

fn empty(stated: &Stated) -> Option<Span>
    ensures { result ≡ earliest (empty_places stated.now) }
{
    unless(!is_empty_range(&stated.pre), stated.span)
}

/// The first range without a number.
fn first_empty(stated: &Seq<Stated>) -> Option<Span>
    ensures { result ≡ first_in empty_places stated.now }
{
    let mut first = None;
    for one in stated.as_slice() {
        first = earlier_of(first, empty(one));
    }
    first
}

/// What is stated before a function, and the first of it that is refused.
#[derive(Drop)]
struct Judged {
    stated: Seq<Stated>,
    refused: Option<Span>,
}

fn judge(alloc: Global, fun: &Fun) -> Result<Judged, AllocError>
    ensures stated { IfOk result
        (λ j. j.stated ≡ stated_in (parameters_of fun.now) fun.now.notes) }
    ensures refused { IfOk result (λ j. j.refused ≡ earliest (refused_places fun.now)) }
{
    let mut table = Table::new(alloc, fun)?;
    let Entries { stated, shapeless } = read_entries(alloc, &table.parameters, &fun.notes)?;
    let repeated = table.add_all(&stated)?;
    let early = earlier_of(earlier_of(shapeless, first_empty(&stated)), repeated);
    let valueless = earlier_of(early, table.first_valueless(&stated));
    let refused = earlier_of(valueless, table.first_far(&stated));
    Ok(Judged { stated, refused })
}

/// The place of the first annotation before an export function that is refused.
pub fn refused(alloc: Global, fun: &Fun) -> Result<Option<Span>, AllocError>
    ensures { FindsEarliest result (refused_places fun.now) }
{
    let judged = judge(alloc, fun)?;
    Ok(judged.refused)
}

fn without_places(alloc: Global, stated: Seq<Stated>) -> Result<Seq<Pre>, AllocError>
    ensures { IfOk result (λ pres. pres ≡ pres_of stated) }
{
    let mut pres = Seq::new(alloc);
    for one in stated.into_vec() {
        pres.push(one.pre)?;
    }
    Ok(pres)
}

/// The preconditions of an export function, in the order of its text; or the place of the first
/// annotation that is refused.
pub fn preconditions(alloc: Global, fun: &Fun) -> Result<Seq<Pre>, Failure<Span>>
    ensures { MatchResult result
        (λ pres. (pres ≡ preconditions_of fun.now) × (refused_places fun.now ≡ []))
        (λ failure. IfRefused failure (λ at. earliest (refused_places fun.now) ≡ Some at)) }
{
    let Judged { stated, refused } = judge(alloc, fun)?;
    match refused {
        Some(at) => Err(Failure::Refused(at)),
        None => {
            let pres = without_places(alloc, stated)?;
            Ok(pres)
        }
    }
}
