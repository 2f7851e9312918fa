//! Alarms.

ghost use Rattle.std.specs.Prelude.{◌≡◌, IfOk};
ghost use Rattle.jz_alarms.specs.Conditions as conditions;
ghost use Rattle.jz_asked.specs.Asked.{target_of, found_of};
ghost use Rattle.jz_asked.specs.InnerAsked.{about, shown};

use jz_meaning::Why;
use jz_tree::{Span, Text, Var};
use std::alloc::AllocError;

/// What an alarm is of.
#[derive(Drop)]
pub enum Target {
    /// A variable, or the scalar that was this cell of a register array.
    Variable(Text, Option<u32>),
    Memory,
    Division,
}

/// A condition that the facts don't give.
#[derive(Drop)]
pub struct Alarm {
    /// The first token of the access or of the division.
    pub span: Span,
    pub why: Why,
    pub target: Target,
}

/// What an alarm is of, where it stands in the text.
#[derive(Clone, Copy)]
pub(crate) enum About<'e> {
    Variable(&'e Var),
    Memory,
    Division,
}

/// An alarm of a text.
#[derive(Clone, Copy)]
pub(crate) struct Asked<'e> {
    pub(crate) span: Span,
    pub(crate) why: Why,
    pub(crate) about: About<'e>,
}

/// The first of two, of which the first one comes first.
pub(crate) fn first_of<'e>(a: Option<Asked<'e>>, b: Option<Asked<'e>>) -> Option<Asked<'e>>
    ensures { shown result
        ≡ conditions.or_else (shown a.entry) (shown b.entry) }
{
    match a {
        None => b,
        Some(_) => a,
    }
}

/// Where a condition holds there is no alarm.
pub(crate) fn unless<'e>(holds: bool, span: Span, why: Why, of: About<'e>) -> Option<Asked<'e>>
    ensures { shown result ≡ conditions.unless holds span why (about of.entry) }
{
    if holds {
        return None;
    }
    Some(Asked {
        span,
        why,
        about: of,
    })
}

fn own_target(of: About<'_>) -> Result<Target, AllocError>
    ensures { IfOk result (λ target. target_of target ≡ about of.entry) }
{
    match of {
        About::Variable(var) => Ok(Target::Variable(var.name.clone()?, var.cell)),
        About::Memory => Ok(Target::Memory),
        About::Division => Ok(Target::Division),
    }
}

/// An alarm with a name of its own.
pub(crate) fn owned(asked: Option<Asked<'_>>) -> Result<Option<Alarm>, AllocError>
    ensures { IfOk result (λ alarm. found_of alarm ≡ shown asked.entry) }
{
    match asked {
        None => Ok(None),
        Some(asked) => {
            let target = own_target(asked.about)?;
            Ok(Some(Alarm {
                span: asked.span,
                why: asked.why,
                target,
            }))
        }
    }
}
