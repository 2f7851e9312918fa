//! What a test takes.

ghost use Rattle.std.specs.Prelude.{IfOk};
ghost use Rattle.jz_limits.specs.InnerKnown.{numbers_of};
ghost use Rattle.jz_integers.specs.Integers.{inline_value as value_of};
ghost use Rattle.jz_first_limit.specs.InnerMet.{IsTest, IsConstantTest};

use jz_integers::{Constant, inline_value};
use jz_limits::{Known, Limit, ask_condition};
use jz_tree::{Expr, Span};
use jz_type_names::{is_inline, span_of};
use std::alloc::{AllocError, Global};

/// The arms of a test that are taken: both of one that stays, else the one of its value; or the limit
/// that it passes.
#[derive(Clone, Copy)]
pub enum Arms {
    Both,
    First,
    Second,
    Neither(Limit),
}

fn constant_arm(span: Span, value: Option<Constant>) -> Arms
    ensures { IsConstantTest span value result }
{
    match value {
        None => Arms::Neither(Limit::InlineWidth(span)),
        Some(Constant::Int(_)) => Arms::Neither(Limit::InlineWidth(span)),
        Some(Constant::Bool(truth)) => { if truth { Arms::First } else { Arms::Second } }
    }
}

/// The arms that a condition takes.
pub fn test(alloc: Global, known: &Known, cond: &Expr) -> Result<Arms, AllocError>
    ensures { IfOk result (IsTest (numbers_of known.now) cond.now) }
{
    if is_inline(cond) {
        let value = inline_value(alloc, known, cond)?;
        Ok(constant_arm(span_of(cond), value))
    } else {
        match ask_condition(alloc, known, cond)? {
            None => Ok(Arms::Both),
            Some(limit) => Ok(Arms::Neither(limit)),
        }
    }
}
