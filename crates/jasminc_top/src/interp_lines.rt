//! The lines that tell why a function of a text in the whole language is not run, without their
//! line feeds.

ghost use Rattle.std.specs.Prelude.{◌≡◌, ◌++◌, OnOk};
ghost use Rattle.jasminc_top.specs.InterpLines.{rule_name, type_line, limit_name, limit_subject};
ghost use Rattle.jasminc_top.specs.InterpLines.{limit_text, unread_text};
ghost use Rattle.jasminc_top.specs.InterpLines.{frame_line};
ghost use Rattle.jasminc_top.specs.InterpLines.{unknown_text, unmet_text, refused_text};

use crate::lines::{write_lex_fault, write_syntax_fault};
use jasminc_interp::Refused;
use jasminc_lines::write_pre;
use jasminc_source::{FunLimit, Unread};
use jz_first_limit::Limit;
use jz_preconditions::Pre;
use jz_text::{write_number, write_span};
use jz_tree::Text;
use jz_types::{TypeFault, TypeRule};
use std::alloc::AllocError;

#[tactic(auto, unfolding(crate::specs::InterpLines::rule_name))]
fn rule_name(rule: TypeRule) -> &'static str
    ensures { result.now ≡ rule_name rule }
{
    match rule {
        TypeRule::Unknown => "Unknown",
        TypeRule::Duplicate => "Duplicate",
        TypeRule::Mismatch => "Mismatch",
        TypeRule::Storage => "Storage",
        TypeRule::Recursion => "Recursion",
        TypeRule::NoInstruction => "NoInstruction",
        TypeRule::ArrayCopy => "ArrayCopy",
        TypeRule::BadAnnotation => "BadAnnotation",
        TypeRule::ExportShape => "ExportShape",
        TypeRule::RegIndex => "RegIndex",
    }
}

fn write_typing(line: &mut Vec<u8>, fault: TypeFault) -> Result<(), AllocError>
    ensures { OnOk result (line.new.items ≡ line.old.items ++ type_line fault) }
{
    line.extend_from_slice(b"type ")?;
    write_number(line, u64::from(fault.rule.number()))?;
    line.extend_from_slice(b" ")?;
    line.extend_from_slice(rule_name(fault.rule).as_bytes())?;
    line.extend_from_slice(b" ")?;
    write_span(line, fault.span)
}

#[tactic(auto, unfolding(crate::specs::InterpLines::limit_name))]
fn limit_name(limit: Limit) -> &'static str
    ensures { result.now ≡ limit_name limit }
{
    match limit {
        Limit::Expand => "Expand",
        Limit::InlineWidth(_) => "InlineWidth",
        Limit::IndexRange(_) => "IndexRange",
        Limit::ImmRange(_) => "ImmRange",
    }
}

/// What passes a limit: the function where it has too many statements, else the place.
fn write_subject(line: &mut Vec<u8>, fun: &Text, limit: Limit) -> Result<(), AllocError>
    ensures { OnOk result (line.new.items ≡ line.old.items ++ limit_subject fun.now limit) }
{
    match limit {
        Limit::Expand => line.extend_from_slice(fun.as_str().as_bytes()),
        Limit::InlineWidth(span) => write_span(line, span),
        Limit::IndexRange(span) => write_span(line, span),
        Limit::ImmRange(span) => write_span(line, span),
    }
}

pub fn write_fun_limit(line: &mut Vec<u8>, passed: &FunLimit) -> Result<(), AllocError>
    ensures { OnOk result (line.new.items ≡ line.old.items ++ limit_text passed.now) }
{
    line.extend_from_slice(b"limit ")?;
    line.extend_from_slice(limit_name(passed.limit).as_bytes())?;
    line.extend_from_slice(b" ")?;
    write_subject(line, &passed.fun, passed.limit)
}

/// Why a text has no typed program.
pub fn write_unread(line: &mut Vec<u8>, unread: Unread) -> Result<(), AllocError>
    ensures { OnOk result (line.new.items ≡ line.old.items ++ unread_text unread) }
{
    match unread {
        Unread::Lex(fault) => write_lex_fault(line, fault),
        Unread::Parse(fault) => write_syntax_fault(line, fault),
        Unread::Typing(fault) => write_typing(line, fault),
    }
}

/// That the frame of the function of this name is too large.
pub fn write_frame(line: &mut Vec<u8>, name: &Text) -> Result<(), AllocError>
    ensures { OnOk result (line.new.items ≡ line.old.items ++ frame_line name.now) }
{
    line.extend_from_slice(b"limit Frame ")?;
    line.extend_from_slice(name.as_str().as_bytes())
}

/// That no export function has the name.
pub fn write_unknown(line: &mut Vec<u8>, name: &Text) -> Result<(), AllocError>
    ensures { OnOk result (line.new.items ≡ line.old.items ++ unknown_text name.now) }
{
    line.extend_from_slice(b"unknown function ")?;
    line.extend_from_slice(name.as_str().as_bytes())
}

/// The precondition that does not hold.
pub fn write_unmet(line: &mut Vec<u8>, pre: &Pre) -> Result<(), AllocError>
    ensures { OnOk result (line.new.items ≡ line.old.items ++ unmet_text pre.now) }
{
    line.extend_from_slice(b"precondition ")?;
    write_pre(line, pre)
}

pub fn write_refused(line: &mut Vec<u8>, refused: &Refused) -> Result<(), AllocError>
    ensures { OnOk result (line.new.items ≡ line.old.items ++ refused_text refused.now) }
{
    match refused {
        Refused::Unread(unread) => write_unread(line, *unread),
        Refused::NoFunction(name) => write_unknown(line, name),
        Refused::Limit(passed) => write_fun_limit(line, passed),
        Refused::Items => line.extend_from_slice(b"precondition items"),
        Refused::Unmet(pre) => write_unmet(line, pre),
    }
}
