//! The lines that tell refusals, without their line feeds.

ghost use Rattle.std.specs.Prelude.{◌≡◌, ◌++◌, OnOk, map};
ghost use Rattle.std.specs.List.{concat};
ghost use Rattle.jasminc_top.specs.Lines.{lex_name, lexer_line, syntax_name, parser_line};
ghost use Rattle.jasminc_top.specs.Lines.{place_text, need_text, texts_or_dash};

use jz_alloc::Needed;
use jz_grammar::{LexFault, LexKind, SyntaxFault, SyntaxKind};
use jz_text::{reg_name, write_number, write_span};
use jz_tree::Seq;
use std::alloc::AllocError;
use x64_insn::{Flag, Place};

fn lex_name(kind: LexKind) -> &'static str
    ensures { result.now ≡ lex_name kind }
{
    match kind {
        LexKind::BadByte => "BadByte",
        LexKind::BadNumber => "BadNumber",
        LexKind::OpenComment => "OpenComment",
    }
}

#[tactic(auto, unfolding(crate::specs::Lines::syntax_name))]
fn syntax_name(kind: SyntaxKind) -> &'static str
    ensures { result.now ≡ syntax_name kind }
{
    match kind {
        SyntaxKind::Unexpected => "Unexpected",
        SyntaxKind::TooDeep => "TooDeep",
    }
}

#[tactic(auto, unfolding(crate::specs::Lines::place_text))]
pub(crate) fn place_name(place: Place) -> &'static str
    ensures { result.now ≡ place_text place }
{
    match place {
        Place::Reg(reg) => reg_name(reg),
        Place::Flag(Flag::Cf) => "cf",
        Place::Flag(Flag::Of) => "of",
        Place::Flag(Flag::Sf) => "sf",
        Place::Flag(Flag::Pf) => "pf",
        Place::Flag(Flag::Zf) => "zf",
    }
}

pub fn write_lex_fault(line: &mut Vec<u8>, fault: LexFault) -> Result<(), AllocError>
    ensures { OnOk result (line.new.items ≡ line.old.items ++ lexer_line fault) }
{
    line.extend_from_slice(b"syntax ")?;
    line.extend_from_slice(lex_name(fault.kind).as_bytes())?;
    line.extend_from_slice(b" ")?;
    write_span(line, fault.span)
}

pub fn write_syntax_fault(line: &mut Vec<u8>, fault: SyntaxFault) -> Result<(), AllocError>
    ensures { OnOk result (line.new.items ≡ line.old.items ++ parser_line fault) }
{
    line.extend_from_slice(b"syntax ")?;
    line.extend_from_slice(syntax_name(fault.kind).as_bytes())?;
    line.extend_from_slice(b" ")?;
    write_span(line, fault.span)?;
    line.extend_from_slice(b" token ")?;
    write_number(line, fault.token)
}

#[tactic(auto, unfolding(crate::specs::Lines::need_text))]
fn write_need(line: &mut Vec<u8>, need: Needed) -> Result<(), AllocError>
    ensures { OnOk result (line.new.items ≡ line.old.items ++ need_text need) }
{
    line.extend_from_slice(b" ")?;
    line.extend_from_slice(place_name(need.place).as_bytes())?;
    line.extend_from_slice(b"@")?;
    write_span(line, need.span)
}

fn write_each_need(line: &mut Vec<u8>, needs: &Seq<Needed>) -> Result<(), AllocError>
    ensures { OnOk result (line.new.items ≡ line.old.items ++ concat (map need_text needs.now)) }
{
    for need in needs.as_slice() {
        write_need(line, *need)?;
    }
    Ok(())
}

pub(crate) fn write_needs(line: &mut Vec<u8>, needs: &Seq<Needed>) -> Result<(), AllocError>
    ensures { OnOk result (line.new.items
        ≡ line.old.items ++ texts_or_dash (map need_text needs.now)) }
{
    if needs.is_empty() {
        line.extend_from_slice(b" -")
    } else {
        write_each_need(line, needs)
    }
}
