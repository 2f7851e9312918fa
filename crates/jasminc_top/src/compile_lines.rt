//! The lines that tell why functions of a text are not compiled, without their line feeds.

ghost use Rattle.std.specs.Prelude.{◌≡◌, ◌++◌, OnOk, map};
ghost use Rattle.std.specs.List.{concat};
ghost use Rattle.jasminc_top.specs.Lines.{texts_or_dash};
ghost use Rattle.jasminc_top.specs.CompileLines.{holder_name, holder_text, unplaced_line};
ghost use Rattle.jasminc_top.specs.CompileLines.{unmade_text, uncompiled_text};

use crate::interp_lines::{write_frame, write_fun_limit, write_unread};
use crate::lines::{place_name, write_needs};
use jasminc_check::write_alarm;
use jasminc_selfrun::{Uncompiled, Unmade};
use jz_text::write_span;
use jz_tree::Seq;
use jz_unplaced::{Holder, Named, Unplaced};
use jz_variable_text::write_variable;
use std::alloc::AllocError;

fn write_holder_name(line: &mut Vec<u8>, name: &Option<Named>) -> Result<(), AllocError>
    ensures { OnOk result (line.new.items ≡ line.old.items ++ holder_name name.now) }
{
    match name {
        None => line.extend_from_slice(b"*"),
        Some(named) => write_variable(line, &named.name, named.cell),
    }
}

#[tactic(auto, unfolding(crate::specs::CompileLines::holder_text))]
fn write_holder(line: &mut Vec<u8>, holder: &Holder) -> Result<(), AllocError>
    ensures { OnOk result (line.new.items ≡ line.old.items ++ holder_text holder.now) }
{
    line.extend_from_slice(b" ")?;
    line.extend_from_slice(place_name(holder.place).as_bytes())?;
    line.extend_from_slice(b"=")?;
    write_holder_name(line, &holder.variable)?;
    line.extend_from_slice(b"@")?;
    write_span(line, holder.span)
}

fn write_each_holder(line: &mut Vec<u8>, holders: &Seq<Holder>) -> Result<(), AllocError>
    ensures { OnOk result (line.new.items
        ≡ line.old.items ++ concat (map holder_text holders.now)) }
{
    for holder in holders.as_slice() {
        write_holder(line, holder)?;
    }
    Ok(())
}

fn write_holders(line: &mut Vec<u8>, holders: &Seq<Holder>) -> Result<(), AllocError>
    ensures { OnOk result (line.new.items
        ≡ line.old.items ++ texts_or_dash (map holder_text holders.now)) }
{
    if holders.is_empty() {
        line.extend_from_slice(b" -")
    } else {
        write_each_holder(line, holders)
    }
}

fn write_unplaced(line: &mut Vec<u8>, refusal: &Unplaced) -> Result<(), AllocError>
    ensures { OnOk result (line.new.items ≡ line.old.items ++ unplaced_line refusal.now) }
{
    line.extend_from_slice(b"no place ")?;
    write_variable(line, &refusal.variable.name, refusal.variable.cell)?;
    line.extend_from_slice(b" needs")?;
    write_needs(line, &refusal.needs)?;
    line.extend_from_slice(b" held")?;
    write_holders(line, &refusal.holders)
}

fn write_unmade(line: &mut Vec<u8>, unmade: &Unmade) -> Result<(), AllocError>
    ensures { OnOk result (line.new.items ≡ line.old.items ++ unmade_text unmade.now) }
{
    match unmade {
        Unmade::Frame(name) => write_frame(line, name),
        Unmade::NoPlace(refusal) => write_unplaced(line, refusal),
    }
}

pub fn write_uncompiled(line: &mut Vec<u8>, refused: &Uncompiled) -> Result<(), AllocError>
    ensures { OnOk result (line.new.items ≡ line.old.items ++ uncompiled_text refused.now) }
{
    match refused {
        Uncompiled::Unread(unread) => write_unread(line, *unread),
        Uncompiled::Limit(passed) => write_fun_limit(line, passed),
        Uncompiled::Alarm(alarm) => write_alarm(line, alarm),
        Uncompiled::Making(unmade) => write_unmade(line, unmade),
    }
}
