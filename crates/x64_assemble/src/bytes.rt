//! Labels first, then the bytes of line after line.

ghost use Rattle.std.specs.Prelude.{◌≡◌, ◌<◌, ◌+◌, ◌^◌, true, pos, ◌-ℤ◌, [], ◌++◌, length};
ghost use Rattle.std.specs.Prelude.{IfOk, OnOk, slice_index};
ghost use Rattle.x64_insn.specs.Chosen.{chosen_bytes, is_spelled};
ghost use Rattle.jz_linear.specs.LineRuns.{Once};
ghost use Rattle.x64_assemble.specs.Assembling.{AllSpelled, AreSpelled, Named, total};
ghost use Rattle.x64_assemble.specs.Assembling.{insns_of_lines, bytes_of_lines};
ghost use Rattle.x64_assemble.specs.InnerTables.{bytes_in, grown, marked_by, table_from};
ghost use Rattle.x64_assemble.specs.InnerTables.{IsSpelled, line_code, code_from, IsReady, AreReady};

use jz_data::Seq;
use jz_linear::{Line, Linear};
use std::alloc::{AllocError, Global};
use x64_encode::encode;
use x64_insn::{Insn, Width};

/// Puts the bytes of an instruction behind others.
fn put(bytes: &mut Vec<u8>, insn: &Insn) -> Result<(), AllocError>
    requires { is_spelled insn.now ≡ true }
    ensures { OnOk result (bytes.new.items ≡ bytes.old.items ++ chosen_bytes insn.now) }
{
    let code = encode(insn);
    bytes.extend_from_slice(code.as_slice())?;
    Ok(())
}

fn insn_length(insn: &Insn) -> u64
    requires { is_spelled insn.now ≡ true }
    ensures { result ≡ length (chosen_bytes insn.now) }
{
    let code = encode(insn);
    code.as_slice().len() as u64
}

fn length_of(line: &Line) -> u64
    requires { IsSpelled line.now }
    ensures { result ≡ bytes_in line.now }
{
    match line {
        Line::Insn(insn) => insn_length(insn),
        Line::Label(_) => 0,
        Line::Jcc(_, _) => 6,
        Line::Jmp(_) => 5,
        Line::Call(_) => 5,
    }
}

#[tactic(auto, unfolding(crate::specs::InnerTables::grown))]
fn grow(table: &mut Vec<u64>, label: u32) -> Result<(), AllocError>
    ensures items { OnOk result (table.new.items ≡ grown table.old.items label) }
    ensures long { OnOk result (label < length table.new.items) }
{
    while table.len() <= label as usize {
        table.push(0)?;
    }
    Ok(())
}

/// Notes where a label stands.
fn mark(table: &mut Vec<u64>, line: &Line, at: u64) -> Result<(), AllocError>
    ensures { OnOk result (table.new.items ≡ marked_by line.now at table.old.items) }
{
    match line {
        Line::Label(label) => {
            grow(table, *label)?;
            table[*label as usize] = at;
            Ok(())
        }
        Line::Insn(_) => Ok(()),
        Line::Jcc(_, _) => Ok(()),
        Line::Jmp(_) => Ok(()),
        Line::Call(_) => Ok(()),
    }
}

/// Where each label stands, and where the last line ends.
#[derive(Drop)]
struct LabelTable {
    offsets: Vec<u64>,
    end: u64,
}

fn label_offsets(alloc: Global, lines: &[Line]) -> Result<LabelTable, AllocError>
    requires spelled { AllSpelled lines.now }
    requires short { total lines.now < 2 ^ 31 }
    ensures offsets { IfOk result (λ made. made.offsets.items ≡ table_from lines.now 0 []) }
    ensures end { IfOk result (λ made. made.end ≡ total lines.now) }
{
    let mut offsets = Vec::with_capacity(alloc, lines.len())?;
    let mut at: u64 = 0;
    for line in lines {
        mark(&mut offsets, line, at)?;
        at += length_of(line);
    }
    Ok(LabelTable { offsets, end: at })
}

fn target(table: &[u64], label: u32) -> u64
    ensures { result ≡ slice_index table.now label }
{
    table.get(label as usize).copied().unwrap_or(0)
}

fn distance(target: u64, next: u64) -> i32
    requires target { target < 2 ^ 31 }
    requires next { next < 2 ^ 31 }
    ensures { result ≡ pos target -ℤ pos next }
{
    let number = target as i128 - next as i128;
    number as i32
}

/// Puts the bytes of a line behind those that are there.
fn put_line(bytes: &mut Vec<u8>, table: &[u64], line: &Line) -> Result<(), AllocError>
    requires { IsReady table.now (length bytes.old.items) line.now }
    ensures { OnOk result (bytes.new.items ≡ bytes.old.items
        ++ line_code table.now line.now (length bytes.old.items + bytes_in line.now)) }
{
    match line {
        Line::Insn(insn) => {
            put(bytes, insn)?;
            Ok(())
        }
        Line::Label(_) => Ok(()),
        Line::Jcc(cond, label) => {
            let next = bytes.len() as u64 + 6;
            let jump = distance(target(table, *label), next);
            put(bytes, &Insn::Jcc(*cond, Width::Rel32, jump))?;
            Ok(())
        }
        Line::Jmp(label) => {
            let next = bytes.len() as u64 + 5;
            let jump = distance(target(table, *label), next);
            put(bytes, &Insn::Jmp(Width::Rel32, jump))?;
            Ok(())
        }
        Line::Call(label) => {
            let next = bytes.len() as u64 + 5;
            let jump = distance(target(table, *label), next);
            put(bytes, &Insn::Call(jump))?;
            Ok(())
        }
    }
}

/// The bytes of all lines, in a room for so many.
fn line_bytes(
    alloc: Global,
    lines: &[Line],
    table: &[u64],
    room: usize,
) -> Result<Vec<u8>, AllocError>
    requires { AreReady table.now 0 lines.now }
    ensures { IfOk result (λ bytes. bytes.items ≡ code_from table.now 0 lines.now) }
{
    let mut bytes = Vec::with_capacity(alloc, room)?;
    for line in lines {
        put_line(&mut bytes, table, line)?;
    }
    Ok(bytes)
}

/// The bytes of lines, each jump with a displacement of 32 bits that counts from the byte behind it
/// to its label. The labels are small numbers: a table has a place for each up to the largest.
pub fn assemble(alloc: Global, code: &Linear) -> Result<Seq<u8>, AllocError>
    requires once { Once code.now.lines }
    requires named { Named code.now.lines code.now.lines }
    requires spelled { AllSpelled code.now.lines }
    requires short { total code.now.lines < 2 ^ 31 }
    ensures bytes { IfOk result (λ bytes. bytes ≡ bytes_of_lines code.now.lines) }
    ensures decodes { IfOk result (AreSpelled (insns_of_lines code.now.lines)) }
{
    let lines = code.lines.as_slice();
    let table = label_offsets(alloc, lines)?;
    let room = table.end as usize;
    let bytes = line_bytes(alloc, lines, table.offsets.as_slice(), room)?;
    Ok(Seq::from_vec(bytes))
}
