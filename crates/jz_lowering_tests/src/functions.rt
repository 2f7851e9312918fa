//! Functions by the registers of their parameters and results, their variables and stack variables.

use crate::operands::variable;
use crate::operations::{Names, shown_body};
use jz_ir::Kind;
use jz_lowering::{LoweredFun, lower};
use jz_operations::Stacked;
use jz_place::Passed;
use jz_tree::{Failure, Fun, Seq};
use std::alloc::{AllocError, Global};
use x64_insn::Reg;

fn register(reg: Reg) -> &'static str {
    match reg {
        Reg::Rax => "rax",
        Reg::Rcx => "rcx",
        Reg::Rdx => "rdx",
        Reg::Rsi => "rsi",
        Reg::Rdi => "rdi",
        Reg::R8 => "r8",
        Reg::R9 => "r9",
        _ => "?",
    }
}

fn passed(alloc: Global, names: &Names<'_>, list: &Seq<Passed>) -> Result<String, AllocError> {
    let mut text = String::new(alloc);
    for one in list.as_slice() {
        if !text.is_empty() {
            text.push_str(", ")?;
        }
        text.push_str(variable(names, one.variable.variable))?;
        text.push_str(" ")?;
        text.push_str(register(one.reg))?;
    }
    Ok(text)
}

fn kinds(alloc: Global, list: &Seq<Kind>) -> Result<String, AllocError> {
    let mut text = String::new(alloc);
    for kind in list.as_slice() {
        text.push_str(match kind {
            Kind::Word => "w",
            Kind::Flag => "f",
        })?;
    }
    Ok(text)
}

fn stack(alloc: Global, list: &Seq<Stacked>) -> Result<String, AllocError> {
    let mut text = String::new(alloc);
    for one in list.as_slice() {
        let bits = one.size.bits();
        let count = one.count;
        let shown = format!(in alloc; " {count}x{bits}")?;
        text.push_str(shown.as_str())?;
    }
    Ok(text)
}

fn shown(alloc: Global, names: &Names<'_>, made: &LoweredFun) -> Result<String, AllocError> {
    let entry = passed(alloc, names, &made.ir.entry)?;
    let results = passed(alloc, names, &made.ir.results)?;
    let held = kinds(alloc, &made.ir.kinds)?;
    let cells = stack(alloc, &made.stack)?;
    let body = shown_body(alloc, names, &made.ir.body)?;
    let places = made.ir.in_use.len();
    format!(in alloc;
        "{}; {}; {}; {}{}; {places}",
        entry.as_str(),
        body.as_str(),
        results.as_str(),
        held.as_str(),
        cells.as_str()
    )
}

/// A function as operations over variables.
pub fn lowered(alloc: Global, names: &Names<'_>, fun: &Fun) -> Result<String, AllocError> {
    match lower(alloc, fun) {
        Ok(made) => shown(alloc, names, &made),
        Err(Failure::Refused(at)) => {
            let line = at.line;
            let col = at.col;
            format!(in alloc; "refused {line}:{col}")
        }
        Err(Failure::OutOfMemory) => String::from_str(alloc, "no memory"),
    }
}
