//! Operands by the names of their variables.

use crate::operations::Names;
use jz_operations::{Address, Arg, Cell};
use jz_tree::Size;
use std::alloc::{AllocError, Global};

/// The name of a variable.
pub fn variable<'a>(names: &Names<'a>, number: u32) -> &'a str {
    match names.variables.get(number as usize) {
        Some(name) => name,
        None => "?",
    }
}

fn stacked<'a>(names: &Names<'a>, number: u32) -> &'a str {
    match names.stacked.get(number as usize) {
        Some(name) => name,
        None => "?",
    }
}

/// The bits of a size.
pub fn bits(size: Size) -> u32 {
    size.bits()
}

/// A number behind other terms, with its sign; 0 is left out.
fn behind(alloc: Global, number: i32) -> Result<String, AllocError> {
    if number == 0 {
        return String::from_str(alloc, "");
    }
    if number < 0 {
        format!(in alloc; "{number}")
    } else {
        format!(in alloc; "+{number}")
    }
}

fn address(alloc: Global, names: &Names<'_>, address: Address) -> Result<String, AllocError> {
    let base = match address.base {
        None => "",
        Some(base) => variable(names, base),
    };
    let disp = behind(alloc, address.disp)?;
    match address.index {
        None => format!(in alloc; "[{base}{}]", disp.as_str()),
        Some((index, scale)) => {
            let index = variable(names, index);
            format!(in alloc; "[{base}+{scale}*{index}{}]", disp.as_str())
        }
    }
}

fn cell(alloc: Global, names: &Names<'_>, cell: Cell) -> Result<String, AllocError> {
    let name = stacked(names, cell.of);
    match cell.index {
        None => {
            let offset = cell.offset;
            format!(in alloc; "{name}[{offset}]")
        }
        Some(index) => {
            let index = variable(names, index);
            let offset = behind(alloc, cell.offset)?;
            format!(in alloc; "{name}[{index}{}]", offset.as_str())
        }
    }
}

/// An operand.
pub fn operand(alloc: Global, names: &Names<'_>, arg: Arg) -> Result<String, AllocError> {
    match arg {
        Arg::Var(number) => String::from_str(alloc, variable(names, number)),
        Arg::Imm(number) => format!(in alloc; "{number}"),
        Arg::Mem(found) => address(alloc, names, found),
        Arg::Cell(found) => cell(alloc, names, found),
        Arg::At(_, _) => String::from_str(alloc, "?"),
    }
}
