//! A statement in a function of its own, and its operations.

use crate::functions;
use crate::operations::{Names, shown_nodes};
use jz_homing::homing_of;
use jz_lex::lex;
use jz_lowering::lower_block;
use jz_meaning::{Kind, kind_of};
use jz_parse::parse;
use jz_resolve::resolve;
use jz_tree::{Fun, Storage, Var};
use jz_unrolling::unroll;
use std::alloc::{AllocError, Global};

const HEAD: &str = "export fn run(reg u64 q) -> reg u64 { reg u64 r a b p i j; reg u32 e c d; \
    reg u16 h k l; reg u8 x y z; reg bool f; stack u64 s; stack u32 s4; stack u16 s2; \
    stack u8 s1; stack u64[8] t; stack u32[8] t4; stack u16[8] t2; stack u8[8] t1; ";

const END: &str = " return q; }";

/// Adds a variable where operations name it: one in a register, or one on the stack.
fn add_name<'a>(names: &mut Names<'a>, var: &'a Var) -> Result<(), AllocError> {
    match &var.decl {
        None => Ok(()),
        Some(decl) => match decl.storage {
            Storage::Reg => {
                names.variables.push(var.name.as_str())?;
                Ok(())
            }
            Storage::Stack => {
                names.stacked.push(var.name.as_str())?;
                Ok(())
            }
            Storage::Inline => Ok(()),
        },
    }
}

fn names_of(alloc: Global, fun: &Fun) -> Result<Names<'_>, AllocError> {
    let mut names = Names {
        variables: Vec::new(alloc),
        stacked: Vec::new(alloc),
    };
    for param in fun.params.as_slice() {
        add_name(&mut names, &param.var)?;
    }
    for var in fun.vars.as_slice() {
        add_name(&mut names, var)?;
    }
    Ok(names)
}

/// The operations of a function's body, whose inline expressions are numbers.
fn body_lowered(alloc: Global, fun: &Fun) -> Result<String, AllocError> {
    let Ok(table) = homing_of(alloc, fun) else {
        return String::from_str(alloc, "no homes");
    };
    match lower_block(alloc, &table.homes, &fun.body) {
        Err(_) => String::from_str(alloc, "none"),
        Ok(made) => {
            let names = names_of(alloc, fun)?;
            shown_nodes(alloc, &names, &made)
        }
    }
}

fn lowered(alloc: Global, fun: &Fun) -> Result<String, AllocError> {
    match unroll(alloc, fun) {
        Err(_) => String::from_str(alloc, "no numbers"),
        Ok(made) => body_lowered(alloc, &made.program),
    }
}

fn in_function(alloc: Global, fun: &Fun) -> Result<String, AllocError> {
    let names = names_of(alloc, fun)?;
    functions::lowered(alloc, &names, fun)
}

/// The operations of a statement, or of a whole function.
pub fn answer(alloc: Global, row: &str) -> Result<String, AllocError> {
    let whole = row.starts_with("export");
    let text = if whole {
        String::from_str(alloc, row)?
    } else {
        format!(in alloc; "{}{row}{}", HEAD, END)?
    };
    if text.len() > 1_048_576 {
        return String::from_str(alloc, "too long");
    }
    let Ok(tokens) = lex(alloc, text.as_bytes()) else {
        return String::from_str(alloc, "no tokens");
    };
    let Ok(program) = parse(alloc, &tokens) else {
        return String::from_str(alloc, "no program");
    };
    let program = resolve(alloc, program)?;
    match program.funs.as_slice() {
        [fun] => {
            if whole {
                in_function(alloc, fun)
            } else {
                lowered(alloc, fun)
            }
        }
        _ => String::from_str(alloc, "no function"),
    }
}
