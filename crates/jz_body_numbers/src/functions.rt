//! The constants of a function.

ghost use Rattle.std.specs.Prelude.{◌≡◌, ◌++◌, ℕ, flat_map, IfOk, OnOk};
ghost use Rattle.jz_intervals.specs.Constants.{constants, is_among};
ghost use Rattle.jz_fact_numbers.specs.Ends.{HasEnds};
ghost use Rattle.jz_body_numbers.specs.Numbers as numbers;

use crate::bodies::numbers_of;
use jz_annotations::Pre;
use jz_fact_numbers::constants_of;
use jz_intervals::Constants;
use jz_tree::{Seq, Stmt};
use std::alloc::{AllocError, Global};

fn add_pre(out: &mut Vec<i128>, pre: &Pre) -> Result<(), AllocError>
    ensures { OnOk result (out.new.items ≡ out.old.items ++ numbers.of_pre pre.now) }
{
    match pre {
        Pre::Region {
            pointer: _,
            factor,
            variable: _,
            constant,
        } => {
            out.push(*factor as i128)?;
            out.push(*constant as i128)?;
            Ok(())
        }
        Pre::Range { name: _, low, high } => {
            out.push(*low as i128)?;
            out.push(*high as i128)?;
            Ok(())
        }
        Pre::Align {
            pointer: _,
            multiple,
        } => {
            out.push(*multiple as i128)?;
            Ok(())
        }
    }
}

fn add_pres(out: &mut Vec<i128>, pres: &Seq<Pre>) -> Result<(), AllocError>
    ensures { OnOk result (out.new.items ≡ out.old.items ++ numbers.of_pres pres.now) }
{
    for pre in pres.as_slice() {
        add_pre(out, pre)?;
    }
    Ok(())
}

/// The constants of a function: of its body and of its preconditions.
pub fn constants_in(
    alloc: Global,
    body: &Seq<Stmt>,
    pres: &Seq<Pre>,
) -> Result<Constants, AllocError>
    ensures all { IfOk result (λ all. (c : ℕ) → is_among c all
        ≡ is_among c (constants (numbers.of_function body.now pres.now))) }
    ensures ends { IfOk result (λ all. HasEnds all) }
{
    let mut list = numbers_of(alloc, body)?;
    add_pres(&mut list, pres)?;
    constants_of(alloc, list.as_slice())
}
