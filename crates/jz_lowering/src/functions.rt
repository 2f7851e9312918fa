//! Whole functions.

ghost use Rattle.std.specs.Prelude.{◌≡◌, IfOk, IfErr};
ghost use Rattle.jz_tree.specs.Failures.{IfRefused};
ghost use Rattle.jz_change.specs.Views.{change_of};
ghost use Rattle.jz_lowering.specs.Functions.{IsFunctionLowered, KeepsRuns, KeepsCases};
ghost use Rattle.jz_lowering.specs.Functions.{IsReadyFun, Refuses};
ghost use Rattle.jz_lowering.specs.Functions.{all_places as twenty};

use crate::parts::Lowered;
use crate::passing::{pass_params, pass_results};
use crate::statements::lower_block;
use jz_change::Change;
use jz_codable::is_short;
use jz_homing::{Homing, homing_of};
use jz_operations::Stacked;
use jz_place::Ir;
use jz_tree::{Failure, Fun, Seq, Span};
use std::alloc::{AllocError, Global};
use x64_insn::{Flag, Place, Reg};

/// A function over variables, the cells of its stack variables, and what that makes of its leaks.
#[derive(Drop)]
pub struct LoweredFun {
    pub ir: Ir,
    pub stack: Seq<Stacked>,
    pub change: Change,
}

/// The registers of integer arguments, in their order (System V AMD64 ABI, 3.2.3).
const ARGUMENTS: [Reg; 6] = [Reg::Rdi, Reg::Rsi, Reg::Rdx, Reg::Rcx, Reg::R8, Reg::R9];

/// The registers of integer results, in their order (System V AMD64 ABI, 3.2.3).
const RESULTS: [Reg; 2] = [Reg::Rax, Reg::Rdx];

/// All registers but RSP, and the flags.
const PLACES: [Place; 20] = [
    Place::Reg(Reg::Rax),
    Place::Reg(Reg::Rcx),
    Place::Reg(Reg::Rdx),
    Place::Reg(Reg::Rbx),
    Place::Reg(Reg::Rbp),
    Place::Reg(Reg::Rsi),
    Place::Reg(Reg::Rdi),
    Place::Reg(Reg::R8),
    Place::Reg(Reg::R9),
    Place::Reg(Reg::R10),
    Place::Reg(Reg::R11),
    Place::Reg(Reg::R12),
    Place::Reg(Reg::R13),
    Place::Reg(Reg::R14),
    Place::Reg(Reg::R15),
    Place::Flag(Flag::Cf),
    Place::Flag(Flag::Of),
    Place::Flag(Flag::Sf),
    Place::Flag(Flag::Pf),
    Place::Flag(Flag::Zf),
];

fn all_places(alloc: Global) -> Result<Seq<Place>, AllocError>
    ensures { IfOk result (λ places. places ≡ twenty) }
{
    Seq::from_slice(alloc, &PLACES)
}

/// The function as operations over variables, with what that makes of its leaks. It is for
/// functions that the expansion has left: without calls, loops of known bounds and inline
/// variables. Refused, at its place, where a statement or a test has no row, where a variable has
/// no home, and where a parameter or a result has no register; and at the function's name, where it
/// has 2^24 statements or more. The stack grows with the nesting of the text.
pub fn lower(alloc: Global, fun: &Fun) -> Result<LoweredFun, Failure<Span>>
    ensures made { IfOk result (λ l. IsFunctionLowered fun.now l (change_of l.change)) }
    ensures law { IfOk result (λ l. KeepsRuns fun.now l (change_of l.change)) }
    ensures cases { IfOk result (λ l. KeepsCases fun.now l (change_of l.change)) }
    ensures ready { IfOk result IsReadyFun }
    ensures refused { IfErr result (λ failure. IfRefused failure (Refuses fun.now)) }
{
    let lowered = lower_function(alloc, fun)?;
    if !is_short(&lowered.ir) {
        return Err(Failure::Refused(fun.span));
    }
    Ok(lowered)
}

fn lower_function(alloc: Global, fun: &Fun) -> Result<LoweredFun, Failure<Span>>
    ensures made { IfOk result (λ l. IsFunctionLowered fun.now l (change_of l.change)) }
    ensures refused { IfErr result (λ failure. IfRefused failure (Refuses fun.now)) }
{
    let table = homing_of(alloc, fun)?;
    let Homing {
        homes,
        kinds,
        stack,
    } = table;
    let entry = pass_params(alloc, &homes, &ARGUMENTS, &fun.params)?;
    let results = pass_results(alloc, &homes, &RESULTS, &fun.result)?;
    let made = lower_block(alloc, &homes, &fun.body)?;
    let in_use = all_places(alloc)?;
    let Lowered { nodes, steps } = made;
    let ir = Ir {
        entry,
        body: nodes,
        results,
        kinds,
        in_use,
    };
    Ok(LoweredFun {
        ir,
        stack,
        change: Change { steps },
    })
}
