//! Parameters and results in their registers.

ghost use Rattle.std.specs.Prelude.{◌≡◌, IfErr, OnOk, length, map};
ghost use Rattle.jz_tree.specs.Failures.{IfAnswered, IfRefused};
ghost use Rattle.jz_meaning.specs.Values.{ref_of};
ghost use Rattle.jz_operands.specs.TableHomes.{homes_of};
ghost use Rattle.jz_operands.specs.Refusals.{FindsOr};
ghost use Rattle.jz_lowering.specs.Passing.{IsNoWord, CannotPass, PassedOr};
ghost use Rattle.jz_lowering.specs.InnerPassing.{IsPassed, PassesNext};

use jz_operands::{Home, Homes};
use jz_operations::Pinned;
use jz_place::Passed;
use jz_tree::{Failure, Param, Seq, Span, Var};
use std::alloc::Global;
use x64_insn::Reg;

fn place_of(var: &Var) -> Span
    ensures { result ≡ (ref_of var.now).span }
{
    var.span
}

/// A word's variable in a register, where the text names it.
fn passed_in(homes: &Homes, var: &Var, reg: Reg) -> Option<Passed>
    ensures { let home = homes_of homes.now in
        FindsOr result (IsPassed home var.now reg) (IsNoWord home var.now) }
{
    let span = place_of(var);
    match homes.scalar(var) {
        None => None,
        Some(Home::Word(variable, _)) => Some(Passed {
            variable: Pinned { variable, span },
            reg,
        }),
        Some(Home::Flag(_)) => None,
        Some(Home::Slot(_, _)) => None,
        Some(Home::Cells(_, _, _)) => None,
    }
}

/// The next variable in the next register. Refused where there is none, or the variable is no word.
fn pass_next(
    homes: &Homes,
    regs: &[Reg],
    var: &Var,
    passed: &mut Seq<Passed>,
) -> Result<(), Failure<Span>>
    ensures passed { OnOk result (PassesNext (homes_of homes.now) regs.now var.now passed.old
        passed.new) }
    ensures refused { IfErr result (λ failure. IfRefused failure
        (λ at. (at ≡ (ref_of var.now).span)
        × CannotPass (homes_of homes.now) regs.now (length passed.old) var.now)) }
{
    match regs.get(passed.len()) {
        None => Err(Failure::Refused(var.span)),
        Some(reg) => match passed_in(homes, var, *reg) {
            None => Err(Failure::Refused(var.span)),
            Some(one) => {
                passed.push(one)?;
                Ok(())
            }
        },
    }
}

pub(crate) fn pass_params(
    alloc: Global,
    homes: &Homes,
    regs: &[Reg],
    params: &Seq<Param>,
) -> Result<Seq<Passed>, Failure<Span>>
    ensures { IfAnswered result (PassedOr (homes_of homes.now) regs.now
        (map (λ p. p.var) params.now)) }
{
    let mut passed = Seq::new(alloc);
    for param in params.as_slice() {
        pass_next(homes, regs, &param.var, &mut passed)?;
    }
    Ok(passed)
}

pub(crate) fn pass_results(
    alloc: Global,
    homes: &Homes,
    regs: &[Reg],
    vars: &Seq<Var>,
) -> Result<Seq<Passed>, Failure<Span>>
    ensures { IfAnswered result (PassedOr (homes_of homes.now) regs.now vars.now) }
{
    let mut passed = Seq::new(alloc);
    for var in vars.as_slice() {
        pass_next(homes, regs, var, &mut passed)?;
    }
    Ok(passed)
}
