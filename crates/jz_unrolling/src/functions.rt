//! Whole functions.

ghost use Rattle.std.specs.Prelude.{◌≡◌, true, false, not, IfOk, IfErr};
ghost use Rattle.jz_tree.specs.Failures.{IfAnswered, IfRefused};
ghost use Rattle.std.specs.List.{list_all};
ghost use Rattle.jz_change.specs.Views.{change_of};
ghost use Rattle.jz_unroll.specs.Unrolling.{marked_vars};
ghost use Rattle.jz_unroll.specs.Values.{is_inline_var};
ghost use Rattle.jz_unrolling_values.specs.InlineNames.{names_in};
ghost use Rattle.jz_unrolling.specs.Unrolled.{IsUnrolled, IsUnrollable, KeepsHead, GivesPlain};
ghost use Rattle.jz_unrolling_values.specs.Refusals.{OrElse};
ghost use Rattle.jz_unrolling.specs.Unrolled.{KeepsRuns, KeepsCases};

use crate::statements::{Unroller, unroll_all};
use jz_pass::{Change, Passed};
use jz_tree::{Failure, Fun, Seq, Span, Stmt, Var, copy_notes, copy_params, copy_rets, copy_vars};
use jz_unrolling_values::{InlineVars, Known};
use std::alloc::{AllocError, Global};

/// Refused where a result is an inline variable, at its place.
fn ask_results(vars: &InlineVars, results: &Seq<Var>) -> Result<(), Failure<Span>>
    ensures { let names = names_in vars.now in
        let plain = list_all (λ v. not (is_inline_var names v)) results.now in
        IfAnswered result (OrElse (λ u. plain ≡ true) (plain ≡ false)) }
{
    for var in results.as_slice() {
        if vars.has(&var.name, var.copy) {
            return Err(Failure::Refused(var.span));
        }
    }
    Ok(())
}

/// The function with another body and without its inline variables.
fn with_body(
    alloc: Global,
    vars: &InlineVars,
    fun: &Fun,
    body: Seq<Stmt>,
) -> Result<Fun, AllocError>
    ensures { let left = marked_vars (names_in vars.now) fun.now.vars in
        IfOk result (λ g. g ≡ record fun.now { vars = left; body = body }) }
{
    Ok(Fun {
        notes: copy_notes(alloc, &fun.notes)?,
        kind: fun.kind,
        name: fun.name.clone()?,
        span: fun.span,
        params: copy_params(alloc, &fun.params)?,
        rets: copy_rets(alloc, &fun.rets)?,
        vars: vars.plain_among(alloc, &fun.vars)?,
        body,
        result: copy_vars(alloc, &fun.result)?,
    })
}

fn unroll_function(alloc: Global, fun: &Fun) -> Result<Passed<Fun>, Failure<Span>>
    ensures body { IfOk result (λ r. IsUnrolled fun.now r.program (change_of r.change)) }
    ensures head { IfOk result (λ r. KeepsHead fun.now r.program) }
    ensures plain { IfOk result (λ r. GivesPlain fun.now) }
    ensures refused { IfErr result (λ failure. IfRefused failure (λ at. IsUnrollable fun.now → ⊥)) }
{
    let vars = InlineVars::of(alloc, fun)?;
    ask_results(&vars, &fun.result)?;
    let mut known = Known::new(alloc);
    let mut body = Seq::new(alloc);
    let unroller = Unroller { alloc, vars: &vars };
    let steps = unroll_all(&unroller, &mut known, &fun.body, &mut body)?;
    let program = with_body(alloc, &vars, fun, body)?;
    Ok(Passed {
        program,
        change: Change { steps },
    })
}

/// The function whose loops are their rounds, whose inline expressions are their values and whose
/// constant tests are gone, with what that makes of its leaks. It is for functions without calls,
/// whose expansion is within the limits: a `for` takes as long as it has rounds. Refused, at the
/// place, is what is not unrollable.
pub fn unroll(alloc: Global, fun: &Fun) -> Result<Passed<Fun>, Failure<Span>>
    ensures body { IfOk result (λ r. IsUnrolled fun.now r.program (change_of r.change)) }
    ensures head { IfOk result (λ r. KeepsHead fun.now r.program) }
    ensures law { IfOk result (λ r. KeepsRuns fun.now r.program (change_of r.change)) }
    ensures cases { IfOk result (λ r. KeepsCases fun.now r.program (change_of r.change)) }
    ensures refused { IfErr result (λ failure. IfRefused failure (λ at. IsUnrollable fun.now → ⊥)) }
{
    let passed = unroll_function(alloc, fun)?;
    Ok(passed)
}
