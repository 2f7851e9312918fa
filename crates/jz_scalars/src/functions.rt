//! The pass over a function.

ghost use Rattle.std.specs.Prelude.{◌≡◌, IfOk};
ghost use Rattle.jz_change.specs.Views.{change_of};
ghost use Rattle.jz_scalars.specs.Functions.{IsScalars, KeepsRuns, KeepsCases};

use crate::made::Made;
use crate::statements::made_block;
use jz_change::Change;
use jz_pass::Passed;
use jz_tree::{Fun, Seq, Stmt, copy_notes, copy_params, copy_rets, copy_vars};
use std::alloc::{AllocError, Global};

/// The function with another body.
fn with_body(alloc: Global, fun: &Fun, body: Seq<Stmt>) -> Result<Fun, AllocError>
    ensures { IfOk result (λ g. g ≡ record fun.now { body = body }) }
{
    Ok(Fun {
        notes: copy_notes(alloc, &fun.notes)?,
        kind: fun.kind,
        name: fun.name.clone()?,
        span: fun.span,
        params: copy_params(alloc, &fun.params)?,
        rets: copy_rets(alloc, &fun.rets)?,
        vars: copy_vars(alloc, &fun.vars)?,
        body,
        result: copy_vars(alloc, &fun.result)?,
    })
}

/// The function with a scalar in the place of each cell of a register array at a constant index.
/// A cell that the array does not have stays as it is, and so does one of an array in the frame.
/// The declaration of an array stands for those of its scalars. The stack grows with the nesting of
/// the text.
pub fn scalars(alloc: Global, fun: &Fun) -> Result<Passed<Fun>, AllocError>
    ensures made { IfOk result
        (λ passed. IsScalars fun.now passed.program (change_of passed.change)) }
    ensures law { IfOk result
        (λ passed. KeepsRuns fun.now passed.program (change_of passed.change)) }
    ensures cases { IfOk result
        (λ passed. KeepsCases fun.now passed.program (change_of passed.change)) }
{
    let made = made_block(alloc, &fun.body)?;
    let Made { stmts, steps } = made;
    let program = with_body(alloc, fun, stmts)?;
    let change = Change { steps };
    Ok(Passed { program, change })
}
