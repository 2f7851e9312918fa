//! The pass over a function of a program.

ghost use Rattle.std.specs.Prelude.{◌≡◌, ◌≤◌, ◌↔◌, length, IsTrue, IfOk, IfErr};
ghost use Rattle.jz_tree.specs.Failures.{IfRefused};
ghost use Rattle.jz_copies.specs.Counts.{copied_count, most_statements, IsExtent, Passes};
ghost use Rattle.jz_inline.specs.Functions.{own_names};
ghost use Rattle.jz_inline.specs.Statements.{body_piece, copied_funs};
ghost use Rattle.jz_inlining.specs.InnerCopies.{IsCopied};
ghost use Rattle.jz_inlining.specs.Inlined.{IsExport, IsInlining, IsInlined, KeepsRuns, PassesAt};

use crate::copier::{Body, Copier};
use crate::copying::copy_body;
use jz_change::Change;
use jz_copies::{Callable, CopyLimit, Extent, copied_extent};
use jz_frames::frame_vars;
use jz_inline::NamesInCopy;
use jz_tree::{
    Failure, Fun, FunKind, Program, Seq, Stmt, Var, copy_notes, copy_params, copy_rets, copy_vars,
};
use jz_types::Typed;
use std::alloc::{AllocError, Global};

/// A function without calls, what becomes of a leak of the function with them, and how many
/// statements it had with all that it calls.
#[derive(Drop)]
pub struct Inlined {
    pub fun: Fun,
    pub change: Change,
    pub extent: Extent,
}

/// The statements without calls, and their steps. The first copy has the number 1.
fn copy_statements(alloc: Global, program: &Program, fun: &Fun) -> Result<Body, AllocError>
    requires few { copied_count program.now fun.now ≤ most_statements }
    ensures { let funs = program.now.funs in
        let piece = body_piece (copied_funs funs (length funs)) fun.now.body in
        IfOk result (IsCopied piece own_names 1) }
{
    let callable = Callable::of(alloc, &program.funs)?;
    let left = callable.funs.len();
    let copier = Copier { alloc, callable };
    let names = NamesInCopy::own(alloc);
    let body = copy_body(&copier, left, &names, &fun.body, 1)?;
    Ok(body)
}

/// The function with other variables and another body.
fn with_body(alloc: Global, fun: &Fun, vars: Seq<Var>, body: Seq<Stmt>) -> Result<Fun, AllocError>
    ensures { IfOk result (λ g. g ≡ record fun.now { vars = vars; body = body }) }
{
    Ok(Fun {
        notes: copy_notes(alloc, &fun.notes)?,
        kind: fun.kind,
        name: fun.name.clone()?,
        span: fun.span,
        params: copy_params(alloc, &fun.params)?,
        rets: copy_rets(alloc, &fun.rets)?,
        vars,
        body,
        result: copy_vars(alloc, &fun.result)?,
    })
}

/// What the function becomes, where it does not pass the limit.
fn inline_within(
    alloc: Global,
    program: &Program,
    fun: &Fun,
    extent: Extent,
) -> Result<Inlined, AllocError>
    requires counted { IsExtent program.now fun.now extent }
    ensures { IfOk result (IsInlining program.now fun.now) }
{
    let body = copy_statements(alloc, program, fun)?;
    let Body {
        stmts,
        steps,
        next: _,
    } = body;
    let vars = frame_vars(alloc, program, fun)?;
    let fun = with_body(alloc, fun, vars, stmts)?;
    let change = Change { steps };
    Ok(Inlined {
        fun,
        change,
        extent,
    })
}

fn inline_function(
    alloc: Global,
    program: &Program,
    fun: &Fun,
) -> Result<Inlined, Failure<CopyLimit>>
    ensures made { IfOk result (IsInlining program.now fun.now) }
    ensures limit { IfErr result (λ failure. IfRefused failure (Passes program.now fun.now)) }
{
    let extent = copied_extent(alloc, program, fun)?;
    let inlined = inline_within(alloc, program, fun, extent)?;
    Ok(inlined)
}

/// Whether a program has an export function at that place.
pub fn is_export(typed: &Typed, fun: usize) -> bool
    ensures { IsTrue result ↔ IsExport typed.now.program fun }
{
    match typed.program().funs.get(fun) {
        None => false,
        Some(function) => match function.kind {
            FunKind::Inline => false,
            FunKind::Export => true,
        },
    }
}

/// The export function at that place of a typed program with a copy of what it calls in the place
/// of each call. It is refused exactly where it has too many statements with all that it calls, and
/// that is found before anything is copied. The stack grows with the nesting of the text and the
/// depth of calls.
pub fn inline(alloc: Global, typed: &Typed, fun: usize) -> Result<Inlined, Failure<CopyLimit>>
    requires { IsExport typed.now.program fun }
    ensures made { IfOk result (IsInlined typed.now.program fun) }
    ensures law { IfOk result (KeepsRuns typed.now.program fun) }
    ensures limit { IfErr result
        (λ failure. IfRefused failure (PassesAt typed.now.program fun)) }
{
    let program = typed.program();
    let function = &program.funs.as_slice()[fun];
    let inlined = inline_function(alloc, program, function)?;
    Ok(inlined)
}
