//! The variables of a function and of all that it calls, as the text declares them.

ghost use Rattle.std.specs.Prelude.{◌≡◌, ◌+◌, ◌≤◌, ◌++◌, IfOk, OnOk, drop, length, map};
ghost use Rattle.jz_type_names.specs.Parts.{layer_of};
ghost use Rattle.jz_copies.specs.Counts.{copied_count, most_statements};
ghost use Rattle.jz_inline.specs.Names.{var_in};
ghost use Rattle.jz_inline.specs.CopiedNames.{names_of};
ghost use Rattle.jz_frames.specs.Frames.{frame_of, frame_in, copies_in, own_params};
ghost use Rattle.jz_frames.specs.Frames.{layer_called, right_called};
ghost use Rattle.jz_frames.specs.InnerFrames.{ahead, here_of, needed, last_number};
ghost use Rattle.jz_frames.specs.InnerFrames.{Brings, IsGrown};

use jz_copies::Callable;
use jz_inline::{NamesInCopy, is_array};
use jz_tree::{BinOp, Expr, Fun, Param, Program, Rhs, Seq, Span, Stmt, StmtKind, Var};
use jz_type_names::{is_before, statements};
use std::alloc::{AllocError, Global};

/// The variables so far, and the number of the next copy.
#[derive(Drop)]
struct Frame {
    vars: Seq<Var>,
    next: u32,
}

/// The functions that calls copy, and where memory comes from.
#[derive(Drop)]
struct Walk<'a> {
    alloc: Global,
    callable: Callable<'a>,
}

/// A call, with the place of the name.
#[derive(Clone, Copy)]
struct CallHere<'a, 'b> {
    of: &'a Fun,
    args: &'b Seq<Expr>,
    span: Span,
}

/// The call that a right side is, if it is one.
fn right_call<'a, 'b>(
    walk: &Walk<'a>,
    left: usize,
    op: Option<BinOp>,
    rhs: &'b Rhs,
    cond: &Option<Expr>,
) -> Option<CallHere<'a, 'b>>
    ensures { let funs = walk.now.callable.funs.now in
        right_called funs left op rhs.now cond.now ≡ here_of result }
{
    match rhs {
        Rhs::Value(_) => None,
        Rhs::Call(name, args, span) => match walk.callable.called(left, op, name, cond) {
            None => None,
            Some(of) => Some(CallHere {
                of,
                args,
                span: *span,
            }),
        },
        Rhs::Intrinsic(_, _, _) => None,
    }
}

/// The call that a statement is, if it is one.
fn call_here<'a, 'b>(walk: &Walk<'a>, left: usize, stmt: &'b Stmt) -> Option<CallHere<'a, 'b>>
    ensures { let funs = walk.now.callable.funs.now in
        layer_called funs left (layer_of stmt.now) ≡ here_of result }
{
    match &stmt.kind {
        StmtKind::Assign {
            to: _,
            op,
            rhs,
            cond,
        } => {
            let call = right_call(walk, left, *op, rhs, cond);
            call
        }
        StmtKind::If(_, _, _) => None,
        StmtKind::While {
            prologue: _,
            cond: _,
            body: _,
        } => None,
        StmtKind::For {
            counter: _,
            from: _,
            down: _,
            to: _,
            body: _,
        } => None,
        StmtKind::Mark(_) => None,
    }
}

/// The variables of a function from one on that do not stand behind that place. Gives the first
/// that does.
fn push_before(
    alloc: Global,
    names: &NamesInCopy,
    vars: &[Var],
    from: usize,
    place: Span,
    out: &mut Seq<Var>,
) -> Result<usize, AllocError>
    ensures { let before = ahead place (drop from vars.now) in
        let more = map (var_in (names_of names.now)) before in
        IfOk result (λ next. (out.new ≡ out.old ++ more) × (next ≡ from + length before)) }
{
    for at in from..vars.len() {
        if is_before(place, vars[at].span) {
            return Ok(at);
        }
        let copy = names.variable(alloc, &vars[at])?;
        out.push(copy)?;
    }
    Ok(vars.len().max(from))
}

/// The parameters that are no arrays.
fn push_params(
    alloc: Global,
    names: &NamesInCopy,
    params: &Seq<Param>,
    out: &mut Seq<Var>,
) -> Result<(), AllocError>
    ensures { OnOk result (out.new ≡ out.old ++ own_params (names_of names.now) params.now) }
{
    for param in params.as_slice() {
        if !is_array(&param.var) {
            let copy = names.variable(alloc, &param.var)?;
            out.push(copy)?;
        }
    }
    Ok(())
}

/// The rest of the variables of a function.
fn push_rest(
    alloc: Global,
    names: &NamesInCopy,
    vars: &[Var],
    from: usize,
    out: &mut Seq<Var>,
) -> Result<(), AllocError>
    ensures { let more = map (var_in (names_of names.now)) (drop from vars.now) in
        OnOk result (out.new ≡ out.old ++ more) }
{
    for at in from..vars.len() {
        let copy = names.variable(alloc, &vars[at])?;
        out.push(copy)?;
    }
    Ok(())
}

/// The variables of a function, with what its calls bring.
#[cycle(frame)]
fn push_frame(
    walk: &Walk<'_>,
    left: usize,
    names: &NamesInCopy,
    fun: &Fun,
    out: &mut Frame,
) -> Result<(), AllocError>
    requires few { out.now.next + copies_in walk.now.callable.funs.now left fun.now ≤ last_number }
    ensures { let funs = walk.now.callable.funs.now in
        let more = frame_in funs left (names_of names.now) out.old.next fun.now in
        OnOk result (IsGrown out.old out.new more (copies_in funs left fun.now)) }
{
    let mut declared = 0;
    for stmt in statements(walk.alloc, &fun.body)? {
        declared = push_call(walk, left, names, fun.vars.as_slice(), declared, stmt, out)?;
    }
    push_rest(
        walk.alloc,
        names,
        fun.vars.as_slice(),
        declared,
        &mut out.vars,
    )?;
    Ok(())
}

/// The variables that stand before a call, and what it brings, if the statement is one. Gives the
/// place of the next variable.
#[cycle(frame)]
fn push_call(
    walk: &Walk<'_>,
    left: usize,
    names: &NamesInCopy,
    vars: &[Var],
    declared: usize,
    stmt: &Stmt,
    out: &mut Frame,
) -> Result<usize, AllocError>
    requires few { let funs = walk.now.callable.funs.now in
        out.now.next + needed funs left (layer_called funs left (layer_of stmt.now)) ≤ last_number }
    ensures { let funs = walk.now.callable.funs.now in
        let here = layer_called funs left (layer_of stmt.now) in
        let own = names_of names.now in
        let before = drop declared vars.now in
        IfOk result (λ at. Brings funs left own here out.old out.new before (drop at vars.now)) }
{
    let alloc = walk.alloc;
    match call_here(walk, left, stmt) {
        None => Ok(declared),
        Some(call) => {
            let at = push_before(alloc, names, vars, declared, call.span, &mut out.vars)?;
            let inner = names.of_callee(alloc, out.next, &call.of.params, call.args)?;
            push_params(alloc, &inner, &call.of.params, &mut out.vars)?;
            out.next += 1;
            push_frame(walk, left - 1, &inner, call.of, out)?;
            Ok(at)
        }
    }
}

/// The variables of a function of a program, with those of all that it calls, in the order in which
/// the text declares them. It goes over no more functions than there may be statements, and its
/// stack grows with the depth of calls.
pub fn frame_vars(alloc: Global, program: &Program, fun: &Fun) -> Result<Seq<Var>, AllocError>
    requires few { copied_count program.now fun.now ≤ most_statements }
    ensures { IfOk result (λ vars. vars ≡ frame_of program.now fun.now) }
{
    let callable = Callable::of(alloc, &program.funs)?;
    let left = callable.funs.len();
    let walk = Walk { alloc, callable };
    let names = NamesInCopy::own(alloc);
    let mut out = Frame {
        vars: Seq::new(alloc),
        next: 1,
    };
    push_frame(&walk, left, &names, fun, &mut out)?;
    let Frame { vars, next: _ } = out;
    Ok(vars)
}
