//! Statements, each with what it becomes and what that makes of its item.

ghost use Rattle.std.specs.Prelude.{◌≡◌, ◌∷◌, ◌++◌, [], List, true, false};
ghost use Rattle.std.specs.Prelude.{IfOk, OnOk, MatchOption, if◌then◌else◌};
ghost use Rattle.jz_tree.specs.Failures.{IfAnswered};
ghost use Rattle.jz_tree.specs.Span.{Span as Place};
ghost use Rattle.jz_tree.specs.declared.stmt.Stmt.{Stmt as Statement};
ghost use Rattle.jz_meaning.specs.Trees.{op as op_node, quiet};
ghost use Rattle.jz_meaning.specs.Statements.{instruction, unset, values_between};
ghost use Rattle.jz_meaning.specs.Runs.{block, statement_tree};
ghost use Rattle.jz_interp.specs.InnerParts.{body_piece};
ghost use Rattle.jz_unroll.specs.Values.{operation_has_values};
ghost use Rattle.jz_unrolling_values.specs.InlineNames.{names_in};
ghost use Rattle.jz_unrolling_values.specs.Numbers.{numbers_in, SetsIf, IsSame};
ghost use Rattle.jz_unrolling_values.specs.Parts.{IsTest, IsNever};
ghost use Rattle.jz_unrolling_values.specs.Refusals.{OrElse, SetsOne};
ghost use Rattle.jz_unrolling_values.specs.declared.conditions.Test.TheVariants.{Asked};
ghost use Rattle.jz_unrolling.specs.Refusals.{NeverFits, NeverTurns, NeverCounts, NeverRounds};
ghost use Rattle.jz_unrolling.specs.Steps.{no_callees, assignment_of, setting_of};
ghost use Rattle.jz_unrolling.specs.Steps.{branch_of, while_of, turns_of};
ghost use Rattle.jz_unrolling.specs.Steps.{one_item, step_list, Adds, AddsOne, AddsStep, IsApart};
ghost use Rattle.jz_unrolling.specs.Steps.{IsLoop, IsTurn, HasRounds, AddsRounds};

use crate::forgetting::{forget_body, forget_set};
use jz_change::{Change, Numbers, Step};
use jz_tree::{BinOp, Expr, Failure, Lval, Rhs, Seq, Span, Stmt, StmtKind, Text, Var, copy_notes};
use jz_unrolling_values::{
    InlineVars, Known, Test, Values, all_with_values, condition_with_values, inline_target,
    is_inline_number, is_never, is_set, lefts_with_values, loop_test, new_number, number_of,
    stands_apart, test_of, with_values,
};
use std::alloc::{AllocError, Global};

/// What is the same for all statements.
#[derive(Clone, Copy)]
pub(crate) struct Unroller<'a> {
    pub alloc: Global,
    pub vars: &'a InlineVars,
}

/// An assignment with whatever right side.
#[derive(Clone, Copy)]
struct Assignment<'a> {
    to: &'a Seq<Lval>,
    op: Option<BinOp>,
    rhs: &'a Rhs,
    cond: &'a Option<Expr>,
}

/// An assignment: `to = value`, with an operation `to = to op value`, where `cond` holds.
#[derive(Clone, Copy)]
struct Setting<'a> {
    to: &'a Seq<Lval>,
    op: Option<BinOp>,
    value: &'a Expr,
    cond: &'a Option<Expr>,
}

/// Statements by themselves, and the steps of the change.
#[derive(Drop)]
struct Apart {
    statements: Seq<Stmt>,
    steps: Seq<Step>,
}

/// What statements become, behind what is there; gives the steps of the change. Refused where an
/// inline expression that is asked for has no value, and what no typed text has.
#[cycle(unroll)]
pub(crate) fn unroll_all(
    unroller: &Unroller<'_>,
    known: &mut Known,
    stmts: &Seq<Stmt>,
    out: &mut Seq<Stmt>,
) -> Result<Seq<Step>, Failure<Span>>
    ensures { let names = names_in unroller.now.vars.now in
        let piece = block no_callees stmts.now in
        IfAnswered result (OrElse (Adds names piece known.old known.new out.old out.new)
        (NeverFits names piece (numbers_in known.old))) }
{
    let mut steps = with_room(unroller.alloc, stmts.len())?;
    for stmt in stmts.as_slice() {
        let step = unroll_one(unroller, known, stmt, out)?;
        push_step(&mut steps, step)?;
    }
    Ok(steps)
}

/// No step yet, and room for so many: a round with one statement keeps one step alone.
fn with_room(alloc: Global, count: usize) -> Result<Seq<Step>, AllocError>
    ensures { IfOk result (λ steps. steps ≡ []) }
{
    let items = Vec::with_capacity(alloc, count)?;
    Ok(Seq::from_vec(items))
}

fn push_step(steps: &mut Seq<Step>, step: Option<Step>) -> Result<(), AllocError>
    ensures { OnOk result (steps.new ≡ steps.old ++ step_list step) }
{
    match step {
        None => Ok(()),
        Some(step) => {
            steps.push(step)?;
            Ok(())
        }
    }
}

#[cycle(unroll)]
fn unroll_one(
    unroller: &Unroller<'_>,
    known: &mut Known,
    stmt: &Stmt,
    out: &mut Seq<Stmt>,
) -> Result<Option<Step>, Failure<Span>>
    ensures { let names = names_in unroller.now.vars.now in
        let piece = statement_tree no_callees stmt.now in
        IfAnswered result (OrElse (AddsOne names piece known.old known.new out.old out.new)
        (NeverFits names piece (numbers_in known.old))) }
{
    match &stmt.kind {
        StmtKind::Assign { to, op, rhs, cond } => {
            let op = *op;
            let assignment = Assignment { to, op, rhs, cond };
            let step = unroll_assign(unroller, known, stmt, &assignment, out)?;
            Ok(Some(step))
        }
        StmtKind::If(cond, yes, no) => {
            let branch = Branch { cond, yes, no };
            let step = unroll_if(unroller, known, stmt, &branch, out)?;
            Ok(Some(step))
        }
        StmtKind::While {
            prologue,
            cond,
            body,
        } => {
            let step = unroll_while(unroller, known, stmt, prologue, cond, body, out)?;
            Ok(Some(step))
        }
        StmtKind::For {
            counter,
            from,
            down,
            to,
            body,
        } => {
            let rounds = rounds_of(unroller, known, counter, from, *down, to)?;
            let step = unroll_rounds(unroller, known, &rounds, body, out)?;
            Ok(Some(step))
        }
        StmtKind::Mark(vars) => {
            unroll_mark(unroller, known, stmt, vars, out)?;
            Ok(None)
        }
    }
}

/// An assignment by its right side. A call is refused, and an operation or a condition about an
/// instruction.
fn unroll_assign(
    unroller: &Unroller<'_>,
    known: &mut Known,
    stmt: &Stmt,
    assignment: &Assignment<'_>,
    out: &mut Seq<Stmt>,
) -> Result<Step, Failure<Span>>
    ensures { let names = names_in unroller.now.vars.now in
        let piece = assignment_of assignment.now stmt.now.span in
        IfAnswered result (OrElse (AddsStep names piece known.old known.new out.old out.new)
        (NeverFits names piece (numbers_in known.old))) }
{
    let to = assignment.to;
    match assignment.rhs {
        Rhs::Value(value) => {
            let setting = Setting {
                to,
                op: assignment.op,
                value,
                cond: assignment.cond,
            };
            let step = unroll_setting(unroller, known, stmt, &setting, out)?;
            Ok(step)
        }
        Rhs::Call(_, _, at) => Err(Failure::Refused(*at)),
        Rhs::Intrinsic(name, args, at) => {
            if assignment.op.is_some() || assignment.cond.is_some() {
                return Err(Failure::Refused(*at));
            }
            let named = Named {
                to,
                name,
                args,
                at: *at,
            };
            let step = unroll_instruction(unroller, known, stmt, &named, out)?;
            Ok(step)
        }
    }
}

/// One item with all its numbers.
fn same_item(alloc: Global) -> Result<Step, AllocError>
    ensures { IfOk result (λ step. step ≡ one_item) }
{
    let mut items = Seq::new(alloc);
    items.push(Numbers::Same)?;
    Ok(Step::Ops(items))
}

fn unroll_setting(
    unroller: &Unroller<'_>,
    known: &mut Known,
    stmt: &Stmt,
    setting: &Setting<'_>,
    out: &mut Seq<Stmt>,
) -> Result<Step, Failure<Span>>
    ensures { let names = names_in unroller.now.vars.now in
        let piece = op_node (setting_of setting.now stmt.now.span) in
        IfAnswered result (OrElse (AddsStep names piece known.old known.new out.old out.new)
        (NeverFits names piece (numbers_in known.old))) }
{
    match inline_target(unroller.vars, setting.to) {
        Some(var) => {
            let step = unroll_number(unroller, known, var, setting)?;
            Ok(step)
        }
        None => {
            let step = unroll_plain(unroller, known, stmt, setting, out)?;
            Ok(step)
        }
    }
}

/// Sets a number, or leaves all as it is.
fn set_if(known: &mut Known, set: bool, var: &Var, number: i128) -> Result<(), AllocError>
    ensures { OnOk result (SetsIf set known.old known.new var.now number) }
{
    if !set {
        return Ok(());
    }
    known.set(&var.name, var.copy, Some(number))?;
    Ok(())
}

/// What sets one inline variable vanishes.
fn unroll_number(
    unroller: &Unroller<'_>,
    known: &mut Known,
    var: &Var,
    setting: &Setting<'_>,
) -> Result<Step, Failure<Span>>
    requires { SetsOne (names_in unroller.now.vars.now) setting.now.to.now var.now }
    ensures { let names = names_in unroller.now.vars.now in
        IfAnswered result (OrElse (λ step. (at : Place) (out : List Statement)
        → AddsStep names (op_node (setting_of setting.now at)) known.old known.new out out step)
        ((at : Place)
        → NeverFits names (op_node (setting_of setting.now at)) (numbers_in known.old))) }
{
    if !is_inline_number(unroller.vars, var) {
        return Err(Failure::Refused(var.span));
    }
    let values = Values {
        alloc: unroller.alloc,
        vars: unroller.vars,
        known: &*known,
    };
    let number = new_number(&values, var, setting.op, setting.value)?;
    let set = is_set(&values, var, setting.cond)?;
    set_if(known, set, var, number)?;
    Ok(Step::Ops(Seq::new(unroller.alloc)))
}

fn unroll_plain(
    unroller: &Unroller<'_>,
    known: &Known,
    stmt: &Stmt,
    setting: &Setting<'_>,
    out: &mut Seq<Stmt>,
) -> Result<Step, Failure<Span>>
    ensures { let names = names_in unroller.now.vars.now in
        let set = setting_of setting.now stmt.now.span in
        let e = numbers_in known.now in
        IfAnswered result (OrElse (AddsStep names (op_node set) known.now known.now out.old out.new)
        (operation_has_values names e set ≡ false)) }
{
    let values = Values {
        alloc: unroller.alloc,
        vars: unroller.vars,
        known,
    };
    let to = lefts_with_values(&values, setting.to)?;
    let value = with_values(&values, setting.value)?;
    let cond = condition_with_values(&values, setting.cond)?;
    if !stands_apart(setting.to, setting.op, setting.value) {
        return Err(Failure::Refused(stmt.span));
    }
    out.push(Stmt {
        notes: copy_notes(unroller.alloc, &stmt.notes)?,
        span: stmt.span,
        kind: StmtKind::Assign {
            to,
            op: setting.op,
            rhs: Rhs::Value(value),
            cond,
        },
    })?;
    let step = same_item(unroller.alloc)?;
    Ok(step)
}

/// An instruction: left sides, name, operands, the place of the name.
#[derive(Clone, Copy)]
struct Named<'a> {
    to: &'a Seq<Lval>,
    name: &'a Text,
    args: &'a Seq<Expr>,
    at: Span,
}

fn unroll_instruction(
    unroller: &Unroller<'_>,
    known: &Known,
    stmt: &Stmt,
    named: &Named<'_>,
    out: &mut Seq<Stmt>,
) -> Result<Step, Failure<Span>>
    ensures { let names = names_in unroller.now.vars.now in
        let done = instruction named.now.to.now named.now.name.now named.now.args.now
        named.now.at in
        let e = numbers_in known.now in
        IfAnswered result
        (OrElse (AddsStep names (op_node done) known.now known.now out.old out.new)
        (operation_has_values names e done ≡ false)) }
{
    let values = Values {
        alloc: unroller.alloc,
        vars: unroller.vars,
        known,
    };
    let to = lefts_with_values(&values, named.to)?;
    let args = all_with_values(&values, named.args)?;
    let name = named.name.clone()?;
    out.push(Stmt {
        notes: copy_notes(unroller.alloc, &stmt.notes)?,
        span: stmt.span,
        kind: StmtKind::Assign {
            to,
            op: None,
            rhs: Rhs::Intrinsic(name, args, named.at),
            cond: None,
        },
    })?;
    let step = same_item(unroller.alloc)?;
    Ok(step)
}

/// A mark has no item. It leaves inline variables out.
fn unroll_mark(
    unroller: &Unroller<'_>,
    known: &mut Known,
    stmt: &Stmt,
    vars: &Seq<Var>,
    out: &mut Seq<Stmt>,
) -> Result<(), AllocError>
    ensures { OnOk result (Adds (names_in unroller.now.vars.now) (quiet (unset vars.now))
        known.old known.new out.old out.new []) }
{
    let plain = unroller.vars.plain_among(unroller.alloc, vars)?;
    known.forget(vars)?;
    out.push(Stmt {
        notes: copy_notes(unroller.alloc, &stmt.notes)?,
        span: stmt.span,
        kind: StmtKind::Mark(plain),
    })?;
    Ok(())
}

/// An `if`.
#[derive(Clone, Copy)]
struct Branch<'a> {
    cond: &'a Expr,
    yes: &'a Seq<Stmt>,
    no: &'a Seq<Stmt>,
}

fn taken<'a>(branch: &Branch<'a>, answer: bool) -> &'a Seq<Stmt>
    ensures { result.now ≡ (if answer then branch.now.yes.now else branch.now.no.now) }
{
    if answer { branch.yes } else { branch.no }
}

#[cycle(unroll)]
fn unroll_if(
    unroller: &Unroller<'_>,
    known: &mut Known,
    stmt: &Stmt,
    branch: &Branch<'_>,
    out: &mut Seq<Stmt>,
) -> Result<Step, Failure<Span>>
    ensures { let names = names_in unroller.now.vars.now in
        let piece = branch_of branch.now stmt.now.span in
        IfAnswered result (OrElse (AddsStep names piece known.old known.new out.old out.new)
        (NeverFits names piece (numbers_in known.old))) }
{
    let values = Values {
        alloc: unroller.alloc,
        vars: unroller.vars,
        known: &*known,
    };
    match test_of(&values, branch.cond)? {
        Test::Always(answer, _) => {
            let arm = taken(branch, answer);
            let steps = unroll_all(unroller, known, arm, out)?;
            Ok(Step::Arm {
                answer,
                before: Seq::new(unroller.alloc),
                part: Change { steps },
            })
        }
        Test::Asked(cond) => {
            let step = unroll_arms(unroller, known, stmt, cond, branch, out)?;
            Ok(step)
        }
    }
}

#[cycle(unroll)]
fn unroll_arms(
    unroller: &Unroller<'_>,
    known: &mut Known,
    stmt: &Stmt,
    cond: Expr,
    branch: &Branch<'_>,
    out: &mut Seq<Stmt>,
) -> Result<Step, Failure<Span>>
    requires { IsTest (names_in unroller.now.vars.now) (numbers_in known.old) branch.now.cond.now
        (Asked cond) }
    ensures { let names = names_in unroller.now.vars.now in
        let piece = branch_of branch.now stmt.now.span in
        IfAnswered result (OrElse (AddsStep names piece known.old known.new out.old out.new)
        (NeverFits names piece (numbers_in known.old))) }
{
    let yes = unroll_apart(unroller, known, branch.yes)?;
    let no = unroll_apart(unroller, known, branch.no)?;
    forget_set(unroller.vars, known, branch.yes)?;
    forget_set(unroller.vars, known, branch.no)?;
    let Apart {
        statements: yes_statements,
        steps: yes_steps,
    } = yes;
    let Apart {
        statements: no_statements,
        steps: no_steps,
    } = no;
    out.push(Stmt {
        notes: copy_notes(unroller.alloc, &stmt.notes)?,
        span: stmt.span,
        kind: StmtKind::If(cond, yes_statements, no_statements),
    })?;
    Ok(Step::If {
        before: Seq::new(unroller.alloc),
        test: Numbers::Same,
        then_part: Change { steps: yes_steps },
        else_part: Change { steps: no_steps },
    })
}

/// Statements by themselves. Behind them the same is known as before them.
#[cycle(unroll)]
fn unroll_apart(
    unroller: &Unroller<'_>,
    known: &mut Known,
    stmts: &Seq<Stmt>,
) -> Result<Apart, Failure<Span>>
    ensures { let names = names_in unroller.now.vars.now in
        let piece = block no_callees stmts.now in
        IfAnswered result
        (OrElse (λ made. IsApart names piece (numbers_in known.old) made.statements made.steps
        × IsSame known.old known.new)
        (NeverFits names piece (numbers_in known.old))) }
{
    let outer = known.enter();
    let mut statements = Seq::new(unroller.alloc);
    let steps = unroll_all(unroller, known, stmts, &mut statements)?;
    known.leave(outer)?;
    Ok(Apart { statements, steps })
}

/// A `while`.
#[derive(Clone, Copy)]
struct Turns<'a> {
    prologue: &'a Seq<Stmt>,
    cond: &'a Expr,
    body: &'a Option<Seq<Stmt>>,
}

#[cycle(unroll)]
fn unroll_while(
    unroller: &Unroller<'_>,
    known: &mut Known,
    stmt: &Stmt,
    prologue: &Seq<Stmt>,
    cond: &Expr,
    body: &Option<Seq<Stmt>>,
    out: &mut Seq<Stmt>,
) -> Result<Step, Failure<Span>>
    ensures { let names = names_in unroller.now.vars.now in
        let piece = while_of prologue.now cond.now body.now stmt.now.span in
        IfAnswered result (OrElse (AddsStep names piece known.old known.new out.old out.new)
        (NeverFits names piece (numbers_in known.old))) }
{
    let values = Values {
        alloc: unroller.alloc,
        vars: unroller.vars,
        known: &*known,
    };
    let never = is_never(&values, cond)?;
    let turns = Turns {
        prologue,
        cond,
        body,
    };
    if never {
        let step = unroll_once(unroller, known, stmt.span, &turns, out)?;
        return Ok(step);
    }
    let step = unroll_turns(unroller, known, stmt, &turns, out)?;
    Ok(step)
}

/// A `while` whose test is false at once: its prologue alone.
#[cycle(unroll)]
fn unroll_once(
    unroller: &Unroller<'_>,
    known: &mut Known,
    at: Span,
    turns: &Turns<'_>,
    out: &mut Seq<Stmt>,
) -> Result<Step, Failure<Span>>
    requires { IsNever (numbers_in known.old) turns.now.cond.now }
    ensures { let names = names_in unroller.now.vars.now in
        let piece = turns_of turns.now at in
        IfAnswered result (OrElse (AddsStep names piece known.old known.new out.old out.new)
        (NeverFits names piece (numbers_in known.old))) }
{
    let steps = unroll_all(unroller, known, turns.prologue, out)?;
    let values = Values {
        alloc: unroller.alloc,
        vars: unroller.vars,
        known: &*known,
    };
    let never = is_never(&values, turns.cond)?;
    if !never {
        return Err(Failure::Refused(at));
    }
    Ok(Step::Once {
        prologue: Change { steps },
        before: Seq::new(unroller.alloc),
    })
}

/// A `while` that stays. Before it nothing is known of what it sets.
#[cycle(unroll)]
fn unroll_turns(
    unroller: &Unroller<'_>,
    known: &mut Known,
    stmt: &Stmt,
    turns: &Turns<'_>,
    out: &mut Seq<Stmt>,
) -> Result<Step, Failure<Span>>
    requires { IsNever (numbers_in known.old) turns.now.cond.now → ⊥ }
    ensures { let names = names_in unroller.now.vars.now in
        let piece = turns_of turns.now stmt.now.span in
        IfAnswered result (OrElse (AddsStep names piece known.old known.new out.old out.new)
        (NeverFits names piece (numbers_in known.old))) }
{
    forget_set(unroller.vars, known, turns.prologue)?;
    forget_body(unroller.vars, known, turns.body)?;
    let made = unroll_loop(unroller, known, turns)?;
    let Loop {
        prologue,
        cond,
        turn,
    } = made;
    let Apart { statements, steps } = prologue;
    let Turn { body, steps: turn } = turn;
    out.push(Stmt {
        notes: copy_notes(unroller.alloc, &stmt.notes)?,
        span: stmt.span,
        kind: StmtKind::While {
            prologue: statements,
            cond,
            body,
        },
    })?;
    Ok(Step::While {
        prologue: Change { steps },
        before: Seq::new(unroller.alloc),
        test: Numbers::Same,
        body: Change { steps: turn },
    })
}

/// The parts of a `while` that stays.
#[derive(Drop)]
struct Loop {
    prologue: Apart,
    cond: Expr,
    turn: Turn,
}

#[cycle(unroll)]
fn unroll_loop(
    unroller: &Unroller<'_>,
    known: &mut Known,
    turns: &Turns<'_>,
) -> Result<Loop, Failure<Span>>
    ensures { let names = names_in unroller.now.vars.now in
        let e = numbers_in known.old in
        IfAnswered result
        (OrElse (λ made. IsLoop names turns.now e made × IsSame known.old known.new)
        (NeverTurns names turns.now e)) }
{
    let outer = known.enter();
    let mut statements = Seq::new(unroller.alloc);
    let steps = unroll_all(unroller, known, turns.prologue, &mut statements)?;
    let prologue = Apart { statements, steps };
    let values = Values {
        alloc: unroller.alloc,
        vars: unroller.vars,
        known: &*known,
    };
    let cond = loop_test(&values, turns.cond)?;
    let turn = unroll_turn(unroller, known, turns.body)?;
    known.leave(outer)?;
    Ok(Loop {
        prologue,
        cond,
        turn,
    })
}

/// The body of a `while`, where it has one.
#[derive(Drop)]
struct Turn {
    body: Option<Seq<Stmt>>,
    steps: Seq<Step>,
}

#[cycle(unroll)]
fn unroll_turn(
    unroller: &Unroller<'_>,
    known: &mut Known,
    body: &Option<Seq<Stmt>>,
) -> Result<Turn, Failure<Span>>
    ensures { let names = names_in unroller.now.vars.now in
        let e = numbers_in known.old in
        IfAnswered result
        (OrElse (λ made. IsTurn names body.now e made × IsSame known.old known.new)
        (NeverFits names (body_piece no_callees body.now) e)) }
{
    match body {
        None => Ok(Turn {
            body: None,
            steps: Seq::new(unroller.alloc),
        }),
        Some(body) => {
            let made = unroll_apart(unroller, known, body)?;
            let Apart { statements, steps } = made;
            Ok(Turn {
                body: Some(statements),
                steps,
            })
        }
    }
}

/// A `for` whose bounds are known.
#[derive(Clone, Copy)]
struct Rounds<'a> {
    counter: &'a Var,
    first: i128,
    bound: i128,
    down: bool,
}

/// Both bounds are read once, before the first round.
fn rounds_of<'a>(
    unroller: &Unroller<'_>,
    known: &Known,
    counter: &'a Var,
    from: &Expr,
    down: bool,
    to: &Expr,
) -> Result<Rounds<'a>, Failure<Span>>
    ensures { let names = names_in unroller.now.vars.now in
        let e = numbers_in known.now in
        IfAnswered result
        (OrElse (λ rounds. HasRounds names e rounds counter.now from.now down to.now)
        (NeverCounts names e counter.now from.now down to.now)) }
{
    if !is_inline_number(unroller.vars, counter) {
        return Err(Failure::Refused(counter.span));
    }
    let values = Values {
        alloc: unroller.alloc,
        vars: unroller.vars,
        known,
    };
    let first = number_of(&values, from)?;
    let bound = number_of(&values, to)?;
    Ok(Rounds {
        counter,
        first,
        bound,
        down,
    })
}

/// The rounds one after another. Afterwards the counter is what it was.
#[cycle(unroll)]
fn unroll_rounds(
    unroller: &Unroller<'_>,
    known: &mut Known,
    rounds: &Rounds<'_>,
    body: &Seq<Stmt>,
    out: &mut Seq<Stmt>,
) -> Result<Step, Failure<Span>>
    ensures { let names = names_in unroller.now.vars.now in
        let all = rounds.now in
        IfAnswered result
        (OrElse (AddsRounds names all body.now known.old known.new out.old out.new)
        (NeverRounds names all body.now known.old)) }
{
    let counter = rounds.counter;
    let old = known.number(&counter.name, counter.copy);
    let mut changes = Seq::new(unroller.alloc);
    let mut at = rounds.first;
    while let Some(next) = behind(rounds.down, at, rounds.bound) {
        known.set(&counter.name, counter.copy, Some(at))?;
        let steps = unroll_all(unroller, known, body, out)?;
        changes.push(Change { steps })?;
        at = next;
    }
    known.set(&counter.name, counter.copy, old)?;
    Ok(Step::Unrolled(changes))
}

/// The value behind this one, if this one is before the bound.
fn behind(down: bool, value: i128, bound: i128) -> Option<i128>
    ensures { MatchOption result (values_between down value bound ≡ [])
        (λ next. values_between down value bound ≡ value ∷ values_between down next bound) }
{
    if down {
        one_lower(value, bound)
    } else {
        one_higher(value, bound)
    }
}

#[tactic(auto, using(jz_interp::proofs::Counting::rising_none, jz_interp::proofs::Counting::rising_more))]
fn one_higher(value: i128, bound: i128) -> Option<i128>
    ensures { MatchOption result (values_between false value bound ≡ [])
        (λ next. values_between false value bound ≡ value ∷ values_between false next bound) }
{
    if value < bound { Some(value + 1) } else { None }
}

#[tactic(auto, using(jz_interp::proofs::Counting::falling_none, jz_interp::proofs::Counting::falling_more))]
fn one_lower(value: i128, bound: i128) -> Option<i128>
    ensures { MatchOption result (values_between true value bound ≡ [])
        (λ next. values_between true value bound ≡ value ∷ values_between true next bound) }
{
    if bound < value { Some(value - 1) } else { None }
}
