//! Runs of statements, forward. A loop of the text is a loop here, so the stack grows with the
//! nesting of the text and the depth of calls alone.

ghost use Rattle.jz_meaning.specs.Trees as tree;
ghost use Rattle.jz_meaning.specs.Runs.{block, statement_tree};
ghost use Rattle.jz_run_assign.specs.Passings.{call_of};
ghost use Rattle.jz_interp.specs.InnerParts.{callees_in, condition_of, counter_of};
ghost use Rattle.jz_interp.specs.InnerParts.{assignment_tree, named_call_tree, while_tree};
ghost use Rattle.jz_interp.specs.InnerParts.{inner_block, body_piece, inner_body};
ghost use Rattle.jz_interp.specs.InnerRounds.{values_left};
ghost use Rattle.jz_interp.specs.InnerEnds.{RunsPiece, RunsTurn, RunsTest, RunsAllRounds};

use crate::arms::{arm, callee_of};
use crate::code::Code;
use crate::counters::{Values, counter_values};
use crate::ends::{Ran, RoundsEnd, TurnEnd, end_of_if, one, turn};
use crate::parts::{Counter, Named, Test};
use crate::straight::{run_instruction, run_mark, run_value};
use jz_leak::{Item, Leak};
use jz_meaning::{State, Stuck, Value, missing};
use jz_run_assign::{Assignment, Call, enter, leave, set, truth_in, value_of};
use jz_tree::{Failure, Rhs, Seq, Stmt, StmtKind, Var};
use std::mem::replace;

/// Statements in their order, with so many true tests of `while` left.
#[cycle(run)]
pub fn run_block(
    code: &Code<'_>,
    depth: usize,
    stmts: &Seq<Stmt>,
    state: &mut State,
    fuel: u64,
) -> Result<Ran, Failure<Stuck>>
    ensures { let callees = callees_in code.now depth in
        RunsPiece result fuel state.old state.new (block callees stmts.now) }
{
    let mut items = Seq::new(code.alloc);
    let mut left = fuel;
    for stmt in stmts.as_slice() {
        match run_statement(code, depth, stmt, state, left)? {
            Ran::Cut(more) => {
                items.append(more)?;
                return Ok(Ran::Cut(items));
            }
            Ran::End(still, more) => {
                items.append(more)?;
                left = still;
            }
        }
    }
    Ok(Ran::End(left, items))
}

#[cycle(run)]
fn run_statement(
    code: &Code<'_>,
    depth: usize,
    stmt: &Stmt,
    state: &mut State,
    fuel: u64,
) -> Result<Ran, Failure<Stuck>>
    ensures { let callees = callees_in code.now depth in
        RunsPiece result fuel state.old state.new (statement_tree callees stmt.now) }
{
    let span = stmt.span;
    match &stmt.kind {
        StmtKind::Assign { to, op, rhs, cond } => {
            let op = *op;
            let assignment = Assignment { to, op, cond, span };
            run_assign(code, depth, assignment, rhs, state, fuel)
        }
        StmtKind::If(cond, holds, other) => {
            let test = Test { cond, span };
            run_if(code, depth, test, holds, other, state, fuel)
        }
        StmtKind::While {
            prologue,
            cond,
            body,
        } => {
            let test = Test { cond, span };
            run_while(code, depth, prologue, test, body, state, fuel)
        }
        StmtKind::For {
            counter,
            from,
            down,
            to,
            body,
        } => {
            let counter = Counter {
                counter,
                from,
                down: *down,
                to,
                span,
            };
            run_for(code, depth, counter, body, state, fuel)
        }
        StmtKind::Mark(vars) => run_mark(vars, state, fuel),
    }
}

#[cycle(run)]
fn run_assign(
    code: &Code<'_>,
    depth: usize,
    assignment: Assignment<'_>,
    rhs: &Rhs,
    state: &mut State,
    fuel: u64,
) -> Result<Ran, Failure<Stuck>>
    ensures { let callees = callees_in code.now depth in
        let piece = assignment_tree callees assignment.entry rhs.now in
        RunsPiece result fuel state.old state.new piece }
{
    match rhs {
        Rhs::Value(value) => {
            let ran = run_value(assignment, value, state, fuel)?;
            Ok(ran)
        }
        Rhs::Call(name, args, place) => {
            let span = *place;
            let named = Named { name, args, span };
            let ran = run_call(code, depth, assignment, named, state, fuel)?;
            Ok(ran)
        }
        Rhs::Intrinsic(name, args, place) => {
            let span = *place;
            let named = Named { name, args, span };
            let ran = run_instruction(assignment, named, state, fuel)?;
            Ok(ran)
        }
    }
}

#[cycle(run)]
fn run_if(
    code: &Code<'_>,
    depth: usize,
    test: Test<'_>,
    holds: &Seq<Stmt>,
    other: &Seq<Stmt>,
    state: &mut State,
    fuel: u64,
) -> Result<Ran, Failure<Stuck>>
    ensures { let callees = callees_in code.now depth in
        let choice = tree.choose (condition_of test.entry) (inner_block callees holds.now) in
        RunsPiece result fuel state.old state.new (choice (inner_block callees other.now)) }
{
    let mut numbers = Seq::new(code.alloc);
    let answer = truth_in(test.span, test.cond, state, &mut numbers)?;
    let ran = run_block(code, depth, arm(answer, holds, other), state, fuel)?;
    let whole = end_of_if(code.alloc, numbers, answer, ran)?;
    Ok(whole)
}

/// A body that may be absent.
#[cycle(run)]
fn run_body(
    code: &Code<'_>,
    depth: usize,
    body: &Option<Seq<Stmt>>,
    state: &mut State,
    fuel: u64,
) -> Result<Ran, Failure<Stuck>>
    ensures { let callees = callees_in code.now depth in
        RunsPiece result fuel state.old state.new (body_piece callees body.now) }
{
    match body {
        None => Ok(Ran::End(fuel, Seq::new(code.alloc))),
        Some(stmts) => {
            let ran = run_block(code, depth, stmts, state, fuel)?;
            Ok(ran)
        }
    }
}

/// The test of a turn, and where it is true the body, behind a prologue with this leak.
#[cycle(run)]
fn run_test(
    code: &Code<'_>,
    depth: usize,
    prologue: Seq<Item>,
    test: Test<'_>,
    body: &Option<Seq<Stmt>>,
    state: &mut State,
    fuel: u64,
) -> Result<TurnEnd, Failure<Stuck>>
    ensures { let body = inner_body (callees_in code.now depth) body.now in
        RunsTest result fuel state.old state.new prologue (condition_of test.entry) body }
{
    let mut numbers = Seq::new(code.alloc);
    let more = truth_in(test.span, test.cond, state, &mut numbers)?;
    if !more {
        return Ok(TurnEnd::Last(fuel, turn(prologue, numbers, false, Seq::new(code.alloc))));
    }
    if fuel == 0 {
        let wanted = one(code.alloc, Item::Cut)?;
        return Ok(TurnEnd::Cut(turn(prologue, numbers, true, wanted)));
    }
    match run_body(code, depth, body, state, fuel - 1)? {
        Ran::Cut(items) => Ok(TurnEnd::Cut(turn(prologue, numbers, true, items))),
        Ran::End(left, items) => Ok(TurnEnd::More(left, turn(prologue, numbers, true, items))),
    }
}

#[cycle(run)]
fn run_turn(
    code: &Code<'_>,
    depth: usize,
    prologue: &Seq<Stmt>,
    test: Test<'_>,
    body: &Option<Seq<Stmt>>,
    state: &mut State,
    fuel: u64,
) -> Result<TurnEnd, Failure<Stuck>>
    ensures { let callees = callees_in code.now depth in
        let before = inner_block callees prologue.now in
        let body = inner_body callees body.now in
        RunsTurn result fuel state.old state.new before (condition_of test.entry) body }
{
    match run_block(code, depth, prologue, state, fuel)? {
        Ran::Cut(items) => {
            let numbers = Seq::new(code.alloc);
            Ok(TurnEnd::Cut(turn(items, numbers, false, Seq::new(code.alloc))))
        }
        Ran::End(left, items) => {
            let end = run_test(code, depth, items, test, body, state, left)?;
            Ok(end)
        }
    }
}

#[cycle(run)]
fn run_while(
    code: &Code<'_>,
    depth: usize,
    prologue: &Seq<Stmt>,
    test: Test<'_>,
    body: &Option<Seq<Stmt>>,
    state: &mut State,
    fuel: u64,
) -> Result<Ran, Failure<Stuck>>
    ensures { let callees = callees_in code.now depth in
        let turns = while_tree callees prologue.now (condition_of test.entry) body.now in
        RunsPiece result fuel state.old state.new turns }
{
    let mut turns = Seq::new(code.alloc);
    let mut left = fuel;
    loop {
        match run_turn(code, depth, prologue, test, body, state, left)? {
            TurnEnd::Cut(cut_turn) => {
                turns.push(cut_turn)?;
                let turns_until_cut = one(code.alloc, Item::While(turns))?;
                return Ok(Ran::Cut(turns_until_cut));
            }
            TurnEnd::Last(still, last) => {
                turns.push(last)?;
                let leaked = one(code.alloc, Item::While(turns))?;
                return Ok(Ran::End(still, leaked));
            }
            TurnEnd::More(still, one_more) => {
                turns.push(one_more)?;
                left = still;
            }
        }
    }
}

/// A round for each of these values of the counter.
#[cycle(run)]
fn run_rounds(
    code: &Code<'_>,
    depth: usize,
    counter: &Var,
    values: Values,
    body: &Seq<Stmt>,
    state: &mut State,
    fuel: u64,
) -> Result<RoundsEnd, Failure<Stuck>>
    ensures { let round = inner_block (callees_in code.now depth) body.now in
        RunsAllRounds result fuel state.old state.new counter.now round (values_left values) }
{
    let mut leaks = Seq::new(code.alloc);
    let mut left = fuel;
    let mut values = values;
    while let Some(value) = values.take() {
        set(counter, Some(Value::Int(value)), &mut state.store)?;
        match run_block(code, depth, body, state, left)? {
            Ran::Cut(items) => {
                leaks.push(Leak { items })?;
                return Ok(RoundsEnd::Cut(leaks));
            }
            Ran::End(still, items) => {
                leaks.push(Leak { items })?;
                left = still;
            }
        }
    }
    Ok(RoundsEnd::End(left, leaks))
}

#[cycle(run)]
fn run_for(
    code: &Code<'_>,
    depth: usize,
    counter: Counter<'_>,
    body: &Seq<Stmt>,
    state: &mut State,
    fuel: u64,
) -> Result<Ran, Failure<Stuck>>
    ensures { let round = inner_block (callees_in code.now depth) body.now in
        RunsPiece result fuel state.old state.new (tree.each (counter_of counter.entry) round) }
{
    let mut numbers = Seq::new(code.alloc);
    let values = counter_values(counter, state, &mut numbers)?;
    let before = value_of(counter.counter, &state.store);
    match run_rounds(code, depth, counter.counter, values, body, state, fuel)? {
        RoundsEnd::Cut(leaks) => {
            let leaked = one(code.alloc, Item::For(leaks))?;
            Ok(Ran::Cut(leaked))
        }
        RoundsEnd::End(left, leaks) => {
            set(counter.counter, before, &mut state.store)?;
            let leaked = one(code.alloc, Item::For(leaks))?;
            Ok(Ran::End(left, leaked))
        }
    }
}

#[cycle(run)]
fn run_call(
    code: &Code<'_>,
    depth: usize,
    assignment: Assignment<'_>,
    named: Named<'_>,
    state: &mut State,
    fuel: u64,
) -> Result<Ran, Failure<Stuck>>
    ensures { let callees = callees_in code.now depth in
        let piece = named_call_tree callees assignment.entry named.entry in
        RunsPiece result fuel state.old state.new piece }
{
    match callee_of(code, depth, assignment.op, named.name, assignment.cond) {
        None => Err(Failure::Refused(missing(named.span))),
        Some(callee) => {
            let call = Call {
                to: assignment.to,
                callee,
                args: named.args,
                span: named.span,
            };
            let ran = run_callee(code, depth - 1, call, state, fuel)?;
            Ok(ran)
        }
    }
}

/// A call of a function, in whose body calls may be so deep. The caller's variables are kept aside
/// while the callee runs.
#[cycle(run)]
fn run_callee(
    code: &Code<'_>,
    depth: usize,
    call: Call<'_>,
    state: &mut State,
    fuel: u64,
) -> Result<Ran, Failure<Stuck>>
    ensures { let body = inner_block (callees_in code.now depth) call.entry.callee.now.body in
        RunsPiece result fuel state.old state.new (tree.call (call_of call.entry) body) }
{
    let mut before = Seq::new(code.alloc);
    let inner = enter(call, state, &mut before)?;
    let outer = replace(&mut state.store, inner);
    match run_block(code, depth, &call.callee.body, state, fuel)? {
        Ran::Cut(items) => {
            let cut_call = Item::Call(before, Leak { items }, Seq::new(code.alloc));
            let call_until_cut = one(code.alloc, cut_call)?;
            Ok(Ran::Cut(call_until_cut))
        }
        Ran::End(left, items) => {
            let inner = replace(&mut state.store, outer);
            let mut after = Seq::new(code.alloc);
            leave(call, &inner, state, &mut after)?;
            let leaked = one(code.alloc, Item::Call(before, Leak { items }, after))?;
            Ok(Ran::End(left, leaked))
        }
    }
}
