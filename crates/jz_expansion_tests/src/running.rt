//! Runs of functions without calls, with all numbers that they leak one after another.

use jz_meaning::{State, Store, Stuck, Value, Why, missing};
use jz_run_assign::{Assignment, assign, number_in, set, truth_in, unset_all, value_of};
use jz_run_instruct::instruct;
use jz_tree::{Expr, Failure, Fun, Rhs, Seq, Span, Stmt, StmtKind, Var};
use jz_words::Word;
use std::alloc::{AllocError, Global};

/// How a run goes on: with so many true tests of `while` left, or not.
#[derive(Clone, Copy)]
pub enum Ran {
    End(u64),
    Cut,
}

/// The results at an end.
#[derive(Drop)]
pub enum Came {
    End(Seq<Word>),
    Cut,
}

/// A `for` goes no further than this.
const MOST_ROUNDS: u64 = 1000;

#[cycle(run)]
fn run_block(
    stmts: &Seq<Stmt>,
    state: &mut State,
    turns: u64,
    out: &mut Seq<u64>,
) -> Result<Ran, Failure<Stuck>> {
    let mut left = turns;
    for stmt in stmts.as_slice() {
        match run_statement(stmt, state, left, out)? {
            Ran::Cut => return Ok(Ran::Cut),
            Ran::End(still) => left = still,
        }
    }
    Ok(Ran::End(left))
}

#[cycle(run)]
fn run_statement(
    stmt: &Stmt,
    state: &mut State,
    turns: u64,
    out: &mut Seq<u64>,
) -> Result<Ran, Failure<Stuck>> {
    let span = stmt.span;
    match &stmt.kind {
        StmtKind::Assign { to, op, rhs, cond } => {
            let op = *op;
            run_assign(Assignment { to, op, cond, span }, rhs, state, out)?;
            Ok(Ran::End(turns))
        }
        StmtKind::If(cond, holds, other) => {
            if truth_in(span, cond, state, out)? {
                run_block(holds, state, turns, out)
            } else {
                run_block(other, state, turns, out)
            }
        }
        StmtKind::While {
            prologue,
            cond,
            body,
        } => run_while(prologue, cond, body, span, state, turns, out),
        StmtKind::For {
            counter,
            from,
            down,
            to,
            body,
        } => {
            let first = number_in(span, from, state, out)?;
            let end = number_in(span, to, state, out)?;
            run_for(counter, (first, end, *down), body, state, turns, out)
        }
        StmtKind::Mark(vars) => {
            unset_all(vars, &mut state.store)?;
            Ok(Ran::End(turns))
        }
    }
}

fn run_assign(
    assignment: Assignment<'_>,
    rhs: &Rhs,
    state: &mut State,
    out: &mut Seq<u64>,
) -> Result<(), Failure<Stuck>> {
    match rhs {
        Rhs::Value(value) => assign(assignment, value, state, out),
        Rhs::Intrinsic(name, args, place) => {
            instruct(assignment.to, name, args, *place, state, out)
        }
        Rhs::Call(_, _, place) => Err(Failure::Refused(missing(*place))),
    }
}

#[cycle(run)]
fn run_while(
    prologue: &Seq<Stmt>,
    cond: &Expr,
    body: &Option<Seq<Stmt>>,
    span: Span,
    state: &mut State,
    turns: u64,
    out: &mut Seq<u64>,
) -> Result<Ran, Failure<Stuck>> {
    let mut left = turns;
    for _ in 0..u64::MAX {
        match run_block(prologue, state, left, out)? {
            Ran::Cut => return Ok(Ran::Cut),
            Ran::End(still) => left = still,
        }
        if !truth_in(span, cond, state, out)? {
            return Ok(Ran::End(left));
        }
        if left == 0 {
            return Ok(Ran::Cut);
        }
        left -= 1;
        if let Some(stmts) = body {
            match run_block(stmts, state, left, out)? {
                Ran::Cut => return Ok(Ran::Cut),
                Ran::End(still) => left = still,
            }
        }
    }
    Ok(Ran::Cut)
}

#[cycle(run)]
fn run_for(
    counter: &Var,
    bounds: (i128, i128, bool),
    body: &Seq<Stmt>,
    state: &mut State,
    turns: u64,
    out: &mut Seq<u64>,
) -> Result<Ran, Failure<Stuck>> {
    let (first, end, down) = bounds;
    let before = value_of(counter, &state.store);
    let mut left = turns;
    let mut value = first;
    for _ in 0..MOST_ROUNDS {
        if down && value <= end || !down && value >= end {
            break;
        }
        set(counter, Some(Value::Int(value)), &mut state.store)?;
        match run_block(body, state, left, out)? {
            Ran::Cut => return Ok(Ran::Cut),
            Ran::End(still) => left = still,
        }
        value = if down {
            value.saturating_sub(1)
        } else {
            value.saturating_add(1)
        };
    }
    set(counter, before, &mut state.store)?;
    Ok(Ran::End(left))
}

fn result_words(
    vars: &Seq<Var>,
    store: &Store,
    alloc: Global,
) -> Result<Seq<Word>, Failure<Stuck>> {
    let mut words = Seq::new(alloc);
    for var in vars.as_slice() {
        match value_of(var, store) {
            Some(Value::Word(word)) => words.push(word)?,
            _ => {
                let span = var.span;
                let why = Why::Init;
                return Err(Failure::Refused(Stuck { span, why }));
            }
        }
    }
    Ok(words)
}

/// What a run comes to from these variables and this memory, which are those at its end afterwards.
pub fn run(
    alloc: Global,
    fun: &Fun,
    state: &mut State,
    turns: u64,
    out: &mut Seq<u64>,
) -> Result<Came, Failure<Stuck>> {
    match run_block(&fun.body, state, turns, out)? {
        Ran::Cut => Ok(Came::Cut),
        Ran::End(_) => Ok(Came::End(result_words(&fun.result, &state.store, alloc)?)),
    }
}

/// The parameters have these words.
pub fn begin(fun: &Fun, words: &Seq<Word>, store: &mut Store) -> Result<(), AllocError> {
    for (param, word) in fun.params.as_slice().iter().zip(words.as_slice()) {
        set(&param.var, Some(Value::Word(*word)), store)?;
    }
    Ok(())
}
