//! The walk in expanded order. A loop of the text is a loop here, so the stack grows with the nesting
//! of the text and the depth of calls alone; each turn of a `for` counts, so there are no more turns
//! than there may be statements.

ghost use Rattle.std.specs.Prelude.{◌≤◌, ◌∷◌, [], IfOk, Some};
ghost use Rattle.jz_tree.specs.Span.{Span as Place};
ghost use Rattle.jz_meaning.specs.Runs.{assign_tree, call_tree, statement_tree};
ghost use Rattle.jz_meaning.specs.Statements.{Call as Called};
ghost use Rattle.jz_limits.specs.Limits.{most_statements, one};
ghost use Rattle.jz_limits.specs.InnerKnown.{numbers_of};
ghost use Rattle.jz_limits.specs.Walks.{arms, behind, call_walk, callee_walk};
ghost use Rattle.jz_limits.specs.Walks.{loop_walk, rounds, test_and_body, turns};
ghost use Rattle.jz_limits.specs.Values.{with_number};
ghost use Rattle.jz_first_limit.specs.InnerMet.{Meets, block_walk, body_walk};
ghost use Rattle.jz_first_limit.specs.InnerMet.{piece_walk, values_left};
ghost use Rattle.jz_first_limit.specs.InnerWalker.{callees_in, counter_at};

use crate::met::{Met, one_more, past_the_eighth};
use crate::passing::{ask_arguments, ask_results, pass_numbers};
use crate::straight::{Assigning, meet_instruction, meet_value};
use crate::testing::{Arms, test};
use crate::turns::{Counter, Values, ask_bounds, turns_of};
use jz_copies::Callable;
use jz_limits::Known;
use jz_tree::{Expr, Fun, Lval, Rhs, Seq, Stmt, StmtKind, Text, Var};
use std::alloc::AllocError;

/// Statements in their order, where calls may be so deep.
#[cycle(meet)]
pub fn meet_block(
    callable: &Callable<'_>,
    left: usize,
    stmts: &Seq<Stmt>,
    count: usize,
    known: &mut Known,
) -> Result<Met, AllocError>
    requires { count ≤ most_statements }
    ensures { let callees = callees_in callable.now left in
        let walk = block_walk callees stmts.now (numbers_of known.old) in
        IfOk result (λ r. Meets count walk r (numbers_of known.new)) }
{
    let mut met = count;
    for stmt in stmts.as_slice() {
        match meet_statement(callable, left, stmt, met, known)? {
            Met::Passed(limit) => return Ok(Met::Passed(limit)),
            Met::Within(more) => met = more,
        }
    }
    Ok(Met::Within(met))
}

#[cycle(meet)]
fn meet_statement(
    callable: &Callable<'_>,
    left: usize,
    stmt: &Stmt,
    count: usize,
    known: &mut Known,
) -> Result<Met, AllocError>
    requires { count ≤ most_statements }
    ensures { let callees = callees_in callable.now left in
        let walk = piece_walk (statement_tree callees stmt.now) (numbers_of known.old) in
        IfOk result (λ r. Meets count walk r (numbers_of known.new)) }
{
    match &stmt.kind {
        StmtKind::Assign { to, op, rhs, cond } => {
            let op = *op;
            let assigning = Assigning { to, op, cond };
            let met = meet_assign(callable, left, assigning, rhs, count, known)?;
            Ok(met)
        }
        StmtKind::If(cond, holds, other) => {
            let met = meet_if(callable, left, cond, holds, other, count, known)?;
            Ok(met)
        }
        StmtKind::While {
            prologue,
            cond,
            body,
        } => {
            let met = meet_while(callable, left, prologue, cond, body, count, known)?;
            Ok(met)
        }
        StmtKind::For {
            counter,
            from,
            down,
            to,
            body,
        } => {
            let down = *down;
            let counter = Counter {
                counter,
                from,
                down,
                to,
            };
            let met = meet_for(callable, left, counter, body, count, known)?;
            Ok(met)
        }
        StmtKind::Mark(_) => Ok(Met::Within(count)),
    }
}

#[cycle(meet)]
fn meet_assign(
    callable: &Callable<'_>,
    left: usize,
    assigning: Assigning<'_>,
    rhs: &Rhs,
    count: usize,
    known: &mut Known,
) -> Result<Met, AllocError>
    requires { count ≤ most_statements }
    ensures { let callees = callees_in callable.now left in
        let e = numbers_of known.old in
        (at : Place) →
        let to = assigning.entry.to.now in
        let tree = assign_tree callees to assigning.entry.op rhs.now assigning.entry.cond.now at in
        IfOk result (λ r. Meets count (piece_walk tree e) r (numbers_of known.new)) }
{
    match rhs {
        Rhs::Value(value) => {
            let met = meet_value(callable.funs.allocator(), assigning, value, count, known)?;
            Ok(met)
        }
        Rhs::Call(name, args, _) => {
            let met = meet_call(callable, left, assigning, name, args, count, known)?;
            Ok(met)
        }
        Rhs::Intrinsic(name, args, _) => {
            let met = meet_instruction(
                callable.funs.allocator(),
                assigning,
                name,
                args,
                count,
                known,
            )?;
            Ok(met)
        }
    }
}

#[cycle(meet)]
fn meet_call(
    callable: &Callable<'_>,
    left: usize,
    assigning: Assigning<'_>,
    name: &Text,
    args: &Seq<Expr>,
    count: usize,
    known: &Known,
) -> Result<Met, AllocError>
    requires { count ≤ most_statements }
    ensures { let callees = callees_in callable.now left in
        let e = numbers_of known.now in
        (at : Place) →
        let to = assigning.entry.to.now in
        let called = callees name.now in
        let tree = call_tree called to assigning.entry.op args.now assigning.entry.cond.now at in
        IfOk result (λ r. Meets count (piece_walk tree e) r e) }
{
    match callable.called(left, assigning.op, name, assigning.cond) {
        None => Ok(one_more(count)),
        Some(fun) => {
            let met = meet_callee(callable, left - 1, assigning.to, fun, args, count, known)?;
            Ok(met)
        }
    }
}

/// A call, in whose body calls may be so deep.
#[cycle(meet)]
fn meet_callee(
    callable: &Callable<'_>,
    left: usize,
    to: &Seq<Lval>,
    fun: &Fun,
    args: &Seq<Expr>,
    count: usize,
    known: &Known,
) -> Result<Met, AllocError>
    requires { count ≤ most_statements }
    ensures { let body = block_walk (callees_in callable.now left) fun.now.body in
        let e = numbers_of known.now in
        (at : Place) →
        let call : Called = record { to = to.now; callee = fun.now; args = args.now; at = at } in
        IfOk result (λ r. Meets count (call_walk call body e) r e) }
{
    let given = args.len();
    let results = to.len();
    match one_more(count) {
        Met::Passed(limit) => Ok(Met::Passed(limit)),
        Met::Within(count) => match past_the_eighth(count, given, results) {
            Met::Passed(limit) => Ok(Met::Passed(limit)),
            Met::Within(count) => {
                let met = meet_copies(callable, left, to, fun, args, count, known)?;
                Ok(met)
            }
        },
    }
}

/// What a call copies, without its own count.
#[cycle(meet)]
fn meet_copies(
    callable: &Callable<'_>,
    left: usize,
    to: &Seq<Lval>,
    fun: &Fun,
    args: &Seq<Expr>,
    count: usize,
    known: &Known,
) -> Result<Met, AllocError>
    requires { count ≤ most_statements }
    ensures { let body = block_walk (callees_in callable.now left) fun.now.body in
        let e = numbers_of known.now in
        (at : Place) →
        let call : Called = record { to = to.now; callee = fun.now; args = args.now; at = at } in
        IfOk result (λ r. Meets count (callee_walk call body e) r e) }
{
    match ask_arguments(callable.funs.allocator(), known, &fun.params, args)? {
        Some(limit) => Ok(Met::Passed(limit)),
        None => {
            let mut inner = Known::new(callable.funs.allocator());
            pass_numbers(
                callable.funs.allocator(),
                known,
                &fun.params,
                args,
                &mut inner,
            )?;
            match meet_block(callable, left, &fun.body, count, &mut inner)? {
                Met::Passed(limit) => Ok(Met::Passed(limit)),
                Met::Within(count) => {
                    match ask_results(callable.funs.allocator(), known, to, &fun.result)? {
                        Some(limit) => Ok(Met::Passed(limit)),
                        None => Ok(Met::Within(count)),
                    }
                }
            }
        }
    }
}

/// A body that may be absent.
#[cycle(meet)]
fn meet_body(
    callable: &Callable<'_>,
    left: usize,
    body: &Option<Seq<Stmt>>,
    count: usize,
    known: &mut Known,
) -> Result<Met, AllocError>
    requires { count ≤ most_statements }
    ensures { let walk = body_walk (callees_in callable.now left) body.now in
        IfOk result (λ r. Meets count (walk (numbers_of known.old)) r (numbers_of known.new)) }
{
    match body {
        None => Ok(Met::Within(count)),
        Some(stmts) => {
            let met = meet_block(callable, left, stmts, count, known)?;
            Ok(met)
        }
    }
}

#[cycle(meet)]
fn meet_if(
    callable: &Callable<'_>,
    left: usize,
    cond: &Expr,
    holds: &Seq<Stmt>,
    other: &Seq<Stmt>,
    count: usize,
    known: &mut Known,
) -> Result<Met, AllocError>
    requires { count ≤ most_statements }
    ensures { let callees = callees_in callable.now left in
        let both = arms cond.now (block_walk callees holds.now) (block_walk callees other.now) in
        let walk = behind (one ∷ []) (both (numbers_of known.old)) in
        IfOk result (λ r. Meets count walk r (numbers_of known.new)) }
{
    match one_more(count) {
        Met::Passed(limit) => Ok(Met::Passed(limit)),
        Met::Within(count) => {
            let met = meet_arms(callable, left, cond, holds, other, count, known)?;
            Ok(met)
        }
    }
}

/// The arms of an `if` that its test takes.
#[cycle(meet)]
fn meet_arms(
    callable: &Callable<'_>,
    left: usize,
    cond: &Expr,
    holds: &Seq<Stmt>,
    other: &Seq<Stmt>,
    count: usize,
    known: &mut Known,
) -> Result<Met, AllocError>
    requires { count ≤ most_statements }
    ensures { let callees = callees_in callable.now left in
        let both = arms cond.now (block_walk callees holds.now) (block_walk callees other.now) in
        let walk = both (numbers_of known.old) in
        IfOk result (λ r. Meets count walk r (numbers_of known.new)) }
{
    match test(callable.funs.allocator(), known, cond)? {
        Arms::Neither(limit) => Ok(Met::Passed(limit)),
        Arms::First => {
            let met = meet_block(callable, left, holds, count, known)?;
            Ok(met)
        }
        Arms::Second => {
            let met = meet_block(callable, left, other, count, known)?;
            Ok(met)
        }
        Arms::Both => match meet_block(callable, left, holds, count, known)? {
            Met::Passed(limit) => Ok(Met::Passed(limit)),
            Met::Within(count) => {
                let met = meet_block(callable, left, other, count, known)?;
                Ok(met)
            }
        },
    }
}

#[cycle(meet)]
fn meet_while(
    callable: &Callable<'_>,
    left: usize,
    prologue: &Seq<Stmt>,
    cond: &Expr,
    body: &Option<Seq<Stmt>>,
    count: usize,
    known: &mut Known,
) -> Result<Met, AllocError>
    requires { count ≤ most_statements }
    ensures { let callees = callees_in callable.now left in
        let all = turns cond.now (block_walk callees prologue.now) (body_walk callees body.now) in
        let walk = behind (one ∷ []) (all (numbers_of known.old)) in
        IfOk result (λ r. Meets count walk r (numbers_of known.new)) }
{
    match one_more(count) {
        Met::Passed(limit) => Ok(Met::Passed(limit)),
        Met::Within(count) => match meet_block(callable, left, prologue, count, known)? {
            Met::Passed(limit) => Ok(Met::Passed(limit)),
            Met::Within(count) => {
                let met = meet_turn_end(callable, left, cond, body, count, known)?;
                Ok(met)
            }
        },
    }
}

/// The test of a `while` and its body.
#[cycle(meet)]
fn meet_turn_end(
    callable: &Callable<'_>,
    left: usize,
    cond: &Expr,
    body: &Option<Seq<Stmt>>,
    count: usize,
    known: &mut Known,
) -> Result<Met, AllocError>
    requires { count ≤ most_statements }
    ensures { let body = body_walk (callees_in callable.now left) body.now in
        let walk = test_and_body cond.now body (numbers_of known.old) in
        IfOk result (λ r. Meets count walk r (numbers_of known.new)) }
{
    match test(callable.funs.allocator(), known, cond)? {
        Arms::Neither(limit) => Ok(Met::Passed(limit)),
        Arms::First => {
            let met = meet_body(callable, left, body, count, known)?;
            Ok(met)
        }
        Arms::Second => Ok(Met::Within(count)),
        Arms::Both => {
            let met = meet_body(callable, left, body, count, known)?;
            Ok(met)
        }
    }
}

#[cycle(meet)]
fn meet_for(
    callable: &Callable<'_>,
    left: usize,
    counter: Counter<'_>,
    body: &Seq<Stmt>,
    count: usize,
    known: &mut Known,
) -> Result<Met, AllocError>
    requires { count ≤ most_statements }
    ensures { let body = block_walk (callees_in callable.now left) body.now in
        let e = numbers_of known.old in
        (at : Place) →
        let walk = loop_walk (counter_at counter.entry at) body e in
        IfOk result (λ r. Meets count walk r (numbers_of known.new)) }
{
    match ask_bounds(callable.funs.allocator(), known, counter)? {
        Some(limit) => Ok(Met::Passed(limit)),
        None => {
            let values = turns_of(callable.funs.allocator(), known, counter)?;
            let before = known.of(counter.counter);
            match meet_rounds(callable, left, counter.counter, values, body, count, known)? {
                Met::Passed(limit) => Ok(Met::Passed(limit)),
                Met::Within(count) => {
                    known.set(counter.counter, before)?;
                    Ok(Met::Within(count))
                }
            }
        }
    }
}

/// A round for each of these values of the counter.
#[cycle(meet)]
fn meet_rounds(
    callable: &Callable<'_>,
    left: usize,
    counter: &Var,
    values: Values,
    body: &Seq<Stmt>,
    count: usize,
    known: &mut Known,
) -> Result<Met, AllocError>
    requires { count ≤ most_statements }
    ensures { let body = block_walk (callees_in callable.now left) body.now in
        let walk = rounds counter.now body (values_left values) (numbers_of known.old) in
        IfOk result (λ r. Meets count walk r (numbers_of known.new)) }
{
    let mut met = count;
    let mut values = values;
    while let Some(value) = values.take() {
        match meet_round(callable, left, counter, value, body, met, known)? {
            Met::Passed(limit) => return Ok(Met::Passed(limit)),
            Met::Within(more) => met = more,
        }
    }
    Ok(Met::Within(met))
}

/// One round, which counts one.
#[cycle(meet)]
fn meet_round(
    callable: &Callable<'_>,
    left: usize,
    counter: &Var,
    value: i128,
    body: &Seq<Stmt>,
    count: usize,
    known: &mut Known,
) -> Result<Met, AllocError>
    requires { count ≤ most_statements }
    ensures { let body = block_walk (callees_in callable.now left) body.now in
        let set = with_number (numbers_of known.old) counter.now (Some value) in
        let walk = behind (one ∷ []) (body set) in
        IfOk result (λ r. Meets count walk r (numbers_of known.new)) }
{
    match one_more(count) {
        Met::Passed(limit) => Ok(Met::Passed(limit)),
        Met::Within(count) => {
            known.set(counter, Some(value))?;
            let met = meet_block(callable, left, body, count, known)?;
            Ok(met)
        }
    }
}
