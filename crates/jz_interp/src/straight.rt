//! Statements without an inner run.

ghost use Rattle.jz_meaning.specs.Trees as tree;
ghost use Rattle.jz_meaning.specs.Statements as statements;
ghost use Rattle.jz_interp.specs.InnerParts.{value_assignment, named_instruction_tree};
ghost use Rattle.jz_interp.specs.InnerEnds.{RunsPiece};

use crate::ends::{Ran, one};
use crate::parts::Named;
use jz_leak::Item;
use jz_meaning::{State, Stuck, missing};
use jz_run_assign::{Assignment, assign, unset_all};
use jz_run_instruct::instruct;
use jz_tree::{Expr, Failure, Lval, Seq, Var};

/// An assignment of an expression.
pub fn run_value(
    assignment: Assignment<'_>,
    value: &Expr,
    state: &mut State,
    fuel: u64,
) -> Result<Ran, Failure<Stuck>>
    ensures { let operation = value_assignment assignment.entry value.now in
        RunsPiece result fuel state.old state.new (tree.op operation) }
{
    let alloc = state.store.allocator();
    let mut numbers = Seq::new(alloc);
    assign(assignment, value, state, &mut numbers)?;
    let leaked = one(alloc, Item::Op(numbers))?;
    Ok(Ran::End(fuel, leaked))
}

fn run_plain_instruction(
    to: &Seq<Lval>,
    named: Named<'_>,
    state: &mut State,
    fuel: u64,
) -> Result<Ran, Failure<Stuck>>
    ensures { let operands = named.entry.args.now in
        let done = statements.instruction to.now named.entry.name.now operands named.entry.span in
        RunsPiece result fuel state.old state.new (tree.op done) }
{
    let alloc = state.store.allocator();
    let mut numbers = Seq::new(alloc);
    instruct(to, named.name, named.args, named.span, state, &mut numbers)?;
    let leaked = one(alloc, Item::Op(numbers))?;
    Ok(Ran::End(fuel, leaked))
}

/// An instruction, which has neither an operation nor a condition.
pub fn run_instruction(
    assignment: Assignment<'_>,
    named: Named<'_>,
    state: &mut State,
    fuel: u64,
) -> Result<Ran, Failure<Stuck>>
    ensures { let piece = named_instruction_tree assignment.entry named.entry in
        RunsPiece result fuel state.old state.new piece }
{
    match assignment.op {
        Some(_) => Err(Failure::Refused(missing(named.span))),
        None => match assignment.cond {
            Some(_) => Err(Failure::Refused(missing(named.span))),
            None => {
                let ran = run_plain_instruction(assignment.to, named, state, fuel)?;
                Ok(ran)
            }
        },
    }
}

/// A statement that takes away the values of variables.
pub fn run_mark(vars: &Seq<Var>, state: &mut State, fuel: u64) -> Result<Ran, Failure<Stuck>>
    ensures { let piece = tree.quiet (statements.unset vars.now) in
        RunsPiece result fuel state.old state.new piece }
{
    let alloc = state.store.allocator();
    unset_all(vars, &mut state.store)?;
    Ok(Ran::End(fuel, Seq::new(alloc)))
}
