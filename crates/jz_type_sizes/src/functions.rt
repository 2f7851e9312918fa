//! The rule that types, sizes and counts agree, in constants, statements and the body of one
//! function.

ghost use Rattle.std.specs.Prelude.{◌≡◌};
ghost use Rattle.std.specs.Option.{option_copied};
ghost use Rattle.jz_type_names.specs.Order.{earliest, first_in, FindsEarliest};
ghost use Rattle.jz_type_names.specs.Parts.{layer_of};
ghost use Rattle.jz_type_names.specs.Lent.{these};
ghost use Rattle.jz_type_sizes.specs.Mismatches.{callee_where, callee_from, stmt_wrong, body_wrong, constant_wrong};
ghost use Rattle.jz_type_names.specs.Tables.{function_in};

use crate::calls::returned_fault;
use crate::statements::{constant_fault, mismatch};
use jz_tree::{Const, Fun, Rhs, Span, Stmt, StmtKind};
use jz_type_names::{Functions, earlier_of, statements};
use std::alloc::{AllocError, Global};

fn callee_from<'a>(functions: &Functions<'a>, right: &Rhs) -> Option<&'a Fun>
    ensures { option_copied result ≡ callee_from (function_in functions.now) right.now }
{
    match right {
        Rhs::Value(_) => None,
        Rhs::Call(name, _, _) => functions.named(name),
        Rhs::Intrinsic(_, _, _) => None,
    }
}

/// The function that a statement calls.
fn callee<'a>(functions: &Functions<'a>, stmt: &Stmt) -> Option<&'a Fun>
    ensures { option_copied result ≡ callee_where (function_in functions.now) (layer_of stmt.now) }
{
    match &stmt.kind {
        StmtKind::Assign {
            to: _,
            op: _,
            rhs,
            cond: _,
        } => callee_from(functions, rhs),
        StmtKind::If(_, _, _) => None,
        StmtKind::While {
            prologue: _,
            cond: _,
            body: _,
        } => None,
        StmtKind::For {
            counter: _,
            from: _,
            down: _,
            to: _,
            body: _,
        } => None,
        StmtKind::Mark(_) => None,
    }
}

/// The first place in a statement, those that stand in it aside, where a type, a size or a count is
/// another than is wanted.
pub fn statement_fault(functions: &Functions<'_>, stmt: &Stmt) -> Option<Span>
    ensures { result ≡ earliest (stmt_wrong (function_in functions.now) stmt.now) }
{
    mismatch(callee(functions, stmt), stmt)
}

fn statements_fault(functions: &Functions<'_>, stmts: &[&Stmt]) -> Option<Span>
    ensures { result ≡ first_in (stmt_wrong (function_in functions.now)) (these stmts.now) }
{
    let mut first = None;
    for stmt in stmts {
        first = earlier_of(first, statement_fault(functions, stmt));
    }
    first
}

/// The first place in the body of a function, or in what it returns, where a type, a size or a
/// count is another than is wanted. The function is one whose variables have their declarations
/// where they are used, and numbers as lengths.
#[tactic(auto, using(crate::proofs::Joins::joins))]
pub fn body_fault(
    alloc: Global,
    functions: &Functions<'_>,
    fun: &Fun,
) -> Result<Option<Span>, AllocError>
    ensures { FindsEarliest result (body_wrong (function_in functions.now) fun.now) }
{
    let stmts = statements(alloc, &fun.body)?;
    let own = statements_fault(functions, stmts.as_slice());
    Ok(earlier_of(returned_fault(fun), own))
}

/// The first place in the values of constants that is no integer.
pub fn constants_fault(constants: &[Const]) -> Option<Span>
    ensures { result ≡ first_in constant_wrong constants.now }
{
    let mut first = None;
    for constant in constants {
        first = earlier_of(first, constant_fault(constant));
    }
    first
}
