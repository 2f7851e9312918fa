//! Statements that no row of the tables matches.

ghost use Rattle.std.specs.Prelude.{◌≡◌, List, is_some, IfOk};
ghost use Rattle.std.specs.Option.{option_copied};
ghost use Rattle.jz_tree.specs.declared.program.Fun.{Fun};
ghost use Rattle.jz_type_names.specs.Order.{earliest, first_in};
ghost use Rattle.jz_type_names.specs.Parts.{statements_of};
ghost use Rattle.jz_type_names.specs.Tables.{place_in, function_in};
ghost use Rattle.jz_type_rows.specs.Tables.{HasCallees};
ghost use Rattle.jz_types.specs.Rows.{others, unmatched_at, unmatched_in_fun};

use jz_tree::{Fun, Seq, Span, Stmt};
use jz_type_names::{Functions, Places, earlier_of, repeated_of, statements, unknown_of};
use jz_type_rows::{Callee, Callees, copied, indexed, unmatched};
use jz_type_sizes::statement_fault;
use std::alloc::{AllocError, Global};

/// Whether another fault is told of a statement.
#[tactic(auto, using(crate::proofs::Joins::joining))]
fn has_others(
    alloc: Global,
    constants: &Places,
    variables: &Places,
    functions: &Functions<'_>,
    callee: Option<&Callee>,
    stmt: &Stmt,
) -> Result<bool, AllocError>
    ensures { let told = others (place_in constants.now) (place_in variables.now)
        (function_in functions.now) (option_copied callee.entry) stmt.now in
        IfOk result (λ b. b ≡ is_some (earliest told)) }
{
    let unknown = unknown_of(alloc, constants, variables, functions, stmt)?;
    let repeated = repeated_of(alloc, stmt)?;
    let copied = copied(alloc, callee, stmt)?;
    let indexed = indexed(alloc, stmt)?;
    let mismatched = earlier_of(
        statement_fault(functions, stmt),
        earlier_of(copied, indexed),
    );
    let first = earlier_of(unknown, earlier_of(repeated, mismatched));
    Ok(first.is_some())
}

#[tactic(auto, unfolding(crate::specs::Rows::unmatched_at))]
fn unmatched_at(
    alloc: Global,
    constants: &Places,
    variables: &Places,
    functions: &Functions<'_>,
    callees: &Callees,
    stmt: &Stmt,
) -> Result<Option<Span>, AllocError>
    ensures { let wrong = unmatched_at (place_in constants.now) (place_in variables.now)
        (function_in functions.now) in
        (fs : List Fun) → HasCallees callees.now fs
        → IfOk result (λ at. at ≡ earliest (wrong fs stmt.now)) }
{
    let callee = callees.called(stmt);
    let others = has_others(alloc, constants, variables, functions, callee, stmt)?;
    unmatched(alloc, callee, others, stmt)
}

fn unmatched_in_body(
    alloc: Global,
    constants: &Places,
    variables: &Places,
    functions: &Functions<'_>,
    callees: &Callees,
    body: &Seq<Stmt>,
) -> Result<Option<Span>, AllocError>
    ensures { let wrong = unmatched_at (place_in constants.now) (place_in variables.now)
        (function_in functions.now) in
        (fs : List Fun) → HasCallees callees.now fs
        → IfOk result (λ at. at ≡ first_in (wrong fs) (statements_of body.now)) }
{
    let mut first = None;
    for stmt in statements(alloc, body)? {
        let own = unmatched_at(alloc, constants, variables, functions, callees, stmt)?;
        first = earlier_of(first, own);
    }
    Ok(first)
}

/// The first statement of a function of which no other fault is told and that matches no row, or of
/// whose call a copy matches none. Variables have their declarations where they are used.
pub(crate) fn unmatched_in_fun(
    alloc: Global,
    constants: &Places,
    functions: &Functions<'_>,
    callees: &Callees,
    fun: &Fun,
) -> Result<Option<Span>, AllocError>
    ensures { let constant = place_in constants.now in
        let wrong = unmatched_in_fun constant (function_in functions.now) in
        (fs : List Fun) → HasCallees callees.now fs
        → IfOk result (λ at. at ≡ earliest (wrong fs fun.now)) }
{
    let variables = Places::of_variables(alloc, fun)?;
    let first = unmatched_in_body(alloc, constants, &variables, functions, callees, &fun.body)?;
    Ok(first)
}
