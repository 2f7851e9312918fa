//! Rules of each statement, over the body of a function.

ghost use Rattle.std.specs.Prelude.{◌≡◌, List, IfOk};
ghost use Rattle.jz_tree.specs.declared.program.Fun.{Fun};
ghost use Rattle.jz_type_names.specs.Order.{earliest, first_in};
ghost use Rattle.jz_type_names.specs.Parts.{statements_of};
ghost use Rattle.jz_type_rows.specs.Programs.{of_statement, in_body};
ghost use Rattle.jz_type_rows.specs.Indexes.{indexed_by};
ghost use Rattle.jz_type_rows.specs.Copies.{copied_by};
ghost use Rattle.jz_type_rows.specs.Tables.{HasCallees};

use crate::callee::Callees;
use crate::copies::copied;
use crate::indexes::indexed;
use jz_tree::{Fun, Seq, Span, Stmt};
use jz_type_names::{earlier_of, statements};
use std::alloc::{AllocError, Global};

fn indexed_in_body(alloc: Global, body: &Seq<Stmt>) -> Result<Option<Span>, AllocError>
    ensures { IfOk result (λ at. at ≡ first_in (of_statement indexed_by) (statements_of body.now)) }
{
    let mut first = None;
    for stmt in statements(alloc, body)? {
        first = earlier_of(first, indexed(alloc, stmt)?);
    }
    Ok(first)
}

/// The first index of a register array, in a function, that is not inline.
#[tactic(auto, using(jz_type_names::proofs::Earliest::joining))]
pub fn indexed_in(alloc: Global, fun: &Fun) -> Result<Option<Span>, AllocError>
    ensures { IfOk result (λ at. at ≡ earliest (in_body indexed_by fun.now)) }
{
    let first = indexed_in_body(alloc, &fun.body)?;
    Ok(first)
}

fn copied_in_stmt(alloc: Global, callees: &Callees, stmt: &Stmt) -> Result<Option<Span>, AllocError>
    ensures { (fs : List Fun) → HasCallees callees.now fs
        → IfOk result (λ at. at ≡ earliest (of_statement (copied_by fs) stmt.now)) }
{
    copied(alloc, callees.called(stmt), stmt)
}

fn copied_in_body(
    alloc: Global,
    callees: &Callees,
    body: &Seq<Stmt>,
) -> Result<Option<Span>, AllocError>
    ensures { (fs : List Fun) → HasCallees callees.now fs
        → IfOk result (λ at. at ≡ first_in (of_statement (copied_by fs)) (statements_of body.now)) }
{
    let mut first = None;
    for stmt in statements(alloc, body)? {
        first = earlier_of(first, copied_in_stmt(alloc, callees, stmt)?);
    }
    Ok(first)
}

/// The first name, in a function, at which an array would have to be copied. `callees` are the
/// functions of its program.
#[tactic(auto, using(jz_type_names::proofs::Earliest::joining))]
pub fn copied_in(alloc: Global, callees: &Callees, fun: &Fun) -> Result<Option<Span>, AllocError>
    ensures { (fs : List Fun) → HasCallees callees.now fs
        → IfOk result (λ at. at ≡ earliest (in_body (copied_by fs) fun.now)) }
{
    let first = copied_in_body(alloc, callees, &fun.body)?;
    Ok(first)
}
