//! The numbers of a body.

ghost use Rattle.std.specs.Prelude.{◌≡◌, ◌++◌, IfOk, OnOk};
ghost use Rattle.jz_body_numbers.specs.Numbers as numbers;

use crate::expressions::add_expr;
use jz_tree::{Seq, Stmt};
use jz_type_names::{exprs_of, statements};
use std::alloc::{AllocError, Global};

/// Adds the numbers of a statement itself.
fn add_statement(alloc: Global, out: &mut Vec<i128>, stmt: &Stmt) -> Result<(), AllocError>
    ensures { OnOk result (out.new.items ≡ out.old.items ++ numbers.of_statement stmt.now) }
{
    for expr in exprs_of(alloc, stmt)? {
        add_expr(out, expr)?;
    }
    Ok(())
}

/// The numbers of the statements of a body and of all that stand in them.
pub fn numbers_of(alloc: Global, body: &Seq<Stmt>) -> Result<Vec<i128>, AllocError>
    ensures { IfOk result (λ ns. ns.items ≡ numbers.of_body body.now) }
{
    let mut out = Vec::new(alloc);
    for stmt in statements(alloc, body)? {
        add_statement(alloc, &mut out, stmt)?;
    }
    Ok(out)
}
