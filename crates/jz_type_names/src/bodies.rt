//! The statements of a body.

ghost use Rattle.std.specs.Prelude.{◌≡◌, IfOk, OnOk};
ghost use Rattle.jz_type_names.specs.Parts.{statements_of};
ghost use Rattle.jz_type_names.specs.Lent.{these};
ghost use Rattle.jz_type_names.specs.InnerLists.{Gains};
ghost use Rattle.jz_type_names.specs.InnerNested.{nested_of};

use jz_tree::{Seq, Stmt, StmtKind};
use std::alloc::{AllocError, Global};

#[cycle(statements)]
fn add_statements<'a>(list: &mut Vec<&'a Stmt>, body: &'a Seq<Stmt>) -> Result<(), AllocError>
    ensures { OnOk result (Gains list.old.items list.new.items (statements_of body.now)) }
{
    for stmt in body.as_slice() {
        list.push(stmt)?;
        add_nested(list, &stmt.kind)?;
    }
    Ok(())
}

#[cycle(statements)]
fn add_nested<'a>(list: &mut Vec<&'a Stmt>, kind: &'a StmtKind) -> Result<(), AllocError>
    ensures { OnOk result (Gains list.old.items list.new.items (nested_of kind.now)) }
{
    match kind {
        StmtKind::Assign { .. } => Ok(()),
        StmtKind::If(_, yes, no) => {
            add_statements(list, yes)?;
            add_statements(list, no)?;
            Ok(())
        }
        StmtKind::While {
            prologue,
            cond: _,
            body: None,
        } => {
            add_statements(list, prologue)?;
            Ok(())
        }
        StmtKind::While {
            prologue,
            cond: _,
            body: Some(body),
        } => {
            add_statements(list, prologue)?;
            add_statements(list, body)?;
            Ok(())
        }
        StmtKind::For { body, .. } => {
            add_statements(list, body)?;
            Ok(())
        }
        StmtKind::Mark(_) => Ok(()),
    }
}

/// The statements of a body and all that stand in them.
pub fn statements(alloc: Global, body: &Seq<Stmt>) -> Result<Vec<&Stmt>, AllocError>
    ensures { IfOk result (λ ss. these ss.items ≡ statements_of body.now) }
{
    let mut list = Vec::new(alloc);
    add_statements(&mut list, body)?;
    Ok(list)
}
