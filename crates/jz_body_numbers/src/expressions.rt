//! The numbers of expressions, those of a right operand before those of the left one.

ghost use Rattle.std.specs.Prelude.{◌≡◌, ◌++◌, OnOk};
ghost use Rattle.jz_body_numbers.specs.Numbers as numbers;

use jz_tree::{Access, Expr};
use std::alloc::AllocError;

/// Adds the numbers of an expression.
#[cycle(numbers)]
pub fn add_expr(out: &mut Vec<i128>, e: &Expr) -> Result<(), AllocError>
    ensures { OnOk result (out.new.items ≡ out.old.items ++ numbers.of_expr e.now) }
{
    let mut rest = e;
    while let Expr::Bin(_, left, right, _) = rest {
        add_expr(out, right.get())?;
        rest = left.get();
    }
    add_single(out, rest)?;
    Ok(())
}

#[cycle(numbers)]
fn add_single(out: &mut Vec<i128>, e: &Expr) -> Result<(), AllocError>
    ensures { OnOk result (out.new.items ≡ out.old.items ++ numbers.of_expr e.now) }
{
    match e {
        Expr::Num(n, _) => {
            out.push(*n)?;
            Ok(())
        }
        Expr::Bool(_, _) => Ok(()),
        Expr::Var(_) => Ok(()),
        Expr::Cell(_, at) => {
            add_expr(out, at.get())?;
            Ok(())
        }
        Expr::Load(access) => {
            add_access(out, access)?;
            Ok(())
        }
        Expr::Neg(inner, _) => {
            add_expr(out, inner.get())?;
            Ok(())
        }
        Expr::Not(inner, _) => {
            add_expr(out, inner.get())?;
            Ok(())
        }
        Expr::Cast {
            size: _,
            signed: _,
            e: inner,
            span: _,
        } => {
            add_expr(out, inner.get())?;
            Ok(())
        }
        Expr::Bin(_, left, right, _) => {
            add_expr(out, right.get())?;
            add_expr(out, left.get())?;
            Ok(())
        }
    }
}

/// Adds the numbers of an address.
#[cycle(numbers)]
pub fn add_access(out: &mut Vec<i128>, access: &Access) -> Result<(), AllocError>
    ensures { OnOk result (out.new.items ≡ out.old.items ++ numbers.of_access access.now) }
{
    add_expr(out, access.at.get())?;
    Ok(())
}
