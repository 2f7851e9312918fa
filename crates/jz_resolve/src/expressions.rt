//! Expressions whose variables have their declarations, and whose constants are numbers.

ghost use Rattle.std.specs.Prelude.{◌≡◌, IfOk, OnOk};
ghost use Rattle.jz_resolve.specs.Resolving.{expr_with, var_with, number_at};
ghost use Rattle.jz_resolve.specs.InnerResolving.{access_with, name_with, whole_of};

use crate::lookup::Lookup;
use jz_tree::{Access, BinOp, Boxed, Expr, LeftSide, LeftStep, Span, Var};
use std::alloc::{AllocError, Global};

fn resolve_var<L: Lookup>(alloc: Global, names: &L, var: &Var) -> Result<Var, AllocError>
    ensures { IfOk result (λ r. r ≡ var_with (L.known names.now) var.now) }
{
    let decl = names.declared(alloc, &var.name)?;
    Ok(Var {
        name: var.name.clone()?,
        copy: var.copy,
        cell: var.cell,
        decl,
        span: var.span,
    })
}

/// Gives the variable what is declared of its name.
pub(crate) fn declare_var<L: Lookup>(
    alloc: Global,
    names: &L,
    var: &mut Var,
) -> Result<(), AllocError>
    ensures { OnOk result (var.new ≡ var_with (L.known names.now) var.old) }
{
    let decl = names.declared(alloc, &var.name)?;
    var.decl = decl;
    Ok(())
}

/// What stands for a constant: its number, or where it has none a division by zero.
fn number_at(alloc: Global, number: Option<i128>, at: Span) -> Result<Expr, AllocError>
    ensures { IfOk result (λ r. r ≡ number_at at number) }
{
    match number {
        Some(number) => Ok(Expr::Num(number, at)),
        None => Ok(Expr::Bin(
            BinOp::Div,
            Boxed::new(alloc, Expr::Num(1, at))?,
            Boxed::new(alloc, Expr::Num(0, at))?,
            at,
        )),
    }
}

fn resolve_name<L: Lookup>(alloc: Global, names: &L, var: &Var) -> Result<Expr, AllocError>
    ensures { IfOk result (λ r. r ≡ name_with (L.known names.now) var.now) }
{
    match names.constant(&var.name, var.span) {
        Some(number) => {
            let number = number_at(alloc, number, var.span)?;
            Ok(number)
        }
        None => {
            let var = resolve_var(alloc, names, var)?;
            Ok(Expr::Var(var))
        }
    }
}

/// The expression with the declarations of its variables, also one whose left side is as long as
/// memory lets it be.
#[cycle(resolve)]
pub(crate) fn resolve_expr<L: Lookup>(
    alloc: Global,
    names: &L,
    e: &Expr,
) -> Result<Expr, AllocError>
    ensures { IfOk result (λ r. r ≡ expr_with (L.known names.now) e.now) }
{
    let side = resolve_side(alloc, names, e)?;
    let resolved = side.into_expr(alloc)?;
    Ok(resolved)
}

#[cycle(resolve)]
fn resolve_side<L: Lookup>(alloc: Global, names: &L, e: &Expr) -> Result<LeftSide, AllocError>
    ensures { IfOk result (λ side. whole_of side ≡ expr_with (L.known names.now) e.now) }
{
    let mut steps = Vec::new(alloc);
    let mut rest = e;
    while let Expr::Bin(op, left, right, span) = rest {
        steps.push(LeftStep {
            op: *op,
            right: resolve_expr(alloc, names, right.get())?,
            span: *span,
        })?;
        rest = left.get();
    }
    let first = resolve_single(alloc, names, rest)?;
    Ok(LeftSide { steps, first })
}

#[cycle(resolve)]
fn resolve_single<L: Lookup>(alloc: Global, names: &L, e: &Expr) -> Result<Expr, AllocError>
    ensures { IfOk result (λ r. r ≡ expr_with (L.known names.now) e.now) }
{
    match e {
        Expr::Num(number, span) => Ok(Expr::Num(*number, *span)),
        Expr::Bool(truth, span) => Ok(Expr::Bool(*truth, *span)),
        Expr::Var(var) => {
            let name = resolve_name(alloc, names, var)?;
            Ok(name)
        }
        Expr::Cell(var, at) => Ok(Expr::Cell(
            resolve_var(alloc, names, var)?,
            Boxed::new(alloc, resolve_expr(alloc, names, at.get())?)?,
        )),
        Expr::Load(access) => Ok(Expr::Load(resolve_access(alloc, names, access)?)),
        Expr::Neg(e, span) => Ok(Expr::Neg(
            Boxed::new(alloc, resolve_expr(alloc, names, e.get())?)?,
            *span,
        )),
        Expr::Not(e, span) => Ok(Expr::Not(
            Boxed::new(alloc, resolve_expr(alloc, names, e.get())?)?,
            *span,
        )),
        Expr::Cast {
            size,
            signed,
            e,
            span,
        } => Ok(Expr::Cast {
            size: *size,
            signed: *signed,
            e: Boxed::new(alloc, resolve_expr(alloc, names, e.get())?)?,
            span: *span,
        }),
        Expr::Bin(op, left, right, span) => Ok(Expr::Bin(
            *op,
            Boxed::new(alloc, resolve_expr(alloc, names, left.get())?)?,
            Boxed::new(alloc, resolve_expr(alloc, names, right.get())?)?,
            *span,
        )),
    }
}

/// The access with the declarations of the variables in its address.
#[cycle(resolve)]
pub(crate) fn resolve_access<L: Lookup>(
    alloc: Global,
    names: &L,
    access: &Access,
) -> Result<Access, AllocError>
    ensures { IfOk result (λ r. r ≡ access_with (L.known names.now) access.now) }
{
    Ok(Access {
        size: access.size,
        at: Boxed::new(alloc, resolve_expr(alloc, names, access.at.get())?)?,
        unaligned: access.unaligned,
        span: access.span,
    })
}

/// Resolves the expression where it stands. A number stays, a variable that is no constant gets its
/// declaration, and anything else is made anew.
pub(crate) fn replace_expr<L: Lookup>(
    alloc: Global,
    names: &L,
    e: &mut Expr,
) -> Result<(), AllocError>
    ensures { OnOk result (e.new ≡ expr_with (L.known names.now) e.old) }
{
    if let Expr::Num(_, _) = e {
        return Ok(());
    }
    if let Expr::Var(var) = e {
        match names.constant(&var.name, var.span) {
            None => {
                declare_var(alloc, names, var)?;
                return Ok(());
            }
            Some(_) => {}
        }
    }
    let resolved = resolve_expr(alloc, names, e)?;
    *e = resolved;
    Ok(())
}
