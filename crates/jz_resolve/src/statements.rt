//! Statements whose variables have their declarations, and whose constants are numbers, changed
//! where they stand.

ghost use Rattle.std.specs.Prelude.{◌≡◌, OnOk, map, option_map};
ghost use Rattle.jz_resolve.specs.Resolving.{expr_with, var_with, stmt_with};
ghost use Rattle.jz_resolve.specs.InnerResolving.{lval_with, rhs_with, kind_with};

use crate::expressions::{declare_var, replace_expr, resolve_access, resolve_expr};
use crate::lookup::Lookup;
use jz_tree::{Boxed, Expr, Lval, Rhs, Seq, Stmt, StmtKind, Var};
use std::alloc::{AllocError, Global};

/// Gives each variable what is declared of its name.
#[tactic(auto, using(crate::proofs::InPlace::next_changed))]
pub(crate) fn resolve_vars<L: Lookup>(
    alloc: Global,
    names: &L,
    vars: &mut Seq<Var>,
) -> Result<(), AllocError>
    ensures { OnOk result (vars.new ≡ map (var_with (L.known names.now)) vars.old) }
{
    for var in vars.as_mut_slice() {
        declare_var(alloc, names, var)?;
    }
    Ok(())
}

#[tactic(auto, using(crate::proofs::InPlace::next_changed))]
fn resolve_exprs<L: Lookup>(
    alloc: Global,
    names: &L,
    exprs: &mut Seq<Expr>,
) -> Result<(), AllocError>
    ensures { OnOk result (exprs.new ≡ map (expr_with (L.known names.now)) exprs.old) }
{
    for e in exprs.as_mut_slice() {
        replace_expr(alloc, names, e)?;
    }
    Ok(())
}

fn resolve_lval<L: Lookup>(alloc: Global, names: &L, to: &mut Lval) -> Result<(), AllocError>
    ensures { OnOk result (to.new ≡ lval_with (L.known names.now) to.old) }
{
    match to {
        Lval::Skip(_) => {}
        Lval::Var(var) => declare_var(alloc, names, var)?,
        Lval::Cell(var, at) => {
            declare_var(alloc, names, var)?;
            *at = Boxed::new(alloc, resolve_expr(alloc, names, at.get())?)?;
        }
        Lval::Store(access) => *access = resolve_access(alloc, names, access)?,
    }
    Ok(())
}

#[tactic(auto, using(crate::proofs::InPlace::next_changed))]
fn resolve_lvals<L: Lookup>(
    alloc: Global,
    names: &L,
    lvals: &mut Seq<Lval>,
) -> Result<(), AllocError>
    ensures { OnOk result (lvals.new ≡ map (lval_with (L.known names.now)) lvals.old) }
{
    for to in lvals.as_mut_slice() {
        resolve_lval(alloc, names, to)?;
    }
    Ok(())
}

fn resolve_rhs<L: Lookup>(alloc: Global, names: &L, rhs: &mut Rhs) -> Result<(), AllocError>
    ensures { OnOk result (rhs.new ≡ rhs_with (L.known names.now) rhs.old) }
{
    match rhs {
        Rhs::Value(e) => replace_expr(alloc, names, e)?,
        Rhs::Call(_, args, _) => resolve_exprs(alloc, names, args)?,
        Rhs::Intrinsic(_, args, _) => resolve_exprs(alloc, names, args)?,
    }
    Ok(())
}

fn resolve_condition<L: Lookup>(
    alloc: Global,
    names: &L,
    cond: &mut Option<Expr>,
) -> Result<(), AllocError>
    ensures { OnOk result (cond.new ≡ option_map (expr_with (L.known names.now)) cond.old) }
{
    if let Some(e) = cond {
        replace_expr(alloc, names, e)?;
    }
    Ok(())
}

fn resolve_assignment<L: Lookup>(
    alloc: Global,
    names: &L,
    to: &mut Seq<Lval>,
    rhs: &mut Rhs,
    cond: &mut Option<Expr>,
) -> Result<(), AllocError>
    ensures to { OnOk result (to.new ≡ map (lval_with (L.known names.now)) to.old) }
    ensures rhs { OnOk result (rhs.new ≡ rhs_with (L.known names.now) rhs.old) }
    ensures cond { OnOk result (cond.new ≡ option_map (expr_with (L.known names.now)) cond.old) }
{
    resolve_lvals(alloc, names, to)?;
    resolve_rhs(alloc, names, rhs)?;
    resolve_condition(alloc, names, cond)?;
    Ok(())
}

#[cycle(resolve_statement)]
fn resolve_stmt<L: Lookup>(alloc: Global, names: &L, stmt: &mut Stmt) -> Result<(), AllocError>
    ensures { OnOk result (stmt.new ≡ stmt_with (L.known names.now) stmt.old) }
{
    resolve_kind(alloc, names, &mut stmt.kind)?;
    Ok(())
}

#[cycle(resolve_statement)]
fn resolve_kind<L: Lookup>(alloc: Global, names: &L, kind: &mut StmtKind) -> Result<(), AllocError>
    ensures { OnOk result (kind.new ≡ kind_with (L.known names.now) kind.old) }
{
    match kind {
        StmtKind::Assign { to, rhs, cond, .. } => {
            resolve_assignment(alloc, names, to, rhs, cond)?;
        }
        StmtKind::If(cond, yes, no) => {
            replace_expr(alloc, names, cond)?;
            resolve_block(alloc, names, yes)?;
            resolve_block(alloc, names, no)?;
        }
        StmtKind::While {
            prologue,
            cond,
            body,
        } => {
            resolve_block(alloc, names, prologue)?;
            replace_expr(alloc, names, cond)?;
            if let Some(body) = body {
                resolve_block(alloc, names, body)?;
            }
        }
        StmtKind::For {
            counter,
            from,
            to,
            body,
            ..
        } => {
            declare_var(alloc, names, counter)?;
            replace_expr(alloc, names, from)?;
            replace_expr(alloc, names, to)?;
            resolve_block(alloc, names, body)?;
        }
        StmtKind::Mark(vars) => resolve_vars(alloc, names, vars)?,
    }
    Ok(())
}

/// Gives the variables of the statements what is declared of their names.
#[cycle(resolve_statement)]
#[tactic(auto, using(crate::proofs::InPlace::next_changed))]
pub(crate) fn resolve_block<L: Lookup>(
    alloc: Global,
    names: &L,
    block: &mut Seq<Stmt>,
) -> Result<(), AllocError>
    ensures { OnOk result (block.new ≡ map (stmt_with (L.known names.now)) block.old) }
{
    for s in block.as_mut_slice() {
        resolve_stmt(alloc, names, s)?;
    }
    Ok(())
}
