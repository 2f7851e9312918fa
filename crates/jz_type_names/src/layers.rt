//! What stands in one statement, without the statements in it, in the order of the text.

ghost use Rattle.std.specs.Prelude.{◌≡◌, IfOk, OnOk, flat_map, option_to_list};
ghost use Rattle.jz_type_names.specs.Parts.{layer_of, exprs_of, right_exprs, left_exprs, left_vars, left_cells, whole_left, names_in, read_by, set_by, wholly_set_by, called_by, cells_set, is_skip};
ghost use Rattle.jz_type_names.specs.Lent.{these, this, paired_lists, call_of, var_names};
ghost use Rattle.jz_type_names.specs.InnerLists.{Gains, GainsVars, GainsCells};

use crate::exprs::{add, names};
use jz_tree::{Expr, Lval, Rhs, Seq, Span, Stmt, StmtKind, Text, Var};
use std::alloc::{AllocError, Global};

fn left_expr(to: &Lval) -> Option<&Expr>
    ensures { this result ≡ left_exprs to.now }
{
    match to {
        Lval::Skip(_) => None,
        Lval::Var(_) => None,
        Lval::Cell(_, at) => Some(at.get()),
        Lval::Store(access) => Some(access.at.get()),
    }
}

fn left_var(to: &Lval) -> Option<&Var>
    ensures { this result ≡ left_vars to.now }
{
    match to {
        Lval::Skip(_) => None,
        Lval::Var(var) => Some(var),
        Lval::Cell(var, _) => Some(var),
        Lval::Store(_) => None,
    }
}

/// Whether a left side takes nothing: `_`.
pub fn is_skip(to: &Lval) -> bool
    ensures { result ≡ is_skip to.now }
{
    matches!(to, Lval::Skip(_))
}

/// The variable that a left side sets as a whole.
pub fn whole_var(to: &Lval) -> Option<&Var>
    ensures { this result ≡ whole_left to.now }
{
    match to {
        Lval::Var(var) => Some(var),
        _ => None,
    }
}

fn add_lefts<'a>(list: &mut Vec<&'a Expr>, to: &'a Seq<Lval>) -> Result<(), AllocError>
    ensures { OnOk result (Gains list.old.items list.new.items (flat_map left_exprs to.now)) }
{
    for lval in to.as_slice() {
        add(list, left_expr(lval))?;
    }
    Ok(())
}

fn add_args<'a>(list: &mut Vec<&'a Expr>, args: &'a Seq<Expr>) -> Result<(), AllocError>
    ensures { OnOk result (Gains list.old.items list.new.items args.now) }
{
    for arg in args.as_slice() {
        list.push(arg)?;
    }
    Ok(())
}

fn add_right<'a>(list: &mut Vec<&'a Expr>, rhs: &'a Rhs) -> Result<(), AllocError>
    ensures { OnOk result (Gains list.old.items list.new.items (right_exprs rhs.now)) }
{
    match rhs {
        Rhs::Value(e) => {
            list.push(e)?;
            Ok(())
        }
        Rhs::Call(_, args, _) => {
            add_args(list, args)?;
            Ok(())
        }
        Rhs::Intrinsic(_, args, _) => {
            add_args(list, args)?;
            Ok(())
        }
    }
}

fn add_option<'a>(list: &mut Vec<&'a Expr>, e: &'a Option<Expr>) -> Result<(), AllocError>
    ensures { OnOk result (Gains list.old.items list.new.items (option_to_list e.now)) }
{
    match e {
        None => Ok(()),
        Some(e) => {
            list.push(e)?;
            Ok(())
        }
    }
}

/// The expressions of a statement: indexes and addresses of its left sides, values, arguments,
/// conditions and bounds.
pub fn exprs_of(alloc: Global, stmt: &Stmt) -> Result<Vec<&Expr>, AllocError>
    ensures { IfOk result (λ es. these es.items ≡ exprs_of (layer_of stmt.now)) }
{
    let mut list = Vec::new(alloc);
    match &stmt.kind {
        StmtKind::Assign {
            to,
            op: _,
            rhs,
            cond,
        } => {
            add_lefts(&mut list, to)?;
            add_right(&mut list, rhs)?;
            add_option(&mut list, cond)?;
            Ok(list)
        }
        StmtKind::If(cond, _, _) => {
            list.push(cond)?;
            Ok(list)
        }
        StmtKind::While {
            prologue: _,
            cond,
            body: _,
        } => {
            list.push(cond)?;
            Ok(list)
        }
        StmtKind::For {
            counter: _,
            from,
            down: _,
            to,
            body: _,
        } => {
            list.push(from)?;
            list.push(to)?;
            Ok(list)
        }
        StmtKind::Mark(_) => Ok(list),
    }
}

pub(crate) fn add_names<'a>(
    alloc: Global,
    list: &mut Vec<&'a Var>,
    expr: &'a Expr,
) -> Result<(), AllocError>
    ensures { OnOk result (GainsVars list.old.items list.new.items (names_in expr.now)) }
{
    for var in names(alloc, expr)? {
        list.push(var)?;
    }
    Ok(())
}

/// The variables that a statement reads.
pub fn read_by(alloc: Global, stmt: &Stmt) -> Result<Vec<&Var>, AllocError>
    ensures { IfOk result (λ vs. var_names vs.items ≡ read_by (layer_of stmt.now)) }
{
    let mut list = Vec::new(alloc);
    for expr in exprs_of(alloc, stmt)? {
        add_names(alloc, &mut list, expr)?;
    }
    Ok(list)
}

fn add_set<'a>(list: &mut Vec<&'a Var>, to: &'a Seq<Lval>) -> Result<(), AllocError>
    ensures { OnOk result (Gains list.old.items list.new.items (flat_map left_vars to.now)) }
{
    for lval in to.as_slice() {
        add(list, left_var(lval))?;
    }
    Ok(())
}

/// The variables that a statement sets, as a whole or a cell.
pub fn set_by(alloc: Global, stmt: &Stmt) -> Result<Vec<&Var>, AllocError>
    ensures { IfOk result (λ vs. these vs.items ≡ set_by (layer_of stmt.now)) }
{
    let mut list = Vec::new(alloc);
    match &stmt.kind {
        StmtKind::Assign {
            to,
            op: _,
            rhs: _,
            cond: _,
        } => {
            add_set(&mut list, to)?;
            Ok(list)
        }
        StmtKind::For {
            counter,
            from: _,
            down: _,
            to: _,
            body: _,
        } => {
            list.push(counter)?;
            Ok(list)
        }
        StmtKind::If(_, _, _) => Ok(list),
        StmtKind::While {
            prologue: _,
            cond: _,
            body: _,
        } => Ok(list),
        StmtKind::Mark(_) => Ok(list),
    }
}

fn add_whole<'a>(list: &mut Vec<&'a Var>, to: &'a Seq<Lval>) -> Result<(), AllocError>
    ensures { OnOk result (Gains list.old.items list.new.items (flat_map whole_left to.now)) }
{
    for lval in to.as_slice() {
        add(list, whole_var(lval))?;
    }
    Ok(())
}

/// The variables that a statement sets as a whole.
pub fn wholly_set_by(alloc: Global, stmt: &Stmt) -> Result<Vec<&Var>, AllocError>
    ensures { IfOk result (λ vs. these vs.items ≡ wholly_set_by (layer_of stmt.now)) }
{
    let mut list = Vec::new(alloc);
    match &stmt.kind {
        StmtKind::Assign {
            to,
            op: _,
            rhs: _,
            cond: _,
        } => {
            add_whole(&mut list, to)?;
            Ok(list)
        }
        _ => Ok(list),
    }
}

/// The name of the function that a statement calls, and where it stands.
pub fn called_by(stmt: &Stmt) -> Option<(&Text, Span)>
    ensures { call_of result ≡ called_by (layer_of stmt.now) }
{
    match &stmt.kind {
        StmtKind::Assign {
            to: _,
            op: _,
            rhs: Rhs::Call(name, _, span),
            cond: _,
        } => Some((name, *span)),
        _ => None,
    }
}

/// The cells that a statement sets, each as its array and its index.
pub fn cells_set(alloc: Global, stmt: &Stmt) -> Result<Vec<(&Var, &Expr)>, AllocError>
    ensures { IfOk result (λ cs. paired_lists cs.items ≡ cells_set (layer_of stmt.now)) }
{
    let mut list = Vec::new(alloc);
    match &stmt.kind {
        StmtKind::Assign {
            to,
            op: _,
            rhs: _,
            cond: _,
        } => {
            add_cells_set(&mut list, to)?;
            Ok(list)
        }
        _ => Ok(list),
    }
}

fn add_left_cell<'a>(list: &mut Vec<(&'a Var, &'a Expr)>, to: &'a Lval) -> Result<(), AllocError>
    ensures { OnOk result (GainsCells list.old.items list.new.items (left_cells to.now)) }
{
    match to {
        Lval::Cell(var, at) => {
            list.push((var, at.get()))?;
            Ok(())
        }
        _ => Ok(()),
    }
}

fn add_cells_set<'a>(
    list: &mut Vec<(&'a Var, &'a Expr)>,
    to: &'a Seq<Lval>,
) -> Result<(), AllocError>
    ensures { OnOk result (GainsCells list.old.items list.new.items (flat_map left_cells to.now)) }
{
    for lval in to.as_slice() {
        add_left_cell(list, lval)?;
    }
    Ok(())
}

/// Adds the variables of a list, by reference.
pub(crate) fn add_refs<'a>(list: &mut Vec<&'a Var>, vars: &'a Seq<Var>) -> Result<(), AllocError>
    ensures { OnOk result (Gains list.old.items list.new.items vars.now) }
{
    for var in vars.as_slice() {
        list.push(var)?;
    }
    Ok(())
}
