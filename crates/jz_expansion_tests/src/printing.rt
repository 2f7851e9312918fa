//! Statements as words. A variable has the number of its copy behind `'`, where it is one of a copy,
//! and that of its cell behind `#`, where it is one.

use jz_tree::{BinOp, Expr, Lval, Rhs, Seq, Stmt, StmtKind, Var};
use std::alloc::AllocError;

fn operator(op: BinOp) -> &'static str {
    match op {
        BinOp::Add => "+",
        BinOp::Sub => "-",
        BinOp::Mul => "*",
        BinOp::Div => "/",
        BinOp::Rem => "%",
        BinOp::And => "&",
        BinOp::Shl => "<<",
        BinOp::Lt => "<",
        BinOp::Eq => "==",
        _ => "?",
    }
}

fn variable(var: &Var, out: &mut String) -> Result<(), AllocError> {
    out.push_str(var.name.as_str())?;
    if var.copy > 0 {
        write!(out, "'{}", var.copy)?;
    }
    match var.cell {
        None => Ok(()),
        Some(cell) => write!(out, "#{cell}"),
    }
}

/// Variables, with blanks between.
pub fn variables(vars: &Seq<Var>, out: &mut String) -> Result<(), AllocError> {
    for (i, var) in vars.as_slice().iter().enumerate() {
        if i > 0 {
            out.push_str(" ")?;
        }
        variable(var, out)?;
    }
    Ok(())
}

fn expression(expr: &Expr, out: &mut String) -> Result<(), AllocError> {
    match expr {
        Expr::Num(n, _) => write!(out, "{n}"),
        Expr::Bool(truth, _) => write!(out, "{truth}"),
        Expr::Var(var) => variable(var, out),
        Expr::Cell(var, at) => {
            variable(var, out)?;
            out.push_str("[")?;
            expression(at.get(), out)?;
            out.push_str("]")
        }
        Expr::Load(access) => {
            out.push_str("[")?;
            expression(access.at.get(), out)?;
            out.push_str("]")
        }
        Expr::Neg(e, _) => {
            out.push_str("-")?;
            expression(e.get(), out)
        }
        Expr::Not(e, _) => {
            out.push_str("!")?;
            expression(e.get(), out)
        }
        Expr::Cast { e, .. } => {
            out.push_str("cast(")?;
            expression(e.get(), out)?;
            out.push_str(")")
        }
        Expr::Bin(op, left, right, _) => {
            out.push_str("(")?;
            expression(left.get(), out)?;
            out.push_str(operator(*op))?;
            expression(right.get(), out)?;
            out.push_str(")")
        }
    }
}

/// An expression in brackets.
fn indexed(at: &Expr, out: &mut String) -> Result<(), AllocError> {
    out.push_str("[")?;
    expression(at, out)?;
    out.push_str("]")
}

fn left(lval: &Lval, out: &mut String) -> Result<(), AllocError> {
    match lval {
        Lval::Skip(_) => out.push_str("_"),
        Lval::Var(var) => variable(var, out),
        Lval::Cell(var, at) => {
            variable(var, out)?;
            indexed(at.get(), out)
        }
        Lval::Store(access) => indexed(access.at.get(), out),
    }
}

fn lefts(to: &Seq<Lval>, out: &mut String) -> Result<(), AllocError> {
    for (i, one) in to.as_slice().iter().enumerate() {
        if i > 0 {
            out.push_str(",")?;
        }
        left(one, out)?;
    }
    Ok(())
}

/// Arguments in parentheses.
fn arguments(exprs: &Seq<Expr>, out: &mut String) -> Result<(), AllocError> {
    out.push_str("(")?;
    for (i, expr) in exprs.as_slice().iter().enumerate() {
        if i > 0 {
            out.push_str(",")?;
        }
        expression(expr, out)?;
    }
    out.push_str(")")
}

fn right(rhs: &Rhs, out: &mut String) -> Result<(), AllocError> {
    match rhs {
        Rhs::Value(expr) => expression(expr, out),
        Rhs::Call(name, args, _) => {
            out.push_str(name.as_str())?;
            arguments(args, out)
        }
        Rhs::Intrinsic(name, args, _) => {
            out.push_str("#")?;
            out.push_str(name.as_str())?;
            arguments(args, out)
        }
    }
}

fn assignment(
    to: &Seq<Lval>,
    op: Option<BinOp>,
    rhs: &Rhs,
    cond: &Option<Expr>,
    out: &mut String,
) -> Result<(), AllocError> {
    lefts(to, out)?;
    out.push_str(" ")?;
    if let Some(op) = op {
        out.push_str(operator(op))?;
    }
    out.push_str("= ")?;
    right(rhs, out)?;
    match cond {
        None => Ok(()),
        Some(cond) => {
            out.push_str(" if ")?;
            expression(cond, out)
        }
    }
}

/// The head of a loop that counts.
fn rounds(counter: &Var, from: &Expr, to: &Expr, out: &mut String) -> Result<(), AllocError> {
    out.push_str("for ")?;
    variable(counter, out)?;
    out.push_str(" = ")?;
    expression(from, out)?;
    out.push_str(" to ")?;
    expression(to, out)
}

/// The mark of variables.
fn marked(vars: &Seq<Var>, out: &mut String) -> Result<(), AllocError> {
    out.push_str("mark(")?;
    variables(vars, out)?;
    out.push_str(")")
}

#[cycle(statements)]
fn statement(stmt: &Stmt, out: &mut String) -> Result<(), AllocError> {
    match &stmt.kind {
        StmtKind::Assign { to, op, rhs, cond } => assignment(to, *op, rhs, cond, out),
        StmtKind::If(cond, holds, other) => {
            out.push_str("if ")?;
            expression(cond, out)?;
            braced(holds, out)?;
            braced(other, out)
        }
        StmtKind::While {
            prologue,
            cond,
            body,
        } => {
            out.push_str("while")?;
            braced(prologue, out)?;
            out.push_str(" ")?;
            expression(cond, out)?;
            match body {
                None => out.push_str(" -"),
                Some(body) => braced(body, out),
            }
        }
        StmtKind::For {
            counter,
            from,
            to,
            body,
            ..
        } => {
            rounds(counter, from, to, out)?;
            braced(body, out)
        }
        StmtKind::Mark(vars) => marked(vars, out),
    }
}

/// Statements in braces, behind a blank.
#[cycle(statements)]
fn braced(stmts: &Seq<Stmt>, out: &mut String) -> Result<(), AllocError> {
    out.push_str(" {")?;
    statements(stmts, out)?;
    out.push_str("}")
}

/// Statements, each with `;` behind it; of many how many there are.
#[cycle(statements)]
pub fn statements(stmts: &Seq<Stmt>, out: &mut String) -> Result<(), AllocError> {
    if stmts.len() > 1000 {
        return write!(out, "{} statements", stmts.len());
    }
    for (i, stmt) in stmts.as_slice().iter().enumerate() {
        if i > 0 {
            out.push_str(" ")?;
        }
        statement(stmt, out)?;
        out.push_str(";")?;
    }
    Ok(())
}

/// The columns where statements stand, but for those that stand in one.
pub fn columns(stmts: &Seq<Stmt>, out: &mut String) -> Result<(), AllocError> {
    for (i, stmt) in stmts.as_slice().iter().enumerate() {
        if i > 0 {
            out.push_str(" ")?;
        }
        write!(out, "{}", stmt.span.col)?;
    }
    Ok(())
}
