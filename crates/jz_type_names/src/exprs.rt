//! What stands in an expression, in the order of the text.

ghost use Rattle.std.specs.Prelude.{◌≡◌, ◌<◌, IfOk, OnOk};
ghost use Rattle.jz_type_names.specs.Parts.{span_of, names_in, cells_in, lengths_in};
ghost use Rattle.jz_type_names.specs.Lent.{this, paired_lists, var_names};
ghost use Rattle.jz_type_names.specs.InnerLists.{Gains, GainsCells, own_cell, count_in, count_of, operands, part_names, part_cells};

use jz_tree::{Decl, Expr, Span, Ty, Var};
use std::alloc::{AllocError, Global};

/// The first token of an expression.
pub fn span_of(expr: &Expr) -> Span
    ensures { result ≡ span_of expr.now }
{
    match expr {
        Expr::Num(_, span) => *span,
        Expr::Bool(_, span) => *span,
        Expr::Var(var) => var.span,
        Expr::Cell(var, _) => var.span,
        Expr::Load(access) => access.span,
        Expr::Neg(_, span) => *span,
        Expr::Not(_, span) => *span,
        Expr::Cast {
            size: _,
            signed: _,
            e: _,
            span,
        } => *span,
        Expr::Bin(_, _, _, span) => *span,
    }
}

/// What an expression is made of: a variable, and its operands, of which the index of a cell is the
/// first.
#[derive(Clone, Copy)]
struct Parts<'a> {
    var: Option<&'a Var>,
    first: Option<&'a Expr>,
    second: Option<&'a Expr>,
}

/// An expression that has this operand alone.
fn operand(first: &Expr) -> Parts<'_>
    ensures names { part_names result ≡ names_in first.now }
    ensures cells { part_cells result ≡ cells_in first.now }
    ensures count { count_of (operands result) ≡ count_in first.now }
{
    Parts {
        var: None,
        first: Some(first),
        second: None,
    }
}

fn take_apart(expr: &Expr) -> Parts<'_>
    ensures names { names_in expr.now ≡ part_names result }
    ensures cells { cells_in expr.now ≡ part_cells result }
    ensures smaller { count_of (operands result) < count_in expr.now }
{
    match expr {
        Expr::Num(_, _) => Parts {
            var: None,
            first: None,
            second: None,
        },
        Expr::Bool(_, _) => Parts {
            var: None,
            first: None,
            second: None,
        },
        Expr::Var(var) => Parts {
            var: Some(var),
            first: None,
            second: None,
        },
        Expr::Cell(var, at) => Parts {
            var: Some(var),
            first: Some(at.get()),
            second: None,
        },
        Expr::Load(access) => operand(access.at.get()),
        Expr::Neg(e, _) => operand(e.get()),
        Expr::Not(e, _) => operand(e.get()),
        Expr::Cast { e, .. } => operand(e.get()),
        Expr::Bin(_, left, right, _) => Parts {
            var: None,
            first: Some(left.get()),
            second: Some(right.get()),
        },
    }
}

pub(crate) fn add<'a, T>(list: &mut Vec<&'a T>, item: Option<&'a T>) -> Result<(), AllocError>
    ensures { OnOk result (Gains list.old.items list.new.items (this item.entry)) }
{
    if let Some(item) = item {
        list.push(item)?;
    }
    Ok(())
}

/// The variables in an expression, those of its indexes and addresses among them.
pub fn names(alloc: Global, expr: &Expr) -> Result<Vec<&Var>, AllocError>
    ensures { IfOk result (λ vs. var_names vs.items ≡ names_in expr.now) }
{
    let mut names = Vec::new(alloc);
    let mut rest = Vec::new(alloc);
    rest.push(expr)?;
    while let Some(e) = rest.pop() {
        let parts = take_apart(e);
        add(&mut names, parts.var)?;
        add(&mut rest, parts.second)?;
        add(&mut rest, parts.first)?;
    }
    Ok(names)
}

fn add_cell<'a>(
    cells: &mut Vec<(&'a Var, &'a Expr)>,
    var: Option<&'a Var>,
    at: Option<&'a Expr>,
) -> Result<(), AllocError>
    ensures { OnOk result
        (GainsCells cells.old.items cells.new.items (own_cell var.entry at.entry)) }
{
    if let Some(var) = var {
        if let Some(at) = at {
            cells.push((var, at))?;
        }
    }
    Ok(())
}

/// The cells of arrays in an expression, each as its array and its index.
pub fn cells(alloc: Global, expr: &Expr) -> Result<Vec<(&Var, &Expr)>, AllocError>
    ensures { IfOk result (λ cs. paired_lists cs.items ≡ cells_in expr.now) }
{
    let mut cells = Vec::new(alloc);
    let mut rest = Vec::new(alloc);
    rest.push(expr)?;
    while let Some(e) = rest.pop() {
        let parts = take_apart(e);
        add_cell(&mut cells, parts.var, parts.first)?;
        add(&mut rest, parts.second)?;
        add(&mut rest, parts.first)?;
    }
    Ok(cells)
}

/// The length of an array, where the declaration is of one.
pub fn length_of(decl: &Decl) -> Option<&Expr>
    ensures { this result ≡ lengths_in decl.now }
{
    match &decl.ty {
        Ty::Array(_, length) => Some(length.get()),
        _ => None,
    }
}
