//! Whether expressions are equal but for where they stand, and whether two indices are one.

ghost use Rattle.std.specs.Prelude.{◌≡◌, is_some};
ghost use Rattle.jz_integers.specs.Integers.{written_number as written};
ghost use Rattle.jz_tree.specs.declared.expr.Expr.{Expr};
ghost use Rattle.jz_select.specs.Trees.{named_variable, names_eq, cell_eq, operator_number};
ghost use Rattle.jz_select.specs.Trees.{bool_eq, tree_of};
ghost use Rattle.jz_select.specs.Trees.{tree_eq, index_of};
ghost use Rattle.jz_select.specs.InnerLayers.{indices_eq};
ghost use Rattle.jz_select.specs.Places.{is_number};

use jz_integers::written_number;
use jz_tree::{BinOp, Expr, Var};
use jz_type_names::same_size;

fn same_cell(a: Option<u32>, b: Option<u32>) -> bool
    ensures { result ≡ cell_eq a b }
{
    match a {
        None => b.is_none(),
        Some(j) => match b {
            None => false,
            Some(k) => j == k,
        },
    }
}

/// Whether both are one variable, wherever they stand.
pub fn same_var(a: &Var, b: &Var) -> bool
    ensures { result ≡ names_eq (named_variable a.now) (named_variable b.now) }
{
    a.name == b.name && a.copy == b.copy && same_cell(a.cell, b.cell)
}

fn same_truth(a: bool, b: bool) -> bool
    ensures { result ≡ bool_eq a b }
{
    if a { b } else { !b }
}

fn number(op: BinOp) -> u8
    ensures { result ≡ operator_number op }
{
    match op {
        BinOp::OrElse => 0,
        BinOp::AndThen => 1,
        BinOp::Or => 2,
        BinOp::Xor => 3,
        BinOp::And => 4,
        BinOp::Eq => 5,
        BinOp::Ne => 6,
        BinOp::Lt => 7,
        BinOp::Le => 8,
        BinOp::Gt => 9,
        BinOp::Ge => 10,
        BinOp::LtS => 11,
        BinOp::LeS => 12,
        BinOp::GtS => 13,
        BinOp::GeS => 14,
        BinOp::Shl => 15,
        BinOp::Shr => 16,
        BinOp::Sar => 17,
        BinOp::Rol => 18,
        BinOp::Ror => 19,
        BinOp::Add => 20,
        BinOp::Sub => 21,
        BinOp::Mul => 22,
        BinOp::Div => 23,
        BinOp::Rem => 24,
        BinOp::DivS => 25,
        BinOp::RemS => 26,
    }
}

/// Whether both are equal but for where they stand.
#[cycle(alike)]
pub fn alike(one: &Expr, other: &Expr) -> bool
    ensures { result ≡ tree_eq (tree_of one.now) (tree_of other.now) }
{
    let mut a = one;
    let mut b = other;
    loop {
        match a {
            Expr::Bin(op, left, right, _) => match b {
                Expr::Bin(other_op, other_left, other_right, _) => {
                    if number(*op) != number(*other_op) {
                        return false;
                    }
                    if !alike(right.get(), other_right.get()) {
                        return false;
                    }
                    a = left.get();
                    b = other_left.get();
                }
                _ => return false,
            },
            _ => return alike_single(a, b),
        }
    }
}

#[cycle(alike)]
fn alike_single(one: &Expr, other: &Expr) -> bool
    ensures { result ≡ tree_eq (tree_of one.now) (tree_of other.now) }
{
    match (one, other) {
        (Expr::Num(n, _), Expr::Num(m, _)) => *n == *m,
        (Expr::Bool(a, _), Expr::Bool(b, _)) => same_truth(*a, *b),
        (Expr::Var(v), Expr::Var(w)) => same_var(v, w),
        (Expr::Cell(v, at), Expr::Cell(w, other_at)) => {
            same_var(v, w) && alike(at.get(), other_at.get())
        }
        (Expr::Load(a), Expr::Load(b)) => alike(a.at.get(), b.at.get()),
        (Expr::Neg(a, _), Expr::Neg(b, _)) => alike(a.get(), b.get()),
        (Expr::Not(a, _), Expr::Not(b, _)) => alike(a.get(), b.get()),
        (
            Expr::Cast {
                size,
                signed,
                e,
                span: _,
            },
            Expr::Cast {
                size: other_size,
                signed: other_signed,
                e: other_e,
                span: _,
            },
        ) => {
            same_size(*size, *other_size)
                && same_truth(*signed, *other_signed)
                && alike(e.get(), other_e.get())
        }
        (Expr::Bin(op, left, right, _), Expr::Bin(other_op, other_left, other_right, _)) => {
            number(*op) == number(*other_op)
                && alike(right.get(), other_right.get())
                && alike(left.get(), other_left.get())
        }
        _ => false,
    }
}

/// An index has a value where it is a number.
#[tactic(auto, using(crate::proofs::Indices::number_is, crate::proofs::Indices::index_is))]
fn index_law(e: &Expr)
    ensures number { is_number (index_of e.now) ≡ is_some (written e.now) }
    ensures same { (o : Expr) → tree_eq (index_of e.now) (index_of o)
        ≡ indices_eq (written e.now) (written o) (tree_eq (tree_of e.now) (tree_of o)) }
{}

/// An index of a cell, and its value where it is built of numbers alone and has one. The value is
/// asked once.
#[derive(Clone, Copy)]
pub(crate) struct Index<'a> {
    pub(crate) at: &'a Expr,
    pub(crate) value: Option<i128>,
    pub(crate) ghost known: { value ≡ written at.now },
}

/// The index with its value.
pub(crate) fn read(at: &Expr) -> Index<'_>
    ensures { result.at.now ≡ at.now }
{
    Index {
        at,
        value: written_number(at),
    }
}

/// Whether both are one index: by their values, or by their trees.
pub(crate) fn same_index(one: Index<'_>, other: Index<'_>) -> bool
    ensures { result ≡ tree_eq (index_of one.entry.at.now) (index_of other.entry.at.now) }
{
    index_law(one.at);
    match one.value {
        None => match other.value {
            None => alike(one.at, other.at),
            Some(_) => false,
        },
        Some(m) => match other.value {
            None => false,
            Some(n) => m == n,
        },
    }
}

pub(crate) fn has_value(index: Index<'_>) -> bool
    ensures { result ≡ is_number (index_of index.entry.at.now) }
{
    index_law(index.at);
    index.value.is_some()
}
