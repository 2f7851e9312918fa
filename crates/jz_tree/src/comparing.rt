//! Comparisons that tell whether two trees are equal, by a loop down the left side of an
//! expression.

ghost use Rattle.std.specs.Prelude.{◌≡◌, ◌↔◌, IsTrue};
ghost use Rattle.jz_tree.specs.declared.expr.Expr.{Expr};

use crate::expr::{Access, BinOp, Decl, Expr, Storage, Ty, Var};
use jz_io::{Span, Text};
use jz_words::Size;

fn same_operations(a: BinOp, b: BinOp) -> bool
    ensures { IsTrue result ↔ (a ≡ b) }
{
    a == b
}

fn same_spans(a: Span, b: Span) -> bool
    ensures { IsTrue result ↔ (a ≡ b) }
{
    a == b
}

fn same_sizes(a: Size, b: Size) -> bool
    ensures { IsTrue result ↔ (a ≡ b) }
{
    a == b
}

fn same_storages(a: Storage, b: Storage) -> bool
    ensures { IsTrue result ↔ (a ≡ b) }
{
    a == b
}

fn same_written_sizes(a: Option<Size>, b: Option<Size>) -> bool
    ensures { IsTrue result ↔ (a ≡ b) }
{
    a == b
}

fn same_cells(a: Option<u32>, b: Option<u32>) -> bool
    ensures { IsTrue result ↔ (a ≡ b) }
{
    a == b
}

fn same_names(a: &Text, b: &Text) -> bool
    ensures { IsTrue result ↔ (a.now ≡ b.now) }
{
    *a == *b
}

impl Expr {
    /// Whether both are equal, with their spans.
    #[cycle(same)]
    fn same(&self, other: &Expr) -> bool
        ensures { IsTrue result ↔ (self.now ≡ other.now) }
    {
        let mut a = self;
        let mut b = other;
        loop {
            match a {
                Expr::Bin(op, left, right, span) => match b {
                    Expr::Bin(other_op, other_left, other_right, other_span) => {
                        if !same_operations(*op, *other_op) {
                            return false;
                        }
                        if !same_spans(*span, *other_span) {
                            return false;
                        }
                        if !right.get().same(other_right.get()) {
                            return false;
                        }
                        a = left.get();
                        b = other_left.get();
                    }
                    _ => return false,
                },
                _ => return a.same_single(b),
            }
        }
    }

    #[cycle(same)]
    fn same_single(&self, other: &Expr) -> bool
        ensures { IsTrue result ↔ (self.now ≡ other.now) }
    {
        match self {
            Expr::Num(a, span) => match other {
                Expr::Num(b, other_span) => *a == *b && same_spans(*span, *other_span),
                _ => false,
            },
            Expr::Bool(a, span) => match other {
                Expr::Bool(b, other_span) => *a == *b && same_spans(*span, *other_span),
                _ => false,
            },
            Expr::Var(a) => match other {
                Expr::Var(b) => a.same(b),
                _ => false,
            },
            Expr::Cell(a, at) => match other {
                Expr::Cell(b, other_at) => a.same(b) && at.get().same(other_at.get()),
                _ => false,
            },
            Expr::Load(access) => access.same_load(other),
            Expr::Neg(a, span) => a.get().same_negation(*span, other),
            Expr::Not(a, span) => a.get().same_complement(*span, other),
            Expr::Cast {
                size,
                signed,
                e,
                span,
            } => e.get().same_cast(*size, *signed, *span, other),
            Expr::Bin(op, left, right, span) => match other {
                Expr::Bin(other_op, other_left, other_right, other_span) => {
                    same_operations(*op, *other_op)
                        && same_spans(*span, *other_span)
                        && left.get().same(other_left.get())
                        && right.get().same(other_right.get())
                }
                _ => false,
            },
        }
    }

    /// Whether the other one is the negation of this one.
    #[cycle(same)]
    fn same_negation(&self, span: Span, other: &Expr) -> bool
        ensures { IsTrue result ↔ (Expr.Neg self.now span ≡ other.now) }
    {
        match other {
            Expr::Neg(e, other_span) => same_spans(span, *other_span) && self.same(e.get()),
            _ => false,
        }
    }

    /// Whether the other one is the complement of this one.
    #[cycle(same)]
    fn same_complement(&self, span: Span, other: &Expr) -> bool
        ensures { IsTrue result ↔ (Expr.Not self.now span ≡ other.now) }
    {
        match other {
            Expr::Not(e, other_span) => same_spans(span, *other_span) && self.same(e.get()),
            _ => false,
        }
    }

    /// Whether the other one is this cast of this one.
    #[cycle(same)]
    fn same_cast(&self, size: Size, signed: bool, span: Span, other: &Expr) -> bool
        ensures { IsTrue result ↔ (Expr.Cast size signed self.now span ≡ other.now) }
    {
        match other {
            Expr::Cast {
                size: other_size,
                signed: other_signed,
                e,
                span: other_span,
            } => {
                same_sizes(size, *other_size)
                    && signed == *other_signed
                    && same_spans(span, *other_span)
                    && self.same(e.get())
            }
            _ => false,
        }
    }
}

impl Var {
    /// Whether both are equal, with their spans and declarations.
    #[cycle(same)]
    fn same(&self, other: &Var) -> bool
        ensures { IsTrue result ↔ (self.now ≡ other.now) }
    {
        let decls = match &self.decl {
            None => other.decl.is_none(),
            Some(decl) => match &other.decl {
                None => false,
                Some(other_decl) => decl.same(other_decl),
            },
        };
        decls
            && same_names(&self.name, &other.name)
            && self.copy == other.copy
            && same_cells(self.cell, other.cell)
            && same_spans(self.span, other.span)
    }
}

impl Decl {
    /// Whether both are equal.
    #[cycle(same)]
    fn same(&self, other: &Decl) -> bool
        ensures { IsTrue result ↔ (self.now ≡ other.now) }
    {
        same_storages(self.storage, other.storage) && self.ty.same(&other.ty)
    }
}

impl Ty {
    /// Whether both are equal, also the expressions of their lengths.
    #[cycle(same)]
    fn same(&self, other: &Ty) -> bool
        ensures { IsTrue result ↔ (self.now ≡ other.now) }
    {
        match self {
            Ty::Int => match other {
                Ty::Int => true,
                _ => false,
            },
            Ty::Bool => match other {
                Ty::Bool => true,
                _ => false,
            },
            Ty::Word(a) => match other {
                Ty::Word(b) => same_sizes(*a, *b),
                _ => false,
            },
            Ty::Array(a, length) => match other {
                Ty::Array(b, other_length) => {
                    same_sizes(*a, *b) && length.get().same(other_length.get())
                }
                _ => false,
            },
        }
    }
}

impl Access {
    /// Whether both are equal, with their spans.
    #[cycle(same)]
    fn same(&self, other: &Access) -> bool
        ensures { IsTrue result ↔ (self.now ≡ other.now) }
    {
        same_written_sizes(self.size, other.size)
            && self.unaligned == other.unaligned
            && same_spans(self.span, other.span)
            && self.at.get().same(other.at.get())
    }

    /// Whether the other one is the word of memory that this access reads.
    #[cycle(same)]
    fn same_load(&self, other: &Expr) -> bool
        ensures { IsTrue result ↔ (Expr.Load self.now ≡ other.now) }
    {
        match other {
            Expr::Load(access) => self.same(access),
            _ => false,
        }
    }
}

impl PartialEq for Expr {
    ghost use Rattle.std.specs.Cmp.{partial_equiv_from_equiv};
    ghost use Rattle.jz_tree.specs.Deciding.{same_expr, same_expr_laws};

    ghost eq = { same_expr };

    ghost laws = { partial_equiv_from_equiv same_expr_laws };

    fn eq(&self, other: &Expr) -> bool
        ensures value { result ≡ same_expr self.now other.now }
        ensures equal { IsTrue result ↔ (self.now ≡ other.now) }
    {
        self.same(other)
    }
}

impl Eq for Expr {
    ghost use Rattle.jz_tree.specs.Deciding.{same_expr_laws};

    ghost laws = { same_expr_laws };
}

impl PartialEq for Var {
    ghost use Rattle.std.specs.Cmp.{partial_equiv_from_equiv};
    ghost use Rattle.jz_tree.specs.Deciding.{same_var, same_var_laws};

    ghost eq = { same_var };

    ghost laws = { partial_equiv_from_equiv same_var_laws };

    fn eq(&self, other: &Var) -> bool
        ensures value { result ≡ same_var self.now other.now }
        ensures equal { IsTrue result ↔ (self.now ≡ other.now) }
    {
        self.same(other)
    }
}

impl Eq for Var {
    ghost use Rattle.jz_tree.specs.Deciding.{same_var_laws};

    ghost laws = { same_var_laws };
}

impl PartialEq for Decl {
    ghost use Rattle.std.specs.Cmp.{partial_equiv_from_equiv};
    ghost use Rattle.jz_tree.specs.Deciding.{same_decl, same_decl_laws};

    ghost eq = { same_decl };

    ghost laws = { partial_equiv_from_equiv same_decl_laws };

    fn eq(&self, other: &Decl) -> bool
        ensures value { result ≡ same_decl self.now other.now }
        ensures equal { IsTrue result ↔ (self.now ≡ other.now) }
    {
        self.same(other)
    }
}

impl Eq for Decl {
    ghost use Rattle.jz_tree.specs.Deciding.{same_decl_laws};

    ghost laws = { same_decl_laws };
}

impl PartialEq for Ty {
    ghost use Rattle.std.specs.Cmp.{partial_equiv_from_equiv};
    ghost use Rattle.jz_tree.specs.Deciding.{same_ty, same_ty_laws};

    ghost eq = { same_ty };

    ghost laws = { partial_equiv_from_equiv same_ty_laws };

    fn eq(&self, other: &Ty) -> bool
        ensures value { result ≡ same_ty self.now other.now }
        ensures equal { IsTrue result ↔ (self.now ≡ other.now) }
    {
        self.same(other)
    }
}

impl Eq for Ty {
    ghost use Rattle.jz_tree.specs.Deciding.{same_ty_laws};

    ghost laws = { same_ty_laws };
}

impl PartialEq for Access {
    ghost use Rattle.std.specs.Cmp.{partial_equiv_from_equiv};
    ghost use Rattle.jz_tree.specs.Deciding.{same_access, same_access_laws};

    ghost eq = { same_access };

    ghost laws = { partial_equiv_from_equiv same_access_laws };

    fn eq(&self, other: &Access) -> bool
        ensures value { result ≡ same_access self.now other.now }
        ensures equal { IsTrue result ↔ (self.now ≡ other.now) }
    {
        self.same(other)
    }
}

impl Eq for Access {
    ghost use Rattle.jz_tree.specs.Deciding.{same_access_laws};

    ghost laws = { same_access_laws };
}
