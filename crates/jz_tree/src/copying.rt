//! Copies that equal what they copy, made by a loop down the left side of an expression.

ghost use Rattle.std.specs.Prelude.{◌≡◌, IfOk};
ghost use Rattle.jz_tree.specs.LeftSides.{on_left};

use crate::expr::{Access, BinOp, Decl, Expr, Ty, Var};
use jz_io::{Boxed, Span};
use std::alloc::{AllocError, Global};

/// An operation on the left side of an expression, without its first operand.
#[derive(Drop)]
pub struct LeftStep {
    pub op: BinOp,
    pub right: Expr,
    pub span: Span,
}

/// The left side of an expression: its operations from the outermost, and the operand where it
/// ends.
#[derive(Drop)]
pub struct LeftSide {
    pub steps: Vec<LeftStep>,
    pub first: Expr,
}

impl LeftSide {
    /// The expression that has this left side.
    #[tactic(auto, using(crate::proofs::Sides::last_step))]
    pub fn into_expr(self, alloc: Global) -> Result<Expr, AllocError>
        ensures { IfOk result (λ e. e ≡ on_left self.steps.items self.first) }
    {
        let LeftSide {
            mut steps,
            mut first,
        } = self;
        while let Some(LeftStep { op, right, span }) = steps.pop() {
            first = Expr::Bin(
                op,
                Boxed::new(alloc, first)?,
                Boxed::new(alloc, right)?,
                span,
            );
        }
        Ok(first)
    }
}

impl Expr {
    /// A copy, also of an expression whose left side is as long as memory lets it be.
    #[cycle(copy)]
    pub fn copy(&self, alloc: Global) -> Result<Expr, AllocError>
        ensures { IfOk result (λ copy. copy ≡ self.now) }
    {
        let side = self.copy_side(alloc)?;
        let copy = side.into_expr(alloc)?;
        Ok(copy)
    }

    #[cycle(copy)]
    fn copy_side(&self, alloc: Global) -> Result<LeftSide, AllocError>
        ensures { IfOk result (λ side. on_left side.steps.items side.first ≡ self.now) }
    {
        let mut steps = Vec::new(alloc);
        let mut rest = self;
        while let Expr::Bin(op, left, right, span) = rest {
            steps.push(LeftStep {
                op: *op,
                right: right.get().copy(alloc)?,
                span: *span,
            })?;
            rest = left.get();
        }
        let first = rest.copy_single(alloc)?;
        Ok(LeftSide { steps, first })
    }

    #[cycle(copy)]
    fn copy_single(&self, alloc: Global) -> Result<Expr, AllocError>
        ensures { IfOk result (λ copy. copy ≡ self.now) }
    {
        match self {
            Expr::Num(number, span) => Ok(Expr::Num(*number, *span)),
            Expr::Bool(truth, span) => Ok(Expr::Bool(*truth, *span)),
            Expr::Var(var) => Ok(Expr::Var(var.copy(alloc)?)),
            Expr::Cell(var, at) => Ok(Expr::Cell(
                var.copy(alloc)?,
                Boxed::new(alloc, at.get().copy(alloc)?)?,
            )),
            Expr::Load(access) => Ok(Expr::Load(access.copy(alloc)?)),
            Expr::Neg(e, span) => Ok(Expr::Neg(Boxed::new(alloc, e.get().copy(alloc)?)?, *span)),
            Expr::Not(e, span) => Ok(Expr::Not(Boxed::new(alloc, e.get().copy(alloc)?)?, *span)),
            Expr::Cast {
                size,
                signed,
                e,
                span,
            } => Ok(Expr::Cast {
                size: *size,
                signed: *signed,
                e: Boxed::new(alloc, e.get().copy(alloc)?)?,
                span: *span,
            }),
            Expr::Bin(op, left, right, span) => Ok(Expr::Bin(
                *op,
                Boxed::new(alloc, left.get().copy(alloc)?)?,
                Boxed::new(alloc, right.get().copy(alloc)?)?,
                *span,
            )),
        }
    }
}

impl Var {
    #[cycle(copy)]
    pub fn copy(&self, alloc: Global) -> Result<Var, AllocError>
        ensures { IfOk result (λ copy. copy ≡ self.now) }
    {
        let decl = match &self.decl {
            None => None,
            Some(decl) => Some(decl.copy(alloc)?),
        };
        Ok(Var {
            name: self.name.clone()?,
            copy: self.copy,
            cell: self.cell,
            decl,
            span: self.span,
        })
    }
}

impl Decl {
    #[cycle(copy)]
    pub fn copy(&self, alloc: Global) -> Result<Decl, AllocError>
        ensures { IfOk result (λ copy. copy ≡ self.now) }
    {
        Ok(Decl {
            storage: self.storage,
            ty: self.ty.copy(alloc)?,
        })
    }
}

impl Ty {
    #[cycle(copy)]
    pub fn copy(&self, alloc: Global) -> Result<Ty, AllocError>
        ensures { IfOk result (λ copy. copy ≡ self.now) }
    {
        match self {
            Ty::Int => Ok(Ty::Int),
            Ty::Bool => Ok(Ty::Bool),
            Ty::Word(size) => Ok(Ty::Word(*size)),
            Ty::Array(size, length) => Ok(Ty::Array(
                *size,
                Boxed::new(alloc, length.get().copy(alloc)?)?,
            )),
        }
    }
}

impl Access {
    #[cycle(copy)]
    pub fn copy(&self, alloc: Global) -> Result<Access, AllocError>
        ensures { IfOk result (λ copy. copy ≡ self.now) }
    {
        Ok(Access {
            size: self.size,
            at: Boxed::new(alloc, self.at.get().copy(alloc)?)?,
            unaligned: self.unaligned,
            span: self.span,
        })
    }
}
