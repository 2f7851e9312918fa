//! Copies of statements and of what functions declare.

ghost use Rattle.std.specs.Prelude.{◌≡◌, IfOk};
ghost use Rattle.jz_tree.specs.declared.stmt.StmtKind.{StmtKind};

use crate::expr::{BinOp, Expr, Var};
use crate::program::{Note, NoteValue, Param, Ret};
use crate::stmt::{Lval, Rhs, Stmt, StmtKind};
use jz_io::{Boxed, Seq};
use std::alloc::{AllocError, Global};

impl NoteValue {
    pub fn copy(&self, alloc: Global) -> Result<NoteValue, AllocError>
        ensures { IfOk result (λ copy. copy ≡ self.now) }
    {
        match self {
            NoteValue::None => Ok(NoteValue::None),
            NoteValue::Name(name) => Ok(NoteValue::Name(name.clone()?)),
            NoteValue::Num(number) => Ok(NoteValue::Num(*number)),
            NoteValue::Str(bytes) => Ok(NoteValue::Str(Seq::from_slice(alloc, bytes.as_slice())?)),
        }
    }
}

impl Note {
    pub fn copy(&self, alloc: Global) -> Result<Note, AllocError>
        ensures { IfOk result (λ copy. copy ≡ self.now) }
    {
        Ok(Note {
            name: self.name.clone()?,
            value: self.value.copy(alloc)?,
            span: self.span,
        })
    }
}

pub fn copy_notes(alloc: Global, notes: &Seq<Note>) -> Result<Seq<Note>, AllocError>
    ensures { IfOk result (λ copy. copy ≡ notes.now) }
{
    notes.try_map(alloc, |note| note.copy(alloc))
}

impl Param {
    pub fn copy(&self, alloc: Global) -> Result<Param, AllocError>
        ensures { IfOk result (λ copy. copy ≡ self.now) }
    {
        Ok(Param {
            notes: copy_notes(alloc, &self.notes)?,
            var: self.var.copy(alloc)?,
        })
    }
}

pub fn copy_params(alloc: Global, params: &Seq<Param>) -> Result<Seq<Param>, AllocError>
    ensures { IfOk result (λ copy. copy ≡ params.now) }
{
    params.try_map(alloc, |param| param.copy(alloc))
}

impl Ret {
    pub fn copy(&self, alloc: Global) -> Result<Ret, AllocError>
        ensures { IfOk result (λ copy. copy ≡ self.now) }
    {
        Ok(Ret {
            notes: copy_notes(alloc, &self.notes)?,
            decl: self.decl.copy(alloc)?,
        })
    }
}

pub fn copy_rets(alloc: Global, rets: &Seq<Ret>) -> Result<Seq<Ret>, AllocError>
    ensures { IfOk result (λ copy. copy ≡ rets.now) }
{
    rets.try_map(alloc, |ret| ret.copy(alloc))
}

impl Lval {
    pub fn copy(&self, alloc: Global) -> Result<Lval, AllocError>
        ensures { IfOk result (λ copy. copy ≡ self.now) }
    {
        match self {
            Lval::Skip(span) => Ok(Lval::Skip(*span)),
            Lval::Var(var) => Ok(Lval::Var(var.copy(alloc)?)),
            Lval::Cell(var, at) => Ok(Lval::Cell(
                var.copy(alloc)?,
                Boxed::new(alloc, at.get().copy(alloc)?)?,
            )),
            Lval::Store(access) => Ok(Lval::Store(access.copy(alloc)?)),
        }
    }
}

pub fn copy_vars(alloc: Global, vars: &Seq<Var>) -> Result<Seq<Var>, AllocError>
    ensures { IfOk result (λ copy. copy ≡ vars.now) }
{
    vars.try_map(alloc, |var| var.copy(alloc))
}

pub fn copy_exprs(alloc: Global, exprs: &Seq<Expr>) -> Result<Seq<Expr>, AllocError>
    ensures { IfOk result (λ copy. copy ≡ exprs.now) }
{
    exprs.try_map(alloc, |expr| expr.copy(alloc))
}

pub fn copy_lvals(alloc: Global, lvals: &Seq<Lval>) -> Result<Seq<Lval>, AllocError>
    ensures { IfOk result (λ copy. copy ≡ lvals.now) }
{
    lvals.try_map(alloc, |lval| lval.copy(alloc))
}

impl Rhs {
    pub fn copy(&self, alloc: Global) -> Result<Rhs, AllocError>
        ensures { IfOk result (λ copy. copy ≡ self.now) }
    {
        match self {
            Rhs::Value(e) => Ok(Rhs::Value(e.copy(alloc)?)),
            Rhs::Call(name, args, span) => Ok(Rhs::Call(
                name.clone()?,
                copy_exprs(alloc, args)?,
                *span,
            )),
            Rhs::Intrinsic(name, args, span) => Ok(Rhs::Intrinsic(
                name.clone()?,
                copy_exprs(alloc, args)?,
                *span,
            )),
        }
    }
}

fn copy_condition(alloc: Global, cond: &Option<Expr>) -> Result<Option<Expr>, AllocError>
    ensures { IfOk result (λ copy. copy ≡ cond.now) }
{
    match cond {
        None => Ok(None),
        Some(e) => Ok(Some(e.copy(alloc)?)),
    }
}

impl Stmt {
    #[cycle(copy_statement)]
    pub fn copy(&self, alloc: Global) -> Result<Stmt, AllocError>
        ensures { IfOk result (λ copy. copy ≡ self.now) }
    {
        Ok(Stmt {
            notes: copy_notes(alloc, &self.notes)?,
            span: self.span,
            kind: self.kind.copy(alloc)?,
        })
    }
}

/// A copy of the assignment of these parts.
fn copy_assignment(
    alloc: Global,
    to: &Seq<Lval>,
    op: Option<BinOp>,
    rhs: &Rhs,
    cond: &Option<Expr>,
) -> Result<StmtKind, AllocError>
    ensures { IfOk result (λ copy. copy ≡ StmtKind.Assign to.now op rhs.now cond.now) }
{
    Ok(StmtKind::Assign {
        to: copy_lvals(alloc, to)?,
        op,
        rhs: rhs.copy(alloc)?,
        cond: copy_condition(alloc, cond)?,
    })
}

impl StmtKind {
    #[cycle(copy_statement)]
    pub fn copy(&self, alloc: Global) -> Result<StmtKind, AllocError>
        ensures { IfOk result (λ copy. copy ≡ self.now) }
    {
        match self {
            StmtKind::Assign { to, op, rhs, cond } => copy_assignment(alloc, to, *op, rhs, cond),
            StmtKind::If(cond, yes, no) => Ok(StmtKind::If(
                cond.copy(alloc)?,
                copy_block(alloc, yes)?,
                copy_block(alloc, no)?,
            )),
            StmtKind::While {
                prologue,
                cond,
                body,
            } => match body {
                None => Ok(StmtKind::While {
                    prologue: copy_block(alloc, prologue)?,
                    cond: cond.copy(alloc)?,
                    body: None,
                }),
                Some(body) => Ok(StmtKind::While {
                    prologue: copy_block(alloc, prologue)?,
                    cond: cond.copy(alloc)?,
                    body: Some(copy_block(alloc, body)?),
                }),
            },
            StmtKind::For {
                counter,
                from,
                down,
                to,
                body,
            } => Ok(StmtKind::For {
                counter: counter.copy(alloc)?,
                from: from.copy(alloc)?,
                down: *down,
                to: to.copy(alloc)?,
                body: copy_block(alloc, body)?,
            }),
            StmtKind::Mark(vars) => Ok(StmtKind::Mark(copy_vars(alloc, vars)?)),
        }
    }
}

#[cycle(copy_statement)]
pub fn copy_block(alloc: Global, block: &Seq<Stmt>) -> Result<Seq<Stmt>, AllocError>
    ensures { IfOk result (λ copy. copy ≡ block.now) }
{
    let mut copies = Seq::new(alloc);
    for s in block.as_slice() {
        copies.push(s.copy(alloc)?)?;
    }
    Ok(copies)
}
