//! Copies and comparisons of trees, also of a left side as long as a text lets it be.

use jz_io::Span;
use jz_tree::{
    Access, BinOp, Boxed, Decl, Expr, Seq, Size, Stmt, StmtKind, Storage, Text, Ty, Var,
};
use std::alloc::{AllocError, Global};
use std::test::Fail;

const HERE: Span = Span { line: 1, col: 2 };

const LENGTH: u32 = 500_000;

/// `first + 1 + 1 ..`, with `last` for the last operand.
fn chain(alloc: Global, length: u32, first: i128, last: i128) -> Result<Expr, AllocError> {
    let mut e = Expr::Num(first, HERE);
    for _ in 1..length {
        let one = Boxed::new(alloc, Expr::Num(1, HERE))?;
        e = Expr::Bin(BinOp::Add, Boxed::new(alloc, e)?, one, HERE);
    }
    let last = Boxed::new(alloc, Expr::Num(last, HERE))?;
    Ok(Expr::Bin(BinOp::Add, Boxed::new(alloc, e)?, last, HERE))
}

#[test]
fn a_long_chain(rt: HostRuntime) -> Result<(), Fail> {
    let alloc = rt.alloc();
    let long = chain(alloc, LENGTH, 1, 1)?;
    let copy = long.copy(alloc)?;
    assert!(rt; copy == long);
    assert!(rt; chain(alloc, LENGTH, 2, 1)? != long);
    assert!(rt; chain(alloc, LENGTH, 1, 2)? != long);
    assert!(rt; chain(alloc, LENGTH - 1, 1, 1)? != long);
    Ok(())
}

fn boxed(alloc: Global, number: i128) -> Result<Boxed<Expr>, AllocError> {
    Boxed::new(alloc, Expr::Num(number, HERE))
}

fn table(alloc: Global, length: i128) -> Result<Var, AllocError> {
    Ok(Var {
        name: Text::from_string(String::from_str(alloc, "table")?),
        copy: 3,
        cell: Some(4),
        decl: Some(Decl {
            storage: Storage::Stack,
            ty: Ty::Array(Size::S32, boxed(alloc, length)?),
        }),
        span: HERE,
    })
}

/// `(32s)(- table[5]) * [:u16 7]`
fn product(alloc: Global, length: i128) -> Result<Expr, AllocError> {
    let cell = Expr::Cell(table(alloc, length)?, boxed(alloc, 5)?);
    let left = Expr::Cast {
        size: Size::S32,
        signed: true,
        e: Boxed::new(alloc, Expr::Neg(Boxed::new(alloc, cell)?, HERE))?,
        span: HERE,
    };
    let right = Expr::Load(Access {
        size: Some(Size::S16),
        at: boxed(alloc, 7)?,
        unaligned: false,
        span: HERE,
    });
    Ok(Expr::Bin(
        BinOp::Mul,
        Boxed::new(alloc, left)?,
        Boxed::new(alloc, right)?,
        HERE,
    ))
}

#[test]
fn every_part_counts(rt: HostRuntime) -> Result<(), Fail> {
    let alloc = rt.alloc();
    let whole = product(alloc, 9)?;
    assert!(rt; whole.copy(alloc)? == whole);
    assert!(rt; product(alloc, 8)? != whole);
    Ok(())
}

fn choice(alloc: Global, cond: bool) -> Stmt {
    Stmt {
        notes: Seq::new(alloc),
        span: HERE,
        kind: StmtKind::If(Expr::Bool(cond, HERE), Seq::new(alloc), Seq::new(alloc)),
    }
}

#[test]
fn statements_are_copied(rt: HostRuntime) -> Result<(), Fail> {
    let alloc = rt.alloc();
    let whole = choice(alloc, true);
    let copy = whole.copy(alloc)?;
    assert!(rt; copy == whole);
    assert!(rt; choice(alloc, false) != whole);
    Ok(())
}
