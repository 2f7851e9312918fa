//! Where an expression is stuck, why, and what it has leaked until then. Expressions are built by
//! hand, and what is wanted follows from the rules of values.

use Part::{Cell, Memory, Quotient, Unaligned, Unset};
use Wanted::{At, Is};
use jz_meaning::{MemMap, State, Store, Stuck, Value, Why, evaluate, value_of, write};
use jz_tree::{Access, BinOp, Boxed, Decl, Expr, Failure, Seq, Span, Storage, Text, Ty, Var};
use jz_words::{Size, Word};
use std::alloc::{AllocError, Global};
use std::process::Abort;
use std::test::Fail;

/// What stands at the right of `cells[i] + `.
#[derive(Clone, Copy)]
enum Part {
    /// A variable without a value.
    Unset,
    /// `cells[i]`
    Cell(i128),
    /// `[address]`
    Memory(i128),
    /// The same, at any address.
    Unaligned(i128),
    /// `cells[1] / cells[i]`
    Quotient(i128),
}

#[derive(Clone, Copy)]
enum Wanted {
    Is(u64),
    /// Stuck at that column.
    At(u32, Why),
}

/// The index at the left, what stands at the right, what comes out, and the numbers until then.
type Row = (i128, Part, Wanted, &'static [u64]);

/// Of four cells 1, 2 and 3 are 7, 9 and 0. The bytes at 0x1000 to 0x100b are 1 to 12.
static ROWS: [Row; 17] = [
    (1, Cell(2), Is(16), &[1, 2]),
    (1, Cell(4), At(12, Why::Bounds), &[1]),
    (1, Cell(-1), At(12, Why::Bounds), &[1]),
    (1, Cell(0), At(12, Why::Init), &[1, 0]),
    (4, Cell(0), At(1, Why::Bounds), &[]),
    (0, Cell(4), At(1, Why::Init), &[0]),
    (1, Unset, At(12, Why::Init), &[1]),
    (1, Memory(0x1000), Is(0x0807_0605_0403_0208), &[1, 0x1000]),
    (1, Memory(0x1004), At(12, Why::Align), &[1]),
    (1, Memory(0x1008), At(12, Why::Address), &[1]),
    (1, Memory(0xfff), At(12, Why::Address), &[1]),
    (
        1,
        Unaligned(0x1004),
        Is(0x0c0b_0a09_0807_060c),
        &[1, 0x1004],
    ),
    (1, Unaligned(0x1005), At(12, Why::Address), &[1]),
    (2, Quotient(1), Is(10), &[2, 1, 1, 0, 7, 7]),
    (1, Quotient(2), Is(7), &[1, 1, 2, 0, 7, 9]),
    (1, Quotient(3), At(12, Why::Divide), &[1, 1, 3]),
    (1, Quotient(0), At(23, Why::Init), &[1, 1, 0]),
];

fn column(col: u32) -> Span {
    Span { line: 1, col }
}

fn named(alloc: Global, name: &str, ty: Ty, col: u32) -> Result<Var, AllocError> {
    Ok(Var {
        name: Text::from_string(String::from_str(alloc, name)?),
        copy: 0,
        cell: None,
        decl: Some(Decl {
            storage: Storage::Stack,
            ty,
        }),
        span: column(col),
    })
}

fn number(alloc: Global, number: i128) -> Result<Boxed<Expr>, AllocError> {
    Boxed::new(alloc, Expr::Num(number, column(50)))
}

fn cell(alloc: Global, index: i128, col: u32) -> Result<Expr, AllocError> {
    let ty = Ty::Array(Size::S64, number(alloc, 4)?);
    let cells = named(alloc, "cells", ty, col)?;
    Ok(Expr::Cell(cells, number(alloc, index)?))
}

fn unset(alloc: Global) -> Result<Expr, AllocError> {
    Ok(Expr::Var(named(alloc, "unset", Ty::Word(Size::S64), 12)?))
}

fn access(alloc: Global, address: i128, unaligned: bool) -> Result<Access, AllocError> {
    Ok(Access {
        size: None,
        at: number(alloc, address)?,
        unaligned,
        span: column(12),
    })
}

fn operation(
    alloc: Global,
    op: BinOp,
    left: Expr,
    right: Expr,
    col: u32,
) -> Result<Expr, AllocError> {
    let left = Boxed::new(alloc, left)?;
    let right = Boxed::new(alloc, right)?;
    Ok(Expr::Bin(op, left, right, column(col)))
}

fn right_part(alloc: Global, part: Part) -> Result<Expr, AllocError> {
    match part {
        Unset => unset(alloc),
        Cell(index) => cell(alloc, index, 12),
        Memory(address) => Ok(Expr::Load(access(alloc, address, false)?)),
        Unaligned(address) => Ok(Expr::Load(access(alloc, address, true)?)),
        Quotient(index) => {
            let divided = cell(alloc, 1, 12)?;
            operation(alloc, BinOp::Div, divided, cell(alloc, index, 23)?, 12)
        }
    }
}

fn sum(alloc: Global, row: Row) -> Result<Expr, AllocError> {
    let left = cell(alloc, row.0, 1)?;
    operation(alloc, BinOp::Add, left, right_part(alloc, row.1)?, 1)
}

fn word(bits: u64) -> Value {
    Value::Word(Word::truncate(Size::S64, bits))
}

fn cells(alloc: Global) -> Result<Store, AllocError> {
    let name = Text::from_string(String::from_str(alloc, "cells")?);
    let mut store = Store::new(alloc);
    store.put(&name, 0, Some(1), Some(word(7)))?;
    store.put(&name, 0, Some(2), Some(word(9)))?;
    store.put(&name, 0, Some(3), Some(word(0)))?;
    Ok(store)
}

fn state(alloc: Global) -> Result<State, AllocError> {
    let store = cells(alloc)?;
    let memory = bytes(alloc)?;
    Ok(State { store, memory })
}

fn bytes(alloc: Global) -> Result<MemMap, AllocError> {
    let mut mem = MemMap::new(alloc);
    mem.add(0x1000, &[1, 2, 3, 4, 5, 6, 7, 8, 9, 10, 11, 12])?;
    Ok(mem)
}

/// What is wanted of an expression.
type Answer = Result<Value, Failure<Stuck>>;

fn answer(wanted: Wanted) -> Answer {
    match wanted {
        Is(bits) => Ok(word(bits)),
        At(col, why) => Err(Failure::Refused(Stuck {
            span: column(col),
            why,
        })),
    }
}

/// Whether an expression comes to this over the cells and the bytes, and leaks these numbers until
/// then.
fn comes_to(
    alloc: Global,
    e: &Expr,
    size: Option<Size>,
    wanted: Answer,
    numbers: &[u64],
) -> Result<bool, AllocError> {
    let state = state(alloc)?;
    let mut out = Seq::new(alloc);
    Ok(evaluate(e, size, &state, &mut out) == wanted && out.as_slice() == numbers)
}

/// Whether an expression has this value, beside what it leaks.
fn has_value(alloc: Global, e: &Expr, wanted: Answer) -> Result<bool, AllocError> {
    let state = state(alloc)?;
    Ok(value_of(e, &state) == wanted)
}

fn is_answered(alloc: Global, row: Row) -> Result<bool, AllocError> {
    let (_, _, wanted, numbers) = row;
    let e = sum(alloc, row)?;
    let wanted = answer(wanted);
    Ok(comes_to(alloc, &e, None, wanted, numbers)? && has_value(alloc, &e, wanted)?)
}

fn answer_rows(rt: &impl Abort, alloc: Global, rows: &[Row]) -> Result<(), Fail> {
    for (i, row) in rows.iter().enumerate() {
        assert!(rt; is_answered(alloc, *row)?, "row {i}");
    }
    Ok(())
}

#[test]
fn sums_with_a_stuck_part(rt: HostRuntime) -> Result<(), Fail> {
    answer_rows(&rt, rt.alloc(), &ROWS)
}

const NO_VALUE: Wanted = At(12, Why::Init);

/// An access whose size nothing gives.
#[test]
fn an_access_without_a_size(rt: HostRuntime) -> Result<(), Fail> {
    let alloc = rt.alloc();
    let alone = Expr::Load(access(alloc, 0x1000, false)?);
    assert!(rt; comes_to(alloc, &alone, None, answer(NO_VALUE), &[])?);
    Ok(())
}

/// An access whose size the other side gives.
#[test]
fn an_access_of_the_wanted_size(rt: HostRuntime) -> Result<(), Fail> {
    let alloc = rt.alloc();
    let short = Ok(Value::Word(Word::truncate(Size::S16, 0x0403)));
    let beside = Expr::Load(access(alloc, 0x1002, false)?);
    assert!(rt; comes_to(alloc, &beside, Some(Size::S16), short, &[0x1002])?);
    Ok(())
}

#[test]
fn a_quotient_of_whole_numbers(rt: HostRuntime) -> Result<(), Fail> {
    let alloc = rt.alloc();
    let divisor = Expr::Num(0, column(16));
    let quotient = operation(alloc, BinOp::Div, Expr::Num(7, column(12)), divisor, 12)?;
    assert!(rt; comes_to(alloc, &quotient, None, answer(NO_VALUE), &[])?);
    Ok(())
}

/// `true` with an operator before what has no value.
fn before_unset(alloc: Global, op: BinOp) -> Result<Expr, AllocError> {
    operation(alloc, op, Expr::Bool(true, column(4)), unset(alloc)?, 4)
}

#[test]
fn a_part_that_is_not_asked(rt: HostRuntime) -> Result<(), Fail> {
    let alloc = rt.alloc();
    let settled = before_unset(alloc, BinOp::OrElse)?;
    assert!(rt; comes_to(alloc, &settled, None, Ok(Value::Bool(true)), &[])?);
    Ok(())
}

#[test]
fn a_part_that_is_asked(rt: HostRuntime) -> Result<(), Fail> {
    let alloc = rt.alloc();
    let asked = before_unset(alloc, BinOp::AndThen)?;
    assert!(rt; comes_to(alloc, &asked, None, answer(NO_VALUE), &[])?);
    Ok(())
}

/// A word of 32 bits is written at an address: what comes out, what stands at 0x1000 then, and the
/// numbers.
fn is_written(
    rt: &impl Abort,
    alloc: Global,
    address: u64,
    given: Option<Value>,
    wanted: Result<(), Failure<Stuck>>,
    after: u64,
) -> Result<(), Fail> {
    let mut mem = bytes(alloc)?;
    let mut out = Seq::new(alloc);
    let place = access(alloc, 0, false)?;
    let got = write(
        &place,
        Some(Size::S32),
        word(address),
        given,
        &mut mem,
        &mut out,
    );
    assert!(rt; got == wanted, "{address:x}");
    assert_eq!(rt; mem.load(0x1000, Size::S64), Some(after), "{address:x}");
    assert_eq!(rt; out.len(), usize::from(wanted.is_ok()), "{address:x}");
    Ok(())
}

fn stuck(why: Why) -> Result<(), Failure<Stuck>> {
    Err(Failure::Refused(Stuck {
        span: column(12),
        why,
    }))
}

/// Without a word to write Init comes first, then Address, then Align.
#[test]
fn words_that_are_written(rt: HostRuntime) -> Result<(), Fail> {
    let alloc = rt.alloc();
    let before = 0x0807_0605_0403_0201;
    let given = Some(Value::Int(-2));
    is_written(&rt, alloc, 0x1004, given, Ok(()), 0xffff_fffe_0403_0201)?;
    is_written(&rt, alloc, 0x1002, given, stuck(Why::Align), before)?;
    is_written(&rt, alloc, 0x100a, given, stuck(Why::Address), before)?;
    is_written(&rt, alloc, 0x100a, None, stuck(Why::Init), before)?;
    is_written(&rt, alloc, 0x100a, Some(word(1)), stuck(Why::Init), before)
}

#[test]
fn a_sum_as_long_as_a_text(rt: HostRuntime) -> Result<(), Fail> {
    let alloc = rt.alloc();
    let mut sum = Expr::Num(1, column(1));
    for _ in 0..350_000 {
        sum = operation(alloc, BinOp::Add, sum, Expr::Num(2, column(5)), 1)?;
    }
    assert!(rt; comes_to(alloc, &sum, None, Ok(Value::Int(700_001)), &[])?);
    Ok(())
}
