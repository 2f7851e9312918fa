//! The operators at the edges of each size. What is wanted was computed with Python's integers, as
//! Rust's own operations give it.

use Edge::{Last, Least, Most, Number, Width};
use Part::{Byte, Truth, Whole};
use Wanted::{Divide, Flag, Is};
use jz_meaning::{Store, Stuck, Value, Why, binary, cast, inverted_value, negated_value};
use jz_tree::{BinOp, Failure, Seq, Span, Text};
use jz_words::{Size, Word, residue};
use std::alloc::{AllocError, Global};
use std::process::Abort;
use std::test::Fail;

/// A word by what it is at each size.
#[derive(Clone, Copy)]
enum Edge {
    Number(i128),
    /// The least signed word.
    Least,
    /// The greatest signed word.
    Most,
    /// The number of the highest bit.
    Last,
    /// The number of bits.
    Width,
}

#[derive(Clone, Copy)]
enum Wanted {
    Is(Edge),
    Flag(bool),
    Divide,
}

const AT: Span = Span { line: 1, col: 1 };

/// An operator, its operands, and what it gives.
type Row = (BinOp, Edge, Edge, Wanted);

static ROWS: [Row; 83] = [
    (BinOp::Or, Number(5), Number(10), Is(Number(15))),
    (BinOp::Or, Least, Most, Is(Number(-1))),
    (BinOp::Xor, Number(-1), Number(5), Is(Number(-6))),
    (BinOp::Xor, Least, Number(-1), Is(Most)),
    (BinOp::And, Number(-1), Least, Is(Least)),
    (BinOp::And, Number(12), Number(10), Is(Number(8))),
    (BinOp::Add, Number(-1), Number(1), Is(Number(0))),
    (BinOp::Add, Most, Number(1), Is(Least)),
    (BinOp::Add, Least, Least, Is(Number(0))),
    (BinOp::Sub, Number(0), Number(1), Is(Number(-1))),
    (BinOp::Sub, Least, Number(1), Is(Most)),
    (BinOp::Sub, Number(-1), Number(-1), Is(Number(0))),
    (BinOp::Mul, Number(-1), Number(-1), Is(Number(1))),
    (BinOp::Mul, Least, Number(3), Is(Least)),
    (BinOp::Mul, Most, Number(2), Is(Number(-2))),
    (BinOp::Div, Number(-1), Number(-1), Is(Number(1))),
    (BinOp::Div, Number(7), Number(2), Is(Number(3))),
    (BinOp::Div, Number(-1), Least, Is(Number(1))),
    (BinOp::Div, Least, Number(-1), Is(Number(0))),
    (BinOp::Div, Number(1), Number(0), Divide),
    (BinOp::Rem, Number(7), Number(2), Is(Number(1))),
    (BinOp::Rem, Number(-1), Least, Is(Most)),
    (BinOp::Rem, Most, Number(-1), Is(Most)),
    (BinOp::Rem, Least, Number(-1), Is(Least)),
    (BinOp::Rem, Number(1), Number(0), Divide),
    (BinOp::DivS, Number(-7), Number(2), Is(Number(-3))),
    (BinOp::DivS, Number(7), Number(-2), Is(Number(-3))),
    (BinOp::DivS, Least, Number(1), Is(Least)),
    (BinOp::DivS, Least, Number(-1), Divide),
    (BinOp::DivS, Number(-1), Least, Is(Number(0))),
    (BinOp::DivS, Number(1), Number(0), Divide),
    (BinOp::RemS, Number(-7), Number(2), Is(Number(-1))),
    (BinOp::RemS, Number(7), Number(-2), Is(Number(1))),
    (BinOp::RemS, Number(-7), Number(-2), Is(Number(-1))),
    (BinOp::RemS, Least, Number(-1), Divide),
    (BinOp::RemS, Most, Number(-1), Is(Number(0))),
    (BinOp::RemS, Number(0), Number(0), Divide),
    (BinOp::Eq, Number(-1), Number(-1), Flag(true)),
    (BinOp::Eq, Number(0), Number(1), Flag(false)),
    (BinOp::Ne, Number(-1), Number(-1), Flag(false)),
    (BinOp::Ne, Number(0), Number(1), Flag(true)),
    (BinOp::Lt, Number(0), Number(-1), Flag(true)),
    (BinOp::Lt, Number(-1), Number(0), Flag(false)),
    (BinOp::Lt, Number(1), Number(1), Flag(false)),
    (BinOp::Le, Number(-1), Most, Flag(false)),
    (BinOp::Le, Number(1), Number(1), Flag(true)),
    (BinOp::Gt, Least, Most, Flag(true)),
    (BinOp::Gt, Number(1), Number(1), Flag(false)),
    (BinOp::Ge, Number(0), Number(-1), Flag(false)),
    (BinOp::Ge, Number(1), Number(1), Flag(true)),
    (BinOp::LtS, Number(0), Number(-1), Flag(false)),
    (BinOp::LtS, Least, Most, Flag(true)),
    (BinOp::LtS, Number(1), Number(1), Flag(false)),
    (BinOp::LeS, Number(-1), Most, Flag(true)),
    (BinOp::LeS, Number(1), Number(1), Flag(true)),
    (BinOp::GtS, Least, Most, Flag(false)),
    (BinOp::GtS, Number(1), Number(1), Flag(false)),
    (BinOp::GeS, Number(0), Number(-1), Flag(true)),
    (BinOp::GeS, Number(1), Number(1), Flag(true)),
    (BinOp::Shl, Number(-1), Number(0), Is(Number(-1))),
    (BinOp::Shl, Number(1), Last, Is(Least)),
    (BinOp::Shl, Number(3), Last, Is(Least)),
    (BinOp::Shl, Number(-1), Width, Is(Number(0))),
    (BinOp::Shl, Number(1), Number(64), Is(Number(0))),
    (BinOp::Shr, Number(-1), Number(0), Is(Number(-1))),
    (BinOp::Shr, Least, Last, Is(Number(1))),
    (BinOp::Shr, Number(-1), Width, Is(Number(0))),
    (BinOp::Shr, Number(-1), Number(64), Is(Number(0))),
    (BinOp::Sar, Least, Number(0), Is(Least)),
    (BinOp::Sar, Least, Last, Is(Number(-1))),
    (BinOp::Sar, Most, Last, Is(Number(0))),
    (BinOp::Sar, Least, Width, Is(Number(-1))),
    (BinOp::Sar, Most, Number(64), Is(Number(0))),
    (BinOp::Rol, Least, Number(1), Is(Number(1))),
    (BinOp::Rol, Number(1), Last, Is(Least)),
    (BinOp::Rol, Number(5), Number(0), Is(Number(5))),
    (BinOp::Rol, Number(5), Width, Is(Number(5))),
    (BinOp::Rol, Number(-1), Number(64), Is(Number(-1))),
    (BinOp::Ror, Number(1), Number(1), Is(Least)),
    (BinOp::Ror, Least, Last, Is(Number(1))),
    (BinOp::Ror, Number(5), Number(0), Is(Number(5))),
    (BinOp::Ror, Number(5), Width, Is(Number(5))),
    (BinOp::Ror, Number(5), Number(64), Is(Number(5))),
];

fn word(size: Size, edge: Edge) -> Word {
    match edge {
        Number(number) => residue(size, number),
        Least => Word::truncate(size, size.half()),
        Most => Word::truncate(size, size.half() - 1),
        Last => Word::truncate(size, u64::from(size.bits() - 1)),
        Width => Word::truncate(size, u64::from(size.bits())),
    }
}

fn answer(size: Size, wanted: Wanted) -> Result<Value, Failure<Stuck>> {
    match wanted {
        Is(edge) => Ok(Value::Word(word(size, edge))),
        Flag(flag) => Ok(Value::Bool(flag)),
        Divide => Err(Failure::Refused(Stuck {
            span: AT,
            why: Why::Divide,
        })),
    }
}

fn is_answered(alloc: Global, size: Size, row: Row) -> bool {
    let (op, a, b, wanted) = row;
    let mut out = Seq::new(alloc);
    let x = Value::Word(word(size, a));
    let y = Value::Word(word(size, b));
    binary(op, AT, None, x, y, &mut out) == answer(size, wanted)
}

fn answer_rows(rt: &impl Abort, alloc: Global, size: Size, rows: &[Row]) -> Result<(), Fail> {
    for (i, row) in rows.iter().enumerate() {
        assert!(rt; is_answered(alloc, size, *row), "row {i}");
    }
    Ok(())
}

#[test]
fn words_at_their_edges(rt: HostRuntime) -> Result<(), Fail> {
    answer_rows(&rt, rt.alloc(), Size::S8, &ROWS)?;
    answer_rows(&rt, rt.alloc(), Size::S16, &ROWS)?;
    answer_rows(&rt, rt.alloc(), Size::S32, &ROWS)?;
    answer_rows(&rt, rt.alloc(), Size::S64, &ROWS)
}

/// A value, a word of it being a byte.
#[derive(Clone, Copy)]
enum Part {
    Byte(u64),
    Whole(i128),
    Truth(bool),
}

/// An operator, its operands, and what it gives where a byte is wanted.
type Mixed = (BinOp, Part, Part, Option<Part>);

static MIXED: [Mixed; 10] = [
    (BinOp::Add, Byte(250), Whole(-2), Some(Byte(248))),
    (BinOp::Sub, Whole(257), Byte(2), Some(Byte(255))),
    (BinOp::Sub, Byte(0), Truth(true), Some(Byte(255))),
    (BinOp::Add, Byte(255), Truth(true), Some(Byte(0))),
    (BinOp::Mul, Byte(2), Truth(true), None),
    (BinOp::Shl, Whole(3), Byte(7), Some(Byte(128))),
    (BinOp::Shl, Byte(1), Whole(1 << 100), Some(Byte(0))),
    (BinOp::Shl, Byte(1), Whole(-1), None),
    (BinOp::Mul, Whole(-3), Whole(256), Some(Whole(-768))),
    (BinOp::AndThen, Truth(true), Truth(true), Some(Truth(true))),
];

fn byte(bits: u64) -> Value {
    Value::Word(Word::truncate(Size::S8, bits))
}

fn value(part: Part) -> Value {
    match part {
        Byte(bits) => byte(bits),
        Whole(number) => Value::Int(number),
        Truth(answer) => Value::Bool(answer),
    }
}

fn is_mixed(alloc: Global, row: Mixed) -> bool {
    let (op, x, y, wanted) = row;
    let mut out = Seq::new(alloc);
    match binary(op, AT, Some(Size::S8), value(x), value(y), &mut out) {
        Ok(got) => wanted.map(value) == Some(got),
        Err(Failure::Refused(_)) => wanted.is_none(),
        Err(Failure::OutOfMemory) => false,
    }
}

fn answer_all_mixed(rt: &impl Abort, alloc: Global, rows: &[Mixed]) -> Result<(), Fail> {
    for (i, row) in rows.iter().enumerate() {
        assert!(rt; is_mixed(alloc, *row), "row {i}");
    }
    Ok(())
}

#[test]
fn values_side_by_side(rt: HostRuntime) -> Result<(), Fail> {
    answer_all_mixed(&rt, rt.alloc(), &MIXED)
}

#[test]
fn numbers_and_values_alone(rt: HostRuntime) -> Result<(), Fail> {
    let mut out = Seq::new(rt.alloc());
    let got = binary(BinOp::DivS, AT, None, byte(249), byte(2), &mut out);
    assert!(rt; got.ok() == Some(byte(253)));
    assert!(rt; out.as_slice() == [255, 249, 2].as_slice());
    assert!(rt; negated_value(byte(1)) == Some(byte(255)));
    assert!(rt; negated_value(Value::Int(i128::MIN)) == None);
    assert!(rt; inverted_value(byte(0x0f)) == byte(0xf0));
    assert!(rt; inverted_value(Value::Int(0)) == Value::Int(-1));
    let wide = Value::Word(Word::truncate(Size::S32, 0xffff_ff80));
    assert!(rt; cast(Size::S32, true, byte(0x80)) == Some(wide));
    assert!(rt; cast(Size::S8, false, wide) == Some(byte(0x80)));
    Ok(())
}

#[test]
fn a_store_keeps_each_key(rt: HostRuntime) -> Result<(), Fail> {
    let a = Text::from_string(String::from_str(rt.alloc(), "a")?);
    let b = Text::from_string(String::from_str(rt.alloc(), "b")?);
    let mut store = Store::new(rt.alloc());
    store.put(&a, 0, None, Some(byte(1)))?;
    store.put(&a, 1, None, Some(byte(2)))?;
    store.put(&a, 0, Some(1 << 40), Some(byte(3)))?;
    store.put(&b, 0, None, Some(byte(4)))?;
    store.put(&a, 1, None, Some(byte(5)))?;
    store.unset(&b, 0, None);
    store.put(&a, 0, None, None)?;
    assert!(rt; store.get(&a, 0, None) == None);
    assert!(rt; store.get(&a, 1, None) == Some(byte(5)));
    assert!(rt; store.get(&a, 0, Some(1 << 40)) == Some(byte(3)));
    assert!(rt; store.get(&b, 0, None) == None);
    Ok(())
}
