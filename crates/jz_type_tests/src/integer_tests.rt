//! Operations on whole numbers, most at the ends of 128 bits, as Rust's checked operations answer
//! them.
use jz_integers::Constant::{self, Bool, Int};
use jz_integers::{NoNumbers, inline_value, on_integers, written_number};
use jz_io::Span;
use jz_tree::{BinOp, Boxed, Expr};
use std::alloc::{AllocError, Global};
use std::test::Fail;

const MAX: i128 = i128::MAX;

const MIN: i128 = i128::MIN;

const HERE: Span = Span { line: 1, col: 2 };

const ROWS: [(BinOp, i128, i128, Option<Constant>); 62] = [
    (BinOp::Add, MAX, 1, None),
    (BinOp::Add, MIN, -1, None),
    (BinOp::Add, MAX, MIN, Some(Int(-1))),
    (BinOp::Sub, MIN, 1, None),
    (BinOp::Sub, 0, MIN, None),
    (BinOp::Sub, -1, MIN, Some(Int(MAX))),
    (BinOp::Mul, MIN, -1, None),
    (BinOp::Mul, MIN, 1, Some(Int(MIN))),
    (BinOp::Mul, 1 << 64, 1 << 63, None),
    (BinOp::Mul, -1 << 64, 1 << 63, Some(Int(MIN))),
    (BinOp::Div, MIN, -1, None),
    (BinOp::Div, 7, 0, None),
    (BinOp::Div, -7, 2, Some(Int(-3))),
    (BinOp::Div, 7, -2, Some(Int(-3))),
    (BinOp::Div, -7, -2, Some(Int(3))),
    (BinOp::Rem, MIN, -1, None),
    (BinOp::Rem, 7, 0, None),
    (BinOp::Rem, -7, 2, Some(Int(-1))),
    (BinOp::Rem, 7, -2, Some(Int(1))),
    (BinOp::Rem, -7, -2, Some(Int(-1))),
    (BinOp::Rem, -8, 2, Some(Int(0))),
    (BinOp::Shl, 5, 0, Some(Int(5))),
    (BinOp::Shl, 1, 126, Some(Int(1 << 126))),
    (BinOp::Shl, 1, 127, None),
    (BinOp::Shl, 0, 127, Some(Int(0))),
    (BinOp::Shl, -1, 127, Some(Int(MIN))),
    (BinOp::Shl, -2, 127, None),
    (BinOp::Shl, -2, 126, Some(Int(MIN))),
    (BinOp::Shl, -3, 126, None),
    (BinOp::Shl, 0, 128, None),
    (BinOp::Shl, 0, -1, None),
    (BinOp::Shr, 5, 0, Some(Int(5))),
    (BinOp::Shr, -5, 1, Some(Int(-3))),
    (BinOp::Shr, MAX, 126, Some(Int(1))),
    (BinOp::Shr, MAX, 127, Some(Int(0))),
    (BinOp::Shr, MIN, 127, Some(Int(-1))),
    (BinOp::Shr, 1, 128, None),
    (BinOp::Shr, 1, -1, None),
    (BinOp::Shr, 1, MAX, None),
    (BinOp::And, MIN, -2, Some(Int(MIN))),
    (BinOp::And, -1, 6, Some(Int(6))),
    (BinOp::Or, MIN, MAX, Some(Int(-1))),
    (BinOp::Xor, -1, 5, Some(Int(-6))),
    (BinOp::Eq, MIN, MIN, Some(Bool(true))),
    (BinOp::Ne, 0, 0, Some(Bool(false))),
    (BinOp::Lt, MIN, MAX, Some(Bool(true))),
    (BinOp::Lt, 3, 3, Some(Bool(false))),
    (BinOp::Le, 3, 3, Some(Bool(true))),
    (BinOp::Gt, -1, 0, Some(Bool(false))),
    (BinOp::Ge, MIN, MIN, Some(Bool(true))),
    (BinOp::LtS, 1, 2, None),
    (BinOp::LeS, 1, 2, None),
    (BinOp::GtS, 2, 1, None),
    (BinOp::GeS, 2, 1, None),
    (BinOp::DivS, 2, 1, None),
    (BinOp::RemS, 2, 1, None),
    (BinOp::Sar, 2, 1, None),
    (BinOp::Rol, 2, 1, None),
    (BinOp::Ror, 2, 1, None),
    (BinOp::AndThen, 1, 1, None),
    (BinOp::OrElse, 1, 1, None),
    (BinOp::Mul, 0, MIN, Some(Int(0))),
];

fn operand(alloc: Global, number: i128) -> Result<Boxed<Expr>, AllocError> {
    Boxed::new(alloc, Expr::Num(number, HERE))
}

fn number_of(value: Option<Constant>) -> Option<i128> {
    match value {
        Some(Int(number)) => Some(number),
        _ => None,
    }
}

#[test]
fn at_the_ends(rt: HostRuntime) -> Result<(), Fail> {
    let alloc = rt.alloc();
    for (op, a, b, wanted) in ROWS {
        let e = Expr::Bin(op, operand(alloc, a)?, operand(alloc, b)?, HERE);
        assert!(rt; on_integers(op, a, b) == wanted, "{a} and {b}");
        assert!(rt; inline_value(alloc, &NoNumbers, &e)? == wanted);
        assert_eq!(rt; written_number(&e), number_of(wanted));
    }
    Ok(())
}
