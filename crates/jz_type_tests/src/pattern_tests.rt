//! Statements and the rows that they match. A row has the results, a sign, and the operands, each
//! before its operator: `r1 r2 8 * + []` is `[r1 + r2 * 8]`, `t r1 @` is `t[r1]`.

use crate::names::intrinsic_name;
use jz_io::Span;
use jz_select::{Pattern, immediate, select};
use jz_tree::{
    Access, BinOp, Boxed, Decl, Expr, Intrinsic, Lval, Rhs, Seq, Size, Stmt, StmtKind, Storage,
    Text, Ty, Var,
};
use std::alloc::{AllocError, Global};
use std::process::Abort;
use std::test::Fail;

const HERE: Span = Span { line: 1, col: 1 };

fn operation(word: &str) -> Option<BinOp> {
    match word {
        "+" | "+=" => Some(BinOp::Add),
        "-" | "-=" => Some(BinOp::Sub),
        "*" | "*=" => Some(BinOp::Mul),
        "/" | "/=" => Some(BinOp::Div),
        "%s" => Some(BinOp::RemS),
        "&" => Some(BinOp::And),
        "^" => Some(BinOp::Xor),
        "<<" | "<<=" => Some(BinOp::Shl),
        ">>r" => Some(BinOp::Ror),
        "<" => Some(BinOp::Lt),
        "<s" => Some(BinOp::LtS),
        "==" => Some(BinOp::Eq),
        "&&" => Some(BinOp::AndThen),
        _ => None,
    }
}

/// What the first letter of a name declares: `r`, `w`, `h` and `b` are registers of 64 to 8 bits,
/// `s` and `z` stack words of 64 and 8 bits, `g` an array in registers, `t` one in the frame, `i`
/// is inline, and `c` a flag.
fn declared(alloc: Global, name: &str) -> Result<Decl, AllocError> {
    let length = Boxed::new(alloc, Expr::Num(4, HERE))?;
    let (storage, ty) = match name.as_bytes().first() {
        Some(b'r') => (Storage::Reg, Ty::Word(Size::S64)),
        Some(b'w') => (Storage::Reg, Ty::Word(Size::S32)),
        Some(b'h') => (Storage::Reg, Ty::Word(Size::S16)),
        Some(b'b') => (Storage::Reg, Ty::Word(Size::S8)),
        Some(b's') => (Storage::Stack, Ty::Word(Size::S64)),
        Some(b'z') => (Storage::Stack, Ty::Word(Size::S8)),
        Some(b'g') => (Storage::Reg, Ty::Array(Size::S64, length)),
        Some(b't') => (Storage::Stack, Ty::Array(Size::S64, length)),
        Some(b'c') => (Storage::Reg, Ty::Bool),
        _ => (Storage::Inline, Ty::Int),
    };
    Ok(Decl { storage, ty })
}

fn variable(alloc: Global, name: &str) -> Result<Var, AllocError> {
    Ok(Var {
        name: Text::from_string(String::from_str(alloc, name)?),
        copy: 0,
        cell: None,
        decl: Some(declared(alloc, name)?),
        span: HERE,
    })
}

fn pop(rt: &impl Abort, stack: &mut Vec<Expr>) -> Expr {
    match stack.pop() {
        Some(e) => e,
        None => panic!(rt; "an operand is missing"),
    }
}

fn boxed(rt: &impl Abort, alloc: Global, stack: &mut Vec<Expr>) -> Result<Boxed<Expr>, AllocError> {
    Boxed::new(alloc, pop(rt, stack))
}

fn cast(word: &str) -> Option<(Size, bool)> {
    match word {
        "(8u)" => Some((Size::S8, false)),
        "(32u)" => Some((Size::S32, false)),
        "(64u)" => Some((Size::S64, false)),
        "(64s)" => Some((Size::S64, true)),
        _ => None,
    }
}

fn load(word: &str) -> Option<Option<Size>> {
    match word {
        "[]" => Some(None),
        "[8]" => Some(Some(Size::S8)),
        "[32]" => Some(Some(Size::S32)),
        _ => None,
    }
}

/// An operand, or what an operator makes of the operands before it.
fn expr(
    rt: &impl Abort,
    alloc: Global,
    stack: &mut Vec<Expr>,
    word: &str,
) -> Result<Expr, AllocError> {
    if let Some(op) = operation(word) {
        let right = boxed(rt, alloc, stack)?;
        return Ok(Expr::Bin(op, boxed(rt, alloc, stack)?, right, HERE));
    }
    if let Some((size, signed)) = cast(word) {
        return Ok(Expr::Cast {
            size,
            signed,
            e: boxed(rt, alloc, stack)?,
            span: HERE,
        });
    }
    if let Some(size) = load(word) {
        return Ok(Expr::Load(Access {
            size,
            at: boxed(rt, alloc, stack)?,
            unaligned: false,
            span: HERE,
        }));
    }
    if let Ok(number) = word.parse::<u32>() {
        return Ok(Expr::Num(i128::from(number), HERE));
    }
    match word {
        "neg" => Ok(Expr::Neg(boxed(rt, alloc, stack)?, HERE)),
        "not" => Ok(Expr::Not(boxed(rt, alloc, stack)?, HERE)),
        "true" => Ok(Expr::Bool(true, HERE)),
        "@" => cell(rt, alloc, stack),
        _ => Ok(Expr::Var(variable(alloc, word)?)),
    }
}

fn cell(rt: &impl Abort, alloc: Global, stack: &mut Vec<Expr>) -> Result<Expr, AllocError> {
    let at = boxed(rt, alloc, stack)?;
    match &pop(rt, stack) {
        Expr::Var(array) => Ok(Expr::Cell(array.copy(alloc)?, at)),
        _ => panic!(rt; "no array"),
    }
}

fn exprs(rt: &impl Abort, alloc: Global, text: &str) -> Result<Vec<Expr>, AllocError> {
    let mut stack = Vec::new(alloc);
    for word in text.split_whitespace() {
        let e = expr(rt, alloc, &mut stack, word)?;
        stack.push(e)?;
    }
    Ok(stack)
}

fn result(alloc: Global, e: &Expr) -> Result<Lval, AllocError> {
    match e {
        Expr::Var(v) => if v.name.as_str() == "_" {
            Ok(Lval::Skip(HERE))
        } else {
            Ok(Lval::Var(v.copy(alloc)?))
        },
        Expr::Cell(v, at) => Ok(Lval::Cell(
            v.copy(alloc)?,
            Boxed::new(alloc, at.get().copy(alloc)?)?,
        )),
        Expr::Load(a) => Ok(Lval::Store(a.copy(alloc)?)),
        _ => Ok(Lval::Skip(HERE)),
    }
}

fn results(rt: &impl Abort, alloc: Global, text: &str) -> Result<Seq<Lval>, AllocError> {
    let mut to = Seq::new(alloc);
    for e in exprs(rt, alloc, text)?.as_slice() {
        to.push(result(alloc, e)?)?;
    }
    Ok(to)
}

/// `sign` is `=`, an operation with `=`, or the name of an intrinsic behind `#`.
fn right_side(rt: &impl Abort, alloc: Global, sign: &str, text: &str) -> Result<Rhs, AllocError> {
    let mut args = exprs(rt, alloc, text)?;
    match sign.strip_prefix('#') {
        Some(name) => {
            let name = Text::from_string(String::from_str(alloc, name)?);
            Ok(Rhs::Intrinsic(name, Seq::from_vec(args), HERE))
        }
        None => Ok(Rhs::Value(pop(rt, &mut args))),
    }
}

fn selected(alloc: Global, kind: StmtKind) -> Option<Pattern> {
    select(&Stmt {
        notes: Seq::new(alloc),
        span: HERE,
        kind,
    })
}

fn assignment(
    rt: &impl Abort,
    alloc: Global,
    (to, sign, from): (&str, &str, &str),
    cond: Option<Expr>,
) -> Result<Option<Pattern>, AllocError> {
    let kind = StmtKind::Assign {
        to: results(rt, alloc, to)?,
        op: if sign == "=" { None } else { operation(sign) },
        rhs: right_side(rt, alloc, sign, from)?,
        cond,
    };
    Ok(selected(alloc, kind))
}

/// What it is, as the tables write it: the row's number, an intrinsic, `condition`, or `-` for
/// nothing.
fn told(alloc: Global, found: Option<Pattern>) -> Result<String, AllocError> {
    match found {
        None => String::from_str(alloc, "-"),
        Some(Pattern::P(row)) => format!(in alloc; "{row}"),
        Some(Pattern::Condition) => String::from_str(alloc, "condition"),
        Some(Pattern::Intrinsic(name)) => String::from_str(alloc, intrinsic_name(name)),
    }
}

/// Results, a sign, the right side, and what the statement is.
const ROWS: &str = "\
r0 | = | r1 | 1
s0 | = | s0 | -
s0 | = | 7 i0 * | 1
r0 | = | r1 r2 8 * + i0 - [] | 1
r0 | = | r1 r2 8 * + r3 + [] | -
r0 | = | r2 8 * [] | -
r0 | = | r1 8 i0 * 8 - + [] | 1
r0 | = | t r1 2 + @ | 1
r0 | = | t r1 2 * @ | -
r0 | = | g r1 @ | -
c0 | = | c1 | -
r0 | = | r1 r2 + | 2
s0 | += | r1 | 2
s0 | += | s1 | -
s0 | = | s0 r1 + | 2
s0 | = | r1 s0 + | 2
s0 | = | r1 s0 - | -
t r1 @ | = | t r1 @ r2 + | 2
t r1 @ | = | t r2 @ r3 + | -
r1 8 + [] | = | r1 8 + [] r2 & | 2
r1 8 + [] | = | r1 9 + [] r2 & | -
r0 | = | s0 s1 + | 2
r0 | = | r1 r0 ^ | 2
r0 | = | r1 r0 - | -
r0 | = | r1 r0 [] - | -
r0 | = | r0 [] r1 - | 2
g 0 @ | = | r1 g 1 @ - | 2
g 0 @ | = | r1 g i0 @ - | -
g 0 @ | = | r1 g i0 @ + | 2
c0 r0 | = | r1 r2 - | 2
_ r0 | = | r1 r2 + | 2
c0 r0 | = | r1 r2 ^ | -
r1 r0 | = | r1 r2 + | -
c0 r0 | = | 1 2 + | -
_ | = | r1 r2 + | -
r0 | = | r1 r2 + c0 + | 3
r0 | = | r1 r2 - c0 - | 3
r0 | = | r1 r2 + c0 - | -
c0 r0 | += | r1 c1 + | 3
r0 | = | 1 2 + c0 + | -
s0 | = | s1 r2 + c0 + | -
r0 | = | r1 neg | 4
s0 | = | s0 not | 4
s0 | = | s1 not | -
r0 | = | i0 neg | 1
r0 | = | r1 s0 * | 5
b0 | = | b1 b2 * | -
s0 | = | s0 r1 * | -
r0 | = | 5 r1 * | 5
r0 | = | 5 r0 * | -
r0 | = | r1 5 * | 6
r0 | *= | i0 | 6
b0 | = | b1 5 * | -
r0 r1 | = | r2 s0 * | 7
_ _ | = | r2 r3 * | 7
h0 h1 | = | h2 h3 * | -
r0 r1 | = | r2 5 * | -
r0 r1 | = | r2 r1 * | 7
r0 r1 | = | 5 r1 * | -
r0 r1 | = | r2 r1 [] * | -
r0 | = | r1 r2 / | 8
w0 | = | w1 w2 %s | 8
h0 | /= | h1 | -
r0 | = | r1 r0 / | -
r0 | = | r1 5 / | -
r0 | = | r1 5 << | 9
s0 | <<= | i0 | 9
s0 | = | s1 5 << | -
r0 | = | 1 5 << | 1
r0 | = | r1 b0 63 & << | 10
r0 | = | r1 b0 31 & << | -
w0 | = | w1 b0 31 & >>r | 10
w0 | = | w1 b0 63 & >>r | -
w0 | = | w1 b0 i0 & >>r | -
w0 | = | w1 b0 32 1 - & >>r | 10
r0 | = | r1 r2 63 & << | -
b0 | = | b1 b0 31 & << | -
b0 | <<= | b0 31 & | 10
r0 | = | r1 b0 << | -
r0 | = | w1 (64u) | 11
r0 | = | r1 [8] (64u) | 11
s0 | = | w1 (64u) | -
r0 | = | w1 (64s) | 12
r0 | = | r1 (64s) | -
w0 | = | r1 (32u) | 13
r0 | = | r1 (64u) | 13
w0 | = | s1 (32u) | -
i0 | = | 5 | -
c0 _ c1 c2 c3 r0 | #ADD | r1 s0 | Add
c0 _ c1 c2 c3 s0 | #ADD | s1 r1 | -
c0 r0 | #ADD | r1 s0 | -
c0 _ c1 c2 c3 r0 | #SUB_64 | r1 r0 | -
c0 _ c1 c2 c3 r0 | #XOR | r1 r0 | Xor
c0 _ c1 c2 c3 r0 | #ADC | r1 r2 c0 | Adc
c0 _ c1 c2 c3 r0 | #SBB | r1 r2 r3 | -
c0 _ c1 c2 c3 r0 | #NEG | r1 | Neg
c0 _ _ _ b0 | #DEC_8 | b0 | Dec
c0 _ c1 c2 c3 b0 | #INC | b0 | -
s0 | #NOT | s0 | Not
w0 | #BSWAP | w1 | Bswap
h0 | #BSWAP | h1 | -
s0 | #BSWAP | s0 | -
r0 | #LEA | r1 8 * 4 + | Lea
r0 | #LEA | r1 r2 + r3 + | -
w0 | #LEA | r1 | -
c0 _ c1 c2 c3 | #CMP | s0 5 | Cmp
c0 _ c1 c2 c3 | #TEST_8 | b0 b1 | Test
c0 _ c1 c2 c3 | #CMP | r0 s0 | -
c0 _ c1 c2 c3 | #TEST_7 | b0 b1 | -
c0 _ c1 c2 c3 r0 | #SHL | r1 3 | Shl
c0 _ c1 c2 c3 r0 | #SAR | r1 b0 63 & | Sar
c0 _ c1 c2 c3 r0 | #SHR | r1 b0 | -
c0 _ r0 | #ROL | r1 3 | Rol
c0 _ c1 c2 c3 r0 | #ROR | r1 3 | -
c0 _ c1 c2 c3 r0 | #IMUL | r1 5 | Imul
c0 _ c1 c2 c3 b0 | #IMUL | b1 b2 | -
c0 _ c1 c2 c3 r0 _ | #MUL | r1 r2 | Mul
c0 _ c1 c2 c3 b0 b1 | #MUL | b1 b2 | -
c0 _ c1 c2 c3 r0 r1 | #DIV | r2 r3 s0 | Div
c0 _ c1 c2 c3 r0 r1 | #DIV | r0 r3 s0 | -
c0 _ c1 c2 c3 r0 r1 | #DIV | r2 r3 r1 | -
b0 | #SETcc | r1 5 == | Setcc
z0 | #SETcc | c0 not | Setcc
r0 | #SETcc | c0 | -
b0 | #SETcc | true | -
";

fn row_is(rt: &impl Abort, alloc: Global, line: &str) -> Result<(), AllocError> {
    let columns: Vec<&str> = line.split(" | ").collect(alloc)?;
    let [to, sign, from, wanted] = columns.as_slice() else {
        panic!(rt; "no row: {line}")
    };
    let found = told(alloc, assignment(rt, alloc, (to, sign, from), None)?)?;
    assert!(rt; found.as_str() == *wanted, "{line}");
    Ok(())
}

#[test]
fn rows(rt: HostRuntime) -> Result<(), Fail> {
    for line in ROWS.lines() {
        row_is(&rt, rt.alloc(), line)?;
    }
    Ok(())
}

/// FROM, COND, what `r0 = FROM if COND` is, and what the condition of an `if` is.
const CONDITIONS: &str = "\
r1 | r2 r3 < | 14 | condition
s0 | s1 5 <s | 14 | condition
r1 | s0 s1 == | - | -
r1 | 5 r2 < | - | -
r1 | c0 | 14 | condition
r1 | c0 not not | 14 | condition
r1 | i0 5 < | - | condition
r1 | true | - | condition
r1 | i0 5 < true && not | - | condition
5 | c0 | - | condition
r1 r2 + | c0 | - | condition
r1 | r2 | - | -
";

fn move_told(rt: &impl Abort, alloc: Global, from: &str, cond: &str) -> Result<String, AllocError> {
    let c = pop(rt, &mut exprs(rt, alloc, cond)?);
    told(alloc, assignment(rt, alloc, ("r0", "=", from), Some(c))?)
}

fn test_told(rt: &impl Abort, alloc: Global, cond: &str) -> Result<String, AllocError> {
    let c = pop(rt, &mut exprs(rt, alloc, cond)?);
    let kind = StmtKind::If(c, Seq::new(alloc), Seq::new(alloc));
    told(alloc, selected(alloc, kind))
}

fn condition_is(rt: &impl Abort, alloc: Global, line: &str) -> Result<(), AllocError> {
    let columns: Vec<&str> = line.split(" | ").collect(alloc)?;
    let [from, cond, moves, tests] = columns.as_slice() else {
        panic!(rt; "no row: {line}")
    };
    let found = move_told(rt, alloc, from, cond)?;
    assert!(rt; found.as_str() == *moves, "{line}");
    let found = test_told(rt, alloc, cond)?;
    assert!(rt; found.as_str() == *tests, "{line}");
    Ok(())
}

#[test]
fn conditions(rt: HostRuntime) -> Result<(), Fail> {
    for line in CONDITIONS.lines() {
        condition_is(&rt, rt.alloc(), line)?;
    }
    Ok(())
}

/// Numbers, and the immediates that instructions of a size have for them.
#[test]
fn immediates(rt: HostRuntime) {
    let rows = [
        (Size::S64, (1 << 31) - 1, Some(i32::MAX)),
        (Size::S64, 1 << 31, None),
        (Size::S64, -(1 << 31), Some(i32::MIN)),
        (Size::S64, -(1 << 31) - 1, None),
        (Size::S64, (1 << 64) - 1, Some(-1)),
        (Size::S64, (1 << 64) - (1 << 31), Some(i32::MIN)),
        (Size::S64, (1 << 64) - (1 << 31) - 1, None),
        (Size::S64, 1 << 64, Some(0)),
        (Size::S32, (1 << 31) - 1, Some(i32::MAX)),
        (Size::S32, 1 << 31, Some(i32::MIN)),
        (Size::S32, -(1 << 31) - 1, Some(i32::MAX)),
        (Size::S32, (1 << 32) - 1, Some(-1)),
        (Size::S32, 1 << 32, Some(0)),
        (Size::S16, (1 << 15) - 1, Some(32_767)),
        (Size::S16, 1 << 15, Some(-32_768)),
        (Size::S16, (1 << 64) - (1 << 31), Some(0)),
        (Size::S8, 127, Some(127)),
        (Size::S8, 128, Some(-128)),
        (Size::S8, -129, Some(127)),
        (Size::S8, (1 << 64) - 1, Some(-1)),
    ];
    for (size, number, wanted) in rows {
        assert_eq!(rt; immediate(size, number), wanted, "{number}");
    }
}

const LENGTH: u32 = 500_000;

/// `[r1 + 1 + 1 ..]`
fn long_access(rt: &impl Abort, alloc: Global) -> Result<Access, AllocError> {
    let mut at = pop(rt, &mut exprs(rt, alloc, "r1")?);
    for _ in 0..LENGTH {
        let one = Boxed::new(alloc, Expr::Num(1, HERE))?;
        at = Expr::Bin(BinOp::Add, Boxed::new(alloc, at)?, one, HERE);
    }
    Ok(Access {
        size: Some(Size::S64),
        at: Boxed::new(alloc, at)?,
        unaligned: false,
        span: HERE,
    })
}

#[test]
fn a_long_address(rt: HostRuntime) -> Result<(), Fail> {
    let alloc = rt.alloc();
    let mut to = Seq::new(alloc);
    to.push(Lval::Store(long_access(&rt, alloc)?))?;
    let left = Boxed::new(alloc, Expr::Load(long_access(&rt, alloc)?))?;
    let right = Boxed::new(alloc, pop(&rt, &mut exprs(&rt, alloc, "r2")?))?;
    let kind = StmtKind::Assign {
        to,
        op: None,
        rhs: Rhs::Value(Expr::Bin(BinOp::Add, left, right, HERE)),
        cond: None,
    };
    assert!(rt; selected(alloc, kind) == Some(Pattern::P(2)));
    Ok(())
}
