//! Calls of the crates below whose answers no text shows.

use jz_io::{Ct, CtKind, Span};
use jz_leak::{Boxed, Case, Event, Form, Leak, MemMap, Out, Seq, Text, Tr, Transformer, apply};
use jz_listing::{Arg, Compiled, Pre, listing};
use jz_select::immediate;
use std::alloc::{AllocError, Global};
use std::test::Fail;
use x64_insn::{Reg, Size};

#[test]
fn what_is_copied_is_equal(rt: HostRuntime) -> Result<(), Fail> {
    let alloc = rt.alloc();
    let mut list = Seq::from_slice(alloc, &[5u8, 7])?;
    list.append(Seq::from_slice(alloc, &[9])?)?;
    assert_eq!(rt; list.clone()?.as_slice(), [5, 7, 9].as_slice());
    let boxed = Boxed::new(alloc, 42u64)?;
    assert_eq!(rt; boxed.clone()?.into_inner(), 42);
    assert_eq!(rt; text(alloc, "r12")?.clone()?.as_str(), "r12");
    Ok(())
}

/// Numbers, and whether an instruction holds them as a constant.
static CONSTANTS: [(i128, bool); 9] = [
    (0x7fff_ffff, true),
    (0x8000_0000, false),
    (0xffff_ffff, false),
    (0xffff_ffff_7fff_ffff, false),
    (0xffff_ffff_8000_0000, true),
    (0xffff_ffff_ffff_ffff, true),
    (0x1_0000_0000_0000_0000, true),
    (-0x8000_0000, true),
    (-0x8000_0001, false),
];

#[test]
fn constants_with_a_field(rt: HostRuntime) {
    for (number, is_held) in CONSTANTS.iter() {
        let held = immediate(Size::S64, *number);
        assert_eq!(rt; held.is_some(), *is_held, "number {number}");
    }
}

const RSP: u64 = 1000;

#[test]
fn a_leak_that_fits(rt: HostRuntime) -> Result<(), Fail> {
    let alloc = rt.alloc();
    let tr = Transformer {
        before: Seq::new(alloc),
        body: Tr {
            cases: Seq::new(alloc),
        },
        after: Seq::from_slice(alloc, &[Out::Addr(Form::Frame(0))])?,
    };
    let leak = Leak {
        items: Seq::new(alloc),
    };
    let events = apply(alloc, &tr, &leak, RSP)?;
    assert!(rt; events.as_slice() == [Event::Addr(RSP)].as_slice());
    Ok(())
}

fn filled(alloc: Global, addr: u64, bytes: &[u8]) -> Result<MemMap, AllocError> {
    let mut memory = MemMap::new(alloc);
    memory.add(addr, bytes)?;
    Ok(memory)
}

/// Bytes from an address on, and the byte at another.
static BYTES: [(u64, &[u8], u64, Option<u8>); 4] = [
    (16, &[1, 2, 3], 17, Some(2)),
    (16, &[1, 2, 3], 19, None),
    (u64::MAX, &[5, 6], u64::MAX, Some(5)),
    (u64::MAX, &[5, 6], 0, None),
];

#[test]
fn keeps_bytes_by_address(rt: HostRuntime) -> Result<(), Fail> {
    for (addr, bytes, at, byte) in BYTES.iter() {
        let memory = filled(rt.alloc(), *addr, bytes)?;
        assert_eq!(rt; memory.get(*at), *byte, "address {at}");
    }
    Ok(())
}

type Outs = &'static [Out];

/// A tree with one operation, or an empty one.
type Part = Option<Outs>;

enum Shape {
    Op(Outs),
    If(Outs, Outs, Part, Outs, Part),
    While(Part, Outs, Outs, Part, Outs),
    For(&'static [Part]),
    Call(Outs, Part, Outs),
}

const LEAKED: Outs = &[Out::Addr(Form::Leaked(0))];

static SHAPES: [Shape; 6] = [
    Shape::Op(&[
        Out::Addr(Form::Num(7)),
        Out::Addr(Form::Leaked(0)),
        Out::Addr(Form::Frame(-8)),
        Out::Addr(Form::Indexed(16, 4, 1)),
        Out::Div(Form::Leaked(0), Form::Num(0), Form::Leaked(2)),
    ]),
    Shape::If(
        LEAKED,
        &[Out::Branch(false)],
        Some(&[]),
        &[Out::Branch(true)],
        None,
    ),
    Shape::While(
        Some(&[Out::Addr(Form::Num(1))]),
        &[Out::Addr(Form::Num(2))],
        &[Out::Addr(Form::Num(3))],
        Some(&[Out::Addr(Form::Num(4))]),
        &[Out::Addr(Form::Num(5))],
    ),
    Shape::For(&[Some(&[Out::Addr(Form::Num(6))]), Some(&[])]),
    Shape::For(&[]),
    Shape::Call(
        &[Out::Addr(Form::Num(8))],
        Some(&[]),
        &[Out::Addr(Form::Num(9))],
    ),
];

fn tr(alloc: Global, part: Part) -> Result<Tr, AllocError> {
    let mut cases = Seq::new(alloc);
    if let Some(outs) = part {
        cases.push(Case::Op(Seq::from_slice(alloc, outs)?))?;
    }
    Ok(Tr { cases })
}

fn rounds(alloc: Global, parts: &[Part]) -> Result<Case, AllocError> {
    let mut trs = Seq::new(alloc);
    for part in parts {
        trs.push(tr(alloc, *part)?)?;
    }
    Ok(Case::For(trs))
}

fn case(alloc: Global, shape: &Shape) -> Result<Case, AllocError> {
    match shape {
        Shape::Op(outs) => Ok(Case::Op(Seq::from_slice(alloc, outs)?)),
        Shape::If(test, then_outs, then_part, else_outs, else_part) => Ok(Case::If {
            test: Seq::from_slice(alloc, test)?,
            then_outs: Seq::from_slice(alloc, then_outs)?,
            then_tr: tr(alloc, *then_part)?,
            else_outs: Seq::from_slice(alloc, else_outs)?,
            else_tr: tr(alloc, *else_part)?,
        }),
        Shape::While(prologue, test, more_outs, body, leave_outs) => Ok(Case::While {
            prologue: tr(alloc, *prologue)?,
            test: Seq::from_slice(alloc, test)?,
            more_outs: Seq::from_slice(alloc, more_outs)?,
            body: tr(alloc, *body)?,
            leave_outs: Seq::from_slice(alloc, leave_outs)?,
        }),
        Shape::For(parts) => rounds(alloc, parts),
        Shape::Call(arguments, body, results) => Ok(Case::Call {
            arguments: Seq::from_slice(alloc, arguments)?,
            body: tr(alloc, *body)?,
            results: Seq::from_slice(alloc, results)?,
        }),
    }
}

fn transformer(alloc: Global) -> Result<Transformer, AllocError> {
    let mut cases = Seq::new(alloc);
    for shape in SHAPES.iter() {
        cases.push(case(alloc, shape)?)?;
    }
    Ok(Transformer {
        before: Seq::from_slice(alloc, &[Out::Addr(Form::Frame(-16))])?,
        body: Tr { cases },
        after: Seq::from_slice(alloc, &[Out::Addr(Form::Frame(0))])?,
    })
}

fn text(alloc: Global, word: &str) -> Result<Text, AllocError> {
    Ok(Text::from_string(String::from_str(alloc, word)?))
}

type Placed = (&'static str, Size, Reg);

fn args(alloc: Global, rows: &[Placed]) -> Result<Seq<Arg>, AllocError> {
    let mut args = Seq::new(alloc);
    for (name, size, reg) in rows {
        args.push(Arg {
            name: text(alloc, name)?,
            size: *size,
            reg: *reg,
        })?;
    }
    Ok(args)
}

fn preconditions(alloc: Global) -> Result<Seq<Pre>, AllocError> {
    let mut pre = Seq::new(alloc);
    pre.push(Pre::Region {
        pointer: text(alloc, "p")?,
        factor: 8,
        variable: Some(text(alloc, "n")?),
        constant: 0,
    })?;
    pre.push(Pre::Region {
        pointer: text(alloc, "q")?,
        factor: 0,
        variable: None,
        constant: 16,
    })?;
    pre.push(Pre::Range {
        name: text(alloc, "n")?,
        low: 0,
        high: 100,
    })?;
    pre.push(Pre::Align {
        pointer: text(alloc, "p")?,
        multiple: 8,
    })?;
    Ok(pre)
}

fn compiled(alloc: Global) -> Result<Compiled, AllocError> {
    Ok(Compiled {
        name: text(alloc, "f_1")?,
        args: args(
            alloc,
            &[("p", Size::S64, Reg::Rdi), ("n", Size::S32, Reg::R8)],
        )?,
        rets: args(alloc, &[("r", Size::S8, Reg::Rax)])?,
        pre: preconditions(alloc)?,
        frame: 24,
        saved: Seq::from_slice(alloc, &[Reg::Rbx, Reg::R12])?,
        insns: 2,
        code: Seq::from_slice(alloc, &[0, 195, 255])?,
        tr: transformer(alloc)?,
        ct: Ct::No {
            span: Span { line: 3, col: 14 },
            kind: CtKind::Address,
            var: text(alloc, "a[3]")?,
        },
    })
}

const LISTING: &str =
    "jasmin-listing 1\nfn f_1\narg p u64 rdi\narg n u32 r8\nret r u8 rax\npre region p 8*n+0\npre region q 16\npre range n 0..100\npre align p 8\nframe 24\nsaved rbx r12\ninsns 2\ncode 00c3ff\ntr [a:@-16] {op[a:7 a:$0 a:@-8 a:@16+4*$1 d:$0:0:$2] if([a:$0] [b0] {op[]} [b1] {}) while({op[a:1]} [a:2] [a:3] {op[a:4]} [a:5]) for({op[a:6]} {op[]}) for() call([a:8] {op[]} [a:9])} [a:@0]\nct no 3:14 Address a[3]\nend\n";

#[test]
fn each_kind_of_line_and_case(rt: HostRuntime) -> Result<(), Fail> {
    let alloc = rt.alloc();
    let mut funs = Seq::new(alloc);
    funs.push(compiled(alloc)?)?;
    let text = listing(alloc, funs.as_slice())?;
    assert_eq!(rt; text.as_slice(), LISTING.as_bytes());
    Ok(())
}
