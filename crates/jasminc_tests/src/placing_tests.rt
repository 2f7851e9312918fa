//! Code that no text gives, and the places or the refusal that it has to come to.

use jz_alloc::{NoPlace, Places, allocate};
use jz_io::Span;
use jz_ir::{Code, Kind, Need, Op, are_below};
use jz_leak::{Failure, Seq};
use std::alloc::{AllocError, Global};
use std::test::Fail;
use x64_insn::{Flag, Place, Reg};

const FLAGS: [Place; 5] = [CF, Place::Flag(Flag::Of), SF, PF, ZF];

const REST: &[Place] = &[Place::Flag(Flag::Of), SF, PF, ZF];

const IN_USE: &[Place] = &[
    RAX,
    RCX,
    RDX,
    RBX,
    RBP,
    RSI,
    RDI,
    R8,
    R9,
    R10,
    R11,
    R12,
    R13,
    R14,
    R15,
    CF,
    Place::Flag(Flag::Of),
    SF,
    PF,
    ZF,
];

const RAX: Place = Place::Reg(Reg::Rax);

const RCX: Place = Place::Reg(Reg::Rcx);

const RDX: Place = Place::Reg(Reg::Rdx);

const RBX: Place = Place::Reg(Reg::Rbx);

const RBP: Place = Place::Reg(Reg::Rbp);

const RSI: Place = Place::Reg(Reg::Rsi);

const RDI: Place = Place::Reg(Reg::Rdi);

const R8: Place = Place::Reg(Reg::R8);

const R9: Place = Place::Reg(Reg::R9);

const R10: Place = Place::Reg(Reg::R10);

const R11: Place = Place::Reg(Reg::R11);

const R12: Place = Place::Reg(Reg::R12);

const R13: Place = Place::Reg(Reg::R13);

const R14: Place = Place::Reg(Reg::R14);

const R15: Place = Place::Reg(Reg::R15);

const CF: Place = Place::Flag(Flag::Cf);

const SF: Place = Place::Flag(Flag::Sf);

const PF: Place = Place::Flag(Flag::Pf);

const ZF: Place = Place::Flag(Flag::Zf);

/// An operation: its line and column, what it reads and writes, the places that it writes besides,
/// and what it needs, each need with its line and column.
struct Step(
    u32,
    u32,
    &'static [u32],
    &'static [u32],
    &'static [Place],
    &'static [(u32, Place, u32, u32)],
);

/// Code over words, and behind them over flags, with the places of its variables; or, where there
/// are none, the variable without a place, what it needs, and who holds that.
struct Row {
    steps: &'static [Step],
    words: u32,
    flags: u32,
    in_use: &'static [Place],
    places: &'static [Place],
    variable: u32,
    needs: &'static [(Place, u32, u32)],
    holders: &'static [(Place, Option<u32>, u32, u32)],
}

static ROWS: [Row; 8] = [
    // a sum of two words each: a b c d x y, and the carry, which stays in its flag
    Row {
        steps: &[
            Step(1, 24, &[], &[0], &[], &[(0, RDI, 1, 24)]),
            Step(1, 26, &[], &[1], &[], &[(1, RSI, 1, 26)]),
            Step(1, 28, &[], &[2], &[], &[(2, RDX, 1, 28)]),
            Step(1, 30, &[], &[3], &[], &[(3, RCX, 1, 30)]),
            Step(4, 3, &[0], &[4], &[], &[]),
            Step(5, 3, &[4, 2], &[6, 4], REST, &[(6, CF, 5, 3)]),
            Step(7, 3, &[1], &[5], &[], &[]),
            Step(8, 3, &[5, 3, 6], &[6, 5], REST, CARRIES),
            Step(9, 3, &[4, 5], &[], &[], SUMS),
        ],
        words: 6,
        flags: 1,
        in_use: IN_USE,
        places: &[RDI, RSI, RDX, RCX, RAX, RDX, CF],
        variable: 0,
        needs: &[],
        holders: &[],
    },
    // the same with an operation between that writes the flag
    Row {
        steps: &[
            Step(1, 24, &[], &[0], &[], &[(0, RDI, 1, 24)]),
            Step(1, 26, &[], &[1], &[], &[(1, RSI, 1, 26)]),
            Step(1, 28, &[], &[2], &[], &[(2, RDX, 1, 28)]),
            Step(1, 30, &[], &[3], &[], &[(3, RCX, 1, 30)]),
            Step(4, 3, &[0], &[4], &[], &[]),
            Step(5, 3, &[4, 2], &[6, 4], REST, &[(6, CF, 5, 3)]),
            Step(6, 3, &[4, 0], &[4], &FLAGS, &[]),
            Step(7, 3, &[1], &[5], &[], &[]),
            Step(8, 3, &[5, 3, 6], &[6, 5], REST, CARRIES),
            Step(9, 3, &[4, 5], &[], &[], SUMS),
        ],
        words: 6,
        flags: 1,
        in_use: IN_USE,
        places: &[],
        variable: 6,
        needs: &[(CF, 5, 3), (CF, 8, 3), (CF, 8, 16)],
        holders: &[(CF, None, 6, 3)],
    },
    // a parameter that is returned, the return first: needs stand in the order of the text
    Row {
        steps: &[
            Step(2, 3, &[0], &[], &[], &[(0, RAX, 2, 10)]),
            Step(1, 22, &[], &[0], &[], &[(0, RDI, 1, 22)]),
        ],
        words: 1,
        flags: 0,
        in_use: IN_USE,
        places: &[],
        variable: 0,
        needs: &[(RDI, 1, 22), (RAX, 2, 10)],
        holders: &[],
    },
    // x y z w r c: c has to be in RCX, where w is still needed
    Row {
        steps: &[
            Step(1, 22, &[], &[0], &[], &[(0, RDI, 1, 22)]),
            Step(1, 24, &[], &[1], &[], &[(1, RSI, 1, 24)]),
            Step(1, 26, &[], &[2], &[], &[(2, RDX, 1, 26)]),
            Step(1, 28, &[], &[3], &[], &[(3, RCX, 1, 28)]),
            Step(4, 3, &[0], &[4], &[], &[]),
            Step(5, 3, &[1], &[5], &[], &[]),
            Step(6, 3, &[4, 5], &[4], &FLAGS, &[(5, RCX, 6, 9)]),
            Step(7, 3, &[4, 3], &[4], &FLAGS, &[]),
            Step(8, 3, &[4], &[], &[], &[(4, RAX, 8, 10)]),
        ],
        words: 6,
        flags: 0,
        in_use: IN_USE,
        places: &[],
        variable: 5,
        needs: &[(RCX, 6, 9)],
        holders: &[(RCX, Some(3), 5, 3)],
    },
    // x y h l: a product in RDX and RAX, which are free after the last use
    Row {
        steps: &[
            Step(1, 22, &[], &[0], &[], &[(0, RDI, 1, 22)]),
            Step(1, 24, &[], &[1], &[], &[(1, RSI, 1, 24)]),
            Step(2, 3, &[0], &[3], &[], &[]),
            Step(2, 3, &[3, 1], &[3, 2], &FLAGS, PRODUCT),
            Step(3, 3, &[3, 2], &[], &[], PRODUCTS),
        ],
        words: 4,
        flags: 0,
        in_use: IN_USE,
        places: &[RDI, RSI, RDX, RAX],
        variable: 0,
        needs: &[],
        holders: &[],
    },
    // two variables in one place, written at once and never read: the first declared is told
    Row {
        steps: &[
            Step(1, 1, &[], &[2], &[], &[(2, RAX, 1, 1)]),
            Step(2, 1, &[], &[1, 0], &[], BOTH),
            Step(3, 1, &[2], &[], &[], &[]),
        ],
        words: 3,
        flags: 0,
        in_use: IN_USE,
        places: &[],
        variable: 2,
        needs: &[(RAX, 1, 1)],
        holders: &[(RAX, Some(0), 2, 1)],
    },
    // sixteen words that are live at once, over all places: one holder for each register
    Row {
        steps: &[
            Step(1, 50, &[], &[0], &[], &[]),
            Step(1, 51, &[], &[1], &[], &[]),
            Step(1, 52, &[], &[2], &[], &[]),
            Step(1, 53, &[], &[3], &[], &[]),
            Step(1, 54, &[], &[4], &[], &[]),
            Step(1, 55, &[], &[5], &[], &[]),
            Step(1, 56, &[], &[6], &[], &[]),
            Step(1, 57, &[], &[7], &[], &[]),
            Step(1, 58, &[], &[8], &[], &[]),
            Step(1, 59, &[], &[9], &[], &[]),
            Step(1, 60, &[], &[10], &[], &[]),
            Step(1, 61, &[], &[11], &[], &[]),
            Step(1, 62, &[], &[12], &[], &[]),
            Step(1, 63, &[], &[13], &[], &[]),
            Step(1, 64, &[], &[14], &[], &[]),
            Step(1, 65, &[], &[15], &[], &[]),
            Step(1, 90, SIXTEEN, &[0], &FLAGS, &[]),
        ],
        words: 16,
        flags: 0,
        in_use: IN_USE,
        places: &[],
        variable: 15,
        needs: &[],
        holders: &[
            (RAX, Some(0), 1, 65),
            (RCX, Some(1), 1, 65),
            (RDX, Some(2), 1, 65),
            (RBX, Some(3), 1, 65),
            (RBP, Some(4), 1, 65),
            (RSI, Some(5), 1, 65),
            (RDI, Some(6), 1, 65),
            (R8, Some(7), 1, 65),
            (R9, Some(8), 1, 65),
            (R10, Some(9), 1, 65),
            (R11, Some(10), 1, 65),
            (R12, Some(11), 1, 65),
            (R13, Some(12), 1, 65),
            (R14, Some(13), 1, 65),
            (R15, Some(14), 1, 65),
        ],
    },
    // four, over three registers: those that are not in use are not given
    Row {
        steps: &[
            Step(1, 50, &[], &[0], &[], &[]),
            Step(1, 51, &[], &[1], &[], &[]),
            Step(1, 52, &[], &[2], &[], &[]),
            Step(1, 53, &[], &[3], &[], &[]),
            Step(1, 90, &[0, 1, 2, 3], &[0], &FLAGS, &[]),
        ],
        words: 4,
        flags: 0,
        in_use: &[RAX, RCX, RDX],
        places: &[],
        variable: 3,
        needs: &[],
        holders: &[
            (RAX, Some(0), 1, 53),
            (RCX, Some(1), 1, 53),
            (RDX, Some(2), 1, 53),
        ],
    },
];

const SIXTEEN: &[u32] = &[0, 1, 2, 3, 4, 5, 6, 7, 8, 9, 10, 11, 12, 13, 14, 15];

const CARRIES: &[(u32, Place, u32, u32)] = &[(6, CF, 8, 3), (6, CF, 8, 16)];

const SUMS: &[(u32, Place, u32, u32)] = &[(4, RAX, 9, 10), (5, RDX, 9, 13)];

const PRODUCT: &[(u32, Place, u32, u32)] = &[(3, RAX, 2, 6), (2, RDX, 2, 3)];

const PRODUCTS: &[(u32, Place, u32, u32)] = &[(3, RAX, 3, 10), (2, RDX, 3, 13)];

const BOTH: &[(u32, Place, u32, u32)] = &[(0, RAX, 2, 1), (1, RAX, 2, 4)];

fn op(alloc: Global, step: &Step) -> Result<Op, AllocError> {
    let mut needs = Seq::new(alloc);
    for (variable, place, line, col) in step.5.iter() {
        let span = Span {
            line: *line,
            col: *col,
        };
        needs.push(Need {
            variable: *variable,
            place: *place,
            span,
        })?;
    }
    Ok(Op {
        span: Span {
            line: step.0,
            col: step.1,
        },
        reads: Seq::from_slice(alloc, step.2)?,
        writes: Seq::from_slice(alloc, step.3)?,
        fixed: Seq::from_slice(alloc, step.4)?,
        needs,
    })
}

fn code(alloc: Global, row: &Row) -> Result<Code, AllocError> {
    let mut ops = Seq::new(alloc);
    for step in row.steps {
        ops.push(op(alloc, step)?)?;
    }
    let mut kinds = Seq::new(alloc);
    for _ in 0..row.words {
        kinds.push(Kind::Word)?;
    }
    for _ in 0..row.flags {
        kinds.push(Kind::Flag)?;
    }
    Ok(Code {
        ops,
        kinds,
        in_use: Seq::from_slice(alloc, row.in_use)?,
    })
}

/// The places of code that has fewer than 2^32 variables and no number beyond them.
fn placed(alloc: Global, code: &Code) -> Result<Places, Failure<NoPlace>> {
    let count = code.kinds.len();
    if count >= 0x1_0000_0000 || !are_below(code.ops.as_slice(), count) {
        return Err(Failure::OutOfMemory);
    }
    allocate(alloc, code)
}

/// Whether these are the needs of the row, in its order.
fn has_needs(row: &Row, no_place: &NoPlace) -> bool {
    if no_place.needs.len() != row.needs.len() {
        return false;
    }
    for (need, wanted) in no_place.needs.as_slice().iter().zip(row.needs.iter()) {
        if (need.place, need.span.line, need.span.col) != *wanted {
            return false;
        }
    }
    true
}

/// Whether these are the holders of the row, in its order.
fn has_holders(row: &Row, no_place: &NoPlace) -> bool {
    if no_place.holders.len() != row.holders.len() {
        return false;
    }
    for (holder, wanted) in no_place.holders.as_slice().iter().zip(row.holders.iter()) {
        if (
            holder.place,
            holder.variable,
            holder.span.line,
            holder.span.col,
        ) != *wanted
        {
            return false;
        }
    }
    true
}

#[test]
fn places_each_code(rt: HostRuntime) -> Result<(), Fail> {
    let alloc = rt.alloc();
    for (i, row) in ROWS.iter().enumerate() {
        match placed(alloc, &code(alloc, row)?) {
            Ok(places) => assert!(rt; places.as_slice() == row.places, "row {i}"),
            Err(Failure::OutOfMemory) => panic!(rt; "no memory for row {i}"),
            Err(Failure::Refused(no_place)) => {
                assert!(rt; row.places.is_empty(), "row {i}");
                assert_eq!(rt; no_place.variable, row.variable, "row {i}");
                assert!(rt; has_needs(row, &no_place), "row {i}");
                assert!(rt; has_holders(row, &no_place), "row {i}");
            }
        }
    }
    Ok(())
}
