//! Rows of changes and of cases of a last pass, with the printed transformer by the rules of
//! flattening: each kind of step alone, and each kind in which a second change goes on.

use jz_change::{
    Case, Change, Form, Number, Numbers, Out, Seq, Step, Tr, Transformer, compose, flatten,
};
use jz_io::{Bytes, Ct};
use jz_leak::Text;
use jz_listing::{Compiled, listing};
use std::alloc::{AllocError, Global};
use std::test::Fail;

/// Numbers of an item; none: all of them as they are.
type Nums = Option<&'static [Number]>;
/// What an operation becomes.
type Items = &'static [Nums];
/// A change of operations alone.
type Part = &'static [Items];

enum Shape {
    Ops(Items),
    If(Items, Nums, Part, Part),
    Arm(bool, Items, Part),
    While(Part, Items, Nums, Part),
    Once(Part, Items),
    For(Part),
    Unrolled(&'static [Part]),
    Opened(Items, Part, Items),
}

type Outs = &'static [Out];
/// A tree of operations alone.
type Body = &'static [Outs];

enum Last {
    Op(Outs),
    If(Outs, Outs, Body, Outs, Body),
    While(Body, Outs, Outs, Body, Outs),
    For(&'static [Body]),
}

/// A change, the cases of the last pass behind it, and the transformer.
struct Alone {
    change: &'static [Shape],
    last: &'static [Last],
    tr: &'static str,
}

/// Two changes, one after another, the cases of the last pass behind them, and the transformer.
struct Row {
    first: &'static [Shape],
    second: &'static [Shape],
    last: &'static [Last],
    tr: &'static str,
}

const SAME: Items = &[None];

const TWICE: Items = &[None, None];

const NTH_0: Nums = Some(&[Number::Nth(0)]);

const NTH_1: Nums = Some(&[Number::Nth(1)]);

const NTH_2: Nums = Some(&[Number::Nth(2)]);

const FIVE: Nums = Some(&[Number::Fixed(5)]);

const NINE_AND_FIRST: Nums = Some(&[Number::Fixed(9), Number::Nth(0)]);

const THIRD_AND_FOURTH: Nums = Some(&[Number::Nth(2), Number::Nth(3)]);

const FIRST_AND_THREE: Nums = Some(&[Number::Nth(0), Number::Fixed(3)]);

const WHOLE: Nums = Some(&[Number::Fixed(1)]);

const EIGHT: Nums = Some(&[Number::Fixed(8)]);

const AT_0: Outs = &[Out::Addr(Form::Leaked(0))];

const AT_1: Outs = &[Out::Addr(Form::Leaked(1))];

const AT_BOTH: Outs = &[Out::Addr(Form::Leaked(0)), Out::Addr(Form::Leaked(1))];

const AT_1_IN_FRAME: Outs = &[
    Out::Addr(Form::Leaked(1)),
    Out::Addr(Form::Indexed(16, 4, 0)),
];

const DIVIDES: Outs = &[Out::Div(Form::Leaked(0), Form::Num(0), Form::Leaked(1))];

const AT_0_AND_7: Outs = &[Out::Addr(Form::Leaked(0)), Out::Addr(Form::Num(7))];

const FAR: Outs = &[Out::Addr(Form::Indexed(0, 1 << 63, 0))];

const NEAR: Outs = &[
    Out::Addr(Form::Indexed(-8, 1, 0)),
    Out::Addr(Form::Frame(24)),
];

const SIX: Outs = &[Out::Addr(Form::Num(6))];

const SEVEN: Outs = &[Out::Addr(Form::Num(7))];

const EIGHTH: Outs = &[Out::Addr(Form::Num(8))];

const TAKEN: Outs = &[Out::Branch(true)];

const PASSED: Outs = &[Out::Branch(false)];

const PASSED_AT_0: Outs = &[Out::Branch(false), Out::Addr(Form::Leaked(0))];

static ALONE: [Alone; 17] = [
    Alone {
        change: &[Shape::Ops(SAME)],
        last: &[Last::Op(AT_0)],
        tr: "op[a:$0]",
    },
    Alone {
        change: &[Shape::Ops(&[]), Shape::Ops(SAME)],
        last: &[Last::Op(AT_1)],
        tr: "op[] op[a:$1]",
    },
    Alone {
        change: &[Shape::Ops(&[NTH_1, NINE_AND_FIRST])],
        last: &[Last::Op(AT_0), Last::Op(AT_1_IN_FRAME)],
        tr: "op[a:$1 a:$0 a:@52]",
    },
    Alone {
        change: &[Shape::Ops(&[NINE_AND_FIRST])],
        last: &[Last::Op(DIVIDES)],
        tr: "op[d:9:0:$0]",
    },
    Alone {
        change: &[Shape::Ops(&[WHOLE]), Shape::Ops(&[EIGHT])],
        last: &[Last::Op(FAR), Last::Op(NEAR)],
        tr: "op[a:@-9223372036854775808] op[a:@0 a:@24]",
    },
    Alone {
        change: &[Shape::If(&[NTH_1], NTH_2, &[SAME], &[&[]])],
        last: &[
            Last::Op(AT_0),
            Last::If(AT_0, PASSED_AT_0, &[AT_0], TAKEN, &[]),
        ],
        tr: "if([a:$1 a:$2] [b0 a:$2] {op[a:$0]} [b1] {op[]})",
    },
    Alone {
        change: &[Shape::Arm(true, &[NTH_1], &[SAME, TWICE])],
        last: &[
            Last::Op(AT_0),
            Last::Op(AT_0),
            Last::Op(SEVEN),
            Last::Op(EIGHTH),
        ],
        tr: "if([a:$1] [] {op[a:$0] op[a:7 a:8]} [] {})",
    },
    Alone {
        change: &[Shape::Arm(false, &[], &[SAME]), Shape::Ops(SAME)],
        last: &[Last::Op(AT_0), Last::Op(SIX)],
        tr: "if([] [] {} [] {op[a:$0]}) op[a:6]",
    },
    Alone {
        change: &[Shape::While(&[SAME], &[NTH_1], FIVE, &[SAME])],
        last: &[Last::While(&[AT_0, AT_0], AT_0, TAKEN, &[AT_1], PASSED_AT_0)],
        tr: "while({op[a:$0]} [a:$1 a:5] [b1] {op[a:$1]} [b0 a:5])",
    },
    Alone {
        change: &[Shape::Once(&[SAME], &[NTH_1]), Shape::Ops(SAME)],
        last: &[Last::Op(AT_0), Last::Op(AT_0), Last::Op(SEVEN)],
        tr: "while({op[a:$0]} [a:$1] [] {} []) op[a:7]",
    },
    Alone {
        change: &[Shape::Once(&[], &[])],
        last: &[],
        tr: "while({} [] [] {} [])",
    },
    Alone {
        change: &[Shape::For(&[SAME])],
        last: &[Last::For(&[&[SIX], &[SEVEN]])],
        tr: "for({op[a:6]} {op[a:7]})",
    },
    Alone {
        change: &[Shape::For(&[SAME]), Shape::Ops(SAME)],
        last: &[Last::For(&[]), Last::Op(SIX)],
        tr: "for() op[a:6]",
    },
    Alone {
        change: &[Shape::Unrolled(&[&[SAME], &[TWICE], &[]]), Shape::Ops(SAME)],
        last: &[
            Last::Op(SIX),
            Last::Op(SEVEN),
            Last::Op(EIGHTH),
            Last::Op(AT_0),
        ],
        tr: "for({op[a:6]} {op[a:7 a:8]} {}) op[a:$0]",
    },
    Alone {
        change: &[Shape::Unrolled(&[])],
        last: &[],
        tr: "for()",
    },
    Alone {
        change: &[
            Shape::Opened(&[NTH_0, NTH_1], &[SAME], &[NTH_2]),
            Shape::Ops(SAME),
        ],
        last: &[
            Last::Op(AT_0),
            Last::Op(AT_0),
            Last::Op(AT_0),
            Last::Op(AT_0),
            Last::Op(SIX),
        ],
        tr: "call([a:$0 a:$1] {op[a:$0]} [a:$2]) op[a:6]",
    },
    Alone {
        change: &[Shape::Opened(&[], &[], &[])],
        last: &[],
        tr: "call([] {} [])",
    },
];

static COMPOSED: [Row; 13] = [
    Row {
        first: &[Shape::Ops(&[NTH_1, None])],
        second: &[Shape::Ops(&[FIRST_AND_THREE]), Shape::Ops(&[None, NTH_2])],
        last: &[Last::Op(AT_BOTH), Last::Op(AT_0), Last::Op(AT_0)],
        tr: "op[a:$1 a:3 a:$0 a:$2]",
    },
    Row {
        first: &[Shape::Ops(TWICE), Shape::Ops(&[])],
        second: &[Shape::Ops(&[]), Shape::Ops(&[])],
        last: &[],
        tr: "op[] op[]",
    },
    Row {
        first: &[Shape::If(&[NTH_1], THIRD_AND_FOURTH, &[SAME], &[])],
        second: &[Shape::Ops(SAME), Shape::If(&[NTH_1], NTH_0, &[SAME], &[])],
        last: &[
            Last::Op(AT_0),
            Last::Op(AT_0),
            Last::If(AT_0, PASSED, &[AT_0], TAKEN, &[]),
        ],
        tr: "if([a:$1 a:$3 a:$2] [b0] {op[a:$0]} [b1] {})",
    },
    Row {
        first: &[Shape::If(&[], NTH_1, &[SAME], &[&[], SAME])],
        second: &[Shape::Arm(false, &[NTH_0], &[SAME])],
        last: &[Last::Op(AT_0), Last::Op(SIX)],
        tr: "if([a:$1] [] {} [] {op[] op[a:6]})",
    },
    Row {
        first: &[Shape::If(&[], None, &[SAME], &[&[], SAME])],
        second: &[Shape::Arm(true, &[], &[TWICE])],
        last: &[Last::Op(AT_0), Last::Op(SIX)],
        tr: "if([] [] {op[a:$0 a:6]} [] {})",
    },
    Row {
        first: &[Shape::Arm(true, SAME, &[SAME]), Shape::Ops(SAME)],
        second: &[Shape::Ops(&[NTH_1]), Shape::Ops(&[]), Shape::Ops(&[NTH_2])],
        last: &[Last::Op(AT_0), Last::Op(AT_0)],
        tr: "if([a:$1] [] {op[]} [] {}) op[a:$2]",
    },
    Row {
        first: &[Shape::While(&[SAME], &[NTH_1], NTH_2, &[SAME])],
        second: &[Shape::While(&[SAME, SAME], &[NTH_0], None, &[SAME])],
        last: &[Last::While(&[AT_0, AT_0, AT_0], AT_0, TAKEN, &[AT_1], PASSED)],
        tr: "while({op[a:$0]} [a:$1 a:$2 a:$2] [b1] {op[a:$1]} [b0])",
    },
    Row {
        first: &[Shape::While(&[SAME], &[NTH_0], NTH_1, &[SAME])],
        second: &[Shape::Once(&[SAME, TWICE], &[NTH_0])],
        last: &[
            Last::Op(AT_1),
            Last::Op(AT_0),
            Last::Op(AT_0_AND_7),
            Last::Op(AT_0),
        ],
        tr: "while({op[a:$1]} [a:$0 a:$0 a:7 a:$1] [] {} [])",
    },
    Row {
        first: &[Shape::Once(&[SAME], SAME)],
        second: &[Shape::Ops(&[]), Shape::Ops(&[NTH_1])],
        last: &[Last::Op(AT_0)],
        tr: "while({op[]} [a:$1] [] {} [])",
    },
    Row {
        first: &[Shape::For(&[SAME])],
        second: &[Shape::For(&[&[NTH_1]])],
        last: &[Last::For(&[&[AT_0], &[SEVEN]])],
        tr: "for({op[a:$1]} {op[a:7]})",
    },
    Row {
        first: &[Shape::For(&[SAME])],
        second: &[Shape::Unrolled(&[&[SAME], &[&[NTH_1]]])],
        last: &[Last::Op(AT_0), Last::Op(AT_0)],
        tr: "for({op[a:$0]} {op[a:$1]})",
    },
    Row {
        first: &[Shape::Unrolled(&[&[SAME], &[SAME]])],
        second: &[Shape::Ops(TWICE), Shape::Ops(&[])],
        last: &[Last::Op(SIX), Last::Op(SEVEN)],
        tr: "for({op[a:6 a:7]} {op[]})",
    },
    Row {
        first: &[Shape::Opened(SAME, &[SAME], SAME)],
        second: &[Shape::Ops(&[]), Shape::Ops(SAME), Shape::Ops(TWICE)],
        last: &[Last::Op(AT_0), Last::Op(AT_0), Last::Op(SEVEN)],
        tr: "call([] {op[a:$0]} [a:$0 a:7])",
    },
];

fn numbers(alloc: Global, nums: Nums) -> Result<Numbers, AllocError> {
    match nums {
        None => Ok(Numbers::Same),
        Some(these) => Ok(Numbers::These(Seq::from_slice(alloc, these)?)),
    }
}

fn items(alloc: Global, rows: Items) -> Result<Seq<Numbers>, AllocError> {
    let mut out = Seq::new(alloc);
    for nums in rows {
        out.push(numbers(alloc, *nums)?)?;
    }
    Ok(out)
}

fn part(alloc: Global, rows: Part) -> Result<Change, AllocError> {
    let mut steps = Seq::new(alloc);
    for row in rows {
        steps.push(Step::Ops(items(alloc, row)?))?;
    }
    Ok(Change { steps })
}

fn parts(alloc: Global, rows: &[Part]) -> Result<Seq<Change>, AllocError> {
    let mut all = Seq::new(alloc);
    for row in rows {
        all.push(part(alloc, row)?)?;
    }
    Ok(all)
}

fn step(alloc: Global, shape: &Shape) -> Result<Step, AllocError> {
    match shape {
        Shape::Ops(rows) => Ok(Step::Ops(items(alloc, rows)?)),
        Shape::If(before, test, then_part, else_part) => Ok(Step::If {
            before: items(alloc, before)?,
            test: numbers(alloc, *test)?,
            then_part: part(alloc, then_part)?,
            else_part: part(alloc, else_part)?,
        }),
        Shape::Arm(answer, before, arm) => Ok(Step::Arm {
            answer: *answer,
            before: items(alloc, before)?,
            part: part(alloc, arm)?,
        }),
        Shape::While(prologue, before, test, body) => Ok(Step::While {
            prologue: part(alloc, prologue)?,
            before: items(alloc, before)?,
            test: numbers(alloc, *test)?,
            body: part(alloc, body)?,
        }),
        Shape::Once(prologue, before) => Ok(Step::Once {
            prologue: part(alloc, prologue)?,
            before: items(alloc, before)?,
        }),
        Shape::For(body) => Ok(Step::For(part(alloc, body)?)),
        Shape::Unrolled(rounds) => Ok(Step::Unrolled(parts(alloc, rounds)?)),
        Shape::Opened(arguments, body, results) => Ok(Step::Opened {
            arguments: items(alloc, arguments)?,
            body: part(alloc, body)?,
            results: items(alloc, results)?,
        }),
    }
}

fn change(alloc: Global, shapes: &[Shape]) -> Result<Change, AllocError> {
    let mut steps = Seq::new(alloc);
    for shape in shapes {
        steps.push(step(alloc, shape)?)?;
    }
    Ok(Change { steps })
}

fn tr(alloc: Global, body: Body) -> Result<Tr, AllocError> {
    let mut cases = Seq::new(alloc);
    for outs in body {
        cases.push(Case::Op(Seq::from_slice(alloc, outs)?))?;
    }
    Ok(Tr { cases })
}

fn rounds(alloc: Global, bodies: &[Body]) -> Result<Case, AllocError> {
    let mut trs = Seq::new(alloc);
    for body in bodies {
        trs.push(tr(alloc, body)?)?;
    }
    Ok(Case::For(trs))
}

fn case(alloc: Global, last: &Last) -> Result<Case, AllocError> {
    match last {
        Last::Op(outs) => Ok(Case::Op(Seq::from_slice(alloc, outs)?)),
        Last::If(test, then_outs, then_body, else_outs, else_body) => Ok(Case::If {
            test: Seq::from_slice(alloc, test)?,
            then_outs: Seq::from_slice(alloc, then_outs)?,
            then_tr: tr(alloc, then_body)?,
            else_outs: Seq::from_slice(alloc, else_outs)?,
            else_tr: tr(alloc, else_body)?,
        }),
        Last::While(prologue, test, more_outs, body, leave_outs) => Ok(Case::While {
            prologue: tr(alloc, prologue)?,
            test: Seq::from_slice(alloc, test)?,
            more_outs: Seq::from_slice(alloc, more_outs)?,
            body: tr(alloc, body)?,
            leave_outs: Seq::from_slice(alloc, leave_outs)?,
        }),
        Last::For(bodies) => rounds(alloc, bodies),
    }
}

/// The last pass, with an event before its body and one after it.
fn transformer(alloc: Global, rows: &[Last]) -> Result<Transformer, AllocError> {
    let mut cases = Seq::new(alloc);
    for last in rows {
        cases.push(case(alloc, last)?)?;
    }
    Ok(Transformer {
        before: Seq::from_slice(alloc, &[Out::Addr(Form::Frame(-16))])?,
        body: Tr { cases },
        after: Seq::from_slice(alloc, &[Out::Addr(Form::Frame(0))])?,
    })
}

/// The listing of a function with this transformer and nothing else.
fn shown(alloc: Global, tr: Transformer) -> Result<Bytes, AllocError> {
    let mut funs = Seq::new(alloc);
    funs.push(Compiled {
        name: Text::from_string(String::from_str(alloc, "f")?),
        args: Seq::new(alloc),
        rets: Seq::new(alloc),
        pre: Seq::new(alloc),
        frame: 0,
        saved: Seq::new(alloc),
        insns: 1,
        code: Seq::from_slice(alloc, &[195])?,
        tr,
        ct: Ct::Yes,
    })?;
    listing(alloc, funs.as_slice())
}

/// The same by the text of a row.
fn expected(alloc: Global, tr: &str) -> Result<String, AllocError> {
    let mut text = String::from_str(
        alloc,
        "jasmin-listing 1\nfn f\nframe 0\nsaved -\ninsns 1\ncode c3\ntr [a:@-16] {",
    )?;
    text.push_str(tr)?;
    text.push_str("} [a:@0]\nct yes\nend\n")?;
    Ok(text)
}

#[test]
fn each_step_alone(rt: HostRuntime) -> Result<(), Fail> {
    let alloc = rt.alloc();
    for row in ALONE.iter() {
        let one = change(alloc, row.change)?;
        let flat = flatten(alloc, one, transformer(alloc, row.last)?)?;
        let text = shown(alloc, flat)?;
        let wanted = expected(alloc, row.tr)?;
        assert_eq!(rt; text.as_slice(), wanted.as_bytes());
    }
    Ok(())
}

#[test]
fn one_after_another(rt: HostRuntime) -> Result<(), Fail> {
    let alloc = rt.alloc();
    for row in COMPOSED.iter() {
        let both = compose(alloc, change(alloc, row.first)?, change(alloc, row.second)?)?;
        let flat = flatten(alloc, both, transformer(alloc, row.last)?)?;
        let text = shown(alloc, flat)?;
        let wanted = expected(alloc, row.tr)?;
        assert_eq!(rt; text.as_slice(), wanted.as_bytes());
    }
    Ok(())
}
