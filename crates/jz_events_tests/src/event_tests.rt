//! Rows of statements over variables, with their part of the printed transformer, worked by hand
//! from the rules of places and control. The frame has two stack variables, of 64 bits at 0 and of
//! 32 bits at 8, above them RBX at 16, and 24 bytes.

use jz_data::Seq;
use jz_events::{FrameShape, transformer};
use jz_io::{Bytes, Ct, Span};
use jz_leak::{Text, Transformer};
use jz_listing::{Compiled, listing};
use jz_operations::{Action, Address, Arg, Cell, Condition, Flags, Operation};
use jz_place::{Node, Test};
use jz_words::Size;
use std::alloc::{AllocError, Global};
use std::test::Fail;
use x64_insn::{Alu, Cond, Reg, Wide};

/// A part of a body.
enum Shape {
    Do(Action),
    If(Option<Action>, Condition, &'static [Action], &'static [Action]),
    While(bool, &'static [Action], Option<Action>, Condition, &'static [Action]),
    /// Without a test.
    Ever(bool, &'static [Action], &'static [Action]),
}

struct Row {
    shape: Shape,
    case: &'static str,
}

const WORD: Arg = Arg::Var(0);

const MEMORY: Arg = Arg::Mem(Address {
    base: Some(1),
    index: None,
    disp: 16,
});

/// The first variable, and the third cell of the second, by its number and by an index.
const SCALAR: Arg = Arg::Cell(Cell {
    of: 0,
    index: None,
    offset: 0,
});

const THIRD: Arg = Arg::Cell(Cell {
    of: 1,
    index: None,
    offset: 2,
});

const INDEXED: Arg = Arg::Cell(Cell {
    of: 1,
    index: Some(2),
    offset: 2,
});

const SILENT: Action = Action::Mov(Size::S64, WORD, Arg::Imm(7));

const LOAD: Action = Action::Mov(Size::S64, WORD, MEMORY);

const COMPARE: Action = Action::Alu(Alu::Cmp, Size::S64, WORD, MEMORY, None);

const BELOW: Condition = Condition::Cc(Cond::B);

const FLAG: Condition = Condition::Flag(5, true);

const ROWS: [Row; 24] = [
    Row {
        shape: Shape::Do(SILENT),
        case: "op[]",
    },
    Row {
        shape: Shape::Do(LOAD),
        case: "op[a:$0]",
    },
    Row {
        shape: Shape::Do(Action::Mov(Size::S64, MEMORY, WORD)),
        case: "op[a:$0]",
    },
    Row {
        shape: Shape::Do(Action::Mov(Size::S64, WORD, SCALAR)),
        case: "op[a:@-24]",
    },
    Row {
        shape: Shape::Do(Action::Mov(Size::S32, THIRD, WORD)),
        case: "op[a:@-8]",
    },
    Row {
        shape: Shape::Do(Action::Mov(Size::S32, WORD, INDEXED)),
        case: "op[a:@-16+4*$0]",
    },
    Row {
        shape: Shape::Do(Action::Alu(Alu::Add, Size::S64, SCALAR, WORD, None)),
        case: "op[a:@-24]",
    },
    Row {
        shape: Shape::Do(Action::Lea(
            0,
            Address {
                base: Some(1),
                index: None,
                disp: 0,
            },
        )),
        case: "op[]",
    },
    Row {
        shape: Shape::Do(Action::Wide(Wide::Mul, Size::S64, None, None, MEMORY)),
        case: "op[a:$0]",
    },
    Row {
        shape: Shape::Do(Action::Wide(Wide::Div, Size::S64, None, None, WORD)),
        case: "op[d:$0:$1:$2]",
    },
    Row {
        shape: Shape::Do(Action::Wide(Wide::Div, Size::S64, None, None, MEMORY)),
        case: "op[a:$0 d:$1:$2:$3]",
    },
    Row {
        shape: Shape::Do(Action::Wide(Wide::Idiv, Size::S64, None, None, SCALAR)),
        case: "op[a:@-24 d:$0:$1:$2]",
    },
    Row {
        shape: Shape::Do(Action::Wide(Wide::Idiv, Size::S32, None, None, INDEXED)),
        case: "op[a:@-16+4*$0 d:$1:$2:$3]",
    },
    Row {
        shape: Shape::Do(Action::Set(
            FLAG,
            Arg::Cell(Cell {
                of: 0,
                index: Some(2),
                offset: 0,
            }),
        )),
        case: "op[a:@-24+1*$0]",
    },
    Row {
        shape: Shape::If(Some(COMPARE), BELOW, &[LOAD], &[SILENT]),
        case: "if([a:$0] [b0] {op[a:$0]} [b1] {op[]})",
    },
    Row {
        shape: Shape::If(None, FLAG, &[], &[SILENT]),
        case: "if([] [b0] {} [b1] {op[]})",
    },
    Row {
        shape: Shape::While(false, &[], Some(COMPARE), BELOW, &[LOAD]),
        case: "while({} [a:$0] [b0] {op[a:$0]} [b1])",
    },
    Row {
        shape: Shape::While(false, &[SILENT], None, FLAG, &[LOAD]),
        case: "while({op[]} [] [b0] {op[a:$0]} [b1])",
    },
    Row {
        shape: Shape::While(false, &[], None, FLAG, &[]),
        case: "while({} [] [b0] {} [b1])",
    },
    Row {
        shape: Shape::While(true, &[LOAD], Some(COMPARE), BELOW, &[]),
        case: "while({op[a:$0]} [a:$0] [b1] {} [b0])",
    },
    Row {
        shape: Shape::While(true, &[], None, FLAG, &[]),
        case: "while({} [] [b1] {} [b0])",
    },
    Row {
        shape: Shape::Ever(false, &[], &[LOAD]),
        case: "while({} [] [] {op[a:$0]} [])",
    },
    Row {
        shape: Shape::Ever(false, &[LOAD], &[]),
        case: "while({op[a:$0]} [] [] {} [])",
    },
    Row {
        shape: Shape::Ever(true, &[LOAD], &[]),
        case: "while({op[a:$0]} [] [] {} [])",
    },
];

fn operation(action: Action) -> Operation {
    Operation {
        span: Span { line: 1, col: 1 },
        action,
        flags: Flags {
            of: None,
            cf: None,
            sf: None,
            pf: None,
            zf: None,
        },
    }
}

fn compared(action: Option<Action>) -> Option<Operation> {
    match action {
        None => None,
        Some(action) => Some(operation(action)),
    }
}

fn block(alloc: Global, actions: &[Action]) -> Result<Seq<Node>, AllocError> {
    let mut nodes = Seq::new(alloc);
    for action in actions {
        nodes.push(Node::Do(operation(*action)))?;
    }
    Ok(nodes)
}

fn node(alloc: Global, shape: &Shape) -> Result<Node, AllocError> {
    match shape {
        Shape::Do(action) => Ok(Node::Do(operation(*action))),
        Shape::If(compare, condition, yes, no) => {
            let test = Test::If(compared(*compare), *condition);
            Ok(Node::If(test, block(alloc, yes)?, block(alloc, no)?))
        }
        Shape::While(bare, prologue, compare, condition, inner) => {
            let test = Test::If(compared(*compare), *condition);
            Ok(Node::While(*bare, block(alloc, prologue)?, test, block(alloc, inner)?))
        }
        Shape::Ever(bare, prologue, inner) => {
            let (prologue, inner) = (block(alloc, prologue)?, block(alloc, inner)?);
            Ok(Node::While(*bare, prologue, Test::Always, inner))
        }
    }
}

fn shown(alloc: Global, nodes: &Seq<Node>) -> Result<Transformer, AllocError> {
    let frame = FrameShape {
        slots: &[0, 8],
        first: 16,
        saved: &[Reg::Rbx],
        size: 24,
    };
    transformer(alloc, nodes, &frame)
}

/// The listing of a function with this transformer and nothing else.
fn listed(alloc: Global, tr: Transformer) -> Result<Bytes, AllocError> {
    let mut funs = Seq::new(alloc);
    funs.push(Compiled {
        name: Text::from_string(String::from_str(alloc, "f")?),
        args: Seq::new(alloc),
        rets: Seq::new(alloc),
        pre: Seq::new(alloc),
        frame: 0,
        saved: Seq::new(alloc),
        insns: 1,
        code: Seq::from_slice(alloc, &[195])?,
        tr,
        ct: Ct::Yes,
    })?;
    listing(alloc, funs.as_slice())
}

fn expected(alloc: Global, case: &str) -> Result<String, AllocError> {
    let mut text = String::from_str(
        alloc,
        "jasmin-listing 1\nfn f\nframe 0\nsaved -\ninsns 1\ncode c3\ntr [a:@-8] {",
    )?;
    text.push_str(case)?;
    text.push_str("} [a:@-8 a:@0]\nct yes\nend\n")?;
    Ok(text)
}

#[test]
fn each_statement_alone(rt: HostRuntime) -> Result<(), Fail> {
    let alloc = rt.alloc();
    for row in ROWS.iter() {
        let mut nodes = Seq::new(alloc);
        nodes.push(node(alloc, &row.shape)?)?;
        let text = listed(alloc, shown(alloc, &nodes)?)?;
        let wanted = expected(alloc, row.case)?;
        assert_eq!(rt; text.as_slice(), wanted.as_bytes());
    }
    Ok(())
}

#[test]
fn one_after_another(rt: HostRuntime) -> Result<(), Fail> {
    let alloc = rt.alloc();
    let nodes = block(alloc, &[LOAD, SILENT, LOAD])?;
    let text = listed(alloc, shown(alloc, &nodes)?)?;
    let wanted = expected(alloc, "op[a:$0] op[] op[a:$0]")?;
    assert_eq!(rt; text.as_slice(), wanted.as_bytes());
    Ok(())
}
