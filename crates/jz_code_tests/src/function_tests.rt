//! The machine code of small functions over variables, worked by hand.

ghost use Rattle.std.specs.Prelude.{◌≡◌, IfOk};
ghost use Rattle.jz_codable.specs.Ready.{IsReady};
ghost use Rattle.jz_code_tests.specs.Functions as of;

use jz_code::{MachineCode, NoCode, machine_code};
use jz_data::{Failure, Seq};
use jz_io::Span;
use jz_ir::Kind;
use jz_leak::{Form, Out};
use jz_operations::{Action, Arg, Flags, Operation, Pinned, Stacked};
use jz_place::{Ir, Node, Passed};
use jz_words::Size;
use std::alloc::{AllocError, Global};
use std::test::Fail;
use x64_insn::{Place, Reg};

const ONE_WORD: [Stacked; 1] = [Stacked {
    size: Size::S64,
    count: 1,
}];

const TOO_MANY: [Stacked; 2] = [
    Stacked {
        size: Size::S64,
        count: 8192,
    },
    Stacked {
        size: Size::S8,
        count: 1,
    },
];

fn mov_five() -> Operation
    ensures { result ≡ of.mov_five }
{
    Operation {
        span: Span { line: 2, col: 3 },
        action: Action::Mov(Size::S64, Arg::Var(0), Arg::Imm(5)),
        flags: Flags {
            of: None,
            cf: None,
            sf: None,
            pf: None,
            zf: None,
        },
    }
}

fn in_rax() -> Passed
    ensures { result ≡ of.in_rax }
{
    Passed {
        variable: Pinned {
            variable: 0,
            span: Span { line: 3, col: 10 },
        },
        reg: Reg::Rax,
    }
}

/// x = 5; return x;
fn five(alloc: Global) -> Result<Ir, AllocError>
    ensures { IfOk result IsReady }
{
    let mut body = Seq::new(alloc);
    body.push(Node::Do(mov_five()))?;
    let mut results = Seq::new(alloc);
    results.push(in_rax())?;
    let mut kinds = Seq::new(alloc);
    kinds.push(Kind::Word)?;
    let in_use = Seq::from_slice(alloc, &[Place::Reg(Reg::Rcx), Place::Reg(Reg::Rax)])?;
    Ok(Ir {
        entry: Seq::new(alloc),
        body,
        results,
        kinds,
        in_use,
    })
}

fn coded(alloc: Global, variables: &[Stacked]) -> Result<MachineCode, Failure<NoCode>> {
    let ir = five(alloc)?;
    machine_code(alloc, &ir, variables)
}

/// mov rax, 5; ret
#[test]
fn a_word_is_given_back(rt: HostRuntime) -> Result<(), Fail> {
    let Ok(made) = coded(rt.alloc(), &[]) else {
        panic!(rt; "no code");
    };
    assert!(rt; made.bytes.as_slice() == b"\x48\xc7\xc0\x05\x00\x00\x00\xc3".as_slice());
    assert_eq!(rt; made.insns, 2);
    assert_eq!(rt; made.frame, 0);
    assert!(rt; made.saved.is_empty());
    assert!(rt; made.transformer.before.is_empty());
    assert_eq!(rt; made.transformer.body.cases.len(), 1);
    assert_eq!(rt; made.transformer.after.len(), 1);
    assert!(rt;
        matches!(
            made.transformer.after.as_slice()[0],
            Out::Addr(Form::Frame(0))
        )
    );
    Ok(())
}

/// sub rsp, 8; mov rax, 5; add rsp, 8; ret
#[test]
fn a_stack_variable_has_a_frame(rt: HostRuntime) -> Result<(), Fail> {
    let Ok(made) = coded(rt.alloc(), &ONE_WORD) else {
        panic!(rt; "no code");
    };
    let wanted = b"\x48\x83\xec\x08\x48\xc7\xc0\x05\x00\x00\x00\x48\x83\xc4\x08\xc3";
    assert!(rt; made.bytes.as_slice() == wanted.as_slice());
    assert_eq!(rt; made.insns, 4);
    assert_eq!(rt; made.frame, 8);
    Ok(())
}

#[test]
fn a_frame_has_a_limit(rt: HostRuntime) -> Result<(), Fail> {
    match coded(rt.alloc(), &TOO_MANY) {
        Err(Failure::Refused(NoCode::Frame)) => Ok(()),
        _ => panic!(rt; "the frame is not refused"),
    }
}
