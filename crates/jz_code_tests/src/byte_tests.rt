//! The bytes of a loop, worked by hand.

ghost use Rattle.std.specs.Prelude.{◌≡◌, ◌∷◌, [], IfOk};
ghost use Rattle.jz_place.specs.Codes.{code_in};
ghost use Rattle.jz_code_tests.specs.Loops as of;
ghost use Rattle.jz_code_tests.specs.Loops.{small_loop};

use jz_data::Seq;
use jz_linear::linearize;
use jz_place::{PlacedNode, PlacedTest};
use jz_words::Size;
use std::alloc::{AllocError, Global};
use std::test::Fail;
use x64_assemble::assemble;
use x64_insn::{Alu, Cond, Insn, Operand, Reg};

fn add_one(reg: Reg) -> Insn
    ensures { result ≡ of.add_one reg }
{
    Insn::Alu(Alu::Add, Size::S64, Operand::Reg(reg), Operand::Imm(1))
}

fn compare() -> Insn
    ensures { result ≡ of.compare }
{
    Insn::Alu(
        Alu::Cmp,
        Size::S64,
        Operand::Reg(Reg::Rdi),
        Operand::Reg(Reg::Rsi),
    )
}

fn block(alloc: Global, node: PlacedNode) -> Result<Seq<PlacedNode>, AllocError>
    ensures { IfOk result (λ nodes. nodes ≡ node ∷ []) }
{
    let mut nodes = Seq::new(alloc);
    nodes.push(node)?;
    Ok(nodes)
}

/// while { rax += 1; } (rdi < rsi) { rdi += 1; }
fn loop_nodes(alloc: Global) -> Result<Seq<PlacedNode>, AllocError>
    ensures { IfOk result (λ nodes. code_in nodes ≡ small_loop) }
{
    let test = PlacedTest::If(Some(compare()), Cond::B);
    let prologue = block(alloc, PlacedNode::Do(add_one(Reg::Rax)))?;
    let inner = block(alloc, PlacedNode::Do(add_one(Reg::Rdi)))?;
    let nodes = block(alloc, PlacedNode::While(false, prologue, test, inner))?;
    Ok(nodes)
}

fn bytes_of(alloc: Global, nodes: &Seq<PlacedNode>) -> Result<Seq<u8>, AllocError>
    requires { code_in nodes.now ≡ small_loop }
{
    let code = linearize(alloc, nodes)?;
    let bytes = assemble(alloc, &code)?;
    Ok(bytes)
}

/// add rax, 1; cmp rdi, rsi; jae over 9 bytes; add rdi, 1; jmp back over 22; ret
#[test]
fn a_loop_becomes_its_bytes(rt: HostRuntime) -> Result<(), Fail> {
    let alloc = rt.alloc();
    let nodes = loop_nodes(alloc)?;
    let bytes = bytes_of(alloc, &nodes)?;
    let wanted =
        b"\x48\x83\xc0\x01\x48\x39\xf7\x0f\x83\x09\x00\x00\x00\x48\x83\xc7\x01\xe9\xea\xff\xff\xff\xc3";
    assert!(rt; bytes.as_slice() == wanted.as_slice());
    Ok(())
}
