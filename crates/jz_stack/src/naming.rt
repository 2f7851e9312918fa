//! The preserved registers that occur in a body.

ghost use Rattle.std.specs.Prelude.{◌≡◌, ◌≤◌, IfOk, length};
ghost use Rattle.std.specs.List.{list_any, filter};
ghost use Rattle.jz_runs.specs.Trees.{done};
ghost use Rattle.jz_place.specs.Codes.{test_in, then_code, code_in};
ghost use Rattle.jz_stack.specs.Frames.{base_names, index_names, mem_names, operand_names, names};
ghost use Rattle.jz_stack.specs.Frames.{is_reg, saved_of};
ghost use Rattle.jz_stack.specs.Framed.{test_insns, insns_in};

use jz_data::Seq;
use jz_place::{PlacedNode, PlacedTest};
use std::alloc::{AllocError, Global};
use x64_insn::table::number_of;
use x64_insn::{Base, Insn, Mem, Operand, Reg};

/// The registers besides the stack pointer that belong to the caller (System V AMD64 ABI, 3.2.1).
const PRESERVED: [Reg; 6] = [Reg::Rbx, Reg::Rbp, Reg::R12, Reg::R13, Reg::R14, Reg::R15];

fn is_reg(one: Reg, other: Reg) -> bool
    ensures { result ≡ is_reg one other }
{
    number_of(one) == number_of(other)
}

fn base_names(base: Base, reg: Reg) -> bool
    ensures { result ≡ base_names base reg }
{
    match base {
        Base::Absent => false,
        Base::Reg(named) => is_reg(named, reg),
        Base::Rip => false,
    }
}

fn index_names(index: Option<(Reg, u8)>, reg: Reg) -> bool
    ensures { result ≡ index_names index reg }
{
    match index {
        None => false,
        Some((named, _)) => is_reg(named, reg),
    }
}

fn mem_names(mem: Mem, reg: Reg) -> bool
    ensures { result ≡ mem_names mem reg }
{
    base_names(mem.base, reg) || index_names(mem.index, reg)
}

fn operand_names(operand: Operand, reg: Reg) -> bool
    ensures { result ≡ operand_names operand reg }
{
    match operand {
        Operand::Reg(named) => is_reg(named, reg),
        Operand::Imm(_) => false,
        Operand::Mem(mem) => mem_names(mem, reg),
    }
}

fn names(insn: Insn, reg: Reg) -> bool
    ensures { result ≡ names insn reg }
{
    match insn {
        Insn::Alu(_, _, to, from) => operand_names(to, reg) || operand_names(from, reg),
        Insn::Mov(_, to, from) => operand_names(to, reg) || operand_names(from, reg),
        Insn::Extend { reg: to, rm, .. } => is_reg(to, reg) || operand_names(rm, reg),
        Insn::Lea(to, mem) => is_reg(to, reg) || mem_names(mem, reg),
        Insn::One(_, _, rm) => operand_names(rm, reg),
        Insn::Wide(_, _, rm) => operand_names(rm, reg),
        Insn::Imul(_, to, rm) => is_reg(to, reg) || operand_names(rm, reg),
        Insn::ImulBy(_, to, rm, _) => is_reg(to, reg) || operand_names(rm, reg),
        Insn::Shift(_, _, rm, _) => operand_names(rm, reg),
        Insn::Bswap(_, to) => is_reg(to, reg),
        Insn::Cdq => false,
        Insn::Cqo => false,
        Insn::Set(_, rm) => operand_names(rm, reg),
        Insn::Cmov(_, _, to, rm) => is_reg(to, reg) || operand_names(rm, reg),
        Insn::Jcc(_, _, _) => false,
        Insn::Jmp(_, _) => false,
        Insn::Call(_) => false,
        Insn::Ret => false,
    }
}

fn test_names(test: PlacedTest, reg: Reg) -> bool
    ensures { result ≡ list_any (λ insn. names insn reg) (test_insns (test_in test)) }
{
    match test {
        PlacedTest::Always => false,
        PlacedTest::If(None, _) => false,
        PlacedTest::If(Some(insn), _) => names(insn, reg),
    }
}

#[cycle(named)]
fn block_names(nodes: &Seq<PlacedNode>, reg: Reg) -> bool
    ensures { result ≡ list_any (λ insn. names insn reg) (insns_in (code_in nodes.now)) }
{
    for node in nodes.as_slice() {
        if node_names(node, reg) {
            return true;
        }
    }
    false
}

#[cycle(named)]
fn node_names(node: &PlacedNode, reg: Reg) -> bool
    ensures { result ≡ list_any (λ insn. names insn reg) (insns_in (then_code node.now done)) }
{
    match node {
        PlacedNode::Do(insn) => names(*insn, reg),
        PlacedNode::If(test, yes, no) => {
            test_names(*test, reg) || block_names(yes, reg) || block_names(no, reg)
        }
        PlacedNode::While(_, prologue, test, inner) => {
            block_names(prologue, reg) || test_names(*test, reg) || block_names(inner, reg)
        }
    }
}

/// Those of some registers that a body names.
fn named_among(
    alloc: Global,
    registers: &[Reg],
    nodes: &Seq<PlacedNode>,
) -> Result<Seq<Reg>, AllocError>
    ensures { IfOk result (λ found. found ≡ filter
        (λ reg. list_any (λ insn. names insn reg) (insns_in (code_in nodes.now)))
        registers.now) }
{
    let mut found = Seq::new(alloc);
    for reg in registers {
        if block_names(nodes, *reg) {
            found.push(*reg)?;
        }
    }
    Ok(found)
}

/// The preserved registers that a body names, in their order.
pub fn saved(alloc: Global, nodes: &Seq<PlacedNode>) -> Result<Seq<Reg>, AllocError>
    ensures is { IfOk result (λ found. found ≡ saved_of (insns_in (code_in nodes.now))) }
    ensures few { IfOk result (λ found. length found ≤ 6) }
{
    let found = named_among(alloc, &PRESERVED, nodes)?;
    Ok(found)
}
