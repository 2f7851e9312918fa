//! A body with its frame.

ghost use Rattle.std.specs.Prelude.{◌≡◌, ◌≢◌, ◌≤◌, ◌<◌, ◌+◌, ◌*◌, ◌^◌, ◌++◌, IfOk, OnOk, length};
ghost use Rattle.jz_place.specs.Codes.{code_in};
ghost use Rattle.jz_stack.specs.Frames.{rounded_up, saved_of, frame_end, frame_size};
ghost use Rattle.jz_stack.specs.Framed as framing;
ghost use Rattle.jz_stack.specs.Framed.{insns_in};
ghost use Rattle.jz_stack.specs.InnerFrames.{save_nodes, load_nodes};

use crate::naming::saved;
use jz_data::Seq;
use jz_place::PlacedNode;
use jz_words::Size;
use std::alloc::{AllocError, Global};
use x64_insn::{Alu, Base, Insn, Mem, Operand, Reg};

/// A body with its frame: the code, how many bytes the frame has, and the registers that are saved
/// in it.
#[derive(Drop)]
pub struct Framed {
    pub body: Seq<PlacedNode>,
    pub size: u32,
    pub saved: Seq<Reg>,
}

/// A place so far above the stack pointer.
fn slot(offset: u32) -> Mem
    requires { offset < 2 ^ 31 }
    ensures { result ≡ framing.slot_of offset }
{
    Mem {
        base: Base::Reg(Reg::Rsp),
        index: None,
        disp: offset as i32,
    }
}

fn save(reg: Reg, offset: u32) -> Insn
    requires { offset < 2 ^ 31 }
    ensures { result ≡ framing.save reg offset }
{
    Insn::Mov(Size::S64, Operand::Mem(slot(offset)), Operand::Reg(reg))
}

fn load(reg: Reg, offset: u32) -> Insn
    requires { offset < 2 ^ 31 }
    ensures { result ≡ framing.load reg offset }
{
    Insn::Mov(Size::S64, Operand::Reg(reg), Operand::Mem(slot(offset)))
}

/// The stack pointer goes down, or up again, by so many bytes.
fn down(size: u32) -> Insn
    ensures { result ≡ framing.down size }
{
    let bytes = Operand::Imm(i64::from(size));
    Insn::Alu(Alu::Sub, Size::S64, Operand::Reg(Reg::Rsp), bytes)
}

fn up(size: u32) -> Insn
    ensures { result ≡ framing.up size }
{
    let bytes = Operand::Imm(i64::from(size));
    Insn::Alu(Alu::Add, Size::S64, Operand::Reg(Reg::Rsp), bytes)
}

fn push_saves(nodes: &mut Seq<PlacedNode>, first: u32, saved: &[Reg]) -> Result<(), AllocError>
    requires { first + 8 * length saved.now < 2 ^ 31 }
    ensures { OnOk result (nodes.new ≡ nodes.old ++ save_nodes first saved.now) }
{
    let mut offset = first;
    for reg in saved {
        nodes.push(PlacedNode::Do(save(*reg, offset)))?;
        offset += 8;
    }
    Ok(())
}

fn push_loads(nodes: &mut Seq<PlacedNode>, first: u32, saved: &[Reg]) -> Result<(), AllocError>
    requires { first + 8 * length saved.now < 2 ^ 31 }
    ensures { OnOk result (nodes.new ≡ nodes.old ++ load_nodes first saved.now) }
{
    let mut offset = first;
    for reg in saved {
        nodes.push(PlacedNode::Do(load(*reg, offset)))?;
        offset += 8;
    }
    Ok(())
}

/// Where the slots of saved registers begin.
fn slots_at(end: u32) -> u32
    requires { end ≤ 65536 }
    ensures is { result ≡ rounded_up 8 end }
    ensures most { result ≤ 65536 }
{
    (end + 7) / 8 * 8
}

/// Where what stands in the frame ends.
fn frame_end(end: u32, saved: &[Reg]) -> u32
    requires end { end ≤ 65536 }
    requires few { length saved.now ≤ 6 }
    ensures is { result ≡ frame_end end saved.now }
    ensures most { result ≤ 65584 }
{
    if saved.is_empty() {
        end
    } else {
        slots_at(end) + 8 * saved.len() as u32
    }
}

/// How many bytes the frame has: none where nothing stands in it, else 8 more than a multiple of
/// 16.
fn frame_size(end: u32) -> u32
    requires { end ≤ 65584 }
    ensures { result ≡ frame_size end }
{
    if end == 0 {
        0
    } else {
        16 * ((end + 7) / 16) + 8
    }
}

/// A body whose stack variables end so far above the stack pointer, with its frame: the stack
/// pointer goes down, the preserved registers that the body names are saved above the variables,
/// and behind the body they are loaded again and the stack pointer goes up.
pub fn with_frame(alloc: Global, body: Seq<PlacedNode>, end: u32) -> Result<Framed, AllocError>
    requires { end ≤ 65536 }
    ensures saved { IfOk result (λ made. made.saved ≡ saved_of (insns_in (code_in body))) }
    ensures size { IfOk result (λ made. made.size ≡ frame_size (frame_end end made.saved)) }
    ensures code { IfOk result (λ made. code_in made.body
        ≡ framing.framed made.size (rounded_up 8 end) made.saved (code_in body)) }
    // The frame names no other preserved register than the body.
    ensures named { IfOk result
        (λ made. made.saved ≡ saved_of (insns_in (code_in made.body))) }
{
    let saved = saved(alloc, &body)?;
    let size = frame_size(frame_end(end, saved.as_slice()));
    if size == 0 {
        return Ok(Framed { body, size, saved });
    }
    let code = around(alloc, body, size, slots_at(end), saved.as_slice())?;
    Ok(Framed {
        body: code,
        size,
        saved,
    })
}

/// A body in a frame that is not empty.
fn around(
    alloc: Global,
    body: Seq<PlacedNode>,
    size: u32,
    at: u32,
    saved: &[Reg],
) -> Result<Seq<PlacedNode>, AllocError>
    requires size { size ≢ 0 }
    requires slots { at + 8 * length saved.now < 2 ^ 31 }
    ensures { IfOk result (λ made. code_in made
        ≡ framing.framed size at saved.now (code_in body)) }
{
    let room = body.len().saturating_add(2 * saved.len() + 2);
    let mut nodes = Seq::from_vec(Vec::with_capacity(alloc, room)?);
    nodes.push(PlacedNode::Do(down(size)))?;
    push_saves(&mut nodes, at, saved)?;
    nodes.append(body)?;
    push_loads(&mut nodes, at, saved)?;
    nodes.push(PlacedNode::Do(up(size)))?;
    Ok(nodes)
}
