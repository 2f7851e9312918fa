//! The machine code of a function over variables, in its frame.

ghost use Rattle.std.specs.Prelude.{◌≡◌, ◌≤◌, ◌<◌, ◌^◌, ◌∷◌, [], length, IfOk, IfErr};
ghost use Rattle.jz_data.specs.Failures.{IfRefused};
ghost use Rattle.jz_ir.specs.Places.{IsPlacing, IsWithin};
ghost use Rattle.jz_place.specs.Bodies.{seen_code, LiveInWhole};
ghost use Rattle.jz_place.specs.Codes.{code_in};
ghost use Rattle.jz_correct.specs.Frames.{rounded_up};
ghost use Rattle.jz_linear.specs.Plain.{IsPlainCode};
ghost use Rattle.jz_linear.specs.Lines.{labels_in, linear_of};
ghost use Rattle.jz_linear.specs.LineRuns.{instructions_in};
ghost use Rattle.x64_assemble.specs.Assembling.{total, insns_of_lines, bytes_of_lines};
ghost use Rattle.jz_stack.specs.Laying.{offsets_from, end_from};
ghost use Rattle.jz_codable.specs.Ready.{IsReady};
ghost use Rattle.jz_code.specs.Made.{AreFirst, IsCodeOf, HasNoCode, IsTooLarge, IsUnplaced};

use jz_alloc::{NoPlace, Places};
use jz_data::{Failure, Seq};
use jz_events::{FrameShape, transformer};
use jz_leak::Transformer;
use jz_linear::{Line, linearize};
use jz_operations::Stacked;
use jz_place::{Ir, PlacedNode, place, places_of};
use jz_stack::{Layout, lay_out, with_frame};
use std::alloc::{AllocError, Global};
use x64_assemble::assemble;
use x64_insn::{Place, Reg};

/// The bytes of a function, how many instructions they are, the size of its frame, the preserved
/// registers that are saved in it, and what its leaks become.
#[derive(Drop)]
pub struct MachineCode {
    pub bytes: Seq<u8>,
    pub insns: u64,
    pub frame: u32,
    pub saved: Seq<Reg>,
    pub transformer: Transformer,
}

/// Why a function has no machine code.
#[derive(Drop)]
pub enum NoCode {
    /// Its stack variables take more than 65,536 bytes.
    Frame,
    /// A variable is left without a place.
    Place(NoPlace),
}

/// The places of the stack variables.
fn laid_out(alloc: Global, variables: &[Stacked]) -> Result<Layout, Failure<NoCode>>
    ensures offsets { IfOk result (λ made. made.offsets ≡ offsets_from 0 variables.now) }
    ensures end { IfOk result (λ made. made.end ≡ end_from 0 variables.now) }
    ensures within { IfOk result (λ made. made.end ≤ 65536) }
    ensures limit { IfErr result (λ e. IfRefused e (IsTooLarge variables.now)) }
{
    match lay_out(alloc, variables) {
        Ok(layout) => Ok(layout),
        Err(Failure::Refused(_)) => Err(Failure::Refused(NoCode::Frame)),
        Err(Failure::OutOfMemory) => Err(Failure::OutOfMemory),
    }
}

/// The places of the variables.
fn placed(alloc: Global, ir: &Ir) -> Result<Places, Failure<NoCode>>
    requires within { IsWithin (seen_code ir.now) }
    requires count { length ir.now.kinds < 2 ^ 32 }
    ensures first { IfOk result (λ places. AreFirst ir.now places) }
    ensures rule { IfOk result
        (λ places. IsPlacing (seen_code ir.now) (LiveInWhole ir.now) places) }
    ensures evidence { IfErr result (λ e. IfRefused e (IsUnplaced ir.now)) }
{
    match places_of(alloc, ir) {
        Ok(places) => Ok(places),
        Err(Failure::Refused(refusal)) => Err(Failure::Refused(NoCode::Place(refusal))),
        Err(Failure::OutOfMemory) => Err(Failure::OutOfMemory),
    }
}

/// A label is no instruction.
fn weight(line: Line) -> u64
    ensures { result ≡ length (instructions_in (line ∷ [])) }
{
    match line {
        Line::Label(_) => 0,
        Line::Insn(_) => 1,
        Line::Jcc(_, _) => 1,
        Line::Jmp(_) => 1,
        Line::Call(_) => 1,
    }
}

/// How many of the lines are instructions.
fn instructions(lines: &[Line]) -> u64
    requires { length lines.now < 2 ^ 64 }
    ensures { result ≡ length (instructions_in lines.now) }
{
    let mut count: u64 = 0;
    for line in lines {
        count += weight(*line);
    }
    count
}

/// Bytes, and how many instructions they are.
#[derive(Drop)]
struct Encoded {
    bytes: Seq<u8>,
    insns: u64,
}

fn encode_body(alloc: Global, nodes: &Seq<PlacedNode>) -> Result<Encoded, AllocError>
    requires plain { IsPlainCode (code_in nodes.now) }
    requires few { labels_in (code_in nodes.now) < 2 ^ 32 }
    requires short { total (linear_of (code_in nodes.now)) < 2 ^ 31 }
    ensures bytes { IfOk result
        (λ made. made.bytes ≡ bytes_of_lines (linear_of (code_in nodes.now))) }
    ensures insns { IfOk result
        (λ made. made.insns ≡ length (insns_of_lines (linear_of (code_in nodes.now)))) }
{
    let code = linearize(alloc, nodes)?;
    let bytes = assemble(alloc, &code)?;
    let lines = code.lines.as_slice();
    let _count = lines.len();
    let insns = instructions(lines);
    Ok(Encoded { bytes, insns })
}

/// Where the slots of saved registers begin.
fn slots_at(end: u32) -> u32
    requires { end ≤ 65536 }
    ensures { result ≡ rounded_up 8 end }
{
    (end + 7) / 8 * 8
}

/// The code of a function whose variables have places.
fn finished(
    alloc: Global,
    ir: &Ir,
    variables: &[Stacked],
    layout: &Layout,
    places: &[Place],
) -> Result<MachineCode, AllocError>
    requires ready { IsReady ir.now }
    requires offsets { layout.now.offsets ≡ offsets_from 0 variables.now }
    requires end { layout.now.end ≡ end_from 0 variables.now }
    requires within { layout.now.end ≤ 65536 }
    requires first { AreFirst ir.now places.now }
    requires rule { IsPlacing (seen_code ir.now) (LiveInWhole ir.now) places.now }
    ensures { IfOk result (IsCodeOf ir.now variables.now) }
{
    let spots = jz_operations::Places {
        places,
        slots: layout.offsets.as_slice(),
    };
    let body = place(alloc, ir, &spots)?;
    let framed = with_frame(alloc, body, layout.end)?;
    let made = encode_body(alloc, &framed.body)?;
    let frame = FrameShape {
        slots: layout.offsets.as_slice(),
        first: slots_at(layout.end),
        saved: framed.saved.as_slice(),
        size: framed.size,
    };
    let transformer = transformer(alloc, &ir.body, &frame)?;
    Ok(MachineCode {
        bytes: made.bytes,
        insns: made.insns,
        frame: framed.size,
        saved: framed.saved,
        transformer,
    })
}

/// The machine code of a function over variables: stack variables and saved registers stand in its
/// frame, each variable has the first place that it can have, and jumps have displacements of 32
/// bits. The stack grows with the nesting of the body alone.
pub fn machine_code(
    alloc: Global,
    ir: &Ir,
    variables: &[Stacked],
) -> Result<MachineCode, Failure<NoCode>>
    requires { IsReady ir.now }
    ensures code { IfOk result (IsCodeOf ir.now variables.now) }
    ensures refused { IfErr result (λ e. IfRefused e (HasNoCode ir.now variables.now)) }
{
    let layout = laid_out(alloc, variables)?;
    let places = placed(alloc, ir)?;
    let code = finished(alloc, ir, variables, &layout, places.as_slice())?;
    Ok(code)
}
