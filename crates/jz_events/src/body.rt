//! The transformer of a body in its frame.

ghost use Rattle.std.specs.Prelude.{◌≡◌, ◌<◌, ◌+◌, ◌*◌, ◌^◌, pos, ◌-ℤ◌, [], ◌∷◌, ◌++◌};
ghost use Rattle.std.specs.Prelude.{length, IfOk, OnOk};
ghost use Rattle.jz_runs.specs.Trees.{done};
ghost use Rattle.jz_leak.specs.declared.transformer.Form.TheVariants as form;
ghost use Rattle.jz_leak.specs.declared.transformer.Out.TheVariants as out;
ghost use Rattle.jz_stack.specs.Framed.{slot_outs};
ghost use Rattle.jz_place.specs.Bodies.{asked_of, then_body, body_of};
ghost use Rattle.jz_events.specs.Cases as of;
ghost use Rattle.jz_events.specs.Cases.{cases_over, slots_of, transformer_in};

use crate::frame::FrameShape;
use jz_data::Seq;
use jz_leak::{Case, Form, Out, Tr, Transformer};
use jz_place::{Node, Test};
use std::alloc::{AllocError, Global};

/// The event of a jump that is taken or not.
fn jump_outs(alloc: Global, test: Test, taken: bool) -> Result<Seq<Out>, AllocError>
    ensures { IfOk result (λ outs. outs ≡ of.jump_outs (asked_of test) taken) }
{
    let mut outs = Seq::new(alloc);
    match test {
        Test::Always => Ok(outs),
        Test::If(_, _) => {
            outs.push(Out::Branch(taken))?;
            Ok(outs)
        }
    }
}

#[cycle(cases)]
fn block_cases(alloc: Global, frame: &FrameShape<'_>, nodes: &Seq<Node>) -> Result<Tr, AllocError>
    ensures { IfOk result (λ made. made
        ≡ record { cases = cases_over (slots_of frame.now) frame.now.size (body_of nodes.now) }) }
{
    let mut cases = Vec::with_capacity(alloc, nodes.len())?;
    for i in 0..nodes.len() {
        let case = node_case(alloc, frame, &nodes.as_slice()[i])?;
        cases.push(case)?;
    }
    Ok(Tr {
        cases: Seq::from_vec(cases),
    })
}

#[cycle(cases)]
fn node_case(alloc: Global, frame: &FrameShape<'_>, node: &Node) -> Result<Case, AllocError>
    ensures { IfOk result (λ case. case ∷ []
        ≡ cases_over (slots_of frame.now) frame.now.size (then_body node.now done)) }
{
    match node {
        Node::Do(operation) => {
            let outs = frame.operation_outs(alloc, operation.action)?;
            Ok(Case::Op(outs))
        }
        Node::If(test, yes, no) => {
            let case = if_case(alloc, frame, *test, yes, no)?;
            Ok(case)
        }
        Node::While(bare, prologue, test, inner) => {
            let case = while_case(alloc, frame, *bare, prologue, *test, inner)?;
            Ok(case)
        }
    }
}

/// The jump to the other part is taken where the test is false.
#[cycle(cases)]
fn if_case(
    alloc: Global,
    frame: &FrameShape<'_>,
    test: Test,
    yes: &Seq<Node>,
    no: &Seq<Node>,
) -> Result<Case, AllocError>
    ensures { IfOk result (λ case. case ≡ of.if_case (slots_of frame.now) frame.now.size
        (asked_of test) (cases_over (slots_of frame.now) frame.now.size (body_of yes.now))
        (cases_over (slots_of frame.now) frame.now.size (body_of no.now))) }
{
    let compare = frame.test_outs(alloc, test)?;
    let then_outs = jump_outs(alloc, test, false)?;
    let then_tr = block_cases(alloc, frame, yes)?;
    let else_outs = jump_outs(alloc, test, true)?;
    let else_tr = block_cases(alloc, frame, no)?;
    Ok(Case::If {
        test: compare,
        then_outs,
        then_tr,
        else_outs,
        else_tr,
    })
}

/// The jump out of a `while` is taken where the test is false, the jump back of one without a body
/// where it is true.
#[cycle(cases)]
fn while_case(
    alloc: Global,
    frame: &FrameShape<'_>,
    bare: bool,
    prologue: &Seq<Node>,
    test: Test,
    inner: &Seq<Node>,
) -> Result<Case, AllocError>
    ensures { IfOk result (λ case. case ≡ of.while_case (slots_of frame.now) frame.now.size
        bare (cases_over (slots_of frame.now) frame.now.size (body_of prologue.now))
        (asked_of test) (cases_over (slots_of frame.now) frame.now.size (body_of inner.now))) }
{
    let prologue = block_cases(alloc, frame, prologue)?;
    let compare = frame.test_outs(alloc, test)?;
    let more_outs = jump_outs(alloc, test, bare)?;
    let body = block_cases(alloc, frame, inner)?;
    let leave_outs = jump_outs(alloc, test, !bare)?;
    Ok(Case::While {
        prologue,
        test: compare,
        more_outs,
        body,
        leave_outs,
    })
}

/// An access so far above the stack pointer, counted from the stack pointer at entry.
fn slot_access(offset: u32, size: u32) -> Out
    ensures { result ≡ out.Addr (form.Frame (pos offset -ℤ pos size)) }
{
    Out::Addr(Form::Frame(i64::from(offset) - i64::from(size)))
}

/// The accesses to the slots of saved registers.
fn push_slots(outs: &mut Seq<Out>, frame: &FrameShape<'_>) -> Result<(), AllocError>
    requires { frame.now.first + 8 * length frame.now.saved.now < 2 ^ 31 }
    ensures { OnOk result (outs.new
        ≡ outs.old ++ slot_outs frame.now.size frame.now.first frame.now.saved.now) }
{
    for i in 0..frame.saved.len() {
        let offset = frame.first + 8 * i as u32;
        outs.push(slot_access(offset, frame.size))?;
    }
    Ok(())
}

/// What the leaks of a body become in its frame: the accesses that save registers; a case for each
/// item of a leak; the accesses that load the registers again, and that of the return.
pub fn transformer(
    alloc: Global,
    nodes: &Seq<Node>,
    frame: &FrameShape<'_>,
) -> Result<Transformer, AllocError>
    requires { frame.now.first + 8 * length frame.now.saved.now < 2 ^ 31 }
    ensures { IfOk result (λ made. made ≡ transformer_in frame.now (body_of nodes.now)) }
{
    let mut before = Seq::new(alloc);
    push_slots(&mut before, frame)?;
    let body = block_cases(alloc, frame, nodes)?;
    let mut after = Seq::new(alloc);
    push_slots(&mut after, frame)?;
    after.push(Out::Addr(Form::Frame(0)))?;
    Ok(Transformer {
        before,
        body,
        after,
    })
}
