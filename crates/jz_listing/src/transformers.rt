//! The text of a transformer.

ghost use Rattle.std.specs.Prelude.{◌≡◌, ◌++◌, ℕ, List, map, OnOk, codes};
ghost use Rattle.jz_listing.specs.Transformers.{arm_text, call_text, case_text, for_text, form_text, if_head_text, op_text, out_text, outs_text, separator, spaced_outs_text, tr_text, transformer_text, while_head_text};

use jz_leak::{Case, Form, Out, Seq, Tr, Transformer};
use jz_text::{write_number, write_signed};
use std::alloc::AllocError;

fn write_form(text: &mut Vec<u8>, form: Form) -> Result<(), AllocError>
    ensures { OnOk result (text.new.items ≡ text.old.items ++ form_text form) }
{
    match form {
        Form::Num(n) => write_number(text, n),
        Form::Leaked(i) => {
            text.extend_from_slice(b"$")?;
            write_number(text, i)
        }
        Form::Frame(offset) => {
            text.extend_from_slice(b"@")?;
            write_signed(text, offset)
        }
        Form::Indexed(offset, factor, i) => {
            text.extend_from_slice(b"@")?;
            write_signed(text, offset)?;
            text.extend_from_slice(b"+")?;
            write_number(text, factor)?;
            text.extend_from_slice(b"*$")?;
            write_number(text, i)
        }
    }
}

fn write_out(text: &mut Vec<u8>, out: Out) -> Result<(), AllocError>
    ensures { OnOk result (text.new.items ≡ text.old.items ++ out_text out) }
{
    match out {
        Out::Branch(true) => text.extend_from_slice(b"b1"),
        Out::Branch(false) => text.extend_from_slice(b"b0"),
        Out::Addr(address) => {
            text.extend_from_slice(b"a:")?;
            write_form(text, address)
        }
        Out::Div(high, low, divisor) => {
            text.extend_from_slice(b"d:")?;
            write_form(text, high)?;
            text.extend_from_slice(b":")?;
            write_form(text, low)?;
            text.extend_from_slice(b":")?;
            write_form(text, divisor)
        }
    }
}

/// A space before each piece but the first.
fn write_separator(text: &mut Vec<u8>, i: usize) -> Result<(), AllocError>
    ensures { OnOk result (text.new.items ≡ text.old.items ++ separator i) }
{
    if i > 0 {
        text.extend_from_slice(b" ")?;
    }
    Ok(())
}

#[tactic(auto, unfolding(crate::specs::Transformers::outs_text))]
fn write_outs(text: &mut Vec<u8>, outs: &Seq<Out>) -> Result<(), AllocError>
    ensures { OnOk result (text.new.items ≡ text.old.items ++ outs_text outs.now) }
{
    text.extend_from_slice(b"[")?;
    for (i, out) in outs.as_slice().iter().enumerate() {
        write_separator(text, i)?;
        write_out(text, *out)?;
    }
    text.extend_from_slice(b"]")
}

fn write_spaced_outs(text: &mut Vec<u8>, outs: &Seq<Out>) -> Result<(), AllocError>
    ensures { OnOk result (text.new.items ≡ text.old.items ++ spaced_outs_text outs.now) }
{
    text.extend_from_slice(b" ")?;
    write_outs(text, outs)
}

#[cycle(write)]
fn write_case(text: &mut Vec<u8>, case: &Case) -> Result<(), AllocError>
    ensures { OnOk result (text.new.items ≡ text.old.items ++ case_text case.now) }
{
    match case {
        Case::Op(outs) => write_op(text, outs),
        Case::If {
            test,
            then_outs,
            then_tr,
            else_outs,
            else_tr,
        } => {
            write_if_head(text, test)?;
            write_arm(text, then_outs, then_tr)?;
            write_arm(text, else_outs, else_tr)?;
            text.extend_from_slice(b")")
        }
        Case::While {
            prologue,
            test,
            more_outs,
            body,
            leave_outs,
        } => {
            write_while_head(text, prologue, test)?;
            write_arm(text, more_outs, body)?;
            write_spaced_outs(text, leave_outs)?;
            text.extend_from_slice(b")")
        }
        Case::For(trs) => write_for(text, trs),
        Case::Call {
            arguments,
            body,
            results,
        } => write_call(text, arguments, body, results),
    }
}

fn write_op(text: &mut Vec<u8>, outs: &Seq<Out>) -> Result<(), AllocError>
    ensures { OnOk result (text.new.items ≡ text.old.items ++ op_text outs.now) }
{
    text.extend_from_slice(b"op")?;
    write_outs(text, outs)
}

/// An `if` up to its arms.
fn write_if_head(text: &mut Vec<u8>, test: &Seq<Out>) -> Result<(), AllocError>
    ensures { OnOk result (text.new.items ≡ text.old.items ++ if_head_text test.now) }
{
    text.extend_from_slice(b"if(")?;
    write_outs(text, test)
}

/// A `while` up to what its answers show.
#[cycle(write)]
fn write_while_head(text: &mut Vec<u8>, prologue: &Tr, test: &Seq<Out>) -> Result<(), AllocError>
    ensures { OnOk result (text.new.items ≡ text.old.items
        ++ while_head_text (tr_text prologue.now) test.now) }
{
    text.extend_from_slice(b"while(")?;
    write_tr(text, prologue)?;
    write_spaced_outs(text, test)
}

#[cycle(write)]
fn write_for(text: &mut Vec<u8>, trs: &Seq<Tr>) -> Result<(), AllocError>
    ensures { OnOk result (text.new.items ≡ text.old.items ++ for_text (map tr_text trs.now)) }
{
    text.extend_from_slice(b"for(")?;
    for (i, tr) in trs.as_slice().iter().enumerate() {
        write_separator(text, i)?;
        write_tr(text, tr)?;
    }
    text.extend_from_slice(b")")
}

#[cycle(write)]
fn write_call(
    text: &mut Vec<u8>,
    arguments: &Seq<Out>,
    body: &Tr,
    results: &Seq<Out>,
) -> Result<(), AllocError>
    ensures { OnOk result (text.new.items ≡ text.old.items
        ++ call_text arguments.now (tr_text body.now) results.now) }
{
    text.extend_from_slice(b"call(")?;
    write_outs(text, arguments)?;
    text.extend_from_slice(b" ")?;
    write_tr(text, body)?;
    write_spaced_outs(text, results)?;
    text.extend_from_slice(b")")
}

/// A list of events and a tree, with a space before each.
#[cycle(write)]
fn write_arm(text: &mut Vec<u8>, outs: &Seq<Out>, tr: &Tr) -> Result<(), AllocError>
    ensures { OnOk result (text.new.items ≡ text.old.items ++ arm_text outs.now (tr_text tr.now)) }
{
    write_spaced_outs(text, outs)?;
    text.extend_from_slice(b" ")?;
    write_tr(text, tr)
}

#[cycle(write)]
fn write_tr(text: &mut Vec<u8>, tr: &Tr) -> Result<(), AllocError>
    ensures { OnOk result (text.new.items ≡ text.old.items ++ tr_text tr.now) }
{
    text.extend_from_slice(b"{")?;
    for (i, case) in tr.cases.as_slice().iter().enumerate() {
        write_separator(text, i)?;
        write_case(text, case)?;
    }
    text.extend_from_slice(b"}")
}

/// The transformer of a function: its three parts.
pub fn write_transformer(text: &mut Vec<u8>, tr: &Transformer) -> Result<(), AllocError>
    ensures { OnOk result (text.new.items ≡ text.old.items ++ transformer_text tr.now) }
{
    write_outs(text, &tr.before)?;
    text.extend_from_slice(b" ")?;
    write_tr(text, &tr.body)?;
    text.extend_from_slice(b" ")?;
    write_outs(text, &tr.after)
}
