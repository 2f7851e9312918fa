//! The lines of a listing.

ghost use Rattle.std.specs.Prelude.{◌≡◌, ◌++◌, ℕ, List, map, IfOk, OnOk, codes};
ghost use Rattle.std.specs.List.{concat};
ghost use Rattle.jz_listing.specs.Listing.{size_text, arg_text, arg_line, ret_line, pre_text, pre_line, saved_text, kind_text, ct_text, extent_text, saved_reg_text, interface_text, frame_text, code_text, leakage_text, compiled_text, listing_text};

use super::compiled::{Arg, Compiled, Pre};
use super::transformers::write_transformer;
use jz_io::{Bytes, Ct, CtKind};
use jz_leak::{Seq, Text};
use jz_text::{reg_name, write_digits, write_number, write_span};
use std::alloc::{AllocError, Global};
use x64_insn::{Reg, Size};

fn size_name(size: Size) -> &'static str
    ensures { result.now ≡ size_text size }
{
    match size {
        Size::S8 => "u8",
        Size::S16 => "u16",
        Size::S32 => "u32",
        Size::S64 => "u64",
    }
}

fn kind_name(kind: CtKind) -> &'static str
    ensures { result.now ≡ kind_text kind }
{
    match kind {
        CtKind::Branch => "Branch",
        CtKind::Address => "Address",
        CtKind::Divide => "Divide",
    }
}

fn write_arg(text: &mut Vec<u8>, arg: &Arg) -> Result<(), AllocError>
    ensures { OnOk result (text.new.items ≡ text.old.items ++ arg_text arg.now) }
{
    text.extend_from_slice(arg.name.as_str().as_bytes())?;
    text.extend_from_slice(b" ")?;
    text.extend_from_slice(size_name(arg.size).as_bytes())?;
    text.extend_from_slice(b" ")?;
    text.extend_from_slice(reg_name(arg.reg).as_bytes())?;
    text.extend_from_slice(b"\n")
}

fn write_arg_line(text: &mut Vec<u8>, arg: &Arg) -> Result<(), AllocError>
    ensures { OnOk result (text.new.items ≡ text.old.items ++ arg_line arg.now) }
{
    text.extend_from_slice(b"arg ")?;
    write_arg(text, arg)
}

fn write_ret_line(text: &mut Vec<u8>, arg: &Arg) -> Result<(), AllocError>
    ensures { OnOk result (text.new.items ≡ text.old.items ++ ret_line arg.now) }
{
    text.extend_from_slice(b"ret ")?;
    write_arg(text, arg)
}

fn write_args(text: &mut Vec<u8>, args: &Seq<Arg>) -> Result<(), AllocError>
    ensures { OnOk result (text.new.items ≡ text.old.items ++ concat (map arg_line args.now)) }
{
    for arg in args.as_slice() {
        write_arg_line(text, arg)?;
    }
    Ok(())
}

/// What a listing says of constant time, without the line's first word and its line feed.
pub fn write_ct(text: &mut Vec<u8>, ct: &Ct) -> Result<(), AllocError>
    ensures { OnOk result (text.new.items ≡ text.old.items ++ ct_text ct.now) }
{
    match ct {
        Ct::Yes => text.extend_from_slice(b"yes"),
        Ct::No { span, kind, var } => {
            text.extend_from_slice(b"no ")?;
            write_span(text, *span)?;
            text.extend_from_slice(b" ")?;
            text.extend_from_slice(kind_name(*kind).as_bytes())?;
            text.extend_from_slice(b" ")?;
            text.extend_from_slice(var.as_str().as_bytes())
        }
    }
}

fn write_rets(text: &mut Vec<u8>, rets: &Seq<Arg>) -> Result<(), AllocError>
    ensures { OnOk result (text.new.items ≡ text.old.items ++ concat (map ret_line rets.now)) }
{
    for ret in rets.as_slice() {
        write_ret_line(text, ret)?;
    }
    Ok(())
}

fn write_extent(
    text: &mut Vec<u8>,
    factor: u64,
    variable: &Option<Text>,
    constant: u64,
) -> Result<(), AllocError>
    ensures { OnOk result (text.new.items ≡ text.old.items
        ++ extent_text factor variable.now constant) }
{
    if let Some(variable) = variable {
        write_number(text, factor)?;
        text.extend_from_slice(b"*")?;
        text.extend_from_slice(variable.as_str().as_bytes())?;
        text.extend_from_slice(b"+")?;
    }
    write_number(text, constant)
}

fn write_pre(text: &mut Vec<u8>, pre: &Pre) -> Result<(), AllocError>
    ensures { OnOk result (text.new.items ≡ text.old.items ++ pre_text pre.now) }
{
    match pre {
        Pre::Region {
            pointer,
            factor,
            variable,
            constant,
        } => {
            text.extend_from_slice(b"region ")?;
            text.extend_from_slice(pointer.as_str().as_bytes())?;
            text.extend_from_slice(b" ")?;
            write_extent(text, *factor, variable, *constant)
        }
        Pre::Range { name, low, high } => {
            text.extend_from_slice(b"range ")?;
            text.extend_from_slice(name.as_str().as_bytes())?;
            text.extend_from_slice(b" ")?;
            write_number(text, *low)?;
            text.extend_from_slice(b"..")?;
            write_number(text, *high)
        }
        Pre::Align { pointer, multiple } => {
            text.extend_from_slice(b"align ")?;
            text.extend_from_slice(pointer.as_str().as_bytes())?;
            text.extend_from_slice(b" ")?;
            write_number(text, *multiple)
        }
    }
}

fn write_pre_line(text: &mut Vec<u8>, pre: &Pre) -> Result<(), AllocError>
    ensures { OnOk result (text.new.items ≡ text.old.items ++ pre_line pre.now) }
{
    text.extend_from_slice(b"pre ")?;
    write_pre(text, pre)?;
    text.extend_from_slice(b"\n")
}

fn write_preconditions(text: &mut Vec<u8>, pre: &Seq<Pre>) -> Result<(), AllocError>
    ensures { OnOk result (text.new.items ≡ text.old.items ++ concat (map pre_line pre.now)) }
{
    for one in pre.as_slice() {
        write_pre_line(text, one)?;
    }
    Ok(())
}

fn write_saved_reg(text: &mut Vec<u8>, reg: Reg) -> Result<(), AllocError>
    ensures { OnOk result (text.new.items ≡ text.old.items ++ saved_reg_text reg) }
{
    text.extend_from_slice(b" ")?;
    text.extend_from_slice(reg_name(reg).as_bytes())
}

fn write_saved(text: &mut Vec<u8>, saved: &Seq<Reg>) -> Result<(), AllocError>
    ensures { OnOk result (text.new.items ≡ text.old.items ++ saved_text saved.now) }
{
    if saved.is_empty() {
        return text.extend_from_slice(b" -");
    }
    for reg in saved.as_slice() {
        write_saved_reg(text, *reg)?;
    }
    Ok(())
}

fn write_interface(text: &mut Vec<u8>, fun: &Compiled) -> Result<(), AllocError>
    ensures { OnOk result (text.new.items ≡ text.old.items ++ interface_text fun.now) }
{
    text.extend_from_slice(b"fn ")?;
    text.extend_from_slice(fun.name.as_str().as_bytes())?;
    text.extend_from_slice(b"\n")?;
    write_args(text, &fun.args)?;
    write_rets(text, &fun.rets)?;
    write_preconditions(text, &fun.pre)
}

fn write_frame(text: &mut Vec<u8>, fun: &Compiled) -> Result<(), AllocError>
    ensures { OnOk result (text.new.items ≡ text.old.items ++ frame_text fun.now) }
{
    text.extend_from_slice(b"frame ")?;
    write_number(text, fun.frame)?;
    text.extend_from_slice(b"\nsaved")?;
    write_saved(text, &fun.saved)?;
    text.extend_from_slice(b"\n")
}

fn write_code(alloc: Global, text: &mut Vec<u8>, fun: &Compiled) -> Result<(), AllocError>
    ensures { OnOk result (text.new.items ≡ text.old.items ++ code_text fun.now) }
{
    text.extend_from_slice(b"insns ")?;
    write_number(text, fun.insns)?;
    text.extend_from_slice(b"\ncode ")?;
    write_digits(alloc, text, fun.code.as_slice())?;
    text.extend_from_slice(b"\n")
}

fn write_leakage(text: &mut Vec<u8>, fun: &Compiled) -> Result<(), AllocError>
    ensures { OnOk result (text.new.items ≡ text.old.items ++ leakage_text fun.now) }
{
    text.extend_from_slice(b"tr ")?;
    write_transformer(text, &fun.tr)?;
    text.extend_from_slice(b"\nct ")?;
    write_ct(text, &fun.ct)?;
    text.extend_from_slice(b"\nend\n")
}

fn write_function(alloc: Global, text: &mut Vec<u8>, fun: &Compiled) -> Result<(), AllocError>
    ensures { OnOk result (text.new.items ≡ text.old.items ++ compiled_text fun.now) }
{
    write_interface(text, fun)?;
    write_frame(text, fun)?;
    write_code(alloc, text, fun)?;
    write_leakage(text, fun)
}

/// The listing of functions, in order.
pub fn listing(alloc: Global, funs: &[Compiled]) -> Result<Bytes, AllocError>
    ensures { IfOk result (λ text. text ≡ listing_text funs.now) }
{
    let mut text = Vec::from_slice(alloc, b"jasmin-listing 1\n")?;
    for fun in funs {
        write_function(alloc, &mut text, fun)?;
    }
    Ok(Bytes::from_vec(text))
}
