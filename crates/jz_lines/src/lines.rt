//! The parameters and results of a function, each in its register.

ghost use Rattle.std.specs.Prelude.{◌≡◌, List, length, slice_get, IfOk, IfErr, OnOk};
ghost use Rattle.jz_data.specs.Failures.{IfRefused};
ghost use Rattle.jz_meaning.specs.Values.{declared_kind};
ghost use Rattle.jz_listing.specs.declared.compiled.Arg.{Arg as Line};
ghost use Rattle.jz_correct.specs.Registers.{argument_registers, result_registers};
ghost use Rattle.jz_compiled.specs.Lines.{AreArgumentLines, AreResultLines};
ghost use Rattle.jz_lines.specs.InnerLines.{word_size, result_word, AddsLine, HasNoLine};

use jz_listing::Arg;
use jz_meaning::{Kind, kind_of};
use jz_tree::{Decl, Failure, Param, Ret, Seq, Span, Text, Ty, Var};
use jz_words::Size;
use std::alloc::{AllocError, Global};
use x64_insn::Reg;

/// The registers of integer arguments, in their order (System V AMD64 ABI, 3.2.3).
const ARGUMENTS: [Reg; 6] = [Reg::Rdi, Reg::Rsi, Reg::Rdx, Reg::Rcx, Reg::R8, Reg::R9];

/// The registers of integer results, in their order (System V AMD64 ABI, 3.2.3).
const RESULTS: [Reg; 2] = [Reg::Rax, Reg::Rdx];

fn word_size(kind: Kind) -> Option<Size>
    ensures { result ≡ word_size kind }
{
    match kind {
        Kind::Undeclared => None,
        Kind::Int => None,
        Kind::Bool => None,
        Kind::Word(size) => Some(size),
        Kind::Array(_, _) => None,
    }
}

/// The size of a word that a declaration declares.
fn word_in(decl: &Decl) -> Option<Size>
    ensures { result ≡ word_size (declared_kind decl.now) }
{
    match &decl.ty {
        Ty::Int => None,
        Ty::Bool => None,
        Ty::Word(size) => Some(*size),
        Ty::Array(_, _) => None,
    }
}

fn line(name: &Text, size: Size, reg: Reg) -> Result<Arg, AllocError>
    ensures { IfOk result (λ line. line ≡ record { name = name.now; size = size; reg = reg }) }
{
    let name = name.clone()?;
    Ok(Arg { name, size, reg })
}

/// The line of a word in the next register. Refused at its place, where there is none or it is no
/// word.
fn next_line(
    regs: &[Reg],
    name: &Text,
    word: Option<Size>,
    at: Span,
    lines: &mut Seq<Arg>,
) -> Result<(), Failure<Span>>
    ensures added { OnOk result (AddsLine regs.now name.now word lines.old lines.new) }
    ensures refused { IfErr result
        (λ e. IfRefused e (λ _. HasNoLine regs.now word (length lines.old))) }
{
    match regs.get(lines.len()) {
        None => Err(Failure::Refused(at)),
        Some(reg) => match word {
            None => Err(Failure::Refused(at)),
            Some(size) => {
                let one = line(name, size, *reg)?;
                lines.push(one)?;
                Ok(())
            }
        },
    }
}

fn params_in(alloc: Global, regs: &[Reg], params: &Seq<Param>) -> Result<Seq<Arg>, Failure<Span>>
    ensures lines { IfOk result (AreArgumentLines regs.now params.now) }
    ensures refused { IfErr result (λ e. IfRefused e
        (λ _. (lines : List Line) → AreArgumentLines regs.now params.now lines → ⊥)) }
{
    let mut lines = Seq::new(alloc);
    for param in params.as_slice() {
        let word = word_size(kind_of(&param.var));
        next_line(regs, &param.var.name, word, param.var.span, &mut lines)?;
    }
    Ok(lines)
}

/// The lines of parameters. Refused only where they have none, at the place of one that is no word
/// or for which no register is left.
pub fn argument_lines(alloc: Global, params: &Seq<Param>) -> Result<Seq<Arg>, Failure<Span>>
    ensures lines { IfOk result (AreArgumentLines argument_registers params.now) }
    ensures refused { IfErr result (λ e. IfRefused e
        (λ _. (lines : List Line) → AreArgumentLines argument_registers params.now lines → ⊥)) }
{
    let lines = params_in(alloc, &ARGUMENTS, params)?;
    Ok(lines)
}

/// The word that the result at a place is declared to be, if there is one.
fn declared_word(rets: &[Ret], at: usize) -> Option<Size>
    ensures { result ≡ result_word (slice_get rets.now at) }
{
    match rets.get(at) {
        None => None,
        Some(ret) => word_in(&ret.decl),
    }
}

fn results_in(
    alloc: Global,
    regs: &[Reg],
    vars: &Seq<Var>,
    rets: &[Ret],
) -> Result<Seq<Arg>, Failure<Span>>
    requires { length vars.now ≡ length rets.now }
    ensures lines { IfOk result (AreResultLines regs.now vars.now rets.now) }
    ensures refused { IfErr result (λ e. IfRefused e
        (λ _. (lines : List Line) → AreResultLines regs.now vars.now rets.now lines → ⊥)) }
{
    let mut lines = Seq::new(alloc);
    for var in vars.as_slice() {
        let word = declared_word(rets, lines.len());
        next_line(regs, &var.name, word, var.span, &mut lines)?;
    }
    Ok(lines)
}

/// The lines of results: the variables that are returned, and what each is declared to be. Refused
/// only where they have none: at the place of one that is no word or for which no register is left,
/// or at that of the function, where they are not as many.
pub fn result_lines(
    alloc: Global,
    at: Span,
    vars: &Seq<Var>,
    rets: &Seq<Ret>,
) -> Result<Seq<Arg>, Failure<Span>>
    ensures lines { IfOk result (AreResultLines result_registers vars.now rets.now) }
    ensures refused { IfErr result (λ e. IfRefused e
        (λ _. (lines : List Line) → AreResultLines result_registers vars.now rets.now lines → ⊥)) }
{
    if vars.len() != rets.len() {
        return Err(Failure::Refused(at));
    }
    let lines = results_in(alloc, &RESULTS, vars, rets.as_slice())?;
    Ok(lines)
}
