//! From the expansion of an export function to its bytes and its transformer.

ghost use Rattle.std.specs.Prelude.{◌≡◌, IfOk, IfErr};
ghost use Rattle.jz_data.specs.Failures.{IfRefused};
ghost use Rattle.jz_change.specs.Composing.{compose_of};
ghost use Rattle.jz_change.specs.Flattening.{flatten_of};
ghost use Rattle.jz_change.specs.Views.{change_of};
ghost use Rattle.jz_lowering.specs.Functions.{IsFunctionLowered, KeepsRuns};
ghost use Rattle.jz_codable.specs.Ready.{IsReady};
ghost use Rattle.jz_code.specs.Made.{IsCodeOf};
ghost use Rattle.jz_compiling.specs.Made.{IsMadeOf};
ghost use Rattle.jz_compiling.specs.Refused.{HasNoHead, IsNotCompiled};
ghost use Rattle.jz_compiling.specs.InnerParts.{IsHeadOf, IsPutTogether};

use jz_change::{Change, compose, flatten};
use jz_code::{MachineCode, NoCode, machine_code};
use jz_data::{Failure, Seq};
use jz_io::{Ct, Span};
use jz_leak::Transformer;
use jz_lines::{argument_lines, asked_lines, result_lines};
use jz_listing::{Arg, Compiled, Pre};
use jz_lowering::{LoweredFun, lower};
use jz_tree::{Fun, Text};
use std::alloc::{AllocError, Global};

/// Why an expanded function is not compiled.
#[derive(Drop)]
pub enum NotCompiled {
    /// Its stack variables take too much, or a variable is left without a place.
    Code(NoCode),
    /// A statement without operations, a parameter or a result that is no word in a register, or
    /// an annotation that is refused.
    At(Span),
}

/// What the expansion and then the lowering make of a leak.
#[derive(Drop)]
struct Both {
    first: Change,
    second: Change,
}

/// What is listed of a function for its callers.
#[derive(Drop)]
struct Head {
    args: Seq<Arg>,
    rets: Seq<Arg>,
    pre: Seq<Pre>,
}

/// The lines for callers, or the place of what has none.
fn head_of(alloc: Global, fun: &Fun) -> Result<Head, Failure<Span>>
    ensures lines { IfOk result (IsHeadOf fun.now) }
    ensures refused { IfErr result (λ e. IfRefused e (HasNoHead fun.now)) }
{
    let args = argument_lines(alloc, &fun.params)?;
    let rets = result_lines(alloc, fun.span, &fun.result, &fun.rets)?;
    let pre = asked_lines(alloc, fun)?;
    Ok(Head { args, rets, pre })
}

fn headed(alloc: Global, fun: &Fun) -> Result<Head, Failure<NotCompiled>>
    ensures lines { IfOk result (IsHeadOf fun.now) }
    ensures refused { IfErr result (λ e. IfRefused e (IsNotCompiled fun.now)) }
{
    match head_of(alloc, fun) {
        Ok(head) => Ok(head),
        Err(Failure::Refused(place)) => Err(Failure::Refused(NotCompiled::At(place))),
        Err(Failure::OutOfMemory) => Err(Failure::OutOfMemory),
    }
}

fn lowered(alloc: Global, fun: &Fun) -> Result<LoweredFun, Failure<NotCompiled>>
    ensures made { IfOk result (λ l. IsFunctionLowered fun.now l (change_of l.change)) }
    ensures law { IfOk result (λ l. KeepsRuns fun.now l (change_of l.change)) }
    ensures ready { IfOk result (λ l. IsReady l.ir) }
    ensures refused { IfErr result (λ e. IfRefused e (IsNotCompiled fun.now)) }
{
    match lower(alloc, fun) {
        Ok(lowered) => Ok(lowered),
        Err(Failure::Refused(place)) => Err(Failure::Refused(NotCompiled::At(place))),
        Err(Failure::OutOfMemory) => Err(Failure::OutOfMemory),
    }
}

/// The bytes of the function, of which that is the function over variables.
fn coded(
    alloc: Global,
    fun: &Fun,
    lowered: &LoweredFun,
) -> Result<MachineCode, Failure<NotCompiled>>
    requires made { IsFunctionLowered fun.now lowered.now (change_of lowered.now.change) }
    requires ready { IsReady lowered.now.ir }
    ensures code { IfOk result (IsCodeOf lowered.now.ir lowered.now.stack) }
    ensures refused { IfErr result (λ e. IfRefused e (IsNotCompiled fun.now)) }
{
    match machine_code(alloc, &lowered.ir, lowered.stack.as_slice()) {
        Ok(code) => Ok(code),
        Err(Failure::Refused(why)) => Err(Failure::Refused(NotCompiled::Code(why))),
        Err(Failure::OutOfMemory) => Err(Failure::OutOfMemory),
    }
}

/// The transformer of machine code behind two changes.
fn behind_both(
    alloc: Global,
    first: Change,
    second: Change,
    last: Transformer,
) -> Result<Transformer, AllocError>
    ensures { IfOk result
        (λ t. t ≡ flatten_of (compose_of (change_of first) (change_of second)) last) }
{
    let both = compose(alloc, first, second)?;
    let transformer = flatten(alloc, both, last)?;
    Ok(transformer)
}

/// The parts as they are listed.
fn put_together(
    alloc: Global,
    name: &Text,
    head: Head,
    changes: Both,
    code: MachineCode,
    ct: Ct,
) -> Result<Compiled, AllocError>
    ensures { IfOk result (IsPutTogether name.now head changes code ct) }
{
    let MachineCode {
        bytes,
        insns,
        frame,
        saved,
        transformer,
    } = code;
    let Both { first, second } = changes;
    let tr = behind_both(alloc, first, second, transformer)?;
    let name = name.clone()?;
    Ok(Compiled {
        name,
        args: head.args,
        rets: head.rets,
        pre: head.pre,
        frame: u64::from(frame),
        saved,
        insns,
        code: bytes,
        tr,
        ct,
    })
}

/// The bytes and the transformer of an export function whose expansion this is, with what that made
/// of its leaks; `ct` is what the listing says about constant time. Refused where its stack
/// variables take more than 65,536 bytes, and else where first fit leaves a variable without a
/// place; what has no operations, no line for callers or a wrong annotation is refused before. The
/// stack grows with the nesting of the text.
pub fn compile_expanded(
    alloc: Global,
    fun: &Fun,
    change: Change,
    ct: Ct,
) -> Result<Compiled, Failure<NotCompiled>>
    ensures made { IfOk result (λ c. IsMadeOf fun.now (change_of change) c × (c.ct ≡ ct)) }
    ensures refused { IfErr result (λ e. IfRefused e (IsNotCompiled fun.now)) }
{
    let head = headed(alloc, fun)?;
    let lowered = lowered(alloc, fun)?;
    let code = coded(alloc, fun, &lowered)?;
    let LoweredFun {
        ir: _,
        stack: _,
        change: second,
    } = lowered;
    let both = Both {
        first: change,
        second,
    };
    let compiled = put_together(alloc, &fun.name, head, both, code, ct)?;
    Ok(compiled)
}
