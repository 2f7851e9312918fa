//! The run of a function of a program.

ghost use Rattle.std.specs.Prelude.{IfOk};
ghost use Rattle.jz_interp.specs.Outcomes.{Takes, Interprets};

use crate::code::Code;
use crate::functions::run_function;
use crate::outcome::{Input, Outcome};
use jz_types::Typed;
use std::alloc::{AllocError, Global};

/// The run of the function at that place in the text, with at most `fuel` true tests of `while` in
/// the whole run. It takes memory for what is leaked; its stack grows with the nesting of the text
/// and the depth of calls, and not with the turns of loops.
pub fn interpret(
    alloc: Global,
    typed: &Typed,
    fun: usize,
    input: &Input,
    fuel: u64,
) -> Result<Outcome, AllocError>
    requires { Takes typed.now.program fun input.now.words }
    ensures { IfOk result (Interprets typed.now.program fun input.now.words input.now.mem fuel) }
{
    let funs = &typed.program().funs;
    let code = Code::of(alloc, funs)?;
    let function = &funs.as_slice()[fun];
    let mem = input.mem.copy(alloc)?;
    let outcome = run_function(&code, function, &input.words, mem, fuel)?;
    Ok(outcome)
}
