//! What is made of a text for a call of one of its export functions.

ghost use Rattle.std.specs.Prelude.{◌≡◌, ◌≤◌, ℕ, List, Some, IfOk, IfErr, length};
ghost use Rattle.std.specs.Option.{option_copied};
ghost use Rattle.jz_tree.specs.Failures.{IfRefused, IfAnswered};
ghost use Rattle.jz_listing.specs.declared.compiled.Compiled.{Compiled};
ghost use Rattle.jasminc_source.specs.Texts.{TypesAs, source_limit};
ghost use Rattle.jasminc_called.specs.Making.{compiled_named, IsCompiledAs, IsMadeFor};
ghost use Rattle.jasminc_called.specs.Making.{MakingAnswers};
ghost use Rattle.jasminc_called.specs.InnerMaking.{AreMadeOf, RefusesMaking};

use crate::refused::Refused;
use jasminc_compile as compiling;
use jasminc_compile::{compile_functions, safe_functions};
use jasminc_source::{as_refused, place_of, typed_program, within_limits};
use jz_listing::Compiled;
use jz_tree::{Failure, Seq, Text};
use jz_types::Typed;
use std::alloc::Global;

/// The typed program of a text, the place of one of its export functions, and its export functions
/// as bytes, in the order of the text.
#[derive(Drop)]
pub struct MadeFor {
    pub typed: Typed,
    pub place: usize,
    pub functions: Seq<Compiled>,
}

/// The export functions of a typed text as bytes. Each stage is done for all of them before the
/// next.
fn made_of(alloc: Global, typed: &Typed) -> Result<Seq<Compiled>, Failure<compiling::Refused>>
    requires { (text : List ℕ) × TypesAs text typed.now.program }
    ensures made { IfOk result (AreMadeOf typed.now.program) }
    ensures refused { IfErr result (λ e. IfRefused e (RefusesMaking typed.now.program)) }
{
    as_refused(
        within_limits(alloc, typed.program()),
        compiling::Refused::Limit,
    )?;
    let safes = as_refused(safe_functions(alloc, typed), compiling::Refused::Alarm)?;
    let functions = as_refused(
        compile_functions(alloc, typed, safes),
        compiling::Refused::Making,
    )?;
    Ok(functions)
}

/// The export functions of a text as bytes, and the place of the one of that name; or the first
/// reason why one of them is not compiled, or that none has the name, which comes behind typing and
/// before the limits.
pub fn made_for(alloc: Global, text: &[u8], fun: &str) -> Result<MadeFor, Failure<Refused>>
    requires { length text.now ≤ source_limit }
    ensures { IfAnswered result (MakingAnswers text.now fun.now) }
{
    let read = as_refused(typed_program(alloc, text), compiling::Refused::Unread);
    let typed = as_refused(read, Refused::Compile)?;
    let tree = typed.program();
    let Some(place) = place_of(&tree.funs, fun) else {
        let name = Text::from_string(String::from_str(alloc, fun)?);
        return Err(Failure::Refused(Refused::NoFunction(name)));
    };
    let made = made_of(alloc, &typed);
    let functions = as_refused(made, Refused::Compile)?;
    Ok(MadeFor {
        typed,
        place,
        functions,
    })
}

/// The first of what was made with this name.
fn compiled_named<'a>(made: &'a [Compiled], name: &str) -> Option<&'a Compiled>
    ensures { option_copied result ≡ compiled_named name.now made.now }
{
    made.iter().find(|compiled| compiled.name.as_str() == name)
}

/// The same where there is one.
fn named_in<'a>(made: &'a [Compiled], name: &str) -> &'a Compiled
    requires { (c : Compiled) × (compiled_named name.now made.now ≡ Some c) }
    ensures { compiled_named name.now made.now ≡ Some result.now }
{
    let Some(compiled) = compiled_named(made, name) else {
        unreachable!()
    };
    compiled
}

/// What the export function of that name was compiled to.
pub fn compiled_for<'a>(made: &'a MadeFor, fun: &str) -> &'a Compiled
    requires { (text : List ℕ) × IsMadeFor text fun.now made.now }
    ensures { IsCompiledAs made.now.typed.program fun.now made.now.functions result.now }
{
    named_in(made.functions.as_slice(), fun)
}
