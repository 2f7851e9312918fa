//! The program that is typed, or the first fault.

ghost use Rattle.std.specs.Prelude.{◌≡◌, IfOk, IfErr};
ghost use Rattle.jz_tree.specs.Failures.{IfRefused};
ghost use Rattle.jz_tree.specs.declared.program.Program.{Program};
ghost use Rattle.jz_resolve.specs.Programs.{resolved_program};
ghost use Rattle.jz_types.specs.InnerAsking.{AreOfText, AreOfDeclared, firsts_of};
ghost use Rattle.jz_types.specs.Rules.{IsTyped, IsFirstTypeFault};

use crate::fault::{Firsts, TypeFault, first_told};
use crate::functions::{OfDeclared, OfText, declared_of_functions, text_of_functions};
use crate::lengths::ConstantLengths;
use crate::typed::Typed;
use jz_resolve::{constants, resolve};
use jz_tree::{Failure, Program};
use jz_type_names::{Functions, Places, earlier_of, repeated_at_top, unknown_in_constants};
use jz_type_rows::Callees;
use jz_type_sizes::constants_fault;
use jz_type_storage::{Ranking, find_recursion};
use std::alloc::{AllocError, Global};

fn of_text(alloc: Global, program: &Program) -> Result<OfText, AllocError>
    ensures { IfOk result (AreOfText program.now) }
{
    let table = constants(alloc, &program.consts)?;
    let lengths = ConstantLengths { table };
    let constants = Places::of_constants(alloc, &program.consts)?;
    let functions = Functions::of(alloc, &program.funs)?;
    let unknown = unknown_in_constants(alloc, &constants, &program.consts)?;
    let repeated = repeated_at_top(alloc, program)?;
    let mismatched = constants_fault(program.consts.as_slice());
    let within = text_of_functions(alloc, &lengths, &constants, &functions, program)?;
    Ok(OfText {
        unknown: earlier_of(unknown, within.unknown),
        repeated: earlier_of(repeated, within.repeated),
        mismatched: earlier_of(mismatched, within.mismatched),
        annotated: within.annotated,
        misshapen: within.misshapen,
    })
}

fn of_declared(alloc: Global, declared: &Program) -> Result<OfDeclared, AllocError>
    ensures { IfOk result (AreOfDeclared declared.now) }
{
    let constants = Places::of_constants(alloc, &declared.consts)?;
    let functions = Functions::of(alloc, &declared.funs)?;
    let callees = Callees::of(alloc, declared)?;
    let first = declared_of_functions(alloc, &constants, &functions, &callees, declared)?;
    Ok(first)
}

fn firsts(text: OfText, declared: OfDeclared, ranking: &Ranking) -> Firsts
    ensures { result ≡ firsts_of text declared ranking.now }
{
    Firsts {
        unknown: text.unknown,
        repeated: text.repeated,
        mismatched: earlier_of(text.mismatched, declared.mismatched),
        misplaced: earlier_of(earlier_of(declared.kept, declared.set), declared.read),
        recursive: ranking.recursive(),
        unmatched: declared.unmatched,
        copied: declared.copied,
        annotated: text.annotated,
        misshapen: text.misshapen,
        indexed: declared.indexed,
    }
}

/// The program with the declarations of its variables where they are used, or the first rule that
/// fails.
pub fn check(alloc: Global, program: Program) -> Result<Typed, Failure<TypeFault>>
    ensures typed { IfOk result (λ typed. IsTyped program) }
    ensures resolved_program { IfOk result (λ typed. typed.program ≡ resolved_program program) }
    ensures fault { IfErr result (λ failure. IfRefused failure (IsFirstTypeFault program)) }
{
    let text = of_text(alloc, &program)?;
    let program = resolve(alloc, program)?;
    let declared = of_declared(alloc, &program)?;
    let ranking = find_recursion(alloc, &program)?;
    let told = first_told(firsts(text, declared, &ranking));
    match told {
        None => match ranking {
            Ranking::Ranked(ranks) => Ok(Typed { program, ranks }),
            Ranking::Recursive(_) => unreachable!(),
        },
        Some(fault) => Err(Failure::Refused(fault)),
    }
}
