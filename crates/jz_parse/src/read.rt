//! The program that a list of tokens derives, or the first token that is wrong.

ghost use Rattle.std.specs.Prelude.{◌≡◌, ◌<◌, ℕ, [], ◌∷◌, ◌++◌, List, IfOk, IfErr, length};
ghost use Rattle.jz_tree.specs.Failures.{IfRefused};
ghost use Rattle.jz_tree.specs.Laws.{AtMostOne, NeverBoth};
ghost use Rattle.jz_grammar.specs.Token.{Token};
ghost use Rattle.jz_grammar.specs.TokenKind.TheVariants.{End};
ghost use Rattle.jz_grammar.specs.Readers.{final};
ghost use Rattle.jz_grammar.specs.InnerNumbered.{numbered_answer, IsNumbered};
ghost use Rattle.jz_parse.specs.InnerReaders.{program};
ghost use Rattle.jz_parse.specs.Deriving.{DerivesProgram, IsSyntaxFault};
ghost use Rattle.jz_parse.specs.Reading.{Reads};

use crate::program::program;
use jz_grammar::{Cursor, SyntaxFault, SyntaxKind, Tokens, fault_at};
use jz_tree::{Failure, Program};
use std::alloc::Global;

/// At most so much may be nested.
const MOST_NESTED: u32 = 200;

/// The program of all the tokens, or the cause and the number of the first that is left.
#[tactic(auto, using(crate::proofs::Faults::read_done, crate::proofs::Faults::read_over, crate::proofs::Faults::read_wrong))]
fn read_whole(
    alloc: Global,
    tokens: &Tokens,
    depth: u32,
) -> Result<Program, Failure<(SyntaxKind, usize)>>
    ensures { IsNumbered
        (numbered_answer (length tokens.now) (final (program depth tokens.now))) result }
{
    let mut c = Cursor::new(tokens.as_slice());
    match program(alloc, &mut c, depth) {
        Ok(program) => {
            let left = c.left();
            if left == 0 {
                Ok(program)
            } else {
                Err(Failure::Refused((SyntaxKind::Unexpected, tokens.len().saturating_sub(left))))
            }
        }
        Err(Failure::Refused(kind)) => Err(Failure::Refused((
            kind,
            tokens.len().saturating_sub(c.left()),
        ))),
        Err(Failure::OutOfMemory) => Err(Failure::OutOfMemory),
    }
}

/// The program that the tokens derive, or the first token that is wrong.
pub fn parse(alloc: Global, tokens: &Tokens) -> Result<Program, Failure<SyntaxFault>>
    ensures program { IfOk result (λ program. DerivesProgram tokens.now program) }
    ensures fault { IfErr result (λ failure. IfRefused failure (IsSyntaxFault tokens.now)) }
{
    match read_whole(alloc, tokens, MOST_NESTED) {
        Ok(program) => Ok(program),
        Err(Failure::Refused((kind, number))) => {
            Err(Failure::Refused(fault_at(kind, tokens, number)))
        }
        Err(Failure::OutOfMemory) => Err(Failure::OutOfMemory),
    }
}

/// A text reads as one program at most.
pub fn one_reading()
    ensures { (text : List ℕ) → AtMostOne (Reads text) }
{}

/// The tokens derive one program at most.
pub fn one_program()
    ensures { (tokens : List Token) → AtMostOne (DerivesProgram tokens) }
{}

/// Tokens that derive a program have no fault.
pub fn no_fault_of_a_program()
    ensures { (tokens : List Token) → NeverBoth (DerivesProgram tokens) (IsSyntaxFault tokens) }
{}

/// The tokens have one fault at most.
pub fn one_fault()
    ensures { (tokens : List Token) → AtMostOne (IsSyntaxFault tokens) }
{}

/// Where an end token stands last, a fault is at one of the tokens.
pub fn a_fault_is_at_a_token()
    ensures { (front : List Token) (last : Token) (fault : SyntaxFault)
        → last.kind ≡ End → IsSyntaxFault (front ++ last ∷ []) fault
        → fault.token < length (front ++ last ∷ []) }
{}
