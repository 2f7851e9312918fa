//! A small language: a number, to which statements add, and which tests compare.

ghost use Rattle.std.specs.Prelude.{◌≡◌, [], IfOk};
ghost use Rattle.jz_runs.specs.Rules.{Goes};
ghost use Rattle.jz_pass.specs.Cases.{cases_of};
ghost use Rattle.jz_pass.specs.Rewriting.{first_part, second_part};
ghost use Rattle.jz_pass.specs.Forms.{HasForm};
ghost use Rattle.jz_pass_tests.specs.Meaning.{small, tree_of, shape_of};
ghost use Rattle.jz_pass_tests.specs.Kept.{KeepsTest};

use jz_pass::{Choice, Form, Lang, Numbers, Operations, Seq};
use std::alloc::{AllocError, Global};

/// A statement.
#[cycle(small)]
#[derive(Drop)]
pub enum Small {
    /// Adds to the number, and leaks what is added.
    Add(u64),
    /// The first arm where the number is below this bound. The test leaks the number.
    If(u64, Seq<Small>, Seq<Small>),
    /// While the number is below the bound behind the prologue.
    While(Seq<Small>, u64, Seq<Small>),
    /// Does nothing. No rule knows it.
    Mark,
}

/// The language of lists of these.
#[derive(Drop)]
pub struct SmallLanguage;

/// Why a statement is refused: no rule knows it.
#[derive(Drop)]
pub struct Unknown;

impl Lang for SmallLanguage {
    type Program = Seq<Small>;

    type Input = u64;

    type Given = u64;

    type Reason = Unknown;

    ghost valid = { λ p. Unit {0} };

    ghost cases = { λ p. cases_of (tree_of p) };

    ghost runs = { λ p s n o. Goes small (tree_of p) n s o };
}

/// The kind of a statement.
pub fn form_of(s: &Small) -> Form
    ensures { HasForm (shape_of s.now) result }
{
    match s {
        Small::Add(_) => Form::Operation,
        Small::If(_, _, _) => Form::If,
        Small::While(_, _, _) => Form::While,
        Small::Mark => Form::Other,
    }
}

/// The first arm, or the prologue.
pub fn first_of<'a>(s: &'a Small) -> &'a [Small]
    ensures { result.now ≡ first_part (shape_of s.now) }
{
    match s {
        Small::Add(_) => &[],
        Small::If(_, then_arm, _) => then_arm.as_slice(),
        Small::While(prologue, _, _) => prologue.as_slice(),
        Small::Mark => &[],
    }
}

/// The other arm, or the body.
pub fn second_of<'a>(s: &'a Small) -> &'a [Small]
    ensures { result.now ≡ second_part (shape_of s.now) }
{
    match s {
        Small::Add(_) => &[],
        Small::If(_, _, else_arm) => else_arm.as_slice(),
        Small::While(_, _, body) => body.as_slice(),
        Small::Mark => &[],
    }
}

/// No statement.
pub fn no_operation(alloc: Global) -> Operations<Small>
    ensures statements { result.statements ≡ [] }
    ensures items { result.items ≡ [] }
{
    Operations {
        statements: Seq::new(alloc),
        items: Seq::new(alloc),
    }
}

/// Tests stay as they are.
pub fn same_choice(
    alloc: Global,
    s: &Small,
    first: Seq<Small>,
    second: Seq<Small>,
) -> Result<Choice<Small>, AllocError>
    ensures { IfOk result (λ r. KeepsTest s.now first second r.statements r.items r.numbers) }
{
    let statement = match s {
        Small::Add(k) => Small::Add(*k),
        Small::If(bound, _, _) => Small::If(*bound, first, second),
        Small::While(_, bound, _) => Small::While(first, *bound, second),
        Small::Mark => Small::Mark,
    };
    let mut statements = Seq::new(alloc);
    statements.push(statement)?;
    Ok(Choice {
        statements,
        items: Seq::new(alloc),
        numbers: Numbers::Same,
    })
}
