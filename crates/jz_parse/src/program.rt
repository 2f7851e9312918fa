//! Reads constants, and the whole program.

ghost use Rattle.std.specs.Prelude.{◌≡◌, []};
ghost use Rattle.jz_grammar.specs.Kinds.{has};
ghost use Rattle.jz_grammar.specs.Gave.{Gave};
ghost use Rattle.jz_parse.specs.InnerReaders.{constant, part, part_starts, parts_more, program};

use crate::function::function;
use jz_grammar::{Cursor, Stop};
use jz_parse_expr::expr;
use jz_tree::{Const, Fun, Program, Seq};
use std::alloc::Global;

/// A constant or a function.
#[derive(Drop)]
pub enum Part {
    Constant(Const),
    Function(Fun),
}

#[tactic(auto, unfolding(crate::specs::InnerReaders::constant))]
fn constant(alloc: Global, c: &mut Cursor, depth: u32) -> Result<Const, Stop>
    ensures { Gave result c.new (constant depth c.old) }
{
    let _param = c.word("param")?;
    let _int = c.word("int")?;
    let (name, span) = c.name(alloc)?;
    let _equal = c.sign("=")?;
    let value = expr(alloc, c, depth)?;
    let _end = c.sign(";")?;
    Ok(Const { name, value, span })
}

#[tactic(auto, unfolding(crate::specs::InnerReaders::part))]
fn next_part(alloc: Global, c: &mut Cursor, depth: u32) -> Result<Part, Stop>
    ensures { Gave result c.new (part depth c.old) }
{
    if c.is_word("param") {
        let constant = constant(alloc, c, depth)?;
        return Ok(Part::Constant(constant));
    }
    let function = function(alloc, c, depth)?;
    Ok(Part::Function(function))
}

#[tactic(auto, using(crate::proofs::Lists::begins_part))]
fn begins_part(c: &Cursor) -> bool
    ensures { result ≡ has part_starts c.now }
{
    c.is_word("param") || c.is_sign("#") || c.is_word("inline") || c.is_word("export")
}

/// The constants and the functions.
#[tactic(auto, using(crate::proofs::Lists::parts_done, crate::proofs::Lists::parts_constant, crate::proofs::Lists::parts_function, crate::proofs::Lists::parts_wrong, crate::proofs::Lists::parts_shorter))]
fn parts(alloc: Global, c: &mut Cursor, depth: u32) -> Result<(Seq<Const>, Seq<Fun>), Stop>
    ensures { Gave result c.new (parts_more depth [] [] c.old) }
{
    let mut consts = Seq::new(alloc);
    let mut funs = Seq::new(alloc);
    while begins_part(c) {
        match next_part(alloc, c, depth)? {
            Part::Constant(next) => consts.push(next)?,
            Part::Function(next) => funs.push(next)?,
        }
    }
    Ok((consts, funs))
}

/// A whole program, with the end of the text.
#[tactic(auto, unfolding(crate::specs::InnerReaders::program))]
pub fn program(alloc: Global, c: &mut Cursor, depth: u32) -> Result<Program, Stop>
    ensures { Gave result c.new (program depth c.old) }
{
    let (consts, funs) = parts(alloc, c, depth)?;
    let _end = c.end()?;
    Ok(Program { consts, funs })
}
