//! Reads functions.

ghost use Rattle.std.specs.Prelude.{◌≡◌, []};
ghost use Rattle.jz_grammar.specs.Kinds.{has};
ghost use Rattle.jz_grammar.specs.Gave.{Gave};
ghost use Rattle.jz_parse.specs.InnerReaders.{item, item_starts, items_more, variable_used, next_used, used_more, variables, variables_enclosed, names, names_starts, variables_returned, ending, body, kind, function};

use crate::declare::{begins_storage, decl, params, results};
use crate::{begins_stmt, notes, stmt};
use jz_grammar::{Cursor, Stop};
use jz_tree::{Fun, FunKind, Seq, Stmt, Var};
use std::alloc::Global;

/// A declaration of variables, or a statement.
#[derive(Drop)]
pub enum Item {
    Declares(Seq<Var>),
    Does(Stmt),
}

/// What stands between the braces of a function.
#[derive(Drop)]
pub struct Body {
    pub vars: Seq<Var>,
    pub stmts: Seq<Stmt>,
    pub result: Seq<Var>,
}

#[tactic(auto, unfolding(crate::specs::InnerReaders::item))]
fn next_item(alloc: Global, c: &mut Cursor, depth: u32) -> Result<Item, Stop>
    ensures { Gave result c.new (item depth c.old) }
{
    if begins_storage(c) {
        let vars = decl(alloc, c, depth)?;
        return Ok(Item::Declares(vars));
    }
    let stmt = stmt(alloc, c, depth)?;
    Ok(Item::Does(stmt))
}

#[tactic(auto, using(crate::proofs::Lists::begins_item))]
fn begins_item(c: &Cursor) -> bool
    ensures { result ≡ has item_starts c.now }
{
    begins_storage(c) || begins_stmt(c)
}

/// The variables and the statements.
#[tactic(auto, using(crate::proofs::Lists::items_done, crate::proofs::Lists::items_declares, crate::proofs::Lists::items_does, crate::proofs::Lists::items_wrong, crate::proofs::Lists::items_shorter))]
fn items(alloc: Global, c: &mut Cursor, depth: u32) -> Result<(Seq<Var>, Seq<Stmt>), Stop>
    ensures { Gave result c.new (items_more depth [] [] c.old) }
{
    let mut vars = Seq::new(alloc);
    let mut stmts = Seq::new(alloc);
    while begins_item(c) {
        match next_item(alloc, c, depth)? {
            Item::Declares(next) => vars.append(next)?,
            Item::Does(next) => stmts.push(next)?,
        }
    }
    Ok((vars, stmts))
}

/// A variable where it is used.
#[tactic(auto, unfolding(crate::specs::InnerReaders::variable_used))]
fn used(alloc: Global, c: &mut Cursor) -> Result<Var, Stop>
    ensures { Gave result c.new (variable_used c.old) }
{
    let (name, span) = c.name(alloc)?;
    Ok(Var {
        name,
        copy: 0,
        cell: None,
        decl: None,
        span,
    })
}

#[tactic(auto, unfolding(crate::specs::InnerReaders::next_used))]
fn next_used(alloc: Global, c: &mut Cursor) -> Result<Var, Stop>
    ensures { Gave result c.new (next_used c.old) }
{
    let _comma = c.sign(",")?;
    let var = used(alloc, c)?;
    Ok(var)
}

#[tactic(auto, using(crate::proofs::Lists::used_done, crate::proofs::Lists::used_next, crate::proofs::Lists::used_wrong, crate::proofs::Lists::used_shorter))]
fn used_more(alloc: Global, c: &mut Cursor, first: Seq<Var>) -> Result<Seq<Var>, Stop>
    ensures { Gave result c.new (used_more first c.old) }
{
    let mut out = first;
    while c.is_sign(",") {
        let next = next_used(alloc, c)?;
        out.push(next)?;
    }
    Ok(out)
}

#[tactic(auto, unfolding(crate::specs::InnerReaders::variables))]
fn variables(alloc: Global, c: &mut Cursor) -> Result<Seq<Var>, Stop>
    ensures { Gave result c.new (variables c.old) }
{
    let first = used(alloc, c)?;
    let mut out = Seq::new(alloc);
    out.push(first)?;
    used_more(alloc, c, out)
}

/// Variables in parentheses.
#[tactic(auto, unfolding(crate::specs::InnerReaders::variables_enclosed))]
fn enclosed(alloc: Global, c: &mut Cursor, depth: u32) -> Result<Seq<Var>, Stop>
    ensures { Gave result c.new (variables_enclosed depth c.old) }
{
    let (_open, _inner) = c.open("(", depth)?;
    let out = variables(alloc, c)?;
    let _close = c.sign(")")?;
    Ok(out)
}

#[tactic(auto, unfolding(crate::specs::InnerReaders::names))]
fn names(alloc: Global, c: &mut Cursor, depth: u32) -> Result<Seq<Var>, Stop>
    ensures { Gave result c.new (names depth c.old) }
{
    if c.is_identifier() {
        let out = variables(alloc, c)?;
        return Ok(out);
    }
    let out = enclosed(alloc, c, depth)?;
    Ok(out)
}

#[tactic(auto, using(crate::proofs::Lists::begins_names))]
fn begins_names(c: &Cursor) -> bool
    ensures { result ≡ has names_starts c.now }
{
    c.is_identifier() || c.is_sign("(")
}

#[tactic(auto, unfolding(crate::specs::InnerReaders::variables_returned))]
fn returned(alloc: Global, c: &mut Cursor, depth: u32) -> Result<Seq<Var>, Stop>
    ensures { Gave result c.new (variables_returned depth c.old) }
{
    let _return = c.word("return")?;
    let out = if begins_names(c) {
        names(alloc, c, depth)?
    } else {
        Seq::new(alloc)
    };
    let _end = c.sign(";")?;
    Ok(out)
}

/// The variables that are returned, or none where nothing is.
#[tactic(auto, unfolding(crate::specs::InnerReaders::ending))]
fn ending(alloc: Global, c: &mut Cursor, depth: u32) -> Result<Seq<Var>, Stop>
    ensures { Gave result c.new (ending depth c.old) }
{
    if c.is_word("return") {
        let out = returned(alloc, c, depth)?;
        return Ok(out);
    }
    Ok(Seq::new(alloc))
}

/// The braces of a function and what stands between them.
#[tactic(auto, unfolding(crate::specs::InnerReaders::body))]
fn block(alloc: Global, c: &mut Cursor, depth: u32) -> Result<Body, Stop>
    ensures { Gave result c.new (body depth c.old) }
{
    let (_open, inner) = c.open("{", depth)?;
    let (vars, stmts) = items(alloc, c, inner)?;
    let result = ending(alloc, c, inner)?;
    let _close = c.sign("}")?;
    Ok(Body {
        vars,
        stmts,
        result,
    })
}

#[tactic(auto, unfolding(crate::specs::InnerReaders::kind))]
fn kind(c: &mut Cursor) -> Result<FunKind, Stop>
    ensures { Gave result c.new (kind c.old) }
{
    if c.is_word("inline") {
        let _inline = c.word("inline")?;
        return Ok(FunKind::Inline);
    }
    let _export = c.word("export")?;
    Ok(FunKind::Export)
}

#[tactic(auto, unfolding(crate::specs::InnerReaders::function))]
pub fn function(alloc: Global, c: &mut Cursor, depth: u32) -> Result<Fun, Stop>
    ensures { Gave result c.new (function depth c.old) }
{
    let notes = notes(alloc, c, depth)?;
    let kind = kind(c)?;
    let _fn = c.word("fn")?;
    let (name, span) = c.name(alloc)?;
    let params = params(alloc, c, depth)?;
    let rets = results(alloc, c, depth)?;
    let body = block(alloc, c, depth)?;
    let Body {
        vars,
        stmts,
        result,
    } = body;
    Ok(Fun {
        notes,
        kind,
        name,
        span,
        params,
        rets,
        vars,
        body: stmts,
        result,
    })
}
