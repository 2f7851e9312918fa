//! Reads statements.

ghost use Rattle.std.specs.Prelude.{◌≡◌, []};
ghost use Rattle.jz_grammar.specs.Kinds.{has};
ghost use Rattle.jz_grammar.specs.Gave.{Gave};
ghost use Rattle.jz_parse.specs.StmtReaders.{simple_starts, form_starts, stmt_starts, loop_condition, direction, block, else_body, else_arm, if_rest, if_form, prologue, body, while_form, for_form, form, stmt_in, stmt, stmts_more, nested_in};

use crate::annotations::notes;
use crate::assigning::simple;
use jz_grammar::{Cursor, Stop};
use jz_parse_expr::expr;
use jz_tree::{Expr, Seq, Span, Stmt, StmtKind, Var};
use std::alloc::Global;

/// What follows an `if`: the condition, the statements where it holds, and those where it does not.
type Arms = (Expr, (Seq<Stmt>, Seq<Stmt>));

#[tactic(auto, unfolding(jz_grammar::specs::Kinds::is_in))]
fn begins_simple(c: &Cursor) -> bool
    ensures { result ≡ has simple_starts c.now }
{
    c.is_identifier() || c.is_word("_") || c.is_sign("(") || c.is_sign("[")
}

#[tactic(auto, unfolding(jz_grammar::specs::Kinds::is_in))]
fn begins_form(c: &Cursor) -> bool
    ensures { result ≡ has form_starts c.now }
{
    c.is_word("if") || c.is_word("while") || c.is_word("for")
}

/// Whether a statement may begin there.
#[tactic(auto, using(crate::proofs::StmtLists::any_start))]
pub fn begins_stmt(c: &Cursor) -> bool
    ensures { result ≡ has stmt_starts c.now }
{
    c.is_sign("#") || begins_simple(c) || begins_form(c)
}

/// A condition and the parentheses round it.
#[tactic(auto, unfolding(crate::specs::StmtReaders::loop_condition))]
fn loop_condition(alloc: Global, c: &mut Cursor, depth: u32) -> Result<Expr, Stop>
    ensures { Gave result c.new (loop_condition depth c.old) }
{
    let (_open, inner) = c.open("(", depth)?;
    let cond = expr(alloc, c, inner)?;
    let _close = c.sign(")")?;
    Ok(cond)
}

/// Whether a counter goes down.
#[tactic(auto, unfolding(crate::specs::StmtReaders::direction))]
fn direction(c: &mut Cursor) -> Result<bool, Stop>
    ensures { Gave result c.new (direction c.old) }
{
    if c.is_word("to") {
        let _to = c.word("to")?;
        return Ok(false);
    }
    let _downto = c.word("downto")?;
    Ok(true)
}

/// A statement, where so much may still be nested.
#[cycle(statements)]
pub fn stmt(alloc: Global, c: &mut Cursor, depth: u32) -> Result<Stmt, Stop>
    ensures { Gave result c.new (stmt depth c.old) }
{
    stmt_in(alloc, c, depth)
}

#[cycle(statements)]
#[tactic(auto, unfolding(crate::specs::StmtReaders::stmt_in))]
fn stmt_in(alloc: Global, c: &mut Cursor, depth: u32) -> Result<Stmt, Stop>
    ensures { Gave result c.new (stmt_in nested_in depth c.old) }
{
    let notes = notes(alloc, c, depth)?;
    let (span, kind) = form(alloc, c, depth)?;
    Ok(Stmt { notes, span, kind })
}

/// A statement without its annotations: where it stands, and what it does.
#[cycle(statements)]
#[tactic(auto, unfolding(crate::specs::StmtReaders::form))]
fn form(alloc: Global, c: &mut Cursor, depth: u32) -> Result<(Span, StmtKind), Stop>
    ensures { Gave result c.new (form nested_in depth c.old) }
{
    if c.is_word("if") {
        if_form(alloc, c, depth)
    } else if c.is_word("while") {
        while_form(alloc, c, depth)
    } else if c.is_word("for") {
        for_form(alloc, c, depth)
    } else {
        simple(alloc, c, depth)
    }
}

#[cycle(statements)]
#[tactic(auto, unfolding(crate::specs::StmtReaders::if_form))]
fn if_form(alloc: Global, c: &mut Cursor, depth: u32) -> Result<(Span, StmtKind), Stop>
    ensures { Gave result c.new (if_form nested_in depth c.old) }
{
    let span = c.word("if")?;
    let (cond, arms) = if_rest(alloc, c, depth)?;
    let (then, other) = arms;
    Ok((span, StmtKind::If(cond, then, other)))
}

#[cycle(statements)]
#[tactic(auto, unfolding(crate::specs::StmtReaders::if_rest))]
fn if_rest(alloc: Global, c: &mut Cursor, depth: u32) -> Result<Arms, Stop>
    ensures { Gave result c.new (if_rest nested_in depth c.old) }
{
    let cond = expr(alloc, c, depth)?;
    let then = block(alloc, c, depth)?;
    if c.is_word("else") {
        let other = else_arm(alloc, c, depth)?;
        return Ok((cond, (then, other)));
    }
    Ok((cond, (then, Seq::new(alloc))))
}

#[cycle(statements)]
#[tactic(auto, unfolding(crate::specs::StmtReaders::else_arm))]
fn else_arm(alloc: Global, c: &mut Cursor, depth: u32) -> Result<Seq<Stmt>, Stop>
    ensures { Gave result c.new (else_arm nested_in depth c.old) }
{
    let _else = c.word("else")?;
    let out = else_body(alloc, c, depth)?;
    Ok(out)
}

#[cycle(statements)]
#[tactic(auto, unfolding(crate::specs::StmtReaders::else_body))]
fn else_body(alloc: Global, c: &mut Cursor, depth: u32) -> Result<Seq<Stmt>, Stop>
    ensures { Gave result c.new (else_body nested_in depth c.old) }
{
    if c.is_word("if") {
        let (span, inner) = c.open_word("if", depth)?;
        let (cond, arms) = nested_if(alloc, c, inner)?;
        let (then, other) = arms;
        let mut out = Seq::new(alloc);
        out.push(Stmt {
            notes: Seq::new(alloc),
            span,
            kind: StmtKind::If(cond, then, other),
        })?;
        return Ok(out);
    }
    block(alloc, c, depth)
}

/// What follows an `if` that is itself nested.
#[cycle(statements)]
fn nested_if(alloc: Global, c: &mut Cursor, depth: u32) -> Result<Arms, Stop>
    ensures { Gave result c.new ((nested_in depth).ifs c.old) }
{
    if_rest(alloc, c, depth)
}

/// The statements between braces.
#[cycle(statements)]
#[tactic(auto, unfolding(crate::specs::StmtReaders::block), using(crate::proofs::StmtLists::stmts_ok, crate::proofs::StmtLists::stmts_err))]
fn block(alloc: Global, c: &mut Cursor, depth: u32) -> Result<Seq<Stmt>, Stop>
    ensures { Gave result c.new (block nested_in depth c.old) }
{
    let (_open, inner) = c.open("{", depth)?;
    let out = stmts_more(alloc, c, inner)?;
    let _close = c.sign("}")?;
    Ok(out)
}

#[cycle(statements)]
#[tactic(auto, using(crate::proofs::StmtLists::stmts_done, crate::proofs::StmtLists::stmts_next, crate::proofs::StmtLists::stmts_wrong, crate::proofs::StmtLists::stmts_shorter))]
fn stmts_more(alloc: Global, c: &mut Cursor, depth: u32) -> Result<Seq<Stmt>, Stop>
    ensures { Gave result c.new (stmts_more depth [] c.old) }
{
    let mut out = Seq::new(alloc);
    while begins_stmt(c) {
        let next = stmt(alloc, c, depth)?;
        out.push(next)?;
    }
    Ok(out)
}

#[cycle(statements)]
#[tactic(auto, unfolding(crate::specs::StmtReaders::while_form))]
fn while_form(alloc: Global, c: &mut Cursor, depth: u32) -> Result<(Span, StmtKind), Stop>
    ensures { Gave result c.new (while_form nested_in depth c.old) }
{
    let span = c.word("while")?;
    let prologue = prologue(alloc, c, depth)?;
    let cond = loop_condition(alloc, c, depth)?;
    let body = body(alloc, c, depth)?;
    let kind = StmtKind::While {
        prologue,
        cond,
        body,
    };
    Ok((span, kind))
}

/// What a loop does before each test.
#[cycle(statements)]
#[tactic(auto, unfolding(crate::specs::StmtReaders::prologue))]
fn prologue(alloc: Global, c: &mut Cursor, depth: u32) -> Result<Seq<Stmt>, Stop>
    ensures { Gave result c.new (prologue nested_in depth c.old) }
{
    if c.is_sign("{") {
        let out = block(alloc, c, depth)?;
        return Ok(out);
    }
    Ok(Seq::new(alloc))
}

/// What a loop does behind each test, if it goes on there.
#[cycle(statements)]
#[tactic(auto, unfolding(crate::specs::StmtReaders::body))]
fn body(alloc: Global, c: &mut Cursor, depth: u32) -> Result<Option<Seq<Stmt>>, Stop>
    ensures { Gave result c.new (body nested_in depth c.old) }
{
    if c.is_sign("{") {
        let out = block(alloc, c, depth)?;
        return Ok(Some(out));
    }
    if c.is_sign(";") {
        let _end = c.sign(";")?;
    }
    Ok(None)
}

#[cycle(statements)]
#[tactic(auto, unfolding(crate::specs::StmtReaders::for_form))]
fn for_form(alloc: Global, c: &mut Cursor, depth: u32) -> Result<(Span, StmtKind), Stop>
    ensures { Gave result c.new (for_form nested_in depth c.old) }
{
    let span = c.word("for")?;
    let (name, place) = c.name(alloc)?;
    let _equal = c.sign("=")?;
    let from = expr(alloc, c, depth)?;
    let down = direction(c)?;
    let to = expr(alloc, c, depth)?;
    let body = block(alloc, c, depth)?;
    let counter = Var {
        name,
        copy: 0,
        cell: None,
        decl: None,
        span: place,
    };
    let kind = StmtKind::For {
        counter,
        from,
        down,
        to,
        body,
    };
    Ok((span, kind))
}
