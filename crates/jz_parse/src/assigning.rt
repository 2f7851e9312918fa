//! Reads calls and assignments.

ghost use Rattle.std.specs.Prelude.{◌≡◌};
ghost use Rattle.jz_grammar.specs.Kinds.{is_in};
ghost use Rattle.jz_grammar.specs.Readers.{leaf};
ghost use Rattle.jz_grammar.specs.Gave.{Gave};
ghost use Rattle.jz_parse.specs.StmtTrees.{sum_assignments, quotient_assignments, bit_assignments, shift_assignments, assignments, number_operation, bit_operation, operation_of, span_of_lval};
ghost use Rattle.jz_parse.specs.StmtReaders.{next_arg, args_more, args, call_args, intrinsic, call_value, rhs, left_side_named, lval, next_lval, lvals_more, condition, assign, call, simple};

use jz_grammar::{Cursor, Stop, Token, UNEXPECTED, has_text, is_sign};
use jz_parse_expr::{access, begins_expr, expr, index};
use jz_tree::{BinOp, Boxed, Expr, Lval, Rhs, Seq, Span, StmtKind, Var};
use std::alloc::Global;

/// A further argument and the comma before it.
#[tactic(auto, unfolding(crate::specs::StmtReaders::next_arg))]
fn next_arg(alloc: Global, c: &mut Cursor, depth: u32) -> Result<Expr, Stop>
    ensures { Gave result c.new (next_arg depth c.old) }
{
    let _comma = c.sign(",")?;
    let next = expr(alloc, c, depth)?;
    Ok(next)
}

#[tactic(auto, using(crate::proofs::StmtLists::args_done, crate::proofs::StmtLists::args_next, crate::proofs::StmtLists::args_wrong, crate::proofs::StmtLists::args_shorter))]
fn args_more(alloc: Global, c: &mut Cursor, depth: u32, first: Seq<Expr>) -> Result<Seq<Expr>, Stop>
    ensures { Gave result c.new (args_more depth first c.old) }
{
    let mut out = first;
    while c.is_sign(",") {
        let next = next_arg(alloc, c, depth)?;
        out.push(next)?;
    }
    Ok(out)
}

#[tactic(auto, unfolding(crate::specs::StmtReaders::args))]
fn args(alloc: Global, c: &mut Cursor, depth: u32) -> Result<Seq<Expr>, Stop>
    ensures { Gave result c.new (args depth c.old) }
{
    let first = expr(alloc, c, depth)?;
    let mut out = Seq::new(alloc);
    out.push(first)?;
    args_more(alloc, c, depth, out)
}

/// The arguments of a call and the parentheses round them.
#[tactic(auto, unfolding(crate::specs::StmtReaders::call_args))]
fn call_args(alloc: Global, c: &mut Cursor, depth: u32) -> Result<Seq<Expr>, Stop>
    ensures { Gave result c.new (call_args depth c.old) }
{
    let (_open, inner) = c.open("(", depth)?;
    let out = if begins_expr(c) {
        args(alloc, c, inner)?
    } else {
        Seq::new(alloc)
    };
    let _close = c.sign(")")?;
    Ok(out)
}

#[tactic(auto, unfolding(crate::specs::StmtReaders::intrinsic))]
fn intrinsic(alloc: Global, c: &mut Cursor, depth: u32) -> Result<Rhs, Stop>
    ensures { Gave result c.new (intrinsic depth c.old) }
{
    let span = c.sign("#")?;
    let (name, _place) = c.name(alloc)?;
    let out = call_args(alloc, c, depth)?;
    Ok(Rhs::Intrinsic(name, out, span))
}

#[tactic(auto, unfolding(crate::specs::StmtReaders::call_value))]
fn call_value(alloc: Global, c: &mut Cursor, depth: u32) -> Result<Rhs, Stop>
    ensures { Gave result c.new (call_value depth c.old) }
{
    let (name, span) = c.name(alloc)?;
    let out = call_args(alloc, c, depth)?;
    Ok(Rhs::Call(name, out, span))
}

#[tactic(auto, unfolding(crate::specs::StmtReaders::rhs))]
fn rhs(alloc: Global, c: &mut Cursor, depth: u32) -> Result<Rhs, Stop>
    ensures { Gave result c.new (rhs depth c.old) }
{
    if c.is_sign("#") {
        return intrinsic(alloc, c, depth);
    }
    if c.is_identifier_then("(") {
        return call_value(alloc, c, depth);
    }
    let value = expr(alloc, c, depth)?;
    Ok(Rhs::Value(value))
}

/// A variable, or the cell of an array.
#[tactic(auto, unfolding(crate::specs::StmtReaders::left_side_named))]
fn named(alloc: Global, c: &mut Cursor, depth: u32) -> Result<Lval, Stop>
    ensures { Gave result c.new (left_side_named depth c.old) }
{
    let (name, span) = c.name(alloc)?;
    let var = Var {
        name,
        copy: 0,
        cell: None,
        decl: None,
        span,
    };
    if c.is_sign("[") {
        let at = index(alloc, c, depth)?;
        let at = Boxed::new(alloc, at)?;
        return Ok(Lval::Cell(var, at));
    }
    Ok(Lval::Var(var))
}

#[tactic(auto, unfolding(crate::specs::StmtReaders::lval))]
fn lval(alloc: Global, c: &mut Cursor, depth: u32) -> Result<Lval, Stop>
    ensures { Gave result c.new (lval depth c.old) }
{
    if c.is_word("_") {
        let span = c.word("_")?;
        return Ok(Lval::Skip(span));
    }
    if c.is_identifier() {
        return named(alloc, c, depth);
    }
    let access = access(alloc, c, depth)?;
    Ok(Lval::Store(access))
}

/// A further left side and the comma before it.
#[tactic(auto, unfolding(crate::specs::StmtReaders::next_lval))]
fn next_lval(alloc: Global, c: &mut Cursor, depth: u32) -> Result<Lval, Stop>
    ensures { Gave result c.new (next_lval depth c.old) }
{
    let _comma = c.sign(",")?;
    let next = lval(alloc, c, depth)?;
    Ok(next)
}

#[tactic(auto, using(crate::proofs::StmtLists::lvals_done, crate::proofs::StmtLists::lvals_next, crate::proofs::StmtLists::lvals_wrong, crate::proofs::StmtLists::lvals_shorter))]
fn lvals_more(
    alloc: Global,
    c: &mut Cursor,
    depth: u32,
    first: Seq<Lval>,
) -> Result<Seq<Lval>, Stop>
    ensures { Gave result c.new (lvals_more depth first c.old) }
{
    let mut out = first;
    while c.is_sign(",") {
        let next = next_lval(alloc, c, depth)?;
        out.push(next)?;
    }
    Ok(out)
}

#[tactic(auto, unfolding(jz_grammar::specs::Kinds::is_in))]
fn is_sum_assignment(token: &Token) -> bool
    ensures { result ≡ is_in sum_assignments token.now }
{
    is_sign(token, "=") || is_sign(token, "+=") || is_sign(token, "-=") || is_sign(token, "*=")
}

#[tactic(auto, unfolding(jz_grammar::specs::Kinds::is_in))]
fn is_quotient_assignment(token: &Token) -> bool
    ensures { result ≡ is_in quotient_assignments token.now }
{
    is_sign(token, "/=") || is_sign(token, "%=") || is_sign(token, "/s=") || is_sign(token, "%s=")
}

#[tactic(auto, unfolding(jz_grammar::specs::Kinds::is_in))]
fn is_bit_assignment(token: &Token) -> bool
    ensures { result ≡ is_in bit_assignments token.now }
{
    is_sign(token, "&=") || is_sign(token, "|=") || is_sign(token, "^=")
}

#[tactic(auto, unfolding(jz_grammar::specs::Kinds::is_in))]
fn is_shift_assignment(token: &Token) -> bool
    ensures { result ≡ is_in shift_assignments token.now }
{
    is_sign(token, "<<=")
        || is_sign(token, ">>=")
        || is_sign(token, ">>s=")
        || is_sign(token, "<<r=")
        || is_sign(token, ">>r=")
}

/// Whether it is `=`, alone or with an operation before it.
#[tactic(auto, using(crate::proofs::StmtLists::any_assignment))]
fn is_assignment(token: &Token) -> bool
    ensures { result ≡ is_in assignments token.now }
{
    is_sum_assignment(token)
        || is_quotient_assignment(token)
        || is_bit_assignment(token)
        || is_shift_assignment(token)
}

#[tactic(auto, unfolding(crate::specs::StmtTrees::number_operation))]
fn number_operation(token: &Token) -> Option<BinOp>
    ensures { result ≡ number_operation token.now }
{
    if has_text(token, "+=") {
        Some(BinOp::Add)
    } else if has_text(token, "-=") {
        Some(BinOp::Sub)
    } else if has_text(token, "*=") {
        Some(BinOp::Mul)
    } else if has_text(token, "/=") {
        Some(BinOp::Div)
    } else if has_text(token, "%=") {
        Some(BinOp::Rem)
    } else if has_text(token, "/s=") {
        Some(BinOp::DivS)
    } else if has_text(token, "%s=") {
        Some(BinOp::RemS)
    } else {
        None
    }
}

#[tactic(auto, unfolding(crate::specs::StmtTrees::bit_operation))]
fn bit_operation(token: &Token) -> Option<BinOp>
    ensures { result ≡ bit_operation token.now }
{
    if has_text(token, "&=") {
        Some(BinOp::And)
    } else if has_text(token, "|=") {
        Some(BinOp::Or)
    } else if has_text(token, "^=") {
        Some(BinOp::Xor)
    } else if has_text(token, "<<=") {
        Some(BinOp::Shl)
    } else if has_text(token, ">>=") {
        Some(BinOp::Shr)
    } else if has_text(token, ">>s=") {
        Some(BinOp::Sar)
    } else if has_text(token, "<<r=") {
        Some(BinOp::Rol)
    } else if has_text(token, ">>r=") {
        Some(BinOp::Ror)
    } else {
        None
    }
}

/// The operation of an assignment, none where it only sets.
#[tactic(auto, unfolding(crate::specs::StmtTrees::operation_of))]
fn operation_of(token: &Token) -> Option<BinOp>
    ensures { result ≡ operation_of token.now }
{
    match number_operation(token) {
        Some(operation) => Some(operation),
        None => bit_operation(token),
    }
}

#[tactic(auto, unfolding(jz_grammar::specs::Readers::one))]
fn operation(c: &mut Cursor) -> Result<Option<BinOp>, Stop>
    ensures { Gave result c.new (leaf assignments operation_of c.old) }
{
    match c.tokens() {
        [token, ..] if is_assignment(token) => {
            let operation = operation_of(token);
            c.advance();
            Ok(operation)
        }
        _ => Err(UNEXPECTED),
    }
}

/// What stands behind an `if` after the right side.
#[tactic(auto, unfolding(crate::specs::StmtReaders::condition))]
fn condition(alloc: Global, c: &mut Cursor, depth: u32) -> Result<Option<Expr>, Stop>
    ensures { Gave result c.new (condition depth c.old) }
{
    if c.is_word("if") {
        let _if = c.word("if")?;
        let cond = expr(alloc, c, depth)?;
        return Ok(Some(cond));
    }
    Ok(None)
}

fn span_of_lval(to: &Lval) -> Span
    ensures { result ≡ span_of_lval to.now }
{
    match to {
        Lval::Skip(span) => *span,
        Lval::Var(var) => var.span,
        Lval::Cell(var, _) => var.span,
        Lval::Store(access) => access.span,
    }
}

/// An assignment: where its first left side stands, and what it does.
#[tactic(auto, unfolding(crate::specs::StmtReaders::assign, crate::specs::StmtReaders::set_to))]
fn assign(alloc: Global, c: &mut Cursor, depth: u32) -> Result<(Span, StmtKind), Stop>
    ensures { Gave result c.new (assign depth c.old) }
{
    let first = lval(alloc, c, depth)?;
    let span = span_of_lval(&first);
    let mut begun = Seq::from_vec(Vec::with_capacity(alloc, 1)?);
    begun.push(first)?;
    let to = lvals_more(alloc, c, depth, begun)?;
    let op = operation(c)?;
    let rhs = rhs(alloc, c, depth)?;
    let cond = condition(alloc, c, depth)?;
    let _end = c.sign(";")?;
    Ok((span, StmtKind::Assign { to, op, rhs, cond }))
}

/// A call that sets nothing.
#[tactic(auto, unfolding(crate::specs::StmtReaders::call))]
fn call(alloc: Global, c: &mut Cursor, depth: u32) -> Result<(Span, StmtKind), Stop>
    ensures { Gave result c.new (call depth c.old) }
{
    let (name, span) = c.name(alloc)?;
    let out = call_args(alloc, c, depth)?;
    let _semicolon = c.sign(";")?;
    let rhs = Rhs::Call(name, out, span);
    let kind = StmtKind::Assign {
        to: Seq::new(alloc),
        op: None,
        rhs,
        cond: None,
    };
    Ok((span, kind))
}

#[tactic(auto, unfolding(crate::specs::StmtReaders::simple))]
pub fn simple(alloc: Global, c: &mut Cursor, depth: u32) -> Result<(Span, StmtKind), Stop>
    ensures { Gave result c.new (simple depth c.old) }
{
    if c.is_identifier_then("(") {
        call(alloc, c, depth)
    } else {
        assign(alloc, c, depth)
    }
}
