//! Reads expressions. Each function takes how much may still be nested.

ghost use Rattle.std.specs.Prelude.{◌≡◌, ◌≤◌, [], ◌∷◌, codes, IfOk};
ghost use Rattle.jz_grammar.specs.Kinds.{sign, has};
ghost use Rattle.jz_grammar.specs.Readers.{through, optional};
ghost use Rattle.jz_grammar.specs.Gave.{Gave};
ghost use Rattle.jz_parse_expr.specs.Trees.{used_of, access_of, load_expr, group_expr};
ghost use Rattle.jz_parse_expr.specs.Readers.{expr_starts, signed_starts, expr, index, access, size_mark, unary, unary_of, signed_of, name_form, group_form, cast_rest, plain_rest, sized_rest, bracket, cast_access, plain_access, expr_of, levels, rest_of};

use crate::operator::{begins_op, operator};
use jz_grammar::{Cursor, Stop};
use jz_tree::{Access, Boxed, Expr, Size, Span, Text, Var};
use std::alloc::{AllocError, Global};

/// Where an access stands, the size that is written, and the address.
type AccessParts = (Span, (Option<Size>, Expr));

fn used_of(name: (Text, Span)) -> Var
    ensures { result ≡ used_of name }
{
    let (text, span) = name;
    Var {
        name: text,
        copy: 0,
        cell: None,
        decl: None,
        span,
    }
}

fn access_of(alloc: Global, parts: AccessParts) -> Result<Access, AllocError>
    ensures { IfOk result (λ access. access ≡ access_of parts) }
{
    let (span, (size, at)) = parts;
    Ok(Access {
        size,
        at: Boxed::new(alloc, at)?,
        unaligned: false,
        span,
    })
}

fn load(alloc: Global, parts: AccessParts) -> Result<(Span, Expr), AllocError>
    ensures { IfOk result (λ e. e ≡ load_expr parts) }
{
    let span = parts.0;
    let access = access_of(alloc, parts)?;
    Ok((span, Expr::Load(access)))
}

#[cycle(expressions)]
fn unary(alloc: Global, c: &mut Cursor, depth: u32) -> Result<(Span, Expr), Stop>
    ensures { Gave result c.new (unary depth c.old) }
{
    unary_form(alloc, c, depth)
}

#[cycle(expressions)]
#[tactic(auto, unfolding(crate::specs::Readers::unary_of, crate::specs::Readers::number_form, crate::specs::Readers::true_form, crate::specs::Readers::false_form))]
fn unary_form(alloc: Global, c: &mut Cursor, depth: u32) -> Result<(Span, Expr), Stop>
    ensures { Gave result c.new (unary_of unary depth c.old) }
{
    if c.is_number() {
        let (value, span) = c.number()?;
        return Ok((span, Expr::Num(value, span)));
    }
    if c.is_identifier() {
        return name_form(alloc, c, depth);
    }
    if c.is_word("true") {
        let span = c.word("true")?;
        return Ok((span, Expr::Bool(true, span)));
    }
    if c.is_word("false") {
        let span = c.word("false")?;
        return Ok((span, Expr::Bool(false, span)));
    }
    signed_form(alloc, c, depth)
}

/// The forms that begin with a sign.
#[cycle(expressions)]
#[tactic(auto, unfolding(crate::specs::Readers::signed_of, crate::specs::Readers::neg_form, crate::specs::Readers::not_form, crate::specs::Readers::load_form))]
fn signed_form(alloc: Global, c: &mut Cursor, depth: u32) -> Result<(Span, Expr), Stop>
    ensures { Gave result c.new (signed_of unary depth c.old) }
{
    if c.is_sign("-") {
        let (span, inner) = c.open("-", depth)?;
        let (_from, e) = unary(alloc, c, inner)?;
        return Ok((span, Expr::Neg(Boxed::new(alloc, e)?, span)));
    }
    if c.is_sign("!") {
        let (span, inner) = c.open("!", depth)?;
        let (_from, e) = unary(alloc, c, inner)?;
        return Ok((span, Expr::Not(Boxed::new(alloc, e)?, span)));
    }
    if c.is_sign("[") {
        let parts = plain_access(alloc, c, depth)?;
        return Ok(load(alloc, parts)?);
    }
    group_form(alloc, c, depth)
}

#[cycle(expressions)]
#[tactic(auto, unfolding(crate::specs::Readers::name_form))]
fn name_form(alloc: Global, c: &mut Cursor, depth: u32) -> Result<(Span, Expr), Stop>
    ensures { Gave result c.new (name_form unary depth c.old) }
{
    let name = c.name(alloc)?;
    let span = name.1;
    let var = used_of(name);
    if c.is_sign("[") {
        let at = bracket(alloc, c, depth)?;
        return Ok((span, Expr::Cell(var, Boxed::new(alloc, at)?)));
    }
    Ok((span, Expr::Var(var)))
}

#[cycle(expressions)]
#[tactic(auto, unfolding(crate::specs::Readers::bracket))]
fn bracket(alloc: Global, c: &mut Cursor, depth: u32) -> Result<Expr, Stop>
    ensures { Gave result c.new (bracket unary depth c.old) }
{
    let (_span, inner) = c.open("[", depth)?;
    let (_from, e) = spanned(alloc, c, inner)?;
    let _close = c.sign("]")?;
    Ok(e)
}

#[cycle(expressions)]
#[tactic(auto, unfolding(crate::specs::Readers::plain_access))]
fn plain_access(alloc: Global, c: &mut Cursor, depth: u32) -> Result<AccessParts, Stop>
    ensures { Gave result c.new (plain_access unary depth c.old) }
{
    let (span, inner) = c.open("[", depth)?;
    let size = size_mark(c)?;
    let (_from, at) = spanned(alloc, c, inner)?;
    let _close = c.sign("]")?;
    Ok((span, (size, at)))
}

/// What stands in parentheses, and behind them in the forms of a size and of a cast.
#[cycle(expressions)]
#[tactic(auto, unfolding(crate::specs::Readers::group_form, crate::specs::Readers::group))]
fn group_form(alloc: Global, c: &mut Cursor, depth: u32) -> Result<(Span, Expr), Stop>
    ensures { Gave result c.new (group_form unary depth c.old) }
{
    let (span, inner) = c.open("(", depth)?;
    if c.is_word_type() {
        let (size, at) = sized_rest(alloc, c, inner)?;
        return Ok(load(alloc, (span, (Some(size), at)))?);
    }
    if c.is_cast() {
        return cast_rest(alloc, c, inner, span);
    }
    plain_rest(alloc, c, inner, span)
}

/// A size behind its parenthesis, and the address in the bracket that follows.
#[cycle(expressions)]
#[tactic(auto, unfolding(crate::specs::Readers::sized_rest))]
fn sized_rest(alloc: Global, c: &mut Cursor, depth: u32) -> Result<(Size, Expr), Stop>
    ensures { Gave result c.new (sized_rest (unary depth) c.old) }
{
    let size = c.word_type()?;
    let _close = c.sign(")")?;
    let _open = c.sign("[")?;
    let (_from, at) = spanned(alloc, c, depth)?;
    let _end = c.sign("]")?;
    Ok((size, at))
}

#[cycle(expressions)]
#[tactic(auto, unfolding(crate::specs::Readers::cast_rest))]
fn cast_rest(alloc: Global, c: &mut Cursor, depth: u32, span: Span) -> Result<(Span, Expr), Stop>
    ensures { Gave result c.new
        (through (λ group. group_expr span group) (cast_rest (unary depth) c.old)) }
{
    let (size, signed) = c.cast()?;
    let _close = c.sign(")")?;
    let (_from, e) = unary(alloc, c, depth)?;
    let e = Boxed::new(alloc, e)?;
    Ok((
        span,
        Expr::Cast {
            size,
            signed,
            e,
            span,
        },
    ))
}

#[cycle(expressions)]
#[tactic(auto, unfolding(crate::specs::Readers::plain_rest))]
fn plain_rest(alloc: Global, c: &mut Cursor, depth: u32, span: Span) -> Result<(Span, Expr), Stop>
    ensures { Gave result c.new
        (through (λ group. group_expr span group) (plain_rest (unary depth) c.old)) }
{
    let (_from, e) = spanned(alloc, c, depth)?;
    let _close = c.sign(")")?;
    Ok((span, e))
}

/// An expression, and where its first token stands.
#[cycle(expressions)]
#[tactic(auto, unfolding(crate::specs::Readers::expr_of))]
fn spanned(alloc: Global, c: &mut Cursor, depth: u32) -> Result<(Span, Expr), Stop>
    ensures { Gave result c.new (expr_of (unary depth) c.old) }
{
    level(alloc, c, depth, 10)
}

/// What the operators of the levels below that number join.
#[cycle(expressions)]
#[tactic(auto, using(crate::proofs::Chain::level_zero, crate::proofs::Chain::level_ok, crate::proofs::Chain::level_err))]
fn level(alloc: Global, c: &mut Cursor, depth: u32, number: u8) -> Result<(Span, Expr), Stop>
    requires { number ≤ 10 }
    ensures { Gave result c.new (levels (unary depth) number c.old) }
{
    if number == 0 {
        return unary(alloc, c, depth);
    }
    let first = level(alloc, c, depth, number - 1)?;
    rest(alloc, c, depth, number - 1, first)
}

/// The operators of that level and their right sides, behind the first operand.
#[cycle(expressions)]
#[tactic(auto, using(crate::proofs::Chain::rest_done, crate::proofs::Chain::rest_next, crate::proofs::Chain::rest_op_err, crate::proofs::Chain::rest_sub_err, crate::proofs::Chain::rest_shorter))]
fn rest(
    alloc: Global,
    c: &mut Cursor,
    depth: u32,
    number: u8,
    first: (Span, Expr),
) -> Result<(Span, Expr), Stop>
    requires { number ≤ 9 }
    ensures { Gave result c.new (rest_of (levels (unary depth) number) number first c.old) }
{
    let (span, first) = first;
    let mut left = first;
    while begins_op(c, number) {
        let op = operator(c, number)?;
        let (_from, right) = level(alloc, c, depth, number)?;
        left = Expr::Bin(
            op,
            Boxed::new(alloc, left)?,
            Boxed::new(alloc, right)?,
            span,
        );
    }
    Ok((span, left))
}

#[tactic(auto, unfolding(crate::specs::Readers::size_mark))]
fn size_mark(c: &mut Cursor) -> Result<Option<Size>, Stop>
    ensures { Gave result c.new (optional (sign (codes ":") ∷ []) size_mark c.old) }
{
    if !c.is_sign(":") {
        return Ok(None);
    }
    let _mark = c.sign(":")?;
    let size = c.word_type()?;
    Ok(Some(size))
}

/// Whether one of the forms begins there that begin with a sign.
#[tactic(auto, unfolding(jz_grammar::specs::Kinds::is_in))]
fn begins_signed(c: &Cursor) -> bool
    ensures { result ≡ has signed_starts c.now }
{
    c.is_sign("-") || c.is_sign("!") || c.is_sign("[") || c.is_sign("(")
}

/// Whether an expression begins there.
#[tactic(auto, using(crate::proofs::Chain::begins_is))]
pub fn begins_expr(c: &Cursor) -> bool
    ensures { result ≡ has expr_starts c.now }
{
    c.is_number()
        || c.is_identifier()
        || c.is_word("true")
        || c.is_word("false")
        || begins_signed(c)
}

/// An expression.
#[tactic(auto, unfolding(crate::specs::Readers::expr, crate::specs::Readers::spanned_expression))]
pub fn expr(alloc: Global, c: &mut Cursor, depth: u32) -> Result<Expr, Stop>
    ensures { Gave result c.new (expr depth c.old) }
{
    let (_span, e) = spanned(alloc, c, depth)?;
    Ok(e)
}

/// An expression in brackets, as behind an array's name.
#[tactic(auto, unfolding(crate::specs::Readers::index))]
pub fn index(alloc: Global, c: &mut Cursor, depth: u32) -> Result<Expr, Stop>
    ensures { Gave result c.new (index depth c.old) }
{
    let e = bracket(alloc, c, depth)?;
    Ok(e)
}

#[tactic(auto, unfolding(crate::specs::Readers::cast_access))]
fn cast_access(alloc: Global, c: &mut Cursor, depth: u32) -> Result<AccessParts, Stop>
    ensures { Gave result c.new (cast_access unary depth c.old) }
{
    let (span, inner) = c.open("(", depth)?;
    let (size, at) = sized_rest(alloc, c, inner)?;
    Ok((span, (Some(size), at)))
}

/// An access to memory.
#[tactic(auto, unfolding(crate::specs::Readers::access))]
pub fn access(alloc: Global, c: &mut Cursor, depth: u32) -> Result<Access, Stop>
    ensures { Gave result c.new (access depth c.old) }
{
    if c.is_sign("(") {
        let parts = cast_access(alloc, c, depth)?;
        return Ok(access_of(alloc, parts)?);
    }
    let parts = plain_access(alloc, c, depth)?;
    Ok(access_of(alloc, parts)?)
}
