//! The operators of two operands.

ghost use Rattle.std.specs.Prelude.{◌≡◌, []};
ghost use Rattle.jz_grammar.specs.Kinds.{has, is_in};
ghost use Rattle.jz_grammar.specs.Readers.{leaf};
ghost use Rattle.jz_grammar.specs.Gave.{Gave};
ghost use Rattle.jz_parse_expr.specs.Operators.{orders, ops_of, op_of, shift_of, comparison_of, joining_of};

use jz_grammar::{Cursor, Stop, Token, UNEXPECTED, has_text, is_sign};
use jz_tree::BinOp;

#[tactic(auto, unfolding(jz_grammar::specs::Kinds::is_in))]
fn is_product(token: &Token) -> bool
    ensures { result ≡ is_in (ops_of 0) token.now }
{
    is_sign(token, "*")
        || is_sign(token, "/")
        || is_sign(token, "%")
        || is_sign(token, "/s")
        || is_sign(token, "%s")
}

#[tactic(auto, unfolding(jz_grammar::specs::Kinds::is_in))]
fn is_sum(token: &Token) -> bool
    ensures { result ≡ is_in (ops_of 1) token.now }
{
    is_sign(token, "+") || is_sign(token, "-")
}

#[tactic(auto, unfolding(jz_grammar::specs::Kinds::is_in))]
fn is_shift(token: &Token) -> bool
    ensures { result ≡ is_in (ops_of 2) token.now }
{
    is_sign(token, "<<")
        || is_sign(token, ">>")
        || is_sign(token, ">>s")
        || is_sign(token, "<<r")
        || is_sign(token, ">>r")
}

#[tactic(auto, unfolding(jz_grammar::specs::Kinds::is_in))]
fn is_unsigned_comparison(token: &Token) -> bool
    ensures { result ≡ is_in orders token.now }
{
    is_sign(token, "<") || is_sign(token, "<=") || is_sign(token, ">") || is_sign(token, ">=")
}

#[tactic(auto, unfolding(jz_grammar::specs::Kinds::is_in))]
fn is_comparison(token: &Token) -> bool
    ensures { result ≡ is_in (ops_of 3) token.now }
{
    is_unsigned_comparison(token)
        || is_sign(token, "<s")
        || is_sign(token, "<=s")
        || is_sign(token, ">s")
        || is_sign(token, ">=s")
}

#[tactic(auto, unfolding(jz_grammar::specs::Kinds::is_in))]
fn is_equality(token: &Token) -> bool
    ensures { result ≡ is_in (ops_of 4) token.now }
{
    is_sign(token, "==") || is_sign(token, "!=")
}

/// Whether it is an operator of this level, the tightest of which is 0 and the last 9.
#[tactic(auto, using(crate::proofs::OperatorLemmas::last_level))]
fn is_op(token: &Token, level: u8) -> bool
    ensures { result ≡ is_in (ops_of level) token.now }
{
    match level {
        0 => is_product(token),
        1 => is_sum(token),
        2 => is_shift(token),
        3 => is_comparison(token),
        4 => is_equality(token),
        5 => is_sign(token, "&"),
        6 => is_sign(token, "^"),
        7 => is_sign(token, "|"),
        8 => is_sign(token, "&&"),
        _ => is_sign(token, "||"),
    }
}

#[tactic(auto, unfolding(crate::specs::Operators::joining_of))]
fn joining_of(token: &Token) -> BinOp
    ensures { result ≡ joining_of token.now }
{
    if has_text(token, "&") {
        BinOp::And
    } else if has_text(token, "^") {
        BinOp::Xor
    } else if has_text(token, "|") {
        BinOp::Or
    } else if has_text(token, "&&") {
        BinOp::AndThen
    } else {
        BinOp::OrElse
    }
}

#[tactic(auto, unfolding(crate::specs::Operators::comparison_of))]
fn comparison_of(token: &Token) -> BinOp
    ensures { result ≡ comparison_of token.now }
{
    if has_text(token, "<") {
        BinOp::Lt
    } else if has_text(token, "<=") {
        BinOp::Le
    } else if has_text(token, ">") {
        BinOp::Gt
    } else if has_text(token, ">=") {
        BinOp::Ge
    } else if has_text(token, "<s") {
        BinOp::LtS
    } else if has_text(token, "<=s") {
        BinOp::LeS
    } else if has_text(token, ">s") {
        BinOp::GtS
    } else if has_text(token, ">=s") {
        BinOp::GeS
    } else if has_text(token, "==") {
        BinOp::Eq
    } else if has_text(token, "!=") {
        BinOp::Ne
    } else {
        joining_of(token)
    }
}

#[tactic(auto, unfolding(crate::specs::Operators::shift_of))]
fn shift_of(token: &Token) -> BinOp
    ensures { result ≡ shift_of token.now }
{
    if has_text(token, "<<") {
        BinOp::Shl
    } else if has_text(token, ">>") {
        BinOp::Shr
    } else if has_text(token, ">>s") {
        BinOp::Sar
    } else if has_text(token, "<<r") {
        BinOp::Rol
    } else if has_text(token, ">>r") {
        BinOp::Ror
    } else {
        comparison_of(token)
    }
}

/// The operation of an operator.
#[tactic(auto, unfolding(crate::specs::Operators::op_of))]
fn op_of(token: &Token) -> BinOp
    ensures { result ≡ op_of token.now }
{
    if has_text(token, "*") {
        BinOp::Mul
    } else if has_text(token, "/") {
        BinOp::Div
    } else if has_text(token, "%") {
        BinOp::Rem
    } else if has_text(token, "/s") {
        BinOp::DivS
    } else if has_text(token, "%s") {
        BinOp::RemS
    } else if has_text(token, "+") {
        BinOp::Add
    } else if has_text(token, "-") {
        BinOp::Sub
    } else {
        shift_of(token)
    }
}

/// Whether an operator of this level stands there.
pub fn begins_op(c: &Cursor, level: u8) -> bool
    ensures { result ≡ has (ops_of level) c.now }
{
    match c.tokens() {
        [] => false,
        [token, ..] => is_op(token, level),
    }
}

/// An operator of this level.
#[tactic(auto, unfolding(jz_grammar::specs::Readers::one))]
pub fn operator(c: &mut Cursor, level: u8) -> Result<BinOp, Stop>
    ensures { Gave result c.new (leaf (ops_of level) op_of c.old) }
{
    match c.tokens() {
        [token, ..] if is_op(token, level) => {
            let op = op_of(token);
            c.advance();
            Ok(op)
        }
        _ => Err(UNEXPECTED),
    }
}
