//! What is found of an expression, by what is found of its parts.

ghost use Rattle.std.specs.Prelude.{◌≡◌, IfOk, pos};
ghost use Rattle.jz_limits.specs.InnerLooked as looks;
ghost use Rattle.jz_limits.specs.InnerLooked.{pieces_of, seen_as, seen_of, total};
ghost use Rattle.jz_limits.specs.Asked as asks;
ghost use Rattle.jz_limits.specs.Asked.{or_zero};
ghost use Rattle.jz_integers.specs.Integers.{the_number};

use crate::limit::Limit;
use crate::terms::{Terms, added, is_displacement, is_index, is_scale, less, of_number};
use jz_integers::{Constant, joined, the_number};
use jz_meaning::{Kind, kind_of};
use jz_select::immediate;
use jz_tree::{BinOp, Size, Span, Var, is_shift};
use jz_type_names::{is_register_array, known};
use std::alloc::AllocError;

/// How an expression is asked: where its inline expressions are told, if not each at its first
/// token; and the size of the operation of which it is an operand.
#[derive(Clone, Copy)]
pub struct Asking {
    pub place: Option<Span>,
    pub size: Option<Size>,
}

/// What is found of an expression.
#[derive(Clone, Copy)]
pub struct Looked {
    pub span: Span,
    pub inline: bool,
    pub value: Option<Constant>,
    pub width: Option<Limit>,
    pub range: Option<Limit>,
    pub operand: Option<Limit>,
    pub terms: Terms,
    /// Its scales have fields.
    pub scaled: bool,
}

/// What is found of the parts of an expression, as far as that is the expression's where it is not
/// inline.
#[derive(Clone, Copy)]
pub struct Pieces {
    pub width: Option<Limit>,
    pub range: Option<Limit>,
    pub operand: Option<Limit>,
    pub terms: Terms,
    pub scaled: bool,
}

/// A limit where something is not fine.
pub fn if_not(fine: bool, limit: Limit) -> Option<Limit>
    ensures { result ≡ looks.if_not fine limit }
{
    if fine { None } else { Some(limit) }
}

/// The first of two.
pub fn sooner(one: Option<Limit>, other: Option<Limit>) -> Option<Limit>
    ensures { result ≡ looks.sooner one other }
{
    match one {
        None => other,
        Some(limit) => Some(limit),
    }
}

fn zero() -> Terms
    ensures { total result ≡ pos 0 }
{
    of_number(0)
}

fn number_terms(value: Option<Constant>) -> Terms
    ensures { total result ≡ or_zero (the_number value) }
{
    match the_number(value) {
        None => zero(),
        Some(n) => of_number(n),
    }
}

fn has_immediate(size: Option<Size>, number: Option<i128>) -> bool
    ensures { result ≡ asks.has_immediate size number }
{
    match size {
        None => true,
        Some(size) => match number {
            None => true,
            Some(n) => immediate(size, n).is_some(),
        },
    }
}

fn is_count(size: Option<Size>, number: Option<i128>) -> bool
    ensures { result ≡ asks.is_count size number }
{
    match size {
        None => true,
        Some(size) => match number {
            None => true,
            Some(n) => 0 <= n && n < size.bits() as i128,
        },
    }
}

fn place_or(place: Option<Span>, at: Span) -> Span
    ensures { result ≡ asks.place_or place at }
{
    match place {
        None => at,
        Some(place) => place,
    }
}

/// An expression with these parts: where it is inline it has its value's limits, else its parts'.
pub fn finished(
    asking: Asking,
    span: Span,
    inline: bool,
    value: Option<Constant>,
    pieces: Pieces,
) -> Looked
    ensures { seen_of result ≡ seen_as inline value span asking (pieces_of pieces) }
{
    if inline {
        let place = place_or(asking.place, span);
        let fine = has_immediate(asking.size, the_number(value));
        Looked {
            span,
            inline: true,
            value,
            width: if_not(value.is_some(), Limit::InlineWidth(place)),
            range: pieces.range,
            operand: if_not(fine, Limit::ImmRange(span)),
            terms: number_terms(value),
            scaled: true,
        }
    } else {
        Looked {
            span,
            inline: false,
            value,
            width: pieces.width,
            range: pieces.range,
            operand: pieces.operand,
            terms: pieces.terms,
            scaled: pieces.scaled,
        }
    }
}

/// Of what has no parts.
pub fn no_pieces() -> Pieces
    ensures { pieces_of result ≡ looks.no_part }
{
    Pieces {
        width: None,
        range: None,
        operand: None,
        terms: zero(),
        scaled: true,
    }
}

/// Of what has one operand.
pub fn inner_pieces(inner: Looked) -> Pieces
    ensures { pieces_of result ≡ looks.inner_part (seen_of inner) }
{
    Pieces {
        width: inner.width,
        range: inner.range,
        operand: inner.operand,
        terms: zero(),
        scaled: true,
    }
}

fn is_within(kind: Kind, number: Option<i128>) -> bool
    ensures { result ≡ asks.within_cells number kind }
{
    match number {
        None => true,
        Some(n) => match kind {
            Kind::Array(_, cells) => 0 <= n && (n as u128) < cells,
            Kind::Undeclared => false,
            Kind::Int => false,
            Kind::Bool => false,
            Kind::Word(_) => false,
        },
    }
}

fn cell_range(var: &Var, index: Option<Constant>) -> Option<Limit>
    ensures { result ≡ looks.range_of var.now index }
{
    let fine = !is_register_array(known(var)) || is_within(kind_of(var), the_number(index));
    if_not(fine, Limit::IndexRange(var.span))
}

fn index_field(var: &Var, terms: Terms) -> Option<Limit>
    ensures { result ≡ looks.index_field var.now (total terms) }
{
    let fine = is_register_array(known(var)) || is_index(kind_of(var), terms);
    if_not(fine, Limit::ImmRange(var.span))
}

/// Of a cell whose index was looked at.
pub fn cell_pieces(var: &Var, index: Looked) -> Pieces
    ensures { pieces_of result ≡ looks.cell_part var.now (seen_of index) }
{
    Pieces {
        width: index.width,
        range: sooner(cell_range(var, index.value), index.range),
        operand: index_field(var, index.terms),
        terms: zero(),
        scaled: true,
    }
}

/// Where an address has no fields.
pub fn address_field(span: Span, address: Looked) -> Option<Limit>
    ensures { result ≡ looks.address_field span (seen_of address) }
{
    if_not(
        is_displacement(address.terms) && address.scaled,
        Limit::ImmRange(span),
    )
}

/// Of an access to memory whose address was looked at.
pub fn load_pieces(span: Span, address: Looked) -> Pieces
    ensures { pieces_of result ≡ looks.load_part span (seen_of address) }
{
    Pieces {
        width: address.width,
        range: address.range,
        operand: address_field(span, address),
        terms: zero(),
        scaled: true,
    }
}

/// Of the count of a shift.
pub fn count_field(size: Option<Size>, count: Looked) -> Option<Limit>
    ensures { result ≡ looks.count_field size (seen_of count) }
{
    if count.inline {
        if_not(
            is_count(size, the_number(count.value)),
            Limit::ImmRange(count.span),
        )
    } else {
        count.operand
    }
}

fn is_scale_value(number: Option<i128>) -> bool
    ensures { result ≡ looks.scale_value number }
{
    match number {
        None => true,
        Some(n) => is_scale(n),
    }
}

fn product_scaled(left: Looked, right: Looked) -> bool
    ensures { result ≡ looks.product_scaled (seen_of left) (seen_of right) }
{
    if left.inline {
        is_scale_value(the_number(left.value))
    } else if right.inline {
        is_scale_value(the_number(right.value))
    } else {
        true
    }
}

fn operation_scaled(op: BinOp, left: Looked, right: Looked) -> bool
    ensures { result ≡ looks.operation_scaled op (seen_of left) (seen_of right) }
{
    match op {
        BinOp::Add => left.scaled && right.scaled,
        BinOp::Sub => left.scaled,
        BinOp::Mul => product_scaled(left, right),
        _ => true,
    }
}

fn operation_terms(op: BinOp, left: Looked, right: Looked) -> Result<Terms, AllocError>
    ensures { let terms = looks.operation_terms op (seen_of left) (seen_of right) in
        IfOk result (λ t. total t ≡ terms) }
{
    match op {
        BinOp::Add => added(left.terms, right.terms),
        BinOp::Sub => match the_number(right.value) {
            None => less(left.terms, 0),
            Some(n) => less(left.terms, n),
        },
        _ => Ok(zero()),
    }
}

fn operation_pieces(
    op: BinOp,
    size: Option<Size>,
    left: Looked,
    right: Looked,
) -> Result<Pieces, AllocError>
    ensures { let part = looks.operation_part op size (seen_of left) (seen_of right) in
        IfOk result (λ p. pieces_of p ≡ part) }
{
    let terms = operation_terms(op, left, right)?;
    let behind = if is_shift(op) {
        count_field(size, right)
    } else {
        right.operand
    };
    Ok(Pieces {
        width: sooner(left.width, right.width),
        range: sooner(left.range, right.range),
        operand: sooner(left.operand, behind),
        terms,
        scaled: operation_scaled(op, left, right),
    })
}

/// An operation on two operands.
pub fn operation(
    asking: Asking,
    op: BinOp,
    span: Span,
    left: Looked,
    right: Looked,
) -> Result<Looked, AllocError>
    ensures { let seen = looks.operation_seen asking op span (seen_of left) (seen_of right) in
        IfOk result (λ l. seen_of l ≡ seen) }
{
    let pieces = operation_pieces(op, asking.size, left, right)?;
    let value = joined(op, left.value, right.value);
    Ok(finished(asking, span, left.inline && right.inline, value, pieces))
}
