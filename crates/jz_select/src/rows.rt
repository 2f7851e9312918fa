//! The first row that matches, chosen by the operation.

ghost use Rattle.std.specs.Prelude.{◌≡◌, Some, None};
ghost use Rattle.jz_select.specs.Rows.{is_r, is_m, is_i, is_rm, is_rmi, is_flag, is_skip};
ghost use Rattle.jz_select.specs.Rows.{is_flag_result, is_pinned, is_same, is_apart, class_size};
ghost use Rattle.jz_select.specs.Rows.{is_wide, is_long, is_longest, is_byte_size};
ghost use Rattle.jz_select.specs.Rows.{is_below, swaps};
ghost use Rattle.jz_select.specs.Rows.{computes as computes_is, changes as changes_is, are_inline};
ghost use Rattle.jz_select.specs.Rows.{may_lead, times as times_is};
ghost use Rattle.jz_select.specs.Rows.{times_inline as times_inline_is};
ghost use Rattle.jz_select.specs.Rows.{product_size as product_size_of, is_product};
ghost use Rattle.jz_select.specs.Rows.{division_size as division_size_of};
ghost use Rattle.jz_select.specs.Rows.{shifts_inline as shifts_inline_is, keeps as keeps_is};
ghost use Rattle.jz_select.specs.Rows.{masks as masks_is, shifts_masked as shifts_masked_is};
ghost use Rattle.jz_select.specs.Rows.{one_fits as one_fits_is, two_fits as two_fits_is};
ghost use Rattle.jz_select.specs.Rows.{three_fits as three_fits_is};
ghost use Rattle.jz_select.specs.Rows.{divides_long as divides_long_is, sets as sets_is, sums};
ghost use Rattle.jz_select.specs.Rows.{is_quotient, named_if, intrinsic_of};
ghost use Rattle.jz_select.specs.Selected.{table, operations, first_of, pattern_chosen};
ghost use Rattle.jz_select.specs.InnerLayers.{row_if};

use crate::class::{Class, Mask, Meeting, Operand};
use crate::pattern::Pattern;
use crate::shape::{Shape, Value};
use jz_tree::{BinOp, Intrinsic};
use jz_words::Size;

fn r(c: Class) -> bool
    ensures { result ≡ is_r c }
{
    matches!(c, Class::Reg(_))
}

pub fn m(c: Class) -> bool
    ensures { result ≡ is_m c }
{
    matches!(c, Class::Mem(_))
}

fn i(c: Class) -> bool
    ensures { result ≡ is_i c }
{
    matches!(c, Class::Inline)
}

pub fn rm(c: Class) -> bool
    ensures { result ≡ is_rm c }
{
    r(c) || m(c)
}

pub fn rmi(c: Class) -> bool
    ensures { result ≡ is_rmi c }
{
    r(c) || m(c) || i(c)
}

pub fn flag(c: Class) -> bool
    ensures { result ≡ is_flag c }
{
    matches!(c, Class::Flag)
}

fn skip(c: Class) -> bool
    ensures { result ≡ is_skip c }
{
    matches!(c, Class::Skip)
}

pub fn flag_result(c: Class) -> bool
    ensures { result ≡ is_flag_result c }
{
    flag(c) || skip(c)
}

fn pinned(c: Class) -> bool
    ensures { result ≡ is_pinned c }
{
    r(c) || skip(c)
}

fn same(o: Operand) -> bool
    ensures { result ≡ is_same o }
{
    matches!(o.meeting, Meeting::Same)
}

pub fn apart(o: Operand) -> bool
    ensures { result ≡ is_apart o }
{
    matches!(o.meeting, Meeting::Apart)
}

fn size(c: Class) -> Option<Size>
    ensures { result ≡ class_size c }
{
    match c {
        Class::Reg(z) => Some(z),
        Class::Mem(z) => z,
        _ => None,
    }
}

fn wide(z: Option<Size>) -> bool
    ensures { result ≡ is_wide z }
{
    match z {
        None => false,
        Some(Size::S8) => false,
        Some(_) => true,
    }
}

fn long(z: Option<Size>) -> bool
    ensures { result ≡ is_long z }
{
    matches!(z, Some(Size::S32 | Size::S64))
}

fn longest(z: Option<Size>) -> bool
    ensures { result ≡ is_longest z }
{
    matches!(z, Some(Size::S64))
}

fn byte_size(z: Option<Size>) -> bool
    ensures { result ≡ is_byte_size z }
{
    match z {
        None => true,
        Some(z) => matches!(z, Size::S8),
    }
}

fn below(y: Option<Size>, z: Size) -> bool
    ensures { result ≡ is_below y z }
{
    match y {
        None => false,
        Some(y) => y.bits() < z.bits(),
    }
}

fn swapped(op: BinOp) -> bool
    ensures { result ≡ swaps op }
{
    matches!(op, BinOp::Add | BinOp::And | BinOp::Or | BinOp::Xor)
}

/// Whether `OP d, o` computes it: with d as its first operand, or with the operands swapped, or
/// behind a copy.
fn computes(swapped: bool, d: Class, a: Operand, o: Operand) -> bool
    ensures { result ≡ computes_is swapped d a o }
{
    let itself = same(a) && !(m(d) && m(o.class));
    let other = swapped && same(o) && !(m(d) && m(a.class));
    let copied = r(d) && apart(o);
    rm(d) && rmi(a.class) && (itself || other || copied)
}

fn changes(d: Class, a: Operand) -> bool
    ensures { result ≡ changes_is d a }
{
    rm(d) && rmi(a.class) && (same(a) || r(d))
}

fn times(d: Class, a: Operand, o: Operand) -> bool
    ensures { result ≡ times_is d a o }
{
    r(d) && wide(size(d)) && rm(o.class) && computes(!i(a.class), d, a, o)
}

fn times_inline(d: Class, a: Operand, o: Operand) -> bool
    ensures { result ≡ times_inline_is d a o }
{
    r(d) && wide(size(d)) && rm(a.class) && i(o.class)
}

fn product_size(z: Option<Size>, h: Class, l: Class, a: Operand, b: Operand) -> Option<Size>
    ensures { result ≡ product_size_of z h l a b }
{
    z.or(size(h).or(size(l).or(size(a.class).or(size(b.class)))))
}

fn product(z: Option<Size>, h: Class, l: Class, a: Operand, b: Operand) -> bool
    ensures { result ≡ is_product z h l a b }
{
    pinned(h)
        && long(product_size(z, h, l, a, b))
        && rmi(a.class)
        && rm(b.class)
        && (skip(l) || r(l) && computes(!i(a.class), l, a, b))
}

fn shifts_inline(d: Class, a: Operand, o: Operand) -> bool
    ensures { result ≡ shifts_inline_is d a o }
{
    i(o.class) && changes(d, a)
}

fn keeps(mask: Mask, longest: bool) -> bool
    ensures { result ≡ keeps_is mask longest }
{
    match mask {
        Mask::Five => !longest,
        Mask::Six => longest,
    }
}

fn masks(longest: bool, c: Class) -> bool
    ensures { result ≡ masks_is longest c }
{
    match c {
        Class::Masked(mask) => keeps(mask, longest),
        _ => false,
    }
}

fn shifts_masked(z: Option<Size>, d: Class, a: Operand, o: Operand) -> bool
    ensures { result ≡ shifts_masked_is z d a o }
{
    masks(longest(z.or(size(d).or(size(a.class)))), o.class) && computes(false, d, a, o)
}

fn leading(lead: Option<Class>) -> bool
    ensures { result ≡ may_lead lead }
{
    match lead {
        None => true,
        Some(c) => flag_result(c),
    }
}

fn both_inline(a: Operand, o: Operand) -> bool
    ensures { result ≡ are_inline a o }
{
    i(a.class) && i(o.class)
}

/// A row, where it matches.
fn row(number: u8, matched: bool) -> Option<Pattern>
    ensures { result ≡ row_if number matched }
{
    if matched {
        Some(Pattern::P(number))
    } else {
        None
    }
}

/// A sum or a conjunction of two operands, perhaps behind a flag.
fn sum(lead: Option<Class>, swapped: bool, d: Class, a: Operand, o: Operand) -> bool
    ensures { result ≡ sums lead swapped d a o }
{
    leading(lead) && rmi(o.class) && !both_inline(a, o) && computes(swapped, d, a, o)
}

fn quotient(d: Class, a: Operand, b: Operand) -> bool
    ensures { result ≡ is_quotient d a b }
{
    r(d) && long(size(d)) && rmi(a.class) && rm(b.class) && apart(b)
}

/// The row of an operation of two operands that is not one operand.
fn two(op: BinOp, d: Class, a: Operand, o: Operand) -> Option<Pattern>
    ensures { result ≡ first_of operations (Shape.Assign None d Class.Other (Value.Two op a o)) }
{
    match op {
        BinOp::Add | BinOp::Sub | BinOp::And | BinOp::Or | BinOp::Xor => {
            row(2, sum(None, swapped(op), d, a, o))
        }
        BinOp::Mul => {
            if times(d, a, o) {
                Some(Pattern::P(5))
            } else {
                row(6, times_inline(d, a, o))
            }
        }
        BinOp::Div | BinOp::Rem | BinOp::DivS | BinOp::RemS => row(8, quotient(d, a, o)),
        BinOp::Shl | BinOp::Shr | BinOp::Sar | BinOp::Rol | BinOp::Ror => {
            if shifts_inline(d, a, o) {
                Some(Pattern::P(9))
            } else {
                row(10, shifts_masked(None, d, a, o))
            }
        }
        _ => None,
    }
}

/// The same behind a flag or a high half.
fn two_behind(x: Class, op: BinOp, d: Class, a: Operand, o: Operand) -> Option<Pattern>
    ensures { result ≡ first_of table (Shape.Assign (Some x) d Class.Other (Value.Two op a o)) }
{
    match op {
        BinOp::Add | BinOp::Sub => row(2, sum(Some(x), swapped(op), d, a, o)),
        BinOp::Mul => row(7, product(None, x, d, a, o)),
        _ => None,
    }
}

fn cast(d: Class, z: Size, signed: bool, o: Class) -> Option<Pattern>
    ensures { let statement = Shape.Assign None d Class.Other (Value.Cast z signed o) in
        result ≡ first_of operations statement }
{
    let smaller = below(size(o), z);
    if signed {
        row(12, r(d) && rm(o) && smaller)
    } else if r(d) && rm(o) && smaller {
        Some(Pattern::P(11))
    } else {
        row(13, r(d) && r(o) && !smaller)
    }
}

fn behind(x: Class, d: Class, v: Value) -> Option<Pattern>
    ensures { result ≡ first_of table (Shape.Assign (Some x) d Class.Other v) }
{
    match v {
        Value::Alone => None,
        Value::Two(op, a, o) => two_behind(x, op, d, a, o),
        Value::Carry(op, a, o) => row(3, sum(Some(x), swapped(op), d, a, o)),
        Value::One(_) => None,
        Value::Cast(_, _, _) => None,
    }
}

fn assign(d: Class, w: Class, v: Value) -> Option<Pattern>
    ensures { result ≡ first_of table (Shape.Assign None d w v) }
{
    if rm(d) && rmi(w) && !(m(d) && m(w)) {
        return Some(Pattern::P(1));
    }
    match v {
        Value::Alone => None,
        Value::Two(op, a, o) => two(op, d, a, o),
        Value::Carry(op, a, o) => row(3, sum(None, swapped(op), d, a, o)),
        Value::One(a) => row(4, changes(d, a)),
        Value::Cast(z, signed, o) => cast(d, z, signed, o),
    }
}

fn tabled(s: Shape) -> Option<Pattern>
    ensures { result ≡ first_of table s }
{
    match s {
        Shape::Assign(None, d, w, v) => assign(d, w, v),
        Shape::Assign(Some(x), d, _, v) => behind(x, d, v),
        Shape::Conditional(d, o, c) => row(14, r(d) && wide(size(d)) && rm(o) && c),
        Shape::Test(c) => if c { Some(Pattern::Condition) } else { None },
        _ => None,
    }
}

fn one_fits(n: Intrinsic, z: Option<Size>, d: Class, a: Operand) -> bool
    ensures { result ≡ one_fits_is n z d a }
{
    match n {
        Intrinsic::Neg | Intrinsic::Inc | Intrinsic::Dec | Intrinsic::Not => changes(d, a),
        Intrinsic::Bswap => r(d) && long(z.or(size(d))) && changes(d, a),
        _ => false,
    }
}

fn two_fits(n: Intrinsic, z: Option<Size>, d: Class, a: Operand, o: Operand) -> bool
    ensures { result ≡ two_fits_is n z d a o }
{
    match n {
        Intrinsic::Add | Intrinsic::And | Intrinsic::Or | Intrinsic::Xor => {
            rmi(o.class) && computes(true, d, a, o)
        }
        Intrinsic::Sub => rmi(o.class) && computes(false, d, a, o),
        Intrinsic::Imul => times(d, a, o) || times_inline(d, a, o),
        Intrinsic::Shl | Intrinsic::Shr | Intrinsic::Sar | Intrinsic::Rol | Intrinsic::Ror =>
            shifts_inline(d, a, o) || shifts_masked(z, d, a, o),
        _ => false,
    }
}

fn three_fits(n: Intrinsic, d: Class, a: Operand, o: Operand, c: Class) -> bool
    ensures { result ≡ three_fits_is n d a o c }
{
    match n {
        Intrinsic::Adc => flag(c) && rmi(o.class) && computes(true, d, a, o),
        Intrinsic::Sbb => flag(c) && rmi(o.class) && computes(false, d, a, o),
        _ => false,
    }
}

fn division_size(
    z: Option<Size>,
    q: Class,
    r: Class,
    hi: Class,
    lo: Class,
    b: Class,
) -> Option<Size>
    ensures { result ≡ division_size_of z q r hi lo b }
{
    z.or(size(q).or(size(r).or(size(hi).or(size(lo).or(size(b))))))
}

fn divides_long(
    z: Option<Size>,
    q: Class,
    r: Class,
    hi: Class,
    lo: Class,
    b: Class,
    apart: bool,
) -> bool
    ensures { result ≡ divides_long_is z q r hi lo b apart }
{
    pinned(q)
        && pinned(r)
        && rmi(hi)
        && rmi(lo)
        && rm(b)
        && apart
        && long(division_size(z, q, r, hi, lo, b))
}

fn sets(z: Option<Size>, d: Class) -> bool
    ensures { result ≡ sets_is z d }
{
    byte_size(z) && rm(d) && byte_size(size(d))
}

fn name_if(n: Intrinsic, matched: bool) -> Option<Intrinsic>
    ensures { result ≡ named_if n matched }
{
    if matched { Some(n) } else { None }
}

fn intrinsic(s: Shape) -> Option<Intrinsic>
    ensures { result ≡ intrinsic_of s }
{
    match s {
        Shape::One(n, z, d, a) => name_if(n, one_fits(n, z, d, a)),
        Shape::Two(n, z, d, a, o) => name_if(n, two_fits(n, z, d, a, o)),
        Shape::Three(n, d, a, o, c) => name_if(n, three_fits(n, d, a, o, c)),
        Shape::Address(z, d, sum) => name_if(Intrinsic::Lea, r(d) && longest(z.or(size(d))) && sum),
        Shape::Compare(n, a, o) => name_if(n, rm(a) && (r(o) || i(o))),
        Shape::Product(z, h, l, a, b) => name_if(Intrinsic::Mul, product(z, h, l, a, b)),
        Shape::Division(z, q, r, hi, lo, b, apart) => {
            name_if(Intrinsic::Div, divides_long(z, q, r, hi, lo, b, apart))
        }
        Shape::Set(z, d, c) => name_if(Intrinsic::Setcc, sets(z, d) && c),
        _ => None,
    }
}

/// The first row, or the intrinsic.
#[tactic(auto, unfolding(crate::specs::Selected::pattern_chosen))]
pub fn choose(s: Shape) -> Option<Pattern>
    ensures { result ≡ pattern_chosen s }
{
    match tabled(s) {
        Some(p) => Some(p),
        None => match intrinsic(s) {
            Some(n) => Some(Pattern::Intrinsic(n)),
            None => None,
        },
    }
}
