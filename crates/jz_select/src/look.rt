//! What an expression is.

ghost use Rattle.std.specs.Prelude.{◌≡◌};
ghost use Rattle.jz_type_names.specs.Kinds.{known_of};
ghost use Rattle.jz_select.specs.Look.{look_of, is_inline_var, is_reg64};
ghost use Rattle.jz_select.specs.Look.{is_regs64, terms_of};
ghost use Rattle.jz_select.specs.Look.{compares_values as compares_values_is};
ghost use Rattle.jz_select.specs.Look.{gives_number as gives_number_is};
ghost use Rattle.jz_select.specs.Sums.{term};

use crate::class::Sum;
use jz_tree::{BinOp, Expr, Storage, Var, joins};
use jz_type_names::{Kind, known};
use jz_words::Size;

/// Whether it is an inline integer; an unknown name is none.
fn is_inline(v: &Var) -> bool
    ensures { result ≡ is_inline_var (known_of v.now) }
{
    match known(v) {
        None => false,
        Some(d) => matches!((d.storage, d.kind), (Storage::Inline, Kind::Int)),
    }
}

fn is_word(v: &Var) -> bool
    ensures { result ≡ is_reg64 (known_of v.now) }
{
    match known(v) {
        None => false,
        Some(d) => matches!((d.storage, d.kind), (Storage::Reg, Kind::Word(Size::S64))),
    }
}

fn is_words(v: &Var) -> bool
    ensures { result ≡ is_regs64 (known_of v.now) }
{
    match known(v) {
        None => false,
        Some(d) => matches!((d.storage, d.kind), (Storage::Reg, Kind::Array(Size::S64))),
    }
}

/// Whether it is a comparison.
pub fn compares_values(op: BinOp) -> bool
    ensures { result ≡ compares_values_is op }
{
    match op {
        BinOp::Eq | BinOp::Ne | BinOp::Lt | BinOp::Le | BinOp::Gt | BinOp::Ge => true,
        BinOp::LtS | BinOp::LeS | BinOp::GtS | BinOp::GeS => true,
        _ => false,
    }
}

/// Whether it gives an integer of integers.
pub fn gives_number(op: BinOp) -> bool
    ensures { result ≡ gives_number_is op }
{
    !joins(op) && !compares_values(op)
}

/// Whether it is an integer that is known when the text is compiled.
pub fn inline(e: &Expr) -> bool
    ensures { result ≡ (look_of e.now).inline }
{
    let mut cur = e;
    loop {
        match cur {
            Expr::Num(_, _) => return true,
            Expr::Bool(_, _) => return false,
            Expr::Var(v) => return is_inline(v),
            Expr::Cell(_, _) => return false,
            Expr::Load(_) => return false,
            Expr::Neg(a, _) => cur = a.get(),
            Expr::Not(a, _) => cur = a.get(),
            Expr::Cast { .. } => return false,
            Expr::Bin(op, a, b, _) => {
                if !gives_number(*op) {
                    return false;
                }
                if !inline(b.get()) {
                    return false;
                }
                cur = a.get();
            }
        }
    }
}

/// Whether it is a bool that is known when the text is compiled.
pub fn inline_condition(e: &Expr) -> bool
    ensures { result ≡ (look_of e.now).condition }
{
    let mut cur = e;
    loop {
        match cur {
            Expr::Num(_, _) => return false,
            Expr::Bool(_, _) => return true,
            Expr::Var(_) => return false,
            Expr::Cell(_, _) => return false,
            Expr::Load(_) => return false,
            Expr::Neg(_, _) => return false,
            Expr::Not(a, _) => cur = a.get(),
            Expr::Cast { .. } => return false,
            Expr::Bin(op, a, b, _) => {
                if !joins(*op) {
                    return compares_values(*op) && inline(b.get()) && inline(a.get());
                }
                if !inline_condition(b.get()) {
                    return false;
                }
                cur = a.get();
            }
        }
    }
}

/// A register of 64 bits.
fn reg(e: &Expr) -> bool
    ensures { result ≡ (look_of e.now).reg }
{
    match e {
        Expr::Var(v) => is_word(v),
        Expr::Cell(v, at) => is_words(v) && inline(at.get()),
        _ => false,
    }
}

/// Such a register times a scale.
fn scaled(e: &Expr) -> bool
    ensures { result ≡ (look_of e.now).scaled }
{
    match e {
        Expr::Bin(BinOp::Mul, a, b, _) => {
            reg(a.get()) && inline(b.get()) || inline(a.get()) && reg(b.get())
        }
        _ => false,
    }
}

fn term_of(e: &Expr) -> Sum
    ensures { let k = look_of e.now in result ≡ term k.inline k.reg k.scaled }
{
    let (plain, scaled, good) = if inline(e) {
        (0, 0, true)
    } else if reg(e) {
        (1, 0, true)
    } else if scaled(e) {
        (0, 1, true)
    } else {
        (0, 0, false)
    };
    Sum {
        plain,
        scaled,
        good,
    }
}

/// The terms of a sum, also of sums that are added on the right.
#[tactic(auto, using(crate::proofs::Joins::joins))]
pub fn sum(e: &Expr) -> Sum
    ensures { result ≡ terms_of e.now }
{
    let mut all = Sum {
        plain: 0,
        scaled: 0,
        good: true,
    };
    let mut cur = e;
    loop {
        match cur {
            Expr::Bin(BinOp::Add, a, b, _) => {
                all = all.join(sum(b.get()));
                cur = a.get();
            }
            Expr::Bin(BinOp::Sub, a, b, _) => {
                all = all.join(Sum {
                    plain: 0,
                    scaled: 0,
                    good: inline(b.get()),
                });
                cur = a.get();
            }
            _ => return all.join(term_of(cur)),
        }
    }
}
