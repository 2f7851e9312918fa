//! The class of an operand and of a result.

ghost use Rattle.std.specs.Prelude.{◌≡◌};
ghost use Rattle.std.specs.Option.{option_copied};
ghost use Rattle.jz_tree.specs.declared.expr.Expr.TheViews.{out-Expr};
ghost use Rattle.jz_integers.specs.Integers.{written_number as number_of};
ghost use Rattle.jz_type_names.specs.Kinds.{known_of};
ghost use Rattle.jz_select.specs.Operands.{var_class, class_if, cell_of, mem_of, mask_of};
ghost use Rattle.jz_select.specs.Operands.{masked_class};
ghost use Rattle.jz_select.specs.Operands.{is_byte, register_layer, class_of, dest_of, operand_of};
ghost use Rattle.jz_select.specs.Hardest.{hardest};

use crate::class::{Class, Mask, Operand};
use crate::look::{gives_number, inline, sum};
use crate::places::meet;
use jz_integers::written_number;
use jz_tree::{BinOp, Expr, Lval, Storage, Var};
use jz_type_names::{Kind, known};
use jz_words::Size;

pub fn class_of_var(v: &Var) -> Class
    ensures { result ≡ var_class (known_of v.now) }
{
    let Some(d) = known(v) else {
        return Class::Other;
    };
    match (d.storage, d.kind) {
        (Storage::Reg, Kind::Word(z)) => Class::Reg(z),
        (Storage::Stack, Kind::Word(z)) => Class::Mem(Some(z)),
        (Storage::Reg, Kind::Truth) => Class::Flag,
        (Storage::Inline, Kind::Int) => Class::Inline,
        _ => Class::Other,
    }
}

/// The class, where it is one of an operand.
fn class_if(fits: bool, class: Class) -> Class
    ensures { result ≡ class_if fits class }
{
    if fits { class } else { Class::Other }
}

fn class_of_cell(v: &Var, at: &Expr) -> Class
    ensures { result ≡ cell_of v.now at.now }
{
    let Some(d) = known(v) else {
        return Class::Other;
    };
    match (d.storage, d.kind) {
        (Storage::Reg, Kind::Array(z)) => class_if(inline(at), Class::Reg(z)),
        (Storage::Stack, Kind::Array(z)) => class_if(sum(at).is_index(), Class::Mem(Some(z))),
        _ => Class::Other,
    }
}

fn class_of_access(size: Option<Size>, at: &Expr) -> Class
    ensures { result ≡ mem_of size at.now }
{
    class_if(sum(at).is_address(), Class::Mem(size))
}

fn mask(k: &Expr) -> Class
    ensures { result ≡ mask_of (number_of k.now) }
{
    match written_number(k) {
        None => Class::Other,
        Some(31) => Class::Masked(Mask::Five),
        Some(63) => Class::Masked(Mask::Six),
        Some(_) => Class::Other,
    }
}

fn byte(c: Class) -> bool
    ensures { result ≡ is_byte c }
{
    matches!(c, Class::Reg(Size::S8))
}

fn register(e: &Expr) -> Class
    ensures { result ≡ register_layer (out-Expr e.now) }
{
    match e {
        Expr::Var(v) => class_of_var(v),
        Expr::Cell(v, at) => class_of_cell(v, at.get()),
        _ => Class::Other,
    }
}

fn class_of_and(op: BinOp, a: &Expr, b: &Expr) -> Class
    ensures { result ≡ masked_class op a.now b.now }
{
    match op {
        BinOp::And => if byte(register(a)) {
            mask(b)
        } else {
            Class::Other
        },
        _ => Class::Other,
    }
}

pub fn class(e: &Expr) -> Class
    ensures { result ≡ class_of e.now }
{
    match e {
        Expr::Num(_, _) => Class::Inline,
        Expr::Bool(_, _) => Class::Other,
        Expr::Var(v) => class_of_var(v),
        Expr::Cell(v, at) => class_of_cell(v, at.get()),
        Expr::Load(a) => class_of_access(a.size, a.at.get()),
        Expr::Neg(a, _) => if inline(a.get()) {
            Class::Inline
        } else {
            Class::Other
        },
        Expr::Not(a, _) => if inline(a.get()) {
            Class::Inline
        } else {
            Class::Other
        },
        Expr::Cast { .. } => Class::Other,
        Expr::Bin(op, a, b, _) => {
            if gives_number(*op) && inline(b.get()) && inline(a.get()) {
                Class::Inline
            } else {
                class_of_and(*op, a.get(), b.get())
            }
        }
    }
}

pub fn dest(to: &Lval) -> Class
    ensures { result ≡ dest_of to.now }
{
    match to {
        Lval::Skip(_) => Class::Skip,
        Lval::Var(v) => class_of_var(v),
        Lval::Cell(v, at) => class_of_cell(v, at.get()),
        Lval::Store(a) => class_of_access(a.size, a.at.get()),
    }
}

/// The operand beside that destination and the first operand, if there is one. Where cells are not
/// told apart, it is the operand for which a row is hardest to match.
pub fn operand(to: &Lval, first: Option<&Expr>, e: &Expr) -> Operand
    ensures { result ≡ operand_of (hardest to.now (option_copied first.entry)) to.now e.now }
{
    Operand {
        class: class(e),
        meeting: meet(to, first, e),
    }
}
