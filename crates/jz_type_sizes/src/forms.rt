//! What expressions are by themselves.

ghost use Rattle.std.specs.Prelude.{◌≡◌, Option};
ghost use Rattle.std.specs.Option.{option_or};
ghost use Rattle.jz_tree.specs.Size.{Size};
ghost use Rattle.jz_type_sizes.specs.InnerFound.{found_of};
ghost use Rattle.jz_type_sizes.specs.Worded.{is_worded};

use crate::operators::{Group, group_of};
use crate::wants::{cell_size, known_size, known_truth};
use jz_tree::{Expr, Size};
use jz_type_names::{is_inline_int, known};

/// The size, or where there is none the other's.
#[tactic(auto, using(crate::proofs::OrSizes::or_sizes))]
pub(crate) fn or(a: Option<Size>, b: Option<Size>) -> Option<Size>
    ensures is { result ≡ option_or a b }
    ensures after { (s : Option Size) → option_or s result ≡ option_or (option_or s a) b }
{
    match a {
        None => b,
        Some(_) => a,
    }
}

/// The size that an expression says, by a loop down its left side: what stands further to the right
/// serves where the left has none.
#[tactic(auto, using(crate::proofs::OrSizes::or_sizes))]
pub(crate) fn size(e: &Expr) -> Option<Size>
    ensures { result ≡ (found_of e.now).form.size }
{
    let mut rest = None;
    let mut cur = e;
    loop {
        match cur {
            Expr::Num(_, _) => return rest,
            Expr::Bool(_, _) => return rest,
            Expr::Var(var) => return or(known_size(known(var)), rest),
            Expr::Cell(var, _) => return or(cell_size(known(var)), rest),
            Expr::Load(access) => return or(access.size, rest),
            Expr::Neg(a, _) => cur = a.get(),
            Expr::Not(a, _) => cur = a.get(),
            Expr::Cast {
                size,
                signed: _,
                e: _,
                span: _,
            } => return Some(*size),
            Expr::Bin(op, a, b, _) => match group_of(*op) {
                Group::Logic => return rest,
                Group::Compare => return rest,
                Group::Shift => cur = a.get(),
                Group::Arith => {
                    rest = or(size(b.get()), rest);
                    cur = a.get();
                }
            },
        }
    }
}

/// Whether an expression is a word, with a size or, as an access, without one.
pub(crate) fn worded(e: &Expr) -> bool
    ensures { result ≡ is_worded e.now }
{
    let mut cur = e;
    loop {
        match cur {
            Expr::Num(_, _) => return false,
            Expr::Bool(_, _) => return false,
            Expr::Var(var) => return known_size(known(var)).is_some(),
            Expr::Cell(var, _) => return cell_size(known(var)).is_some(),
            Expr::Load(_) => return true,
            Expr::Neg(a, _) => cur = a.get(),
            Expr::Not(a, _) => cur = a.get(),
            Expr::Cast { .. } => return true,
            Expr::Bin(op, a, b, _) => match group_of(*op) {
                Group::Logic => return false,
                Group::Compare => return false,
                Group::Shift => cur = a.get(),
                Group::Arith => {
                    if worded(b.get()) {
                        return true;
                    }
                    cur = a.get();
                }
            },
        }
    }
}

/// Whether an expression is a bool.
pub(crate) fn truth(e: &Expr) -> bool
    ensures { result ≡ (found_of e.now).form.truth }
{
    let mut cur = e;
    loop {
        match cur {
            Expr::Num(_, _) => return false,
            Expr::Bool(_, _) => return true,
            Expr::Var(var) => return known_truth(known(var)),
            Expr::Cell(_, _) => return false,
            Expr::Load(_) => return false,
            Expr::Neg(_, _) => return false,
            Expr::Not(a, _) => cur = a.get(),
            Expr::Cast { .. } => return false,
            Expr::Bin(op, _, _, _) => match group_of(*op) {
                Group::Logic | Group::Compare => return true,
                Group::Shift | Group::Arith => return false,
            },
        }
    }
}

/// Whether the value of an expression is known when the text is compiled.
pub(crate) fn inline(e: &Expr) -> bool
    ensures { result ≡ (found_of e.now).form.inline }
{
    let mut cur = e;
    loop {
        match cur {
            Expr::Num(_, _) => return true,
            Expr::Bool(_, _) => return true,
            Expr::Var(var) => return is_inline_int(known(var)),
            Expr::Cell(_, _) => return false,
            Expr::Load(_) => return false,
            Expr::Neg(a, _) => cur = a.get(),
            Expr::Not(a, _) => cur = a.get(),
            Expr::Cast { .. } => return false,
            Expr::Bin(_, a, b, _) => {
                if !inline(b.get()) {
                    return false;
                }
                cur = a.get();
            }
        }
    }
}
