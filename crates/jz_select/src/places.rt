//! When two operands are one place, and when a place stands in an operand.

ghost use Rattle.std.specs.Prelude.{◌≡◌, Option};
ghost use Rattle.std.specs.Option.{option_copied};
ghost use Rattle.jz_tree.specs.declared.expr.Expr.TheViews.{out-Expr};
ghost use Rattle.jz_select.specs.Trees.{Named, Tree, named_variable, tree_of, index_of};
ghost use Rattle.jz_select.specs.Places.{Answers, one_cell as one_cell_is};
ghost use Rattle.jz_select.specs.Places.{same_index as same_index_is, touches as touches_is};
ghost use Rattle.jz_select.specs.Places.{elsewhere as elsewhere_is};
ghost use Rattle.jz_select.specs.InnerLayers.{touches_layer};
ghost use Rattle.jz_select.specs.Places.{one_or_apart as one_or_apart_is, var_layer_meets};
ghost use Rattle.jz_select.specs.Places.{cell_layer_meets, store_layer_meets, meeting_of};
ghost use Rattle.jz_select.specs.Hardest.{guess, cell_index as cell_index_of};
ghost use Rattle.jz_select.specs.InnerIndexes.{index_if};
ghost use Rattle.jz_select.specs.Hardest.{first_index as first_index_of, in_memory as in_memory_is};
ghost use Rattle.jz_select.specs.Hardest.{hardest};

use crate::class::Meeting;
use crate::comparing::{Index, alike, has_value, read, same_index, same_var};
use crate::operand::dest;
use crate::rows::m;
use jz_tree::{Expr, Lval, Var};

/// The answer with which a row is hardest to match.
fn guessed(memory: bool, first: Option<Index<'_>>, index: Index<'_>) -> bool
    ensures { let own = index_if first.entry in
        (x : Tree) → result ≡ guess memory own x (index_of index.entry.at.now) }
{
    if memory {
        return false;
    }
    match first {
        None => true,
        Some(first) => !same_index(first, index),
    }
}

fn one_cell(memory: bool, first: Option<Index<'_>>, one: Index<'_>, other: Index<'_>) -> bool
    ensures { result ≡ one_cell_is (guess memory (index_if first.entry))
        (index_of one.entry.at.now) (index_of other.entry.at.now) }
{
    same_index(one, other) || !(has_value(one) && has_value(other)) && guessed(memory, first, other)
}

/// The same, where the destination has an index.
fn at_index(
    memory: bool,
    first: Option<Index<'_>>,
    place: Option<Index<'_>>,
    other: Index<'_>,
) -> bool
    ensures { result ≡ same_index_is (guess memory (index_if first.entry))
        (index_if place.entry) (index_of other.entry.at.now) }
{
    match place {
        None => true,
        Some(place) => one_cell(memory, first, place, other),
    }
}

/// Where a place stands in an expression, by its outermost operation.
#[tactic(auto, using(crate::proofs::Uses::touches_out))]
fn touches_law(e: &Expr)
    ensures { (answers : Answers) (d : Named) (x : Option Tree) →
        touches_is answers d x e.now ≡ touches_layer answers d x (out-Expr e.now) }
{}

/// Whether the variable, or its cell with that index, stands in the expression.
fn touches(
    d: &Var,
    place: Option<Index<'_>>,
    memory: bool,
    first: Option<Index<'_>>,
    e: &Expr,
) -> bool
    ensures { result ≡ touches_is (guess memory (index_if first.entry))
        (named_variable d.now) (index_if place.entry) e.now }
{
    let mut cur = e;
    loop {
        touches_law(cur);
        match cur {
            Expr::Num(_, _) => return false,
            Expr::Bool(_, _) => return false,
            Expr::Var(v) => return same_var(v, d),
            Expr::Cell(v, at) => {
                if same_var(v, d) && at_index(memory, first, place, read(at.get())) {
                    return true;
                }
                cur = at.get();
            }
            Expr::Load(a) => cur = a.at.get(),
            Expr::Neg(a, _) => cur = a.get(),
            Expr::Not(a, _) => cur = a.get(),
            Expr::Cast {
                size: _,
                signed: _,
                e,
                span: _,
            } => cur = e.get(),
            Expr::Bin(_, a, b, _) => {
                if touches(d, place, memory, first, b.get()) {
                    return true;
                }
                cur = a.get();
            }
        }
    }
}

fn elsewhere(touched: bool) -> Meeting
    ensures { result ≡ elsewhere_is touched }
{
    if touched {
        Meeting::Within
    } else {
        Meeting::Apart
    }
}

fn one_or_apart(same: bool) -> Meeting
    ensures { result ≡ one_or_apart_is same }
{
    if same { Meeting::Same } else { Meeting::Apart }
}

fn meet_var(d: &Var, memory: bool, first: Option<Index<'_>>, e: &Expr) -> Meeting
    ensures { result ≡ var_layer_meets (guess memory (index_if first.entry))
        (named_variable d.now) e.now (out-Expr e.now) }
{
    match e {
        Expr::Var(v) => one_or_apart(same_var(v, d)),
        _ => elsewhere(touches(d, None, memory, first, e)),
    }
}

fn meet_cell(d: &Var, place: Index<'_>, memory: bool, first: Option<Index<'_>>, e: &Expr) -> Meeting
    ensures { result ≡ cell_layer_meets (guess memory (index_if first.entry))
        (named_variable d.now) (index_of place.entry.at.now) e.now (out-Expr e.now) }
{
    match e {
        Expr::Cell(v, at) => {
            if same_var(v, d) {
                one_or_apart(one_cell(memory, first, place, read(at.get())))
            } else {
                elsewhere(touches(d, Some(place), memory, first, e))
            }
        }
        _ => elsewhere(touches(d, Some(place), memory, first, e)),
    }
}

fn meet_store(at: &Expr, e: &Expr) -> Meeting
    ensures { result ≡ store_layer_meets (tree_of at.now) (out-Expr e.now) }
{
    match e {
        Expr::Load(b) => one_or_apart(alike(at, b.at.get())),
        _ => Meeting::Apart,
    }
}

/// The index of the operand, where it is a cell of that array.
fn cell_index<'a>(d: &Var, e: &'a Expr) -> Option<Index<'a>>
    ensures { index_if result ≡ cell_index_of (named_variable d.now) (out-Expr e.now) }
{
    match e {
        Expr::Cell(v, at) => if same_var(v, d) {
            Some(read(at.get()))
        } else {
            None
        },
        _ => None,
    }
}

fn first_index<'a>(to: &Lval, first: Option<&'a Expr>) -> Option<Index<'a>>
    ensures { index_if result ≡ first_index_of to.now (option_copied first.entry) }
{
    match first {
        None => None,
        Some(a) => match to {
            Lval::Cell(v, _) => cell_index(v, a),
            _ => None,
        },
    }
}

fn in_memory(to: &Lval, first: Option<&Expr>) -> bool
    ensures { result ≡ in_memory_is to.now (option_copied first.entry) }
{
    match first {
        None => false,
        Some(_) => m(dest(to)),
    }
}

/// How the destination meets the operand, beside the first operand, if there is one.
pub fn meet(to: &Lval, first: Option<&Expr>, e: &Expr) -> Meeting
    ensures { result ≡ meeting_of (hardest to.now (option_copied first.entry)) to.now e.now }
{
    let memory = in_memory(to, first);
    let cell = first_index(to, first);
    match to {
        Lval::Skip(_) => Meeting::Apart,
        Lval::Var(v) => meet_var(v, memory, cell, e),
        Lval::Cell(v, k) => meet_cell(v, read(k.get()), memory, cell, e),
        Lval::Store(a) => meet_store(a.at.get(), e),
    }
}
