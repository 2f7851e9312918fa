//! Conditions of variables and of arrays.

ghost use Rattle.std.specs.Prelude.{◌≡◌, Some};
ghost use Rattle.jz_meaning.specs.States.{same_cell};
ghost use Rattle.jz_layers.specs.Spots.{variable_key, cell_spot, spot_of, same_spot};
ghost use Rattle.jz_meaning.specs.Values.{ref_of};
ghost use Rattle.jz_terms.specs.Terms.{term_of};
ghost use Rattle.jz_facts.specs.Facts.{Set, Cell};
ghost use Rattle.jz_inside.specs.Said.{given_in, facts_in};
ghost use Rattle.jz_alarms.specs.Conditions as conditions;
ghost use Rattle.jz_asked.specs.InnerAsked.{asks_set, shown};
ghost use Rattle.jz_asked.specs.InnerAsked as inner;

use crate::alarms::{About, Asked, first_of, unless};
use jz_fact_readings::interval;
use jz_fact_sets::{Saying, known, known_at};
use jz_intervals::Interval;
use jz_layers::Named;
use jz_meaning::{Kind, Why, kind_of};
use jz_tree::{Expr, Span, Var};
use x64_insn::{Size, residue};

fn span_of(var: &Var) -> Span
    ensures { result ≡ (ref_of var.now).span }
{
    var.span
}

/// Whether the facts say that a variable is set.
fn is_set(says: Saying<'_, '_>, var: &Var) -> bool
    ensures { result ≡ facts_in says.entry (Set (variable_key var.now)) }
{
    known(says.set, var).set
}

/// A variable is set.
pub(crate) fn asks_variable<'e>(says: Saying<'_, '_>, var: &'e Var) -> Option<Asked<'e>>
    ensures { shown result ≡ asks_set (facts_in says.entry) (ref_of var.now) }
{
    unless(
        is_set(says, var),
        span_of(var),
        Why::Init,
        About::Variable(var),
    )
}

/// Whether each index of an interval is one of an array's cells.
fn is_within(kind: Kind, index: Interval) -> bool
    ensures { result ≡ conditions.bounds_of kind index }
{
    match kind {
        Kind::Undeclared => false,
        Kind::Int => false,
        Kind::Bool => false,
        Kind::Word(_) => false,
        Kind::Array(_, cells) => (index.hi as u128) < cells,
    }
}

/// An index is one of an array's cells.
pub(crate) fn asks_index<'e>(says: Saying<'_, '_>, var: &'e Var, index: &Expr) -> Option<Asked<'e>>
    ensures { shown result ≡ conditions.asks_index (given_in says.entry) (facts_in says.entry)
        (ref_of var.now) (term_of index.now) }
{
    let found = interval(&says, Size::S64, index);
    unless(
        is_within(kind_of(var), found),
        span_of(var),
        Why::Bounds,
        About::Variable(var),
    )
}

/// 2 to the 64.
const PAST: u128 = 0x1_0000_0000_0000_0000;

/// Whether the facts say that a cell is set.
fn is_cell_set(says: Saying<'_, '_>, var: &Var, index: u64) -> bool
    ensures { result ≡ facts_in says.entry (Cell (variable_key var.now) index) }
{
    known_at(says.set, Named::cell_of(var, index)).set
}

fn is_index(index: u128, other: Option<u64>) -> bool
    ensures { result ≡ same_cell (Some index) other }
{
    match other {
        None => false,
        Some(other) => index == (other as u128),
    }
}

/// Whether something is this cell of a variable.
fn is_that(var: &Var, index: u128, other: Named<'_>) -> bool
    ensures { result ≡ same_spot (cell_spot var.now index) (spot_of other.entry) }
{
    var.name == *other.name
        && (var.copy == other.copy && (var.cell == other.cell && is_index(index, other.index)))
}

/// The same by a look at each cell that is noted, for an index of more than 64 bits.
fn is_noted_set(says: Saying<'_, '_>, var: &Var, index: u128) -> bool
    ensures { result ≡ facts_in says.entry (Cell (variable_key var.now) index) }
{
    let count = says.set.noted();
    let mut i = 0;
    while i < count {
        match says.set.noted_at(i) {
            None => unreachable!(),
            Some(other) => {
                if is_that(var, index, other) {
                    return known_at(says.set, other).set;
                }
            }
        }
        i += 1;
    }
    false
}

fn is_set_at(says: Saying<'_, '_>, var: &Var, index: u128) -> bool
    ensures { result ≡ facts_in says.entry (Cell (variable_key var.now) index) }
{
    if index >= PAST {
        return is_noted_set(says, var, index);
    }
    is_cell_set(says, var, index as u64)
}

/// Whether they say it of so many first cells.
fn are_cells_set(says: Saying<'_, '_>, var: &Var, cells: u128) -> bool
    ensures { result ≡ conditions.all_cells (given_in says.entry) (facts_in says.entry)
        (variable_key var.now) cells }
{
    let mut rest = cells;
    while rest > 0 {
        rest -= 1;
        if !is_set_at(says, var, rest) {
            return false;
        }
    }
    true
}

/// Whether they say it of the cell at a written index, or else of all cells.
fn are_set(says: Saying<'_, '_>, var: &Var, cells: u128, index: &Expr) -> bool
    ensures { result ≡ inner.cells_set (given_in says.entry) (facts_in says.entry)
        (variable_key var.now) cells (term_of index.now) }
{
    match index {
        Expr::Num(n, _) => is_cell_set(says, var, residue(Size::S64, *n).bits()),
        Expr::Bool(_, _) => are_cells_set(says, var, cells),
        Expr::Var(_) => are_cells_set(says, var, cells),
        Expr::Cell(_, _) => are_cells_set(says, var, cells),
        Expr::Load(_) => are_cells_set(says, var, cells),
        Expr::Neg(_, _) => are_cells_set(says, var, cells),
        Expr::Not(_, _) => are_cells_set(says, var, cells),
        Expr::Cast { .. } => are_cells_set(says, var, cells),
        Expr::Bin(_, _, _, _) => are_cells_set(says, var, cells),
    }
}

fn is_element_set(says: Saying<'_, '_>, var: &Var, index: &Expr) -> bool
    ensures { result ≡ conditions.cell_set (given_in says.entry) (facts_in says.entry)
        (ref_of var.now) (ref_of var.now).kind (term_of index.now) }
{
    match kind_of(var) {
        Kind::Undeclared => false,
        Kind::Int => false,
        Kind::Bool => false,
        Kind::Word(_) => false,
        Kind::Array(_, cells) => are_set(says, var, cells, index),
    }
}

/// What is read of an array is set; the index is within its cells before.
pub(crate) fn asks_element<'e>(
    says: Saying<'_, '_>,
    var: &'e Var,
    index: &Expr,
) -> Option<Asked<'e>>
    ensures { shown result ≡ inner.asks_element (given_in says.entry) (facts_in says.entry)
        (ref_of var.now) (term_of index.now) }
{
    let is_there = is_element_set(says, var, index);
    first_of(
        asks_index(says, var, index),
        unless(is_there, span_of(var), Why::Init, About::Variable(var)),
    )
}
