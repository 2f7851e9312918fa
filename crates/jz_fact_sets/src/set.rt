//! Sets of facts.

ghost use Rattle.std.specs.Prelude.{◌≡◌};
ghost use Rattle.jz_layers.specs.Spots.{spot_of, variable_spot};
ghost use Rattle.jz_fact_sets.specs.Kept as kept;

use crate::knowledge::Knowledge;
use indexmap::IndexMap;
use jz_layers::{Layers, Named};
use jz_tree::Var;

/// A set of facts: what is known of each variable and of each cell of a stack array.
pub type FactSet<'a> = Layers<'a, Knowledge>;

/// What is known of some of them.
pub type Table<'a> = IndexMap<Named<'a>, Knowledge>;

/// What is known at a spot.
pub fn known_at<'a>(set: &FactSet<'a>, named: Named<'a>) -> Knowledge
    ensures { result ≡ kept.known_at set.now (spot_of named.entry) }
{
    match set.get(named) {
        None => Knowledge::nothing(),
        Some(known) => known,
    }
}

/// What is known of a variable.
pub fn known(set: &FactSet<'_>, var: &Var) -> Knowledge
    ensures { result ≡ kept.known_at set.now (variable_spot var.now) }
{
    known_at(set, Named::of(var))
}
