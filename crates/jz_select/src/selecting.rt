//! The row of a statement.

ghost use Rattle.std.specs.Prelude.{◌≡◌, true};
ghost use Rattle.jz_select.specs.Trees.{Tree, tree_eq};
ghost use Rattle.jz_select.specs.Selected.{HasOneRow, IsCopied, IsSelected, pattern_copied};
ghost use Rattle.jz_select.specs.Selected.{pattern_selected};

use crate::pattern::Pattern;
use crate::rows::choose;
use crate::shaping::{assign, shape};
use jz_tree::{Expr, Lval, Stmt};

/// The first row of the pattern table that the statement matches, or the intrinsic that it is; of
/// an `if` or `while` whether its condition matches. The statement is one of a typed program, in
/// which the names of constants are numbers. What the value of an inline expression may be is not
/// asked here, but for that of a mask. Cells that are not told apart may be one or two: a row is
/// selected that matches either way.
#[tactic(auto, unfolding(crate::specs::Selected::pattern_selected), using(crate::proofs::FirstRow::is_selected))]
pub fn select(statement: &Stmt) -> Option<Pattern>
    ensures meaning { IsSelected statement.now.kind result }
    ensures is { result ≡ pattern_selected statement.now.kind }
{
    choose(shape(&statement.kind))
}

/// The row of `to = e`, which the copy of a call's argument or result is.
#[tactic(auto, unfolding(crate::specs::Selected::pattern_copied), using(crate::proofs::FirstRow::is_copied))]
pub fn select_copy(to: &Lval, e: &Expr) -> Option<Pattern>
    ensures meaning { IsCopied to.now e.now result }
    ensures is { result ≡ pattern_copied to.now e.now }
{
    choose(assign(None, to, None, e))
}

/// A statement has one answer: its row is the only one that is selected.
#[tactic(auto, using(crate::proofs::FirstRow::one_selected))]
pub fn one_row(statement: &Stmt)
    ensures { HasOneRow statement.now.kind }
{}

/// Trees are found equal just where they are equal.
#[tactic(auto, using(crate::proofs::TreeLaws::tree_one, crate::proofs::TreeLaws::tree_self))]
pub fn equal_trees()
    ensures one { (s t : Tree) → tree_eq s t ≡ true → s ≡ t }
    ensures itself { (t : Tree) → tree_eq t t ≡ true }
{}
