//! What terms have to do with expressions.

ghost use Rattle.std.specs.Prelude.{◌≡◌};
ghost use Rattle.jz_tree.specs.declared.expr.Expr.{Expr};
ghost use Rattle.jz_meaning.specs.Values.{meaning_of};
ghost use Rattle.jz_terms.specs.Terms.{term_of, means};

/// An expression has the size, the value and the leaked numbers of its term.
pub fn expressions_mean_what_their_terms_do()
    ensures { (e : Expr) → meaning_of e ≡ means (term_of e) }
{}
