//! What holds of changes, whatever the passes.

ghost use Rattle.std.specs.Prelude.{◌≡◌};
ghost use Rattle.jz_leak.specs.declared.transformer.Transformer.{Transformer};
ghost use Rattle.jz_leak.specs.RunLeaks.{Leak};
ghost use Rattle.jz_leak.specs.Applying.{is_cut};
ghost use Rattle.jz_change.specs.Changes.{Change, map_of};
ghost use Rattle.jz_change.specs.Fitting.{LeakFits};
ghost use Rattle.jz_change.specs.Composing.{compose_of, Composes};
ghost use Rattle.jz_change.specs.Flattening.{flatten_of, Flattens};

/// What fits one change, and of which this makes what fits another, fits their composition, and
/// becomes the same by it.
pub fn changes_compose()
    ensures { (a b : Change) → Composes a b (compose_of a b) }
{}

/// What fits a change, and of which this makes what fits the last transformer, fits both flattened,
/// and shows the same events.
pub fn changes_flatten()
    ensures { (a : Change) (last : Transformer) → Flattens a last (flatten_of a last) }
{}

/// A change gives a leak that is cut where the leak is cut that it is given.
pub fn a_cut_stays_a_cut()
    ensures { (l : Leak) (a : Change) → LeakFits l a → is_cut (map_of a l) ≡ is_cut l }
{}
