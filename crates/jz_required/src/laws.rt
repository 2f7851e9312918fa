//! What readings have to do with labels.

ghost use Rattle.std.specs.Prelude.{◌≡◌};
ghost use Rattle.jz_terms.specs.Terms.{Term};
ghost use Rattle.jz_labels.specs.Operations.{Plain, Left};
ghost use Rattle.jz_labels.specs.Labels as labels;
ghost use Rattle.jz_labels.specs.Required as required;
ghost use Rattle.jz_required.specs.Readings as readings;

/// The first secret of a term is the first of its reading, and its first breach is the first of what
/// has to be public; and so of what operations, left sides and tests require.
pub fn readings_are_exact()
    ensures secrets { (arrays s : labels.Publics) (t : Term) → labels.secret_in arrays s t
        ≡ readings.first_secret arrays s (readings.reading t).origins }
    ensures breaches { (arrays s : labels.Publics) (t : Term) → required.breach_in arrays s t
        ≡ readings.first_breach arrays s (readings.reading t).demands }
    ensures tests { (arrays s : labels.Publics) (t : Term) → required.breach_in_test arrays t s
        ≡ readings.first_breach arrays s (readings.test_demands t) }
    ensures lefts { (arrays s : labels.Publics) (d : Left) → required.breach_in_left arrays s d
        ≡ readings.first_breach arrays s (readings.left_demands d) }
    ensures operations { (arrays s : labels.Publics) (o : Plain)
        → required.breach_in_operation arrays o s ≡ labels.first
        (readings.first_breach arrays s (readings.right_reading o).demands)
        (required.breach_in_lefts arrays (labels.gives_public arrays s o) o.to s) }
    ensures values { (arrays s : labels.Publics) (o : Plain) → labels.gives_public arrays s o
        ≡ labels.is_none (readings.first_secret arrays s (readings.right_reading o).origins) }
{}
