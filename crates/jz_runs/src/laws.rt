//! What holds of leaks as they are shown.

ghost use Rattle.std.specs.Prelude.{◌≡◌};
ghost use Rattle.jz_leak.specs.RunLeaks.{Leak, Turns, Rounds};
ghost use Rattle.jz_leak.specs.Shown.{items_of, turns_of, rounds_of};
ghost use Rattle.jz_runs.specs.Views.{leak_view, turns_view, rounds_view, items_view};

/// What the view of items shows of a leak is the leak as it is shown.
pub fn items_are_a_view()
    ensures body { (l : Leak) → leak_view items_view l ≡ items_of l }
    ensures turns { (ts : Turns) → turns_view items_view ts ≡ turns_of ts }
    ensures rounds { (rs : Rounds) → rounds_view items_view rs ≡ rounds_of rs }
{}
