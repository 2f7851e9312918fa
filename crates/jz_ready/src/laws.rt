//! What unrolling makes of a typed program that comes of a text.

ghost use Rattle.jz_ready.specs.ReadyLaws.{ReadyLaw, EntryLaw};

/// What becomes of a function, by copies of what it calls and by the rounds of its loops, is ready
/// by the kinds of its copies, whatever is known of inline variables; and on an input of the
/// function each variable begins with what it is declared to hold.
pub fn unrolled_bodies_are_ready()
    ensures bodies { ReadyLaw }
    ensures entries { EntryLaw }
{}
