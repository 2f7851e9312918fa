//! What holds of items that name variables.

ghost use Rattle.jz_item_names.specs.Laws.{NamesAreComposed, CopiesNameTheSame};

/// Where each item of a change names nothing that the one does not name that it comes from, and of
/// a second change too, so it is of both one after the other.
pub fn names_are_composed()
    ensures { NamesAreComposed }
{}

/// So it is where calls become copies of what they call, each with names of its own: an array that
/// is passed is the caller's.
pub fn copies_name_the_same()
    ensures { CopiesNameTheSame }
{}
