//! What holds of expansions.

ghost use Rattle.jz_expansion_cases.specs.Laws.{ExpansionsNameTheSame};

/// Each statement that the expansion of a function of a typed text makes of one of the text names
/// no variable that this does not name, and each number that it leaks is one that this leaks. Of a
/// call these are the copies of its arguments and results.
pub fn expansions_name_the_same()
    ensures { ExpansionsNameTheSame }
{}
