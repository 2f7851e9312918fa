//! What holds of each command that words are.

ghost use Rattle.std.specs.Prelude.{◌≡◌, ℕ, List, Some};
ghost use Rattle.jasminc_words.specs.Wanted.{Wanted, wanted_command, HasNumbers};

/// The items of a command are those of some words; they and its fuel are words of 64 bits; a seed
/// and a size are within their limits.
pub fn numbers_fit()
    ensures { (words : List (List ℕ)) (wish : Wanted)
        → wanted_command words ≡ Some wish → HasNumbers wish }
{}
