//! What holds of every listing that is read.

ghost use Rattle.std.specs.Prelude.{◌≡◌, ℕ, List};
ghost use Rattle.jz_listing.specs.declared.compiled.Compiled.{Compiled as Listed};
ghost use Rattle.jz_listing_read.specs.Reading.{IsBadLine, IsListing};

/// A text is the listing of one list of functions.
pub fn one_listing()
    ensures { (text : List ℕ) (cs ds : List Listed) → IsListing text cs → IsListing text ds
        → cs ≡ ds }
{}

/// At most one line of a text is the first that no listing has.
pub fn one_bad_line()
    ensures { (text : List ℕ) (m n : ℕ) → IsBadLine text m → IsBadLine text n → m ≡ n }
{}

/// A listing has no such line.
pub fn listings_have_no_bad_line()
    ensures { (text : List ℕ) (cs : List Listed) (n : ℕ) → IsListing text cs → ¬ IsBadLine text n }
{}
