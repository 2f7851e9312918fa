//! What holds of every listing.

ghost use Rattle.std.specs.Prelude.{◌≡◌, List};
ghost use Rattle.jz_listing.specs.declared.compiled.Compiled.{Compiled as Listed};
ghost use Rattle.jz_listing.specs.Listing.{listing_text};
ghost use Rattle.jz_listing.specs.Listable.{AreListable};

/// A listing tells which functions it lists, and each of their parts: different lists have
/// different texts. A list that can be listed has names of letters, digits and underscores, and no
/// factor at a region without a variable.
pub fn listings_tell_functions_apart()
    ensures { (cs : List Listed) (ds : List Listed) → AreListable cs → AreListable ds
        → listing_text cs ≡ listing_text ds → cs ≡ ds }
{}
