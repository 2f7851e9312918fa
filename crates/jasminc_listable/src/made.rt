//! What is made of a text can be listed.

ghost use Rattle.jasminc_listable.specs.CanBeListed.{CanBeListed};

use jz_listable::functions_are_sized;
use jz_listing::Compiled;

/// What is made of the export functions of a text can be listed: names are names, regions without a
/// variable have no factor, and numbers have the sizes of their types.
pub fn what_is_made_can_be_listed(compiled: &[Compiled])
    ensures { CanBeListed compiled.now }
{
    functions_are_sized(compiled);
}
