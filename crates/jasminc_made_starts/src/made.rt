//! What is made of a text has starts.

ghost use Rattle.std.specs.Prelude.{◌<◌, ◌^◌, length};
ghost use Rattle.jasminc_made_starts.specs.CanBeStarted.{CanBeStarted};

use jz_listing::Compiled;

/// A slice in memory is that short.
fn is_short(code: &[u8])
    ensures { length code.now < 2 ^ 63 }
{}

/// A function that is made of a text has a start on each input that meets its preconditions and
/// whose regions end at 2^63 or before: so what correct compilation says of starts is said of some.
pub fn what_is_made_can_be_started(compiled: &Compiled)
    ensures { CanBeStarted compiled.now }
{
    is_short(compiled.code.as_slice());
}
