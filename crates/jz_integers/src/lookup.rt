//! Where the numbers of inline variables and constants come from.

ghost use Rattle.std.specs.Prelude.{◌≡◌, None};
ghost use Rattle.jz_integers.specs.Integers.{KnownNumbers};

use jz_tree::Text;

/// What knows the numbers of inline variables and constants.
pub trait Numbers {
    /// The number of each name and copy, where it is known.
    ghost numbers: { Self → KnownNumbers };

    /// The number of what has that name, in that copy of its function's variables.
    fn number(&self, name: &Text, copy: u32) -> Option<i128>
        ensures { result ≡ numbers self.now name.now copy };
}

/// Knows none.
#[derive(Clone, Copy, Drop)]
pub struct NoNumbers;

impl Numbers for NoNumbers {
    ghost numbers = { λ none name copy. None };

    fn number(&self, _name: &Text, _copy: u32) -> Option<i128>
        ensures { result ≡ None }
    {
        None
    }
}
