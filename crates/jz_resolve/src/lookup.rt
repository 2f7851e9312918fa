//! Where declarations and the numbers of constants come from.

ghost use Rattle.std.specs.Prelude.{◌≡◌, IfOk};
ghost use Rattle.jz_resolve.specs.Resolving.{KnownNames};

use jz_tree::{Decl, Span, Text};
use std::alloc::{AllocError, Global};

/// What knows the names that stand in an expression.
pub(crate) trait Lookup {
    ghost known: { Self → KnownNames };

    /// What is declared of that name.
    fn declared(&self, alloc: Global, name: &Text) -> Result<Option<Decl>, AllocError>
        ensures { IfOk result (λ decl. decl ≡ (known self.now).declaration name.now) };

    /// The number of the constant that the name is which stands there; none inside, where the
    /// constant has no number.
    fn constant(&self, name: &Text, at: Span) -> Option<Option<i128>>
        ensures { result ≡ (known self.now).number (name.now, at) };
}
