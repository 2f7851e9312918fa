//! Typed programs.

ghost use Rattle.std.specs.Prelude.{◌≡◌};
ghost use Rattle.jz_type_storage.specs.Recursion.{IsRanked};
ghost use Rattle.jz_types.specs.TypedPrograms.{IsTypedProgram};

use jz_tree::{Program, Seq};

/// A program in which no rule fails: each variable has its declaration where it is used, lengths
/// are numbers, and so are the names of constants that have a value. Its functions have ranks,
/// which get smaller with each call.
#[derive(Drop)]
pub struct Typed {
    pub(crate) program: Program,
    pub(crate) ranks: Seq<usize>,
    pub ghost typed: { ∥ IsTypedProgram program ∥₁ },
    pub ghost ranked: { IsRanked program ranks },
}

impl Typed {
    /// The program.
    pub fn program(&self) -> &Program
        ensures { result.now ≡ self.now.program }
    {
        &self.program
    }

    /// The ranks of its functions, in their order.
    pub fn ranks(&self) -> &[usize]
        ensures { result.now ≡ self.now.ranks }
    {
        self.ranks.as_slice()
    }

    /// A function that is called has a lower rank than the one that calls it.
    pub fn has_ranks(&self)
        ensures { IsRanked self.now.program self.now.ranks }
    {}
}
