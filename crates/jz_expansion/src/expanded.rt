//! Expansions.

ghost use Rattle.std.specs.Prelude.{◌≡◌};
ghost use Rattle.jz_change.specs.Views.{change_of};
ghost use Rattle.jz_expansion.specs.Expansions.{IsExpanded};

use jz_change::Change;
use jz_tree::Fun;

/// What an export function of a typed program becomes: one function without calls, loops that count,
/// inline variables and cells of register arrays, with the name, the annotations, the parameters and
/// the results of that of the text; what becomes of a leak of the function of the text; and how many
/// statements that has in expanded order, with all that it calls.
#[derive(Drop)]
pub struct Expanded {
    pub(crate) fun: Fun,
    pub(crate) change: Change,
    pub(crate) count: usize,
    pub ghost rule: { ∥ IsExpanded fun (change_of change) count ∥₁ },
}

impl Expanded {
    /// The function.
    pub fn fun(&self) -> &Fun
        ensures { result.now ≡ self.now.fun }
    {
        &self.fun
    }

    /// What becomes of a leak.
    pub fn change(&self) -> &Change
        ensures { result.now ≡ self.now.change }
    {
        &self.change
    }

    /// How many statements there are, where what sets an inline variable alone counts too, and each
    /// turn of a `for` one.
    pub fn count(&self) -> usize
        ensures { result ≡ self.now.count }
    {
        self.count
    }

    /// The function, and what becomes of a leak.
    pub fn into_parts(self) -> (Fun, Change)
        ensures { (result.0 ≡ self.fun) × (result.1 ≡ self.change) }
    {
        let Expanded { fun, change, .. } = self;
        (fun, change)
    }

    /// These are the expansion of an export function of some typed program, within the limits.
    pub fn is_expanded(&self)
        ensures { let change = change_of self.now.change in
            ∥ IsExpanded self.now.fun change self.now.count ∥₁ }
    {}
}
