//! Laws of preconditions: the least permitted values, and the inputs that meet them.

ghost use Rattle.std.specs.Prelude.{◌≡◌, []};
ghost use Rattle.jz_tree.specs.declared.expr.Var.{Var};
ghost use Rattle.jz_tree.specs.declared.program.Fun.{Fun};
ghost use Rattle.jz_preconditions.specs.Refusals.{refused_places};
ghost use Rattle.jz_preconditions.specs.Permitted.{IsLeastPermitted, least_permitted};
ghost use Rattle.jz_preconditions.specs.Permitted.{MeetsWithZeros, least_arguments};

/// What is computed as the least permitted value of a parameter is that.
pub fn least_is_permitted()
    ensures { (f : Fun) (v : Var) → IsLeastPermitted f v (least_permitted f v) }
{}

/// A function of whose annotations none is refused is met by its least permitted arguments, with
/// zero bytes in its regions.
pub fn least_arguments_meet()
    ensures { (f : Fun) → refused_places f ≡ [] → MeetsWithZeros f (least_arguments f) }
{}
