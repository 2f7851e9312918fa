//! How deep calls may be makes no difference to a run, where no function reaches itself.

ghost use Rattle.jz_run_laws.specs.Depths.{RanksLaw, CalleesLaw, BodiesLaw, WholeLaw, CallsLaw};
ghost use Rattle.jz_run_laws.specs.Depths.{TypedLaw};

/// What a name calls, with its tree, is the same at each depth above the rank of the function of
/// that name.
pub fn same_above_the_rank()
    ensures { RanksLaw }
{}

/// Where calls may be as deep as there are functions, or deeper, a name calls the function of that
/// name, with the tree of its own body; and the tree of a body is the one that runs are defined by.
pub fn the_depth_of_calls_does_not_matter()
    ensures callees { CalleesLaw }
    ensures bodies { BodiesLaw }
{}

/// That tree is the one of its statements, where a call of a function that the program declares is
/// a call and holds the tree of that function's own body. So nothing in it is cut off.
pub fn calls_hold_whole_bodies()
    ensures bodies { WholeLaw }
    ensures calls { CallsLaw }
{}

/// No function of a typed program reaches itself, so all this holds of it.
pub fn typed_programs_have_no_recursion()
    ensures { TypedLaw }
{}
