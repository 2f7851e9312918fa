//! Conditions over the status flags (Intel SDM vol. 2, appendix B.1.4.7).

ghost use Rattle.std.specs.Prelude.{◌≡◌, ◌||◌, not};
ghost use Rattle.x64_insn.specs.Shifts.{differ};
ghost use Rattle.x64_insn.specs.Rows.{known, flag_of, of_one, of_both, holds};

use crate::types::{Cond, Flag, FlagVal, State};

/// A flag that is defined.
pub(crate) fn known(state: &State, flag: Flag) -> Option<bool>
    ensures { result ≡ known (flag_of state.now flag) }
{
    let value = state.flags[flag as usize];
    match value {
        FlagVal::True => Some(true),
        FlagVal::False => Some(false),
        FlagVal::Undefined => None,
    }
}

fn opposite(a: Option<bool>) -> Option<bool>
    ensures { result ≡ of_one not a }
{
    match a {
        None => None,
        Some(a) => Some(!a),
    }
}

fn either(a: Option<bool>, b: Option<bool>) -> Option<bool>
    ensures { result ≡ of_both (λ x y. x || y) a b }
{
    match (a, b) {
        (Some(a), Some(b)) => Some(a || b),
        (Some(_), None) | (None, Some(_) | None) => None,
    }
}

fn differ(a: Option<bool>, b: Option<bool>) -> Option<bool>
    ensures { result ≡ of_both differ a b }
{
    match (a, b) {
        (Some(a), Some(b)) => Some(a != b),
        (Some(_), None) | (None, Some(_) | None) => None,
    }
}

/// Whether a condition holds, where all its flags are defined.
#[tactic(auto, unfolding(crate::specs::Rows::holds))]
pub(crate) fn holds(cond: Cond, state: &State) -> Option<bool>
    ensures { result ≡ holds cond state.now }
{
    let of = known(state, Flag::Of);
    let cf = known(state, Flag::Cf);
    let sf = known(state, Flag::Sf);
    let pf = known(state, Flag::Pf);
    let zf = known(state, Flag::Zf);
    match cond {
        Cond::O => of,
        Cond::No => opposite(of),
        Cond::B => cf,
        Cond::Ae => opposite(cf),
        Cond::E => zf,
        Cond::Ne => opposite(zf),
        Cond::Be => either(cf, zf),
        Cond::A => opposite(either(cf, zf)),
        Cond::S => sf,
        Cond::Ns => opposite(sf),
        Cond::P => pf,
        Cond::Np => opposite(pf),
        Cond::L => differ(sf, of),
        Cond::Ge => opposite(differ(sf, of)),
        Cond::Le => either(zf, differ(sf, of)),
        Cond::G => opposite(either(zf, differ(sf, of))),
    }
}
