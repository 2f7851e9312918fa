//! What may be declared.

ghost use Rattle.std.specs.Prelude.{◌≡◌, flat_map};
ghost use Rattle.jz_type_names.specs.Order.{earliest};
ghost use Rattle.jz_type_storage.specs.Declarations.{is_kept, is_passed, is_returned, unkept};
ghost use Rattle.jz_type_storage.specs.Declarations.{unkept_param, unkept_ret, unkept_in};

use jz_tree::{Fun, Param, Ret, Span, Storage, Var};
use jz_type_names::{Declared, Kind, declaration, earlier_of, known, unless};

/// `int` and `inline` go together, and a bool is in a register.
fn is_kept(declared: Declared) -> bool
    ensures { result ≡ is_kept declared }
{
    match (declared.storage, declared.kind) {
        (Storage::Inline, Kind::Int) => true,
        (Storage::Inline, _) => false,
        (_, Kind::Int) => false,
        (Storage::Stack, Kind::Truth) => false,
        _ => true,
    }
}

/// A parameter is no bool.
fn is_passed(declared: Declared) -> bool
    ensures { result ≡ is_passed declared }
{
    match declared.kind {
        Kind::Truth => false,
        _ => is_kept(declared),
    }
}

/// A result is no bool, and is not inline.
fn is_returned(declared: Declared) -> bool
    ensures { result ≡ is_returned declared }
{
    match declared.storage {
        Storage::Inline => false,
        _ => is_passed(declared),
    }
}

/// The place of a parameter that is wrongly declared.
fn param_unkept(param: &Param) -> Option<Span>
    ensures { result ≡ earliest (unkept_param param.now) }
{
    match known(&param.var) {
        None => None,
        Some(declared) => unless(is_passed(declared), param.var.span),
    }
}

/// The place of a variable that is wrongly declared.
fn var_unkept(var: &Var) -> Option<Span>
    ensures { result ≡ earliest (unkept is_kept var.now) }
{
    match known(var) {
        None => None,
        Some(declared) => unless(is_kept(declared), var.span),
    }
}

#[tactic(auto, using(crate::proofs::Joins::earliest_laws))]
fn params_unkept(params: &[Param]) -> Option<Span>
    ensures { result ≡ earliest (flat_map unkept_param params.now) }
{
    let mut best = None;
    for param in params {
        best = earlier_of(best, param_unkept(param));
    }
    best
}

#[tactic(auto, using(crate::proofs::Joins::earliest_laws))]
fn vars_unkept(vars: &[Var]) -> Option<Span>
    ensures { result ≡ earliest (flat_map (unkept is_kept) vars.now) }
{
    let mut best = None;
    for var in vars {
        best = earlier_of(best, var_unkept(var));
    }
    best
}

/// The function's name, where one of its results is wrongly declared.
#[tactic(auto, using(crate::proofs::Joins::earliest_laws))]
fn rets_unkept(rets: &[Ret], at: Span) -> Option<Span>
    ensures { result ≡ earliest (flat_map (unkept_ret at) rets.now) }
{
    let mut best = None;
    for ret in rets {
        best = earlier_of(best, unless(is_returned(declaration(&ret.decl)), at));
    }
    best
}

/// The earliest place of a function's declaration whose storage and type do not go together: at the
/// name that is declared, and of a result at the function's name.
#[tactic(auto, using(crate::proofs::Joins::earliest_laws), unfolding(crate::specs::Declarations::unkept_in))]
pub fn wrongly_kept(fun: &Fun) -> Option<Span>
    ensures { result ≡ earliest (unkept_in fun.now) }
{
    let vars = vars_unkept(fun.vars.as_slice());
    let rets = rets_unkept(fun.rets.as_slice(), fun.span);
    earlier_of(params_unkept(fun.params.as_slice()), earlier_of(vars, rets))
}
