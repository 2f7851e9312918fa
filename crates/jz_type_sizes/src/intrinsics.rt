//! Statements that name an instruction.

ghost use Rattle.std.specs.Prelude.{◌≡◌, Some};
ghost use Rattle.jz_type_names.specs.Order.{earliest};
ghost use Rattle.jz_type_sizes.specs.InnerFound.{first_beside};
ghost use Rattle.jz_type_sizes.specs.Sides.{within, any_size};
ghost use Rattle.jz_type_sizes.specs.Signatures.{signature, instance_signature};
ghost use Rattle.jz_type_sizes.specs.Intrinsics.{role_want, value_size, is_value, result_size, argument_size, size_of_intrinsic, argument_wrong, role_size, result_wrong, none_more, are_counted, signature_wrong, intrinsic_wrong};

use crate::forms::{or, worded};
use crate::sides::{left_form, takes, within, within_any};
use crate::signatures::{Role, operands_of, results_of};
use crate::values::within_all;
use crate::walk::{fault, form};
use crate::wants::{Want, own_size};
use jz_tree::{Expr, Instance, Lval, Seq, Size, Span, spelled};
use jz_type_names::{earlier_of, is_array, known, unless};

fn role_want(size: Option<Size>, role: Role) -> Want
    ensures { result ≡ role_want size role }
{
    match role {
        Role::Flag | Role::Condition => Want::Truth,
        Role::Value => own_size(size),
        Role::Count | Role::Byte => Want::Word(Size::S8),
        Role::Address => Want::Sized(Size::S64),
    }
}

fn valued(role: Role, size: Option<Size>) -> Option<Size>
    ensures { result ≡ value_size role size }
{
    match role {
        Role::Value => size,
        Role::Flag | Role::Count | Role::Condition | Role::Address | Role::Byte => None,
    }
}

/// The size of the first left side that is a value.
fn result_size(roles: &[Role], to: &[Lval]) -> Option<Size>
    ensures { result ≡ result_size roles.now to.now }
{
    let mut found = None;
    let mut rest = roles;
    for side in to {
        match rest {
            [] => return found,
            [role, more @ ..] => {
                found = or(found, valued(*role, left_form(side).size));
                rest = more;
            }
        }
    }
    found
}

fn is_value(role: Role) -> bool
    ensures { result ≡ is_value role }
{
    matches!(role, Role::Value)
}

/// The size of the first argument that is a word, if that has one.
fn argument_size(roles: &[Role], args: &[Expr]) -> Option<Size>
    ensures { result ≡ argument_size roles.now args.now }
{
    let mut rest = roles;
    for arg in args {
        match rest {
            [] => return None,
            [role, more @ ..] => {
                if is_value(*role) && worded(arg) {
                    return form(arg).size;
                }
                rest = more;
            }
        }
    }
    None
}

fn size_of(instance: Instance, to: &Seq<Lval>, args: &Seq<Expr>) -> Option<Size>
    ensures { result ≡ size_of_intrinsic (instance_signature instance) to.now args.now }
{
    let given = result_size(results_of(instance.name), to.as_slice());
    let taken = argument_size(operands_of(instance.name), args.as_slice());
    or(instance.size, or(given, taken))
}

fn argument_fault(size: Option<Size>, role: Role, arg: &Expr) -> Option<Span>
    ensures { result ≡ earliest (argument_wrong size role arg.now) }
{
    match arg {
        Expr::Var(var) => if is_array(known(var)) {
            None
        } else {
            fault(arg, role_want(size, role))
        },
        _ => fault(arg, role_want(size, role)),
    }
}

fn arguments_fault(size: Option<Size>, roles: &[Role], args: &[Expr]) -> Option<Span>
    ensures { result ≡ first_beside (argument_wrong size) none_more roles.now args.now }
{
    let mut first = None;
    let mut rest = roles;
    for arg in args {
        match rest {
            [] => {}
            [role, more @ ..] => {
                first = earlier_of(first, argument_fault(size, *role, arg));
                rest = more;
            }
        }
    }
    first
}

fn role_size(size: Option<Size>, role: Role) -> Option<Size>
    ensures { result ≡ role_size size role }
{
    match role {
        Role::Value => size,
        Role::Flag | Role::Count | Role::Condition | Role::Address | Role::Byte => Some(Size::S8),
    }
}

#[tactic(auto, using(crate::proofs::Joins::joins))]
fn result_fault(size: Option<Size>, at: Span, role: Role, to: &Lval) -> Option<Span>
    ensures { result ≡ earliest (result_wrong size at role to.now) }
{
    let taken = unless(takes(role_want(size, role), to), at);
    earlier_of(within(role_size(size, role), to), taken)
}

fn results_fault(size: Option<Size>, at: Span, roles: &[Role], to: &[Lval]) -> Option<Span>
    ensures { result ≡ first_beside (result_wrong size at) (within any_size) roles.now to.now }
{
    let mut first = None;
    let mut rest = roles;
    for side in to {
        match rest {
            [] => first = earlier_of(first, within_any(side)),
            [role, more @ ..] => {
                first = earlier_of(first, result_fault(size, at, *role, side));
                rest = more;
            }
        }
    }
    first
}

fn are_counted(instance: Instance, to: &Seq<Lval>, args: &Seq<Expr>) -> bool
    ensures { result ≡ are_counted (instance_signature instance) to.now args.now }
{
    args.len() == operands_of(instance.name).len() && to.len() == results_of(instance.name).len()
}

#[tactic(auto, using(crate::proofs::Joins::joins))]
fn instance_fault(instance: Instance, to: &Seq<Lval>, args: &Seq<Expr>, at: Span) -> Option<Span>
    ensures { result ≡ earliest (signature_wrong (instance_signature instance) to.now args.now at) }
{
    let size = size_of(instance, to, args);
    let given = results_fault(size, at, results_of(instance.name), to.as_slice());
    let counted = unless(are_counted(instance, to, args), at);
    let taken = arguments_fault(size, operands_of(instance.name), args.as_slice());
    earlier_of(given, earlier_of(counted, taken))
}

/// The first wrong place of a statement that names an instruction; the span is that of the name.
#[tactic(auto, using(crate::proofs::Joins::joins))]
pub(crate) fn intrinsic_fault(
    name: &str,
    to: &Seq<Lval>,
    args: &Seq<Expr>,
    at: Span,
) -> Option<Span>
    ensures { result ≡ earliest (intrinsic_wrong (signature name.now) to.now args.now at) }
{
    match spelled(name) {
        None => within_all(to),
        Some(instance) => instance_fault(instance, to, args, at),
    }
}
