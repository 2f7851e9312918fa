//! The first limits of operands, by the part that they have in a statement.

ghost use Rattle.std.specs.Prelude.{◌≡◌, IfOk, None};
ghost use Rattle.jz_limits.specs.InnerKnown.{numbers_of};
ghost use Rattle.jz_limits.specs.declared.operands.Role.TheVariants as role;
ghost use Rattle.jz_limits.specs.Asked as asks;
ghost use Rattle.jz_limits.specs.Asked.{asked_as, asked_if};
ghost use Rattle.jz_limits.specs.InnerLooked as looks;
ghost use Rattle.jz_limits.specs.InnerLooked.{first_in_kinds, firsts_beside, firsts_of, seen_of};

use crate::known::Known;
use crate::limit::Limit;
use crate::looked::{Asking, Looked, address_field, count_field, sooner};
use crate::looking::look;
use jz_meaning::own_size;
use jz_tree::{BinOp, Expr, Instance, Intrinsic, Size, is_shift};
use std::alloc::{AllocError, Global};

/// What an expression is in a statement.
#[derive(Clone, Copy)]
pub enum Role {
    /// An operand of an operation.
    Operand,
    /// The count of a shift or a rotation.
    Count,
    /// The address that LEA gives.
    Address,
    /// A condition.
    Test,
}

/// What the first operand of an instruction is, and what those behind it are.
#[derive(Clone, Copy)]
pub struct Roles {
    pub first: Role,
    pub later: Role,
}

/// Of each kind the first limit that parts of a statement pass.
#[derive(Clone, Copy)]
pub struct Firsts {
    pub width: Option<Limit>,
    pub range: Option<Limit>,
    pub field: Option<Limit>,
}

/// Parts that pass no limit.
pub fn no_firsts() -> Firsts
    ensures { result ≡ firsts_of asks.no_parts }
{
    Firsts {
        width: None,
        range: None,
        field: None,
    }
}

/// Parts before others.
pub fn beside(one: Firsts, other: Firsts) -> Firsts
    ensures { result ≡ firsts_beside one other }
{
    Firsts {
        width: sooner(one.width, other.width),
        range: sooner(one.range, other.range),
        field: sooner(one.field, other.field),
    }
}

/// The first limit of the first kind.
pub fn first_of(firsts: Firsts) -> Option<Limit>
    ensures { result ≡ first_in_kinds firsts }
{
    sooner(firsts.width, sooner(firsts.range, firsts.field))
}

/// Parts without code.
pub fn without_fields(firsts: Firsts) -> Firsts
    ensures { result ≡ looks.firsts_without_fields firsts }
{
    Firsts {
        width: firsts.width,
        range: firsts.range,
        field: None,
    }
}

/// The size of what a condition compares.
#[tactic(auto, using(crate::proofs::Compared::compared_num, crate::proofs::Compared::compared_bool, crate::proofs::Compared::compared_var, crate::proofs::Compared::compared_cell, crate::proofs::Compared::compared_load, crate::proofs::Compared::compared_neg, crate::proofs::Compared::compared_not, crate::proofs::Compared::compared_cast, crate::proofs::Compared::compared_bin))]
fn size_compared(expr: &Expr) -> Option<Size>
    ensures { result ≡ asks.size_compared expr.now }
{
    let mut rest = expr;
    loop {
        match rest {
            Expr::Not(e, _) => rest = e.get(),
            Expr::Bin(_, left, right, _) => return own_size(left.get()).or(own_size(right.get())),
            Expr::Num(_, _) => return None,
            Expr::Bool(_, _) => return None,
            Expr::Var(_) => return None,
            Expr::Cell(_, _) => return None,
            Expr::Load(_) => return None,
            Expr::Neg(_, _) => return None,
            Expr::Cast { .. } => return None,
        }
    }
}

fn size_in(role: Role, size: Option<Size>, expr: &Expr) -> Option<Size>
    ensures { result ≡ looks.size_in role size expr.now }
{
    match role {
        Role::Operand => size,
        Role::Count => size,
        Role::Address => size,
        Role::Test => size_compared(expr),
    }
}

fn field_of(role: Role, size: Option<Size>, found: Looked) -> Option<Limit>
    ensures { result ≡ looks.field_of role size (seen_of found) }
{
    match role {
        Role::Operand => found.operand,
        Role::Count => count_field(size, found),
        Role::Address => address_field(found.span, found),
        Role::Test => if found.inline { None } else { found.operand },
    }
}

/// The limits that were found of an expression.
pub fn firsts_found(role: Role, size: Option<Size>, found: Looked) -> Firsts
    ensures { result ≡ looks.firsts_found role size (seen_of found) }
{
    Firsts {
        width: found.width,
        range: found.range,
        field: field_of(role, size, found),
    }
}

/// An expression in this role, where the operation has this size.
pub fn ask(
    alloc: Global,
    numbers: &Known,
    role: Role,
    size: Option<Size>,
    expr: &Expr,
) -> Result<Firsts, AllocError>
    ensures { let parts = asked_as (numbers_of numbers.now) role size expr.now in
        IfOk result (λ firsts. firsts ≡ firsts_of parts) }
{
    let asking = Asking {
        place: None,
        size: size_in(role, size, expr),
    };
    let found = look(alloc, numbers, asking, expr)?;
    Ok(firsts_found(role, size, found))
}

/// A condition that may be absent.
pub fn ask_if(alloc: Global, numbers: &Known, cond: &Option<Expr>) -> Result<Firsts, AllocError>
    ensures { let parts = asked_if (numbers_of numbers.now) role.Test None cond.now in
        IfOk result (λ firsts. firsts ≡ firsts_of parts) }
{
    match cond {
        None => Ok(no_firsts()),
        Some(cond) => ask(alloc, numbers, Role::Test, None, cond),
    }
}

/// Operands in their order.
pub fn ask_all(
    alloc: Global,
    numbers: &Known,
    roles: Roles,
    size: Option<Size>,
    exprs: &[Expr],
) -> Result<Firsts, AllocError>
    ensures { let parts = asks.operand_parts (numbers_of numbers.now) roles size exprs.now in
        IfOk result (λ firsts. firsts ≡ firsts_of parts) }
{
    let mut firsts = no_firsts();
    let mut role = roles.first;
    for expr in exprs {
        firsts = beside(firsts, ask(alloc, numbers, role, size, expr)?);
        role = roles.later;
    }
    Ok(firsts)
}

fn all_in(role: Role) -> Roles
    ensures { result ≡ asks.all_in role }
{
    Roles {
        first: role,
        later: role,
    }
}

fn roles_by(name: Intrinsic) -> Roles
    ensures { result ≡ asks.roles_by name }
{
    match name {
        Intrinsic::Lea => all_in(Role::Address),
        Intrinsic::Setcc => all_in(Role::Test),
        Intrinsic::Shl | Intrinsic::Shr | Intrinsic::Sar | Intrinsic::Rol | Intrinsic::Ror => {
            Roles {
                first: Role::Operand,
                later: Role::Count,
            }
        }
        _ => all_in(Role::Operand),
    }
}

/// The roles of the operands of an instruction.
pub fn roles_of(instance: Option<Instance>) -> Roles
    ensures { result ≡ asks.roles_of instance }
{
    match instance {
        None => all_in(Role::Operand),
        Some(instance) => roles_by(instance.name),
    }
}

/// The role of a value that is assigned with this operation.
pub fn value_role(op: Option<BinOp>) -> Role
    ensures { result ≡ asks.value_role op }
{
    match op {
        None => Role::Operand,
        Some(op) => {
            if is_shift(op) {
                Role::Count
            } else {
                Role::Operand
            }
        }
    }
}
