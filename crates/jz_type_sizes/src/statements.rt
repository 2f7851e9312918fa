//! The rule that types, sizes and counts agree, in one statement.

ghost use Rattle.std.specs.Prelude.{◌≡◌};
ghost use Rattle.std.specs.Option.{option_copied};
ghost use Rattle.jz_type_names.specs.Order.{earliest};
ghost use Rattle.jz_type_names.specs.Parts.{layer_of};
ghost use Rattle.jz_type_sizes.specs.Mismatches.{right_wrong, condition_wrong, assign_wrong, head_wrong, mismatched_with, constant_wrong};

use crate::calls::call_fault;
use crate::intrinsics::intrinsic_fault;
use crate::values::assigned_fault;
use crate::walk::fault;
use crate::wants::Want;
use jz_tree::{BinOp, Const, Expr, Fun, Lval, Rhs, Seq, Span, Stmt, StmtKind, Var};
use jz_type_names::{earlier_of, is_inline_int, known, unless};

fn right_fault(callee: Option<&Fun>, to: &Seq<Lval>, op: Option<BinOp>, right: &Rhs) -> Option<Span>
    ensures { result ≡ earliest (right_wrong (option_copied callee.entry) to.now op right.now) }
{
    match right {
        Rhs::Value(e) => assigned_fault(to, op, e),
        Rhs::Call(_, args, at) => call_fault(callee, to, args, *at),
        Rhs::Intrinsic(name, args, at) => intrinsic_fault(name.as_str(), to, args, *at),
    }
}

fn condition_fault(cond: &Option<Expr>) -> Option<Span>
    ensures { result ≡ earliest (condition_wrong cond.now) }
{
    match cond {
        None => None,
        Some(cond) => fault(cond, Want::Truth),
    }
}

#[tactic(auto, using(crate::proofs::Joins::joins))]
fn assign_fault(
    callee: Option<&Fun>,
    to: &Seq<Lval>,
    op: Option<BinOp>,
    right: &Rhs,
    cond: &Option<Expr>,
) -> Option<Span>
    ensures { result
        ≡ earliest (assign_wrong (option_copied callee.entry) to.now op right.now cond.now) }
{
    earlier_of(right_fault(callee, to, op, right), condition_fault(cond))
}

#[tactic(auto, using(crate::proofs::Joins::joins))]
fn head_fault(counter: &Var, from: &Expr, to: &Expr) -> Option<Span>
    ensures { result ≡ earliest (head_wrong counter.now from.now to.now) }
{
    let own = unless(is_inline_int(known(counter)), counter.span);
    let bounds = earlier_of(fault(from, Want::Int), fault(to, Want::Int));
    earlier_of(own, bounds)
}

/// The first place in a statement, those that stand in it aside, where a type, a size or a count is
/// another than is wanted. The callee is the function that the statement calls, if it calls one
/// that there is. What is asked is asked of variables with their declarations; one without counts
/// as an inline integer.
pub(crate) fn mismatch(callee: Option<&Fun>, stmt: &Stmt) -> Option<Span>
    ensures { result ≡ earliest (mismatched_with (option_copied callee.entry) (layer_of stmt.now)) }
{
    match &stmt.kind {
        StmtKind::Assign { to, op, rhs, cond } => assign_fault(callee, to, *op, rhs, cond),
        StmtKind::If(cond, _, _) => fault(cond, Want::Truth),
        StmtKind::While {
            prologue: _,
            cond,
            body: _,
        } => fault(cond, Want::Truth),
        StmtKind::For {
            counter,
            from,
            down: _,
            to,
            body: _,
        } => head_fault(counter, from, to),
        StmtKind::Mark(_) => None,
    }
}

/// The first place in the value of a constant that is no integer.
pub(crate) fn constant_fault(constant: &Const) -> Option<Span>
    ensures { result ≡ earliest (constant_wrong constant.now) }
{
    fault(&constant.value, Want::Int)
}
