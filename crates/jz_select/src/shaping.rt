//! From a statement to its shape.

ghost use Rattle.std.specs.Prelude.{◌≡◌};
ghost use Rattle.std.specs.Option.{option_copied};
ghost use Rattle.jz_tree.specs.declared.expr.Expr.TheViews.{out-Expr};
ghost use Rattle.jz_tree.specs.Operators.{carries as carries_is};
ghost use Rattle.jz_select.specs.Operands.{class_of, dest_of};
ghost use Rattle.jz_select.specs.Shapes.{first_of as first_of_is};
ghost use Rattle.jz_select.specs.Shapes.{carry_layer, two_beside, value_layer, itself as itself_of};
ghost use Rattle.jz_select.specs.Shapes.{update_layer, assign_of};
ghost use Rattle.jz_select.specs.Shapes.{value_shape as value_shape_of, compares as compares_is};
ghost use Rattle.jz_select.specs.Shapes.{has_flags, is_test};
ghost use Rattle.jz_select.specs.InnerLayers.{flags_layer};
ghost use Rattle.jz_select.specs.Shapes.{conditional as conditional_of, leads as leads_is};
ghost use Rattle.jz_select.specs.Shapes.{four_lead, five_lead, value_behind as value_behind_of};
ghost use Rattle.jz_select.specs.Shapes.{one_shape as one_shape_of, two_shape as two_shape_of};
ghost use Rattle.jz_select.specs.Shapes.{three_shape as three_shape_of};
ghost use Rattle.jz_select.specs.Shapes.{address_shape as address_shape_of};
ghost use Rattle.jz_select.specs.Shapes.{set_shape as set_shape_of};
ghost use Rattle.jz_select.specs.Shapes.{compare_shape as compare_shape_of};
ghost use Rattle.jz_select.specs.Shapes.{product_shape as product_shape_of};
ghost use Rattle.jz_select.specs.Shapes.{division_shape as division_shape_of};
ghost use Rattle.jz_select.specs.Shapes.{stand_apart as stand_apart_is};
ghost use Rattle.jz_select.specs.Shapes.{intrinsic_shape as intrinsic_shape_of};
ghost use Rattle.jz_select.specs.Shapes.{named_shape as named_shape_of, rhs_shape as rhs_shape_of};
ghost use Rattle.jz_select.specs.Shapes.{shape_of};
ghost use Rattle.jz_select.specs.Hardest.{hardest};

use crate::class::{Class, Meeting, Operand};
use crate::look::{compares_values, inline_condition, sum};
use crate::operand::{class, class_of_var, dest, operand};
use crate::rows::{apart, flag, flag_result, m, rm, rmi};
use crate::shape::{Shape, Value};
use jz_tree::{BinOp, Expr, Instance, Intrinsic, Lval, Rhs, Seq, StmtKind, divides, spelled};

/// How many flags an intrinsic gives before its values.
#[derive(Clone, Copy)]
pub enum Flags {
    Zero,
    Two,
    Four,
    Five,
}

fn carries(outer: BinOp, inner: BinOp) -> bool
    ensures { result ≡ carries_is outer inner }
{
    match outer {
        BinOp::Add => matches!(inner, BinOp::Add),
        BinOp::Sub => matches!(inner, BinOp::Sub),
        _ => false,
    }
}

fn carry(d: &Lval, outer: BinOp, e: &Expr) -> Value
    ensures { result ≡ carry_layer hardest d.now outer (out-Expr e.now) }
{
    match e {
        Expr::Bin(op, a, b, _) => {
            if carries(outer, *op) {
                let first = Some(a.get());
                Value::Carry(
                    outer,
                    operand(d, first, a.get()),
                    operand(d, first, b.get()),
                )
            } else {
                Value::Alone
            }
        }
        _ => Value::Alone,
    }
}

/// What `operand` takes as the first operand: a division reads its operands after the result is
/// written.
fn first_of(op: BinOp, a: &Expr) -> Option<&Expr>
    ensures { option_copied result ≡ first_of_is op a.now }
{
    if divides(op) { None } else { Some(a) }
}

fn two(d: &Lval, op: BinOp, a: &Expr, b: &Expr) -> Value
    ensures { result ≡ two_beside hardest d.now op a.now b.now }
{
    let first = first_of(op, a);
    Value::Two(op, operand(d, first, a), operand(d, first, b))
}

fn value(d: &Lval, e: &Expr) -> Value
    ensures { result ≡ value_layer hardest d.now (out-Expr e.now) }
{
    match e {
        Expr::Bin(op, a, b, _) => {
            if flag(class(b.get())) {
                carry(d, *op, a.get())
            } else {
                two(d, *op, a.get(), b.get())
            }
        }
        Expr::Neg(a, _) => Value::One(operand(d, Some(a.get()), a.get())),
        Expr::Not(a, _) => Value::One(operand(d, Some(a.get()), a.get())),
        Expr::Cast {
            size,
            signed,
            e,
            span: _,
        } => Value::Cast(*size, *signed, class(e.get())),
        _ => Value::Alone,
    }
}

fn itself(d: &Lval) -> Operand
    ensures { result ≡ itself_of d.now }
{
    Operand {
        class: dest(d),
        meeting: Meeting::Same,
    }
}

fn update(d: &Lval, op: BinOp, e: &Expr) -> Value
    ensures { result ≡ update_layer hardest d.now op e.now (out-Expr e.now) }
{
    match e {
        Expr::Bin(inner, a, b, _) => {
            if carries(op, *inner) && flag(class(b.get())) {
                Value::Carry(op, itself(d), operand(d, None, a.get()))
            } else {
                Value::Two(op, itself(d), operand(d, None, e))
            }
        }
        _ => Value::Two(op, itself(d), operand(d, None, e)),
    }
}

pub fn assign(lead: Option<Class>, d: &Lval, op: Option<BinOp>, e: &Expr) -> Shape
    ensures { result ≡ assign_of hardest lead d.now op e.now }
{
    match op {
        None => Shape::Assign(lead, dest(d), class(e), value(d, e)),
        Some(op) => Shape::Assign(lead, dest(d), Class::Other, update(d, op, e)),
    }
}

fn value_shape(to: &[Lval], op: Option<BinOp>, e: &Expr) -> Shape
    ensures { result ≡ value_shape_of hardest to.now op e.now }
{
    match to {
        [d] => assign(None, d, op, e),
        [x, d] => assign(Some(dest(x)), d, op, e),
        _ => Shape::Free,
    }
}

fn compares(op: BinOp, a: Class, o: Class) -> bool
    ensures { result ≡ compares_is op a o }
{
    compares_values(op) && rm(a) && rmi(o) && !(m(a) && m(o))
}

/// A condition by its outermost operation.
#[tactic(auto, using(crate::proofs::Conditions::flags_out))]
fn flagged_law(e: &Expr)
    ensures { has_flags e.now ≡ flags_layer (out-Expr e.now) }
{}

/// Whether the condition has an instruction.
fn flagged(c: &Expr) -> bool
    ensures { result ≡ has_flags c.now }
{
    let mut cur = c;
    loop {
        flagged_law(cur);
        match cur {
            Expr::Num(_, _) => return false,
            Expr::Bool(_, _) => return false,
            Expr::Var(v) => return flag(class_of_var(v)),
            Expr::Cell(_, _) => return false,
            Expr::Load(_) => return false,
            Expr::Neg(_, _) => return false,
            Expr::Not(a, _) => cur = a.get(),
            Expr::Cast { .. } => return false,
            Expr::Bin(op, a, b, _) => return compares(*op, class(a.get()), class(b.get())),
        }
    }
}

/// The same of an `if` or `while`, where it may also be inline.
fn test(c: &Expr) -> bool
    ensures { result ≡ is_test c.now }
{
    flagged(c) || inline_condition(c)
}

fn conditional(to: &[Lval], op: Option<BinOp>, rhs: &Rhs, c: &Expr) -> Shape
    ensures { result ≡ conditional_of to.now op rhs.now c.now }
{
    match to {
        [d] => match op {
            None => match rhs {
                Rhs::Value(e) => Shape::Conditional(dest(d), class(e), flagged(c)),
                Rhs::Call(_, _, _) => Shape::Free,
                Rhs::Intrinsic(_, _, _) => Shape::Free,
            },
            Some(_) => Shape::Free,
        },
        _ => Shape::Free,
    }
}

/// Whether it takes a flag.
fn leads(to: &Lval) -> bool
    ensures { result ≡ leads_is to.now }
{
    flag_result(dest(to))
}

fn lead_four(of: &Lval, sf: &Lval, pf: &Lval, zf: &Lval) -> bool
    ensures { result ≡ four_lead of.now sf.now pf.now zf.now }
{
    leads(of) && leads(sf) && leads(pf) && leads(zf)
}

fn lead_five(of: &Lval, cf: &Lval, sf: &Lval, pf: &Lval, zf: &Lval) -> bool
    ensures { result ≡ five_lead of.now cf.now sf.now pf.now zf.now }
{
    leads(of) && leads(cf) && leads(sf) && leads(pf) && leads(zf)
}

fn value_behind(flags: Flags, to: &[Lval]) -> Option<&Lval>
    ensures { option_copied result ≡ value_behind_of flags to.now }
{
    match flags {
        Flags::Zero => match to {
            [d] => Some(d),
            _ => None,
        },
        Flags::Two => match to {
            [of, cf, d] => if leads(of) && leads(cf) {
                Some(d)
            } else {
                None
            },
            _ => None,
        },
        Flags::Four => match to {
            [of, sf, pf, zf, d] => if lead_four(of, sf, pf, zf) {
                Some(d)
            } else {
                None
            },
            _ => None,
        },
        Flags::Five => match to {
            [of, cf, sf, pf, zf, d] => if lead_five(of, cf, sf, pf, zf) {
                Some(d)
            } else {
                None
            },
            _ => None,
        },
    }
}

fn one_shape(i: Instance, to: Option<&Lval>, args: &[Expr]) -> Shape
    ensures { result ≡ one_shape_of hardest i (option_copied to.entry) args.now }
{
    match to {
        None => Shape::Free,
        Some(d) => match args {
            [a] => Shape::One(i.name, i.size, dest(d), operand(d, Some(a), a)),
            _ => Shape::Free,
        },
    }
}

fn two_shape(i: Instance, to: Option<&Lval>, args: &[Expr]) -> Shape
    ensures { result ≡ two_shape_of hardest i (option_copied to.entry) args.now }
{
    match to {
        None => Shape::Free,
        Some(d) => match args {
            [a, o] => Shape::Two(
                i.name,
                i.size,
                dest(d),
                operand(d, Some(a), a),
                operand(d, Some(a), o),
            ),
            _ => Shape::Free,
        },
    }
}

fn three_shape(i: Instance, to: Option<&Lval>, args: &[Expr]) -> Shape
    ensures { result ≡ three_shape_of hardest i (option_copied to.entry) args.now }
{
    match to {
        None => Shape::Free,
        Some(d) => match args {
            [a, o, c] => Shape::Three(
                i.name,
                dest(d),
                operand(d, Some(a), a),
                operand(d, Some(a), o),
                class(c),
            ),
            _ => Shape::Free,
        },
    }
}

fn address_shape(i: Instance, to: Option<&Lval>, args: &[Expr]) -> Shape
    ensures { result ≡ address_shape_of i (option_copied to.entry) args.now }
{
    match to {
        None => Shape::Free,
        Some(d) => match args {
            [a] => Shape::Address(i.size, dest(d), sum(a).is_sum()),
            _ => Shape::Free,
        },
    }
}

fn set_shape(i: Instance, to: Option<&Lval>, args: &[Expr]) -> Shape
    ensures { result ≡ set_shape_of i (option_copied to.entry) args.now }
{
    match to {
        None => Shape::Free,
        Some(d) => match args {
            [c] => Shape::Set(i.size, dest(d), flagged(c)),
            _ => Shape::Free,
        },
    }
}

fn compare_shape(i: Instance, to: &[Lval], args: &[Expr]) -> Shape
    ensures { result ≡ compare_shape_of i to.now args.now }
{
    match to {
        [of, cf, sf, pf, zf] => match args {
            [a, o] => {
                if lead_five(of, cf, sf, pf, zf) {
                    Shape::Compare(i.name, class(a), class(o))
                } else {
                    Shape::Free
                }
            }
            _ => Shape::Free,
        },
        _ => Shape::Free,
    }
}

fn product_shape(i: Instance, to: &[Lval], args: &[Expr]) -> Shape
    ensures { result ≡ product_shape_of hardest i to.now args.now }
{
    match to {
        [of, cf, sf, pf, zf, h, l] => match args {
            [a, b] => {
                if lead_five(of, cf, sf, pf, zf) {
                    Shape::Product(
                        i.size,
                        dest(h),
                        dest(l),
                        operand(l, Some(a), a),
                        operand(l, Some(a), b),
                    )
                } else {
                    Shape::Free
                }
            }
            _ => Shape::Free,
        },
        _ => Shape::Free,
    }
}

fn stand_apart(q: &Lval, r: &Lval, hi: &Expr, b: &Expr) -> bool
    ensures { result ≡ stand_apart_is hardest q.now r.now hi.now b.now }
{
    apart(operand(q, None, hi)) && apart(operand(q, None, b)) && apart(operand(r, None, b))
}

fn division(i: Instance, q: &Lval, r: &Lval, hi: &Expr, lo: &Expr, b: &Expr) -> Shape
    ensures { let apart = stand_apart_is hardest q.now r.now hi.now b.now in
        result ≡ Shape.Division i.size (dest_of q.now) (dest_of r.now)
        (class_of hi.now) (class_of lo.now) (class_of b.now) apart }
{
    let apart = stand_apart(q, r, hi, b);
    Shape::Division(
        i.size,
        dest(q),
        dest(r),
        class(hi),
        class(lo),
        class(b),
        apart,
    )
}

fn division_shape(i: Instance, to: &[Lval], args: &[Expr]) -> Shape
    ensures { result ≡ division_shape_of hardest i to.now args.now }
{
    match to {
        [of, cf, sf, pf, zf, q, r] => match args {
            [hi, lo, b] => {
                if lead_five(of, cf, sf, pf, zf) {
                    division(i, q, r, hi, lo, b)
                } else {
                    Shape::Free
                }
            }
            _ => Shape::Free,
        },
        _ => Shape::Free,
    }
}

fn intrinsic_shape(i: Instance, to: &[Lval], args: &[Expr]) -> Shape
    ensures { result ≡ intrinsic_shape_of hardest i.name i to.now args.now }
{
    match i.name {
        Intrinsic::Neg => one_shape(i, value_behind(Flags::Five, to), args),
        Intrinsic::Inc | Intrinsic::Dec => one_shape(i, value_behind(Flags::Four, to), args),
        Intrinsic::Not | Intrinsic::Bswap => one_shape(i, value_behind(Flags::Zero, to), args),
        Intrinsic::Lea => address_shape(i, value_behind(Flags::Zero, to), args),
        Intrinsic::Setcc => set_shape(i, value_behind(Flags::Zero, to), args),
        Intrinsic::Adc | Intrinsic::Sbb => three_shape(i, value_behind(Flags::Five, to), args),
        Intrinsic::Cmp | Intrinsic::Test => compare_shape(i, to, args),
        Intrinsic::Mul => product_shape(i, to, args),
        Intrinsic::Div => division_shape(i, to, args),
        Intrinsic::Rol | Intrinsic::Ror => two_shape(i, value_behind(Flags::Two, to), args),
        _ => two_shape(i, value_behind(Flags::Five, to), args),
    }
}

fn named_shape(i: Option<Instance>, to: &[Lval], args: &[Expr]) -> Shape
    ensures { result ≡ named_shape_of hardest i to.now args.now }
{
    match i {
        None => Shape::Free,
        Some(i) => intrinsic_shape(i, to, args),
    }
}

fn rhs_shape(to: &Seq<Lval>, op: Option<BinOp>, rhs: &Rhs) -> Shape
    ensures { result ≡ rhs_shape_of hardest to.now op rhs.now }
{
    match rhs {
        Rhs::Value(e) => value_shape(to.as_slice(), op, e),
        Rhs::Intrinsic(name, args, _) => match op {
            None => named_shape(spelled(name.as_str()), to.as_slice(), args.as_slice()),
            Some(_) => Shape::Free,
        },
        Rhs::Call(_, _, _) => Shape::Free,
    }
}

pub fn shape(kind: &StmtKind) -> Shape
    ensures { result ≡ shape_of hardest kind.now }
{
    match kind {
        StmtKind::Assign {
            to,
            op,
            rhs,
            cond: None,
        } => rhs_shape(to, *op, rhs),
        StmtKind::Assign {
            to,
            op,
            rhs,
            cond: Some(c),
        } => conditional(to.as_slice(), *op, rhs, c),
        StmtKind::If(c, _, _) => Shape::Test(test(c)),
        StmtKind::While { cond, .. } => Shape::Test(test(cond)),
        StmtKind::For { .. } => Shape::Free,
        StmtKind::Mark(_) => Shape::Free,
    }
}
