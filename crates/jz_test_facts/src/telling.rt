//! What comparisons tell of their operands, if they are variables.

ghost use Rattle.std.specs.Prelude.{◌≡◌, ◌-◌, ◌^◌, ◌&&◌, min, if◌then◌else◌};
ghost use Rattle.jz_meaning.specs.States.{Key};
ghost use Rattle.jz_tree.specs.Span.{Span};
ghost use Rattle.jz_terms.specs.Terms.{term_of};
ghost use Rattle.jz_facts.specs.Facts as facts;
ghost use Rattle.jz_facts.specs.Facts.{Is};
ghost use Rattle.jz_facts.specs.Holding.{copied};
ghost use Rattle.jz_facts.specs.Tests as tests;
ghost use Rattle.jz_fact_sets.specs.declared.given.Given as code;
ghost use Rattle.jz_terms.specs.Terms.{num};
ghost use Rattle.jz_fact_sets.specs.Kept.{given_of, facts_of, is_named};
ghost use Rattle.jz_fact_sets.specs.Renewing.{own};
ghost use Rattle.jz_test_facts.specs.Comparing as comparing;
ghost use Rattle.jz_test_facts.specs.Comparing.{AreWords, below_of, above_of};

use jz_fact_readings::interval;
use jz_fact_sets::{FactSet, Given, Knowledge, Saying};
use jz_fact_steps::{is_known, join, least_known, most_known, times_known, under_known};
use jz_tree::{BinOp, Expr};
use x64_insn::{Size, residue};

/// The greatest number that is below another one, or that is at most that.
fn below_end(hi: u64, strict: bool) -> u64
    ensures { result ≡ below_of strict hi }
{
    if strict { hi.saturating_sub(1) } else { hi }
}

/// The least number that is above another one, or at least that, as far as it is a word.
fn above_end(lo: u64, strict: bool) -> u64
    ensures { result ≡ min (above_of strict lo) (2 ^ 64 - 1) }
{
    if strict { lo.saturating_add(1) } else { lo }
}

fn is_if(given: &Given, set: &FactSet<'_>, strict: bool, e: &Expr) -> u64
    ensures { (x : Key) → is_named given.now.params result x
        ≡ (strict && copied (facts_of given.now set.now) (term_of e.now) (λ y. Is y x)) }
{
    if strict { is_known(given, set, e) } else { 0 }
}

/// Of what is below an expression, or at most that.
fn below(given: &Given, set: &FactSet<'_>, size: Size, strict: bool, e: &Expr) -> Knowledge
    ensures { own given.now result ≡ comparing.told_below (given_of given.now)
        (facts_of given.now set.now) size strict (term_of e.now) }
{
    let saying = Saying { given, set };
    let ends = interval(&saying, size, e);
    let end = below_end(ends.hi, strict);
    Knowledge {
        set: false,
        least: None,
        most: most_known(&given.constants, false, end),
        times: None,
        under: under_known(given, set, e) | is_if(given, set, strict, e),
        is: 0,
    }
}

/// Of what is above an expression, or at least that.
fn above(given: &Given, set: &FactSet<'_>, size: Size, strict: bool, e: &Expr) -> Knowledge
    requires { AreWords given.now.constants }
    ensures { own given.now result ≡ comparing.told_above (given_of given.now)
        (facts_of given.now set.now) size strict (term_of e.now) }
{
    let saying = Saying { given, set };
    let ends = interval(&saying, size, e);
    let end = above_end(ends.lo, strict);
    Knowledge {
        set: false,
        least: least_known(&given.constants, false, end),
        most: None,
        times: None,
        under: 0,
        is: 0,
    }
}

/// Of what an expression is.
fn same(given: &Given, set: &FactSet<'_>, e: &Expr) -> Knowledge
    ensures { own given.now result ≡ comparing.told_same (given_of given.now)
        (facts_of given.now set.now) (term_of e.now) }
{
    let saying = Saying { given, set };
    Knowledge {
        set: false,
        least: None,
        most: None,
        times: times_known(&saying, e),
        under: 0,
        is: is_known(given, set, e),
    }
}

fn equal(given: &Given, set: &FactSet<'_>, size: Size, e: &Expr) -> Knowledge
    requires { AreWords given.now.constants }
    ensures { own given.now result ≡ comparing.told_equal (given_of given.now)
        (facts_of given.now set.now) size (term_of e.now) }
{
    let low = below(given, set, size, false, e);
    let high = above(given, set, size, false, e);
    let ends = join(low, high);
    let alike = same(given, set, e);
    join(ends, alike)
}

fn other_than(size: Size, n: i128) -> Knowledge
    ensures { (g : code.Given) (at : Span) → own g result
        ≡ comparing.told_other (given_of g) size (num n at) }
{
    if residue(size, n).bits() == 0 {
        return Knowledge {
            set: false,
            least: Some(1),
            most: None,
            times: None,
            under: 0,
            is: 0,
        };
    }
    Knowledge::nothing()
}

/// Of what differs from an expression.
fn other(size: Size, e: &Expr) -> Knowledge
    ensures { (g : code.Given) → own g result
        ≡ comparing.told_other (given_of g) size (term_of e.now) }
{
    match e {
        Expr::Num(n, _) => other_than(size, *n),
        Expr::Bool(_, _) => Knowledge::nothing(),
        Expr::Var(_) => Knowledge::nothing(),
        Expr::Cell(_, _) => Knowledge::nothing(),
        Expr::Load(_) => Knowledge::nothing(),
        Expr::Neg(_, _) => Knowledge::nothing(),
        Expr::Not(_, _) => Knowledge::nothing(),
        Expr::Cast { .. } => Knowledge::nothing(),
        Expr::Bin(_, _, _, _) => Knowledge::nothing(),
    }
}

/// What a comparison that is true tells of its left operand.
pub(crate) fn left_told(
    given: &Given,
    set: &FactSet<'_>,
    size: Size,
    op: BinOp,
    right: &Expr,
) -> Knowledge
    requires { AreWords given.now.constants }
    ensures { own given.now result ≡ comparing.left_told (given_of given.now)
        (facts_of given.now set.now) size op (term_of right.now) }
{
    match op {
        BinOp::Lt => below(given, set, size, true, right),
        BinOp::Le => below(given, set, size, false, right),
        BinOp::Gt => above(given, set, size, true, right),
        BinOp::Ge => above(given, set, size, false, right),
        BinOp::Eq => equal(given, set, size, right),
        BinOp::Ne => other(size, right),
        BinOp::OrElse => Knowledge::nothing(),
        BinOp::AndThen => Knowledge::nothing(),
        BinOp::Or => Knowledge::nothing(),
        BinOp::Xor => Knowledge::nothing(),
        BinOp::And => Knowledge::nothing(),
        BinOp::LtS => Knowledge::nothing(),
        BinOp::LeS => Knowledge::nothing(),
        BinOp::GtS => Knowledge::nothing(),
        BinOp::GeS => Knowledge::nothing(),
        BinOp::Shl => Knowledge::nothing(),
        BinOp::Shr => Knowledge::nothing(),
        BinOp::Sar => Knowledge::nothing(),
        BinOp::Rol => Knowledge::nothing(),
        BinOp::Ror => Knowledge::nothing(),
        BinOp::Add => Knowledge::nothing(),
        BinOp::Sub => Knowledge::nothing(),
        BinOp::Mul => Knowledge::nothing(),
        BinOp::Div => Knowledge::nothing(),
        BinOp::Rem => Knowledge::nothing(),
        BinOp::DivS => Knowledge::nothing(),
        BinOp::RemS => Knowledge::nothing(),
    }
}

/// What it tells of its right operand.
pub(crate) fn right_told(
    given: &Given,
    set: &FactSet<'_>,
    size: Size,
    op: BinOp,
    left: &Expr,
) -> Knowledge
    requires { AreWords given.now.constants }
    ensures { own given.now result ≡ comparing.right_told (given_of given.now)
        (facts_of given.now set.now) size op (term_of left.now) }
{
    match op {
        BinOp::Lt => above(given, set, size, true, left),
        BinOp::Le => above(given, set, size, false, left),
        BinOp::Gt => below(given, set, size, true, left),
        BinOp::Ge => below(given, set, size, false, left),
        BinOp::Eq => equal(given, set, size, left),
        BinOp::Ne => Knowledge::nothing(),
        BinOp::OrElse => Knowledge::nothing(),
        BinOp::AndThen => Knowledge::nothing(),
        BinOp::Or => Knowledge::nothing(),
        BinOp::Xor => Knowledge::nothing(),
        BinOp::And => Knowledge::nothing(),
        BinOp::LtS => Knowledge::nothing(),
        BinOp::LeS => Knowledge::nothing(),
        BinOp::GtS => Knowledge::nothing(),
        BinOp::GeS => Knowledge::nothing(),
        BinOp::Shl => Knowledge::nothing(),
        BinOp::Shr => Knowledge::nothing(),
        BinOp::Sar => Knowledge::nothing(),
        BinOp::Rol => Knowledge::nothing(),
        BinOp::Ror => Knowledge::nothing(),
        BinOp::Add => Knowledge::nothing(),
        BinOp::Sub => Knowledge::nothing(),
        BinOp::Mul => Knowledge::nothing(),
        BinOp::Div => Knowledge::nothing(),
        BinOp::Rem => Knowledge::nothing(),
        BinOp::DivS => Knowledge::nothing(),
        BinOp::RemS => Knowledge::nothing(),
    }
}

/// The comparison that is true where this one is false.
fn opposite(op: BinOp) -> BinOp
    ensures { (g : facts.Given) → result ≡ tests.opposite g op }
{
    match op {
        BinOp::Lt => BinOp::Ge,
        BinOp::Le => BinOp::Gt,
        BinOp::Gt => BinOp::Le,
        BinOp::Ge => BinOp::Lt,
        BinOp::Eq => BinOp::Ne,
        BinOp::Ne => BinOp::Eq,
        _ => BinOp::Or,
    }
}

pub(crate) fn with_answer(op: BinOp, answer: bool) -> BinOp
    ensures { (g : facts.Given) → result ≡ (if answer then op else tests.opposite g op) }
{
    if answer { op } else { opposite(op) }
}
