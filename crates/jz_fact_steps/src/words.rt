//! What is known of a word that an expression gives.

ghost use Rattle.std.specs.Prelude.{◌≡◌, ℕ, ◌&&◌, not, nat_le, true};
ghost use Rattle.jz_meaning.specs.States.{Key};
ghost use Rattle.jz_terms.specs.Terms.{term_of};
ghost use Rattle.jz_facts.specs.Facts.{Under, Is, is_among, multiples};
ghost use Rattle.jz_facts.specs.Intervals.{multiple};
ghost use Rattle.jz_facts.specs.Holding as holding;
ghost use Rattle.jz_facts.specs.Holding.{is_read, copied};
ghost use Rattle.jz_fact_sets.specs.Kept.{given_of, facts_of, is_at_least, is_at_most, is_times, is_named};
ghost use Rattle.jz_fact_sets.specs.Renewing.{own};

use jz_fact_readings::{Times, interval, is_multiple};
use jz_fact_sets::{FactSet, Given, Knowledge, Saying, known};
use jz_intervals::Constants;
use jz_tree::Expr;
use x64_insn::Size;

/// Whether an expression is a read of memory or of an array.
fn is_a_read(e: &Expr) -> bool
    ensures { result ≡ is_read (term_of e.now) }
{
    match e {
        Expr::Num(_, _) => false,
        Expr::Bool(_, _) => false,
        Expr::Var(_) => false,
        Expr::Cell(_, _) => true,
        Expr::Load(_) => true,
        Expr::Neg(_, _) => false,
        Expr::Not(_, _) => false,
        Expr::Cast { .. } => false,
        Expr::Bin(_, _, _, _) => false,
    }
}

/// The greatest constant that is not above a number, of what was not read.
#[tactic(auto, using(crate::proofs::Rounding::low))]
pub fn least_known(constants: &Constants, read: bool, lo: u64) -> Option<u64>
    ensures { (c : ℕ) → (is_among c constants.now && is_at_least result c)
        ≡ (not read && (is_among c constants.now && nat_le c lo)) }
{
    if read {
        return None;
    }
    Some(constants.greatest_to(lo))
}

/// The least constant that is not below a number, of what was not read.
#[tactic(auto, using(crate::proofs::Rounding::high))]
pub fn most_known(constants: &Constants, read: bool, hi: u64) -> Option<u64>
    ensures { (c : ℕ) → (is_among c constants.now && is_at_most result c)
        ≡ (not read && (is_among c constants.now && nat_le hi c)) }
{
    if read {
        return None;
    }
    Some(constants.least_from(hi, 0xffff_ffff_ffff_ffff))
}

/// The greatest of 2, 4 and 8 that an expression is known to be a multiple of.
pub fn times_known(saying: &Saying<'_, '_>, e: &Expr) -> Option<Times>
    ensures { (m : ℕ) → (is_among m multiples && is_times result m)
        ≡ (is_among m multiples && multiple (given_of saying.now.given.now)
        (facts_of saying.now.given.now saying.now.set.now) (term_of e.now) m) }
{
    if is_multiple(saying, e, 8) {
        return Some(Times::Eight);
    }
    if is_multiple(saying, e, 4) {
        return Some(Times::Four);
    }
    if is_multiple(saying, e, 2) {
        return Some(Times::Two);
    }
    None
}

/// The parameters that what an expression copies is below, by their bits.
pub fn under_known(given: &Given, set: &FactSet<'_>, e: &Expr) -> u64
    ensures { (x : Key) → is_named given.now.params result x
        ≡ copied (facts_of given.now set.now) (term_of e.now) (λ y. Under y x) }
{
    match e {
        Expr::Num(_, _) => 0,
        Expr::Bool(_, _) => 0,
        Expr::Var(var) => known(set, var).under,
        Expr::Cell(_, _) => 0,
        Expr::Load(_) => 0,
        Expr::Neg(_, _) => 0,
        Expr::Not(_, _) => 0,
        Expr::Cast { .. } => 0,
        Expr::Bin(_, _, _, _) => 0,
    }
}

/// The parameters that what an expression copies is, by their bits.
pub fn is_known(given: &Given, set: &FactSet<'_>, e: &Expr) -> u64
    ensures { (x : Key) → is_named given.now.params result x
        ≡ copied (facts_of given.now set.now) (term_of e.now) (λ y. Is y x) }
{
    match e {
        Expr::Num(_, _) => 0,
        Expr::Bool(_, _) => 0,
        Expr::Var(var) => known(set, var).is,
        Expr::Cell(_, _) => 0,
        Expr::Load(_) => 0,
        Expr::Neg(_, _) => 0,
        Expr::Not(_, _) => 0,
        Expr::Cast { .. } => 0,
        Expr::Bin(_, _, _, _) => 0,
    }
}

/// What is known of a word of a size that an expression gives.
pub fn of_word(given: &Given, set: &FactSet<'_>, size: Size, e: &Expr) -> Knowledge
    ensures { own given.now result ≡ holding.of_word (given_of given.now)
        (facts_of given.now set.now) size (term_of e.now) }
{
    let saying = Saying { given, set };
    let read = is_a_read(e);
    let ends = interval(&saying, size, e);
    Knowledge {
        set: true,
        least: least_known(&given.constants, read, ends.lo),
        most: most_known(&given.constants, read, ends.hi),
        times: times_known(&saying, e),
        under: under_known(given, set, e),
        is: is_known(given, set, e),
    }
}
