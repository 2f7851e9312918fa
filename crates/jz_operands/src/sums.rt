//! The sums of addresses and indices.

ghost use Rattle.std.specs.Prelude.{◌≡◌, ◌+◌, ◌%◌, ◌^◌, ◌-◌, ◌≤◌, ◌∷◌, [], ℕ, length, Some, false};
ghost use Rattle.jz_tree.specs.Span.{Span};
ghost use Rattle.jz_words.specs.declared.size.Size.TheVariants.{S64};
ghost use Rattle.jz_words.specs.Words.{residue as residue_of};
ghost use Rattle.jz_words.specs.Readings.{fits_bytes};
ghost use Rattle.jz_tree.specs.declared.expr.BinOp.TheVariants as op;
ghost use Rattle.jz_tree.specs.declared.expr.Expr.TheVariants as expr;
ghost use Rattle.jz_homes.specs.Homes.{in_register};
ghost use Rattle.jz_meaning.specs.Values.{key_of, ref_of};
ghost use Rattle.jz_operands.specs.TableHomes.{homes_of};
ghost use Rattle.jz_words.specs.Sizes.{signed};
ghost use Rattle.jz_operands.specs.SumTerms.{pair_of, pairs_of, IsWhole};
ghost use Rattle.jz_operands.specs.InnerSums.{SumsBefore, IsBased};
ghost use Rattle.jz_operands.specs.SumTerms.{NeverWhole};
ghost use Rattle.jz_operands.specs.InnerSums.{IsAddressOf, IsIndexOf, NeverBefore};
ghost use Rattle.jz_operands.specs.InnerSums.{NeverBased, NeverNumber};
ghost use Rattle.jz_operands.specs.Refusals.{FindsOr, is_scale, NeverAddress, NeverIndex};

use crate::homes::{Home, Homes};
use jz_operations::Address;
use jz_tree::{BinOp, Expr, Size, Var};
use jz_words::{Word, fits_four_bytes, residue};

/// A variable with its factor.
#[derive(Clone, Copy)]
pub struct Term {
    pub variable: u32,
    pub factor: u64,
}

/// At most two terms, in the order of the text.
#[derive(Clone, Copy)]
pub enum Found {
    Nothing,
    One(Term),
    Two(Term, Term),
}

/// The terms of a sum, and its number modulo 2^64.
#[derive(Clone, Copy)]
pub struct Terms {
    pub found: Found,
    pub number: u64,
}

fn word_64(number: i128) -> u64
    ensures { result ≡ residue_of S64 number }
{
    residue(Size::S64, number).bits()
}

/// One term before others, where there is room.
fn before(term: Term, found: Found) -> Option<Found>
    ensures { FindsOr result (λ all. pairs_of all ≡ pair_of term ∷ pairs_of found)
        (2 ≤ length (pairs_of found)) }
{
    match found {
        Found::Nothing => Some(Found::One(term)),
        Found::One(other) => Some(Found::Two(term, other)),
        Found::Two(_, _) => None,
    }
}

/// The variable that holds a word of 64 bits.
fn word_variable(homes: &Homes, var: &Var) -> Option<u32>
    ensures { let home = homes_of homes.now (key_of (ref_of var.now)) in
        FindsOr result (λ n. home ≡ Some (in_register n S64))
        ((n : ℕ) → home ≡ Some (in_register n S64) → ⊥) }
{
    match homes.scalar(var) {
        None => None,
        Some(Home::Word(n, Size::S64)) => Some(n),
        Some(Home::Word(_, Size::S8)) => None,
        Some(Home::Word(_, Size::S16)) => None,
        Some(Home::Word(_, Size::S32)) => None,
        Some(Home::Flag(_)) => None,
        Some(Home::Slot(_, _)) => None,
        Some(Home::Cells(_, _, _)) => None,
    }
}

fn with_factor(variable: u32, factor: u64, rest: Terms) -> Option<Terms>
    ensures { FindsOr result
        (λ all. (pairs_of all.found ≡ (variable, factor) ∷ pairs_of rest.found)
        × (all.number ≡ rest.number))
        (2 ≤ length (pairs_of rest.found)) }
{
    match before(Term { variable, factor }, rest.found) {
        None => None,
        Some(found) => Some(Terms {
            found,
            number: rest.number,
        }),
    }
}

#[tactic(auto, using(crate::proofs::SumLemmas::variable_before))]
fn with_variable(homes: &Homes, var: &Var, rest: Terms) -> Option<Terms>
    ensures { let home = homes_of homes.now in
        FindsOr result (SumsBefore home (expr.Var var.now) rest)
        (NeverBefore home (expr.Var var.now) rest) }
{
    match word_variable(homes, var) {
        None => None,
        Some(variable) => with_factor(variable, 1, rest),
    }
}

#[tactic(auto, using(crate::proofs::SumLemmas::multiple_before, crate::proofs::SumLemmas::before_multiple))]
fn with_multiple(homes: &Homes, var: &Var, factor: i128, rest: Terms) -> Option<Terms>
    ensures right { (at here : Span) → let home = homes_of homes.now in
        let e = expr.Bin op.Mul (expr.Var var.now) (expr.Num factor at) here in
        FindsOr result (SumsBefore home e rest) (NeverBefore home e rest) }
    ensures left { (at here : Span) → let home = homes_of homes.now in
        let e = expr.Bin op.Mul (expr.Num factor at) (expr.Var var.now) here in
        FindsOr result (SumsBefore home e rest) (NeverBefore home e rest) }
{
    match word_variable(homes, var) {
        None => None,
        Some(variable) => with_factor(variable, word_64(factor), rest),
    }
}

/// The lowest 64 bits.
fn lowest(n: u128) -> u64
    ensures { result ≡ n % 2 ^ 64 }
{
    (n % (1 << 64)) as u64
}

fn with_number(number: i128, rest: Terms) -> Terms
    ensures found { result.found ≡ rest.found }
    ensures number { result.number ≡ (residue_of S64 number + rest.number) % 2 ^ 64 }
{
    Terms {
        found: rest.found,
        number: lowest(u128::from(word_64(number)) + u128::from(rest.number)),
    }
}

fn without_number(number: i128, rest: Terms) -> Terms
    ensures found { result.found ≡ rest.found }
    ensures number { result.number ≡ (rest.number + 2 ^ 64 - residue_of S64 number) % 2 ^ 64 }
{
    let turned = (1 << 64) - u128::from(word_64(number));
    Terms {
        found: rest.found,
        number: lowest(u128::from(rest.number) + turned),
    }
}

/// A product of a variable and a number, in either order.
fn with_product(homes: &Homes, a: &Expr, b: &Expr, rest: Terms) -> Option<Terms>
    ensures { (here : Span) → let home = homes_of homes.now in
        let e = expr.Bin op.Mul a.now b.now here in
        FindsOr result (SumsBefore home e rest) (NeverBefore home e rest) }
{
    match a {
        Expr::Var(var) => match b {
            Expr::Num(factor, _) => with_multiple(homes, var, *factor, rest),
            _ => None,
        },
        Expr::Num(factor, _) => match b {
            Expr::Var(var) => with_multiple(homes, var, *factor, rest),
            _ => None,
        },
        _ => None,
    }
}

/// The number that is taken away.
fn number_in(e: &Expr) -> Option<i128>
    ensures { FindsOr result (λ i. (at : Span) × (e.now ≡ expr.Num i at)) (NeverNumber e.now) }
{
    match e {
        Expr::Num(number, _) => Some(*number),
        _ => None,
    }
}

/// The terms of an expression before others, by a loop down its left side.
#[tactic(auto, using(crate::proofs::SumLemmas::number_before, crate::proofs::SumLemmas::added_before, crate::proofs::SumLemmas::less_before))]
pub(crate) fn with_terms(homes: &Homes, e: &Expr, rest: Terms) -> Option<Terms>
    ensures { let home = homes_of homes.now in
        FindsOr result (SumsBefore home e.now rest) (NeverBefore home e.now rest) }
{
    let mut left = e;
    let mut after = rest;
    loop {
        match left {
            Expr::Bin(op, a, b, _) => match op {
                BinOp::Add => {
                    after = with_terms(homes, b.get(), after)?;
                    left = a.get();
                }
                BinOp::Sub => {
                    let number = number_in(b.get())?;
                    after = without_number(number, after);
                    left = a.get();
                }
                BinOp::Mul => return with_product(homes, a.get(), b.get(), after),
                _ => return None,
            },
            Expr::Num(number, _) => return Some(with_number(*number, after)),
            Expr::Var(var) => return with_variable(homes, var, after),
            _ => return None,
        }
    }
}

fn nothing() -> Terms
    ensures found { pairs_of result.found ≡ [] }
    ensures number { result.number ≡ 0 }
{
    Terms {
        found: Found::Nothing,
        number: 0,
    }
}

/// The sum that an expression is, where it has two terms at most.
#[tactic(auto, using(crate::proofs::SumLemmas::whole_sum))]
pub fn terms_of(homes: &Homes, e: &Expr) -> Option<Terms>
    ensures { let home = homes_of homes.now in
        FindsOr result (IsWhole home e.now) (NeverWhole home e.now) }
{
    with_terms(homes, e, nothing())
}

/// The signed reading of a number of 64 bits, where it has 32.
pub fn displacement(number: u64) -> Option<i32>
    ensures { let reading = signed S64 (number % 2 ^ 64) in
        FindsOr result (λ d. d ≡ reading) (fits_bytes 4 reading ≡ false) }
{
    let reading = Word::truncate(Size::S64, number).signed();
    if fits_four_bytes(reading) {
        Some(reading as i32)
    } else {
        None
    }
}

/// A factor that an address has.
pub fn scale(factor: u64) -> Option<u8>
    ensures { FindsOr result (λ s. s ≡ factor) (is_scale factor ≡ false) }
{
    match factor {
        1 => Some(1),
        2 => Some(2),
        4 => Some(4),
        8 => Some(8),
        _ => None,
    }
}

/// A base and an index; of two variables with the factor 1 the first is the base.
#[tactic(auto, using(crate::proofs::SumLemmas::first_based, crate::proofs::SumLemmas::second_based))]
fn based(first: Term, second: Term) -> Option<(u32, u32, u8)>
    ensures { FindsOr result (λ m. IsBased first second m.0 m.1 m.2) (NeverBased first second) }
{
    if first.factor == 1 {
        let scale = scale(second.factor)?;
        return Some((first.variable, second.variable, scale));
    }
    if second.factor == 1 {
        let scale = scale(first.factor)?;
        return Some((second.variable, first.variable, scale));
    }
    None
}

/// The address that an expression is.
#[tactic(auto, using(crate::proofs::SumLemmas::base_address, crate::proofs::SumLemmas::both_address))]
pub fn address_of(homes: &Homes, at: &Expr) -> Option<Address>
    ensures { let home = homes_of homes.now in
        FindsOr result (IsAddressOf home at.now) (NeverAddress home at.now) }
{
    let terms = terms_of(homes, at)?;
    let disp = displacement(terms.number)?;
    match terms.found {
        Found::Nothing => None,
        Found::One(term) => {
            if term.factor == 1 {
                Some(Address {
                    base: Some(term.variable),
                    index: None,
                    disp,
                })
            } else {
                None
            }
        }
        Found::Two(first, second) => {
            let (base, index, scale) = based(first, second)?;
            Some(Address {
                base: Some(base),
                index: Some((index, scale)),
                disp,
            })
        }
    }
}

/// An index of a stack array: a variable or none, and an offset.
#[derive(Clone, Copy)]
pub struct Index {
    pub variable: Option<u32>,
    pub offset: i32,
}

/// The index that an expression is.
#[tactic(auto, using(crate::proofs::SumLemmas::constant_index, crate::proofs::SumLemmas::variable_index))]
pub fn index_of(homes: &Homes, at: &Expr) -> Option<Index>
    ensures { let home = homes_of homes.now in
        FindsOr result (λ i. IsIndexOf home at.now i.variable i.offset) (NeverIndex home at.now) }
{
    let terms = terms_of(homes, at)?;
    let offset = displacement(terms.number)?;
    match terms.found {
        Found::Nothing => Some(Index {
            variable: None,
            offset,
        }),
        Found::One(term) => {
            if term.factor == 1 {
                Some(Index {
                    variable: Some(term.variable),
                    offset,
                })
            } else {
                None
            }
        }
        Found::Two(_, _) => None,
    }
}
