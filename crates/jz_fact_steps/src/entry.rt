//! What holds at the entry of a function.

ghost use Rattle.std.specs.Prelude.{◌≡◌, ℕ, ◌≤◌, ◌<◌, ◌&&◌, ◌%◌, ◌==◌, ◌^◌, length, IfOk};
ghost use Rattle.jz_facts.specs.Facts as facts;
ghost use Rattle.jz_facts.specs.Facts.{is_among, multiples, is_aligned_by};
ghost use Rattle.jz_fact_sets.specs.Kept.{given_of, facts_of, is_times, AreDifferent};
ghost use Rattle.jz_fact_steps.specs.Entering as entering;

use jz_fact_readings::Times;
use jz_fact_sets::{FactSet, Given, Knowledge, Parameter};
use jz_intervals::Interval;
use jz_layers::{Layers, Named};
use std::alloc::{AllocError, Global};

/// The greatest of 2, 4 and 8 that divides a number.
fn times_of_number(n: u64) -> Option<Times>
    ensures { (m : ℕ) → (is_among m multiples && is_times result m)
        ≡ (is_among m multiples && (n % m == 0)) }
{
    if n % 8 == 0 {
        return Some(Times::Eight);
    }
    if n % 4 == 0 {
        return Some(Times::Four);
    }
    if n % 2 == 0 {
        return Some(Times::Two);
    }
    None
}

fn times_of_align(align: Option<u64>) -> Option<Times>
    ensures { (m : ℕ) → (is_among m multiples && is_times result m)
        ≡ (is_among m multiples && is_aligned_by align m) }
{
    match align {
        None => None,
        Some(n) => times_of_number(n),
    }
}

fn lo_in(range: Option<Interval>) -> Option<u64>
    ensures { result ≡ entering.lo_in range }
{
    match range {
        None => None,
        Some(range) => Some(range.lo),
    }
}

fn hi_in(range: Option<Interval>) -> Option<u64>
    ensures { result ≡ entering.hi_in range }
{
    match range {
        None => None,
        Some(range) => Some(range.hi),
    }
}

/// What is known of a parameter that has so many others before it.
fn of_parameter(param: &Parameter, index: usize) -> Knowledge
    requires { index < 64 }
    ensures { entering.IsEntered param.now index result }
{
    Knowledge {
        set: true,
        least: lo_in(param.range),
        most: hi_in(param.range),
        times: times_of_align(param.align),
        under: 0,
        is: 1 << index,
    }
}

/// The facts at entry. A function has at most 64 parameters, each with a key of its own.
pub fn at_entry<'a>(alloc: Global, given: &'a Given) -> Result<FactSet<'a>, AllocError>
    requires different { AreDifferent given.now.params }
    requires few { length given.now.params ≤ 64 }
    ensures { IfOk result (λ set. facts_of given.now set ≡ facts.at_entry (given_of given.now)) }
{
    let mut set = Layers::new(alloc);
    let mut index = 0;
    for param in given.params.as_slice() {
        let known = of_parameter(param, index);
        set.put(Named::of(&param.var), known)?;
        index += 1;
    }
    Ok(set)
}
