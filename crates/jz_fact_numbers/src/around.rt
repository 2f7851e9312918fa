//! Numbers, and those beside them.

ghost use Rattle.std.specs.Prelude.{◌≡◌, ◌<◌, ◌++◌, ◌-ℤ◌, ◌+ℤ◌, pos, ℕ, length, get_or, IfOk, OnOk};
ghost use Rattle.jz_intervals.specs.Constants.{in_words, around, constants, is_among};
ghost use Rattle.jz_fact_numbers.specs.Ends.{HasEnds};

use jz_intervals::Constants;
use std::alloc::{AllocError, Global};

/// Adds a number, if it is a word of 64 bits.
#[tactic(auto, using(crate::proofs::Beside::no_word, crate::proofs::Beside::large, crate::proofs::Beside::a_word))]
fn add_word(out: &mut Vec<u64>, n: i128) -> Result<(), AllocError>
    ensures { OnOk result (out.new.items ≡ out.old.items ++ in_words n) }
{
    if n < 0 || n > 0xffff_ffff_ffff_ffff {
        return Ok(());
    }
    out.push(n as u64)?;
    Ok(())
}

/// The number below one.
fn add_below(out: &mut Vec<u64>, n: i128) -> Result<(), AllocError>
    ensures { OnOk result (out.new.items ≡ out.old.items ++ in_words (n -ℤ pos 1)) }
{
    if n <= 0 {
        return Ok(());
    }
    add_word(out, n - 1)?;
    Ok(())
}

/// The number above one.
fn add_above(out: &mut Vec<u64>, n: i128) -> Result<(), AllocError>
    ensures { OnOk result (out.new.items ≡ out.old.items ++ in_words (n +ℤ pos 1)) }
{
    if n >= 0xffff_ffff_ffff_ffff {
        return Ok(());
    }
    add_word(out, n + 1)?;
    Ok(())
}

/// A number, and those beside it.
fn add_around(out: &mut Vec<u64>, n: &i128) -> Result<(), AllocError>
    ensures { OnOk result (out.new.items ≡ out.old.items ++ around n.now) }
{
    add_below(out, *n)?;
    add_word(out, *n)?;
    add_above(out, *n)?;
    Ok(())
}

/// One of several numbers, and those beside it.
fn add_at(out: &mut Vec<u64>, numbers: &[i128], i: usize) -> Result<(), AllocError>
    requires { i < length numbers.now }
    ensures { OnOk result (out.new.items
        ≡ out.old.items ++ around (get_or numbers.now i (pos 0))) }
{
    add_around(out, &numbers[i])?;
    Ok(())
}

/// The constants of a text, by the numbers that stand in it and in its annotations.
pub fn constants_of(alloc: Global, numbers: &[i128]) -> Result<Constants, AllocError>
    ensures all { IfOk result
        (λ all. (c : ℕ) → is_among c all ≡ is_among c (constants numbers.now)) }
    ensures ends { IfOk result (λ all. HasEnds all) }
{
    let mut all = Vec::new(alloc);
    all.push(0)?;
    all.push(1)?;
    all.push(0xff)?;
    all.push(0xffff)?;
    all.push(0xffff_ffff)?;
    all.push(0xffff_ffff_ffff_ffff)?;
    let mut i = 0;
    while i < numbers.len() {
        add_at(&mut all, numbers, i)?;
        i += 1;
    }
    Ok(Constants::in_order(all))
}
