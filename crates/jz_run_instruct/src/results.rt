//! Lists of results: flags, and the values behind them.

ghost use Rattle.std.specs.Prelude.{◌≡◌, ◌<◌, [], ◌∷◌, ◌++◌, Some, IfOk, OnOk, option_map};
ghost use Rattle.x64_insn.specs.Sizes.{modulus};
ghost use Rattle.jz_meaning.specs.States.{as_value, word};
ghost use Rattle.jz_meaning.specs.Intrinsics as intrinsics;
ghost use Rattle.jz_run_assign.specs.Answers.{meant_results};
ghost use Rattle.jz_run_instruct.specs.InnerRows.{flags_set_by};

use crate::rows::Sets;
use jz_meaning::Value;
use jz_tree::Seq;
use std::alloc::{AllocError, Global};
use x64_insn::{Answer, FlagVal, Size, Word};

/// What the left sides get, in their order; None is a flag that has no value afterwards.
pub(crate) type Results = Seq<Option<Value>>;

fn flag_result(flag: FlagVal) -> Option<Value>
    ensures { option_map as_value result ≡ intrinsics.flag_result flag }
{
    match flag {
        FlagVal::True => Some(Value::Bool(true)),
        FlagVal::False => Some(Value::Bool(false)),
        FlagVal::Undefined => None,
    }
}

fn add(results: &mut Results, value: Option<Value>) -> Result<(), AllocError>
    ensures { let added = option_map as_value value ∷ [] in
        OnOk result (meant_results results.new ≡ meant_results results.old ++ added) }
{
    results.push(value)?;
    Ok(())
}

fn add_word(results: &mut Results, size: Size, bits: u64) -> Result<(), AllocError>
    requires { bits < modulus size }
    ensures { let added = Some (word size bits) ∷ [] in
        OnOk result (meant_results results.new ≡ meant_results results.old ++ added) }
{
    add(results, Some(Value::Word(Word::new(size, bits))))
}

fn add_flags(results: &mut Results, flags: &[FlagVal]) -> Result<(), AllocError>
    ensures { let added = intrinsics.all_flags flags.now in
        OnOk result (meant_results results.new ≡ meant_results results.old ++ added) }
{
    for flag in flags {
        add(results, flag_result(*flag))?;
    }
    Ok(())
}

fn add_set(results: &mut Results, sets: Sets, flags: [FlagVal; 5]) -> Result<(), AllocError>
    ensures { let added = flags_set_by sets flags in
        OnOk result (meant_results results.new ≡ meant_results results.old ++ added) }
{
    match sets {
        Sets::Nothing => Ok(()),
        Sets::All => add_flags(results, &flags),
        Sets::FirstTwo => add_flags(results, &flags[..2]),
        Sets::AllButCarry => {
            add_flags(results, &flags[..1])?;
            add_flags(results, &flags[2..])
        }
    }
}

/// The flags that are set.
pub(crate) fn flags_set(
    alloc: Global,
    sets: Sets,
    flags: [FlagVal; 5],
) -> Result<Results, AllocError>
    ensures { IfOk result (λ vs. meant_results vs ≡ flags_set_by sets flags) }
{
    let mut results = Seq::new(alloc);
    add_set(&mut results, sets, flags)?;
    Ok(results)
}

/// The flags that are set, and a word behind them.
pub(crate) fn before_value(
    alloc: Global,
    sets: Sets,
    size: Size,
    answer: Answer,
) -> Result<Results, AllocError>
    requires { answer.value < modulus size }
    ensures { let flags = flags_set_by sets answer.flags in
        let results = intrinsics.before_value flags size answer.value in
        IfOk result (λ vs. meant_results vs ≡ results) }
{
    let mut results = flags_set(alloc, sets, answer.flags)?;
    add_word(&mut results, size, answer.value)?;
    Ok(results)
}

/// The flags, and two words behind them.
pub(crate) fn before_both(
    alloc: Global,
    flags: [FlagVal; 5],
    size: Size,
    first: u64,
    second: u64,
) -> Result<Results, AllocError>
    requires first { first < modulus size }
    requires second { second < modulus size }
    ensures { let both = Some (word size first) ∷ Some (word size second) ∷ [] in
        IfOk result (λ vs. meant_results vs ≡ intrinsics.all_flags flags ++ both) }
{
    let mut results = flags_set(alloc, Sets::All, flags)?;
    add_word(&mut results, size, first)?;
    add_word(&mut results, size, second)?;
    Ok(results)
}

/// One word.
pub(crate) fn alone(alloc: Global, value: Word) -> Result<Results, AllocError>
    ensures { IfOk result (λ vs. meant_results vs ≡ Some (word value.size value.bits) ∷ []) }
{
    let mut results = Seq::new(alloc);
    add_word(&mut results, value.size(), value.bits())?;
    Ok(results)
}
