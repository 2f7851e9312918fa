//! A text that was made of a number, compiled and run.

ghost use Rattle.std.specs.Prelude.{◌≡◌, ◌≤◌, ℕ, List, IfOk, length};
ghost use Rattle.jz_tree.specs.Failures.{IfAnswered};
ghost use Rattle.jz_first_limit.specs.FirstLimits.{IsWithinLimits, expanded_count};
ghost use Rattle.jasminc_source.specs.Texts.{source_limit};
ghost use Rattle.jz_items.specs.Items.{AreItems};
ghost use Rattle.jasminc_called.specs.Making.{IsMadeFor};
ghost use Rattle.jasminc_called.specs.Answers.{Answers};
ghost use Rattle.jasminc_called.specs.Calls.{CallAnswers};
ghost use Rattle.jasminc_selfrun.specs.Calling.{main_name, main_items};
ghost use Rattle.jasminc_selfrun.specs.Calling.{SumsUpProgram};

use crate::calling::sum_function;
use crate::summing::Origin;
use jasminc_called::{MadeFor, Refused, Told, as_refusal, compiled_for, made_for, told_with};
use jasminc_runs::Ran;
use jasminc_source::function_at;
use jz_first_limit::{Met, count_expanded};
use jz_items::Item;
use jz_tree::{Failure, Fun, Program, Seq};
use std::alloc::{AllocError, Global};

/// The items 2, 3, 4 and 0.
fn main_items(alloc: Global) -> Result<Seq<Item>, AllocError>
    ensures { IfOk result (λ items. items ≡ main_items) }
{
    let mut items = Seq::new(alloc);
    items.push(Item::Number(2))?;
    items.push(Item::Number(3))?;
    items.push(Item::Number(4))?;
    items.push(Item::Number(0))?;
    Ok(items)
}

/// How many statements a function within the limits has in expanded order.
fn count_of(alloc: Global, program: &Program, function: &Fun) -> Result<usize, AllocError>
    requires { IsWithinLimits program.now function.now }
    ensures { IfOk result (λ count. count ≡ expanded_count program.now function.now) }
{
    let met = count_expanded(alloc, program, function)?;
    match met {
        Met::Within(count) => Ok(count),
        Met::Passed(_) => unreachable!(),
    }
}

/// The summary of the run of the function that was made.
fn sum_made(
    alloc: Global,
    seed: u32,
    size: u32,
    made: &MadeFor,
    fun: &str,
    items: &Seq<Item>,
    fuel: u64,
) -> Result<Ran, Failure<Refused>>
    requires given { AreItems items.now }
    requires made { (text : List ℕ) × IsMadeFor text fun.now made.now }
    ensures { IfAnswered result
        (CallAnswers (SumsUpProgram seed size items.now fuel) fun.now items.now made.now) }
{
    let tree = made.typed.program();
    let function = function_at(&tree.funs, made.place);
    let compiled = compiled_for(made, fun);
    let statements = count_of(alloc, tree, function)?;
    let origin = Origin {
        seed,
        size,
        statements,
    };
    let answer = sum_function(alloc, origin, function, compiled, items, fuel);
    as_refusal(answer)
}

/// The export functions of a text are compiled, and the bytes of `main` are run on the items 2, 3,
/// 4 and 0 with at most so many steps: a summary of that, with the seed and the size that the text
/// was made of; or the first reason why there is none.
pub fn selfrun_text(
    alloc: Global,
    text: &[u8],
    seed: u32,
    size: u32,
    fuel: u64,
) -> Result<Told, Failure<Refused>>
    requires { length text.now ≤ source_limit }
    ensures { IfAnswered result (Answers (SumsUpProgram seed size main_items fuel)
        text.now main_name main_items) }
{
    let items = main_items(alloc)?;
    let made = made_for(alloc, text, "main")?;
    let ran = sum_made(alloc, seed, size, &made, "main", &items, fuel)?;
    Ok(told_with(made, ran))
}
