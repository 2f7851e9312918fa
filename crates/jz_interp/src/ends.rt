//! How parts of a run end.

ghost use Rattle.std.specs.Prelude.{◌≡◌, [], ◌∷◌, IfOk};
ghost use Rattle.jz_leak.specs.declared.leak.Item.TheVariants as item;
ghost use Rattle.jz_runs.specs.Views.{leak_of, turn_of};
ghost use Rattle.jz_interp.specs.InnerEnds.{wrapped_run};

use jz_leak::{Item, Leak, Turn};
use jz_tree::Seq;
use std::alloc::{AllocError, Global};

/// How statements ended.
#[derive(Drop)]
pub enum Ran {
    /// With so many turns left.
    End(u64, Seq<Item>),
    Cut(Seq<Item>),
}

/// How a turn of a `while` ended.
#[derive(Drop)]
pub enum TurnEnd {
    /// Its test is false.
    Last(u64, Turn),
    /// There is another test after it.
    More(u64, Turn),
    Cut(Turn),
}

/// How the rounds of a `for` ended.
#[derive(Drop)]
pub enum RoundsEnd {
    End(u64, Seq<Leak>),
    Cut(Seq<Leak>),
}

/// The leak of one statement.
pub fn one(alloc: Global, leaked: Item) -> Result<Seq<Item>, AllocError>
    ensures { IfOk result (λ r. r ≡ leaked ∷ []) }
{
    let mut items = Seq::new(alloc);
    items.push(leaked)?;
    Ok(items)
}

/// How an `if` ended, by how its arm did.
pub fn end_of_if(
    alloc: Global,
    numbers: Seq<u64>,
    answer: bool,
    ran: Ran,
) -> Result<Ran, AllocError>
    ensures { IfOk result (λ r. r ≡ wrapped_run (λ is. item.If numbers answer (leak_of is)) ran) }
{
    match ran {
        Ran::End(left, items) => {
            let leaked = one(alloc, Item::If(numbers, answer, Leak { items }))?;
            Ok(Ran::End(left, leaked))
        }
        Ran::Cut(items) => {
            let leaked = one(alloc, Item::If(numbers, answer, Leak { items }))?;
            Ok(Ran::Cut(leaked))
        }
    }
}

/// A turn of a `while`.
pub fn turn(prologue: Seq<Item>, numbers: Seq<u64>, more: bool, body: Seq<Item>) -> Turn
    ensures { result ≡ turn_of prologue numbers more body }
{
    Turn {
        prologue: Leak { items: prologue },
        numbers,
        more,
        body: Leak { items: body },
    }
}
