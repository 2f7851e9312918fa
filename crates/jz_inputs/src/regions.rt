//! The regions that preconditions declare.

ghost use Rattle.std.specs.Prelude.{◌≡◌, map};
ghost use Rattle.jz_preconditions.specs.Stating.{some_of};
ghost use Rattle.jz_preconditions.specs.Meeting.{word_named, word_if_named, extent, region_of};
ghost use Rattle.jz_preconditions.specs.Meeting.{names_of, region_at};
ghost use Rattle.jz_inputs.specs.Inputs.{range_of};

use crate::words::word_named;
use jz_preconditions::Pre;
use jz_tree::{Fun, Seq, Text};

/// So many bytes from an address on.
#[derive(Clone, Copy)]
pub struct Extent {
    pub from: u64,
    pub count: u128,
}

/// How many bytes a region has.
fn count_of(factor: u64, word: Option<u64>, constant: u64) -> u128
    ensures { result ≡ extent factor word constant }
{
    match word {
        None => constant as u128,
        Some(word) => factor as u128 * word as u128 + constant as u128,
    }
}

/// The word of a name, where there is one.
fn word_if_named(fun: &Fun, words: &Seq<u64>, name: &Option<Text>) -> Option<u64>
    ensures { result ≡ word_if_named (names_of fun.now) words.now name.now }
{
    match name {
        None => None,
        Some(name) => word_named(fun.params.as_slice(), words.as_slice(), name),
    }
}

fn region_at(from: Option<u64>, count: u128) -> Option<Extent>
    ensures { map range_of (some_of result) ≡ region_at from count }
{
    match from {
        None => None,
        Some(from) => Some(Extent { from, count }),
    }
}

/// The region that a precondition declares for argument words, where it is one.
pub fn region_of(fun: &Fun, words: &Seq<u64>, pre: &Pre) -> Option<Extent>
    ensures { map range_of (some_of result) ≡ region_of (names_of fun.now) words.now pre.now }
{
    match pre {
        Pre::Region {
            pointer,
            factor,
            variable,
            constant,
        } => {
            let from = word_named(fun.params.as_slice(), words.as_slice(), pointer);
            let count = count_of(*factor, word_if_named(fun, words, variable), *constant);
            region_at(from, count)
        }
        Pre::Range { .. } => None,
        Pre::Align { .. } => None,
    }
}
