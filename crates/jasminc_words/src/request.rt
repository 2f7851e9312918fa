//! What words ask for.

ghost use Rattle.std.specs.Prelude.{◌≡◌, IfOk, map};
ghost use Rattle.std.specs.Option.{option_map};
ghost use Rattle.clap.specs.Words.{rows_of, found_of, first_of, all_of, subcommand_rows_of};
ghost use Rattle.jasminc_words.specs.Wanted.{compile, exec, interp, leak, disasm, check, ct};
ghost use Rattle.jasminc_words.specs.Wanted.{texts_of};
ghost use Rattle.jasminc_words.specs.Wanted.{number_up_to, seed_in, size_in, gen_in, selfrun_in};
ghost use Rattle.jasminc_words.specs.Inputs.{origin_of, input_of};
ghost use Rattle.jasminc_words.specs.Wanted.{called_of, wanted_of, fuel_in, items_in, call_in};
ghost use Rattle.jasminc_words.specs.Wanted.{file_in, wanted_in, wanted_command};

use crate::command::{Taken, matches_of};
use crate::inputs::Input;
use clap::ArgMatches;
use jz_data::Seq;
use jz_items::{Item, items, number};
use std::alloc::{AllocError, Global};

const DEFAULT_FUEL: u64 = 1_000_000;

const MOST_SEED: u32 = 0x7fff_ffff;

const MOST_SIZE: u32 = 30_000;

/// A function of a file, what it is run on, and how long.
#[derive(Drop)]
pub struct Call<'a> {
    pub file: &'a str,
    pub fun: &'a str,
    pub items: Seq<Item>,
    /// How many steps of the machine, or how many turns of loops.
    pub fuel: u64,
}

/// A command of the program.
#[derive(Drop)]
pub enum Request<'a> {
    Compile { file: &'a str },
    /// A run of the compiled bytes.
    Exec(Call<'a>),
    /// A run of the source.
    Interp(Call<'a>),
    /// What the compiled bytes show, by the source's leakage.
    Leak(Call<'a>),
    Disasm { file: &'a str },
    /// Whether each export function is safe.
    Check { file: &'a str },
    /// Whether each export function is constant time.
    Ct { file: &'a str },
    /// The program of a seed with so many statements.
    Gen { seed: u32, size: u32 },
    /// A run of the compiled bytes of that, with at most so many steps.
    Selfrun { seed: u32, size: u32, fuel: u64 },
}

impl<'a> Request<'a> {
    /// What the command reads.
    pub fn input(&self) -> Input<'a>
        ensures { input_of result ≡ origin_of (wanted_of self.now) }
    {
        match self {
            Request::Compile { file } => Input::File(file),
            Request::Exec(call) => Input::File(call.file),
            Request::Interp(call) => Input::File(call.file),
            Request::Leak(call) => Input::File(call.file),
            Request::Disasm { file } => Input::File(file),
            Request::Check { file } => Input::File(file),
            Request::Ct { file } => Input::File(file),
            Request::Gen { seed, size } => Input::Program {
                seed: *seed,
                size: *size,
            },
            Request::Selfrun { seed, size, .. } => Input::Program {
                seed: *seed,
                size: *size,
            },
        }
    }
}

/// The value of an argument.
fn value<'a>(inner: &ArgMatches<'a>, id: &str) -> Option<&'a str>
    ensures { option_map (λ s. s.now) result ≡ first_of id.now (rows_of (found_of inner.now)) }
{
    inner.get_str(id)
}

/// The values of an argument.
fn values<'m, 'a>(inner: &'m ArgMatches<'a>, id: &str) -> Option<&'m [&'a str]>
    ensures { option_map (λ s. map (λ v. v.now) s.now) result
        ≡ all_of id.now (rows_of (found_of inner.now)) }
{
    inner.get_strs(id)
}

/// How long a run may be, if the word that says it is a number.
fn fuel_in(inner: &ArgMatches<'_>) -> Option<u64>
    ensures { result ≡ fuel_in (rows_of (found_of inner.now)) }
{
    match value(inner, "fuel") {
        None => Some(DEFAULT_FUEL),
        Some(word) => number(word),
    }
}

/// The items, if each is one.
fn items_in(alloc: Global, inner: &ArgMatches<'_>) -> Result<Option<Seq<Item>>, AllocError>
    ensures { IfOk result (λ items. items ≡ items_in (rows_of (found_of inner.now))) }
{
    match values(inner, "ITEM") {
        None => Ok(Some(Seq::new(alloc))),
        Some(words) => items(alloc, words),
    }
}

fn call_in<'a>(alloc: Global, inner: &ArgMatches<'a>) -> Result<Option<Call<'a>>, AllocError>
    ensures { IfOk result (λ call. option_map called_of call
        ≡ call_in (rows_of (found_of inner.now))) }
{
    let Some(file) = value(inner, "FILE") else {
        return Ok(None);
    };
    let Some(fun) = value(inner, "FUN") else {
        return Ok(None);
    };
    let Some(fuel) = fuel_in(inner) else {
        return Ok(None);
    };
    match items_in(alloc, inner)? {
        None => Ok(None),
        Some(items) => Ok(Some(Call {
            file,
            fun,
            items,
            fuel,
        })),
    }
}

fn compile_request<'a>(inner: &ArgMatches<'a>) -> Option<Request<'a>>
    ensures { option_map wanted_of result
        ≡ option_map compile (file_in (rows_of (found_of inner.now))) }
{
    let file = value(inner, "FILE")?;
    Some(Request::Compile { file })
}

fn exec_request<'a>(
    alloc: Global,
    inner: &ArgMatches<'a>,
) -> Result<Option<Request<'a>>, AllocError>
    ensures { IfOk result (λ request. option_map wanted_of request
        ≡ option_map exec (call_in (rows_of (found_of inner.now)))) }
{
    match call_in(alloc, inner)? {
        None => Ok(None),
        Some(call) => Ok(Some(Request::Exec(call))),
    }
}

fn interp_request<'a>(
    alloc: Global,
    inner: &ArgMatches<'a>,
) -> Result<Option<Request<'a>>, AllocError>
    ensures { IfOk result (λ request. option_map wanted_of request
        ≡ option_map interp (call_in (rows_of (found_of inner.now)))) }
{
    match call_in(alloc, inner)? {
        None => Ok(None),
        Some(call) => Ok(Some(Request::Interp(call))),
    }
}

fn leak_request<'a>(
    alloc: Global,
    inner: &ArgMatches<'a>,
) -> Result<Option<Request<'a>>, AllocError>
    ensures { IfOk result (λ request. option_map wanted_of request
        ≡ option_map leak (call_in (rows_of (found_of inner.now)))) }
{
    match call_in(alloc, inner)? {
        None => Ok(None),
        Some(call) => Ok(Some(Request::Leak(call))),
    }
}

fn disasm_request<'a>(inner: &ArgMatches<'a>) -> Option<Request<'a>>
    ensures { option_map wanted_of result
        ≡ option_map disasm (file_in (rows_of (found_of inner.now))) }
{
    let file = value(inner, "FILE")?;
    Some(Request::Disasm { file })
}

fn check_request<'a>(inner: &ArgMatches<'a>) -> Option<Request<'a>>
    ensures { option_map wanted_of result
        ≡ option_map check (file_in (rows_of (found_of inner.now))) }
{
    let file = value(inner, "FILE")?;
    Some(Request::Check { file })
}

fn ct_request<'a>(inner: &ArgMatches<'a>) -> Option<Request<'a>>
    ensures { option_map wanted_of result
        ≡ option_map ct (file_in (rows_of (found_of inner.now))) }
{
    let file = value(inner, "FILE")?;
    Some(Request::Ct { file })
}

/// The number that a word is, if it is at most so large.
fn number_up_to(word: &str, most: u32) -> Option<u32>
    ensures { result ≡ number_up_to most word.now }
{
    let number = number(word)?;
    if number <= u64::from(most) {
        Some(number as u32)
    } else {
        None
    }
}

fn seed_in(inner: &ArgMatches<'_>) -> Option<u32>
    ensures { result ≡ seed_in (rows_of (found_of inner.now)) }
{
    let word = value(inner, "SEED")?;
    number_up_to(word, MOST_SEED)
}

fn size_in(inner: &ArgMatches<'_>) -> Option<u32>
    ensures { result ≡ size_in (rows_of (found_of inner.now)) }
{
    let word = value(inner, "SIZE")?;
    number_up_to(word, MOST_SIZE)
}

fn gen_request<'a>(inner: &ArgMatches<'a>) -> Option<Request<'a>>
    ensures { option_map wanted_of result ≡ gen_in (rows_of (found_of inner.now)) }
{
    let seed = seed_in(inner)?;
    let size = size_in(inner)?;
    Some(Request::Gen { seed, size })
}

fn selfrun_request<'a>(inner: &ArgMatches<'a>) -> Option<Request<'a>>
    ensures { option_map wanted_of result ≡ selfrun_in (rows_of (found_of inner.now)) }
{
    let seed = seed_in(inner)?;
    let size = size_in(inner)?;
    let fuel = fuel_in(inner)?;
    Some(Request::Selfrun { seed, size, fuel })
}

/// What matches ask for.
fn asked<'a>(alloc: Global, matches: &ArgMatches<'a>) -> Result<Option<Request<'a>>, AllocError>
    ensures { IfOk result (λ request. option_map wanted_of request
        ≡ wanted_in (subcommand_rows_of matches.now)) }
{
    match matches.subcommand() {
        Some(("compile", inner)) => Ok(compile_request(inner)),
        Some(("exec", inner)) => exec_request(alloc, inner),
        Some(("interp", inner)) => interp_request(alloc, inner),
        Some(("leak", inner)) => leak_request(alloc, inner),
        Some(("disasm", inner)) => Ok(disasm_request(inner)),
        Some(("check", inner)) => Ok(check_request(inner)),
        Some(("ct", inner)) => Ok(ct_request(inner)),
        Some(("gen", inner)) => Ok(gen_request(inner)),
        Some(("selfrun", inner)) => Ok(selfrun_request(inner)),
        _ => Ok(None),
    }
}

/// The command that all the words are, the program's name first; none where `clap` has no matches
/// for them, or where a number or an item among them is malformed.
pub fn request_of<'a>(alloc: Global, words: &'a [String]) -> Result<Option<Request<'a>>, AllocError>
    ensures { IfOk result (λ request. option_map wanted_of request
        ≡ wanted_command (texts_of words.now)) }
{
    match matches_of(alloc, words) {
        Taken::Matches(matches) => asked(alloc, &matches),
        Taken::Refused => Ok(None),
        Taken::OutOfMemory => Err(AllocError),
    }
}
