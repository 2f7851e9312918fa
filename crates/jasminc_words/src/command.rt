//! The command as `clap` has it, and when it takes words.

ghost use Rattle.std.specs.Prelude.{◌≡◌, [], IfOk};
ghost use Rattle.clap.specs.Words.{subcommand_rows_of};
ghost use Rattle.jasminc_words.specs.Commands.{IsArg, IsCommand, required_rule, items_rule};
ghost use Rattle.jasminc_words.specs.Commands.{fuel_rule, file_app, run_app, bare_app};
ghost use Rattle.jasminc_words.specs.Commands.{number_app, selfrun_app, jasminc_app};
ghost use Rattle.jasminc_words.specs.Wanted.{texts_of};
ghost use Rattle.jasminc_words.specs.Matching.{Matches};

use clap::error::ErrorKind;
use clap::{Arg, ArgAction, ArgMatches, Command};
use std::alloc::{AllocError, Global};

/// What the command makes of words.
pub enum Taken<'a> {
    Matches(ArgMatches<'a>),
    /// They are no command, or `clap` would answer by itself.
    Refused,
    OutOfMemory,
}

fn required(alloc: Global, id: &str) -> Arg<'_>
    ensures { IsArg (required_rule id.entry.now) result }
{
    Arg::new(alloc, id).required(true).action(ArgAction::Set)
}

fn items<'a>(alloc: Global) -> Arg<'a>
    ensures { IsArg items_rule result }
{
    Arg::new(alloc, "ITEM")
        .num_args(0..)
        .action(ArgAction::Append)
}

fn fuel<'a>(alloc: Global) -> Arg<'a>
    ensures { IsArg fuel_rule result }
{
    Arg::new(alloc, "fuel").long("fuel").action(ArgAction::Set)
}

/// A command that reads a file.
fn of_file<'a>(alloc: Global, name: &'a str) -> Result<Command<'a>, AllocError>
    ensures { IfOk result (IsCommand (file_app name.entry.now)) }
{
    Command::new(alloc, name).arg(required(alloc, "FILE"))
}

/// A command that runs a function.
fn run<'a>(alloc: Global, name: &'a str) -> Result<Command<'a>, AllocError>
    ensures { IfOk result (IsCommand (run_app name.entry.now)) }
{
    let with_file = Command::new(alloc, name).arg(required(alloc, "FILE"))?;
    let with_fun = with_file.arg(required(alloc, "FUN"))?;
    let with_items = with_fun.arg(items(alloc))?;
    with_items.arg(fuel(alloc))
}

/// A command that makes a program of a number.
fn of_number<'a>(alloc: Global, name: &'a str) -> Result<Command<'a>, AllocError>
    ensures { IfOk result (IsCommand (number_app name.entry.now)) }
{
    let with_seed = Command::new(alloc, name).arg(required(alloc, "SEED"))?;
    with_seed.arg(required(alloc, "SIZE"))
}

fn selfrun<'a>(alloc: Global) -> Result<Command<'a>, AllocError>
    ensures { IfOk result (IsCommand selfrun_app) }
{
    let with_numbers = of_number(alloc, "selfrun")?;
    with_numbers.arg(fuel(alloc))
}

/// The program without its commands. It has no help words, neither as an option nor as a command.
fn bare<'a>(alloc: Global) -> Command<'a>
    ensures { IsCommand bare_app result }
{
    Command::new(alloc, "jasminc")
        .disable_help_flag(true)
        .disable_help_subcommand(true)
        .subcommand_required(true)
}

fn jasminc<'a>(alloc: Global) -> Result<Command<'a>, AllocError>
    ensures { IfOk result (IsCommand jasminc_app) }
{
    let top = bare(alloc);
    let with_compile = top.subcommand(of_file(alloc, "compile")?)?;
    let with_exec = with_compile.subcommand(run(alloc, "exec")?)?;
    let with_interp = with_exec.subcommand(run(alloc, "interp")?)?;
    let with_leak = with_interp.subcommand(run(alloc, "leak")?)?;
    let with_disasm = with_leak.subcommand(of_file(alloc, "disasm")?)?;
    let with_check = with_disasm.subcommand(of_file(alloc, "check")?)?;
    let with_ct = with_check.subcommand(of_file(alloc, "ct")?)?;
    let with_gen = with_ct.subcommand(of_number(alloc, "gen")?)?;
    with_gen.subcommand(selfrun(alloc)?)
}

/// There are matches exactly where no step of the command's parse fails.
pub fn matches_of<'a>(alloc: Global, words: &'a [String]) -> Taken<'a>
    ensures { Matches (texts_of words.now) result }
{
    let command = match jasminc(alloc) {
        Ok(command) => command,
        Err(_) => return Taken::OutOfMemory,
    };
    match command.try_get_matches_from(words) {
        Ok(matches) => Taken::Matches(matches),
        Err(error) => {
            if error.kind() == ErrorKind::OutOfMemory {
                Taken::OutOfMemory
            } else {
                Taken::Refused
            }
        }
    }
}
