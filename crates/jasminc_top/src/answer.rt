//! From the words and the source to what is due: a reply, or a refusal.

ghost use Rattle.std.specs.Prelude.{◌≡◌, ◌≤◌, ℕ, [], Some, IfOk, IfErr, OnOk, IsErrOf, length};
ghost use Rattle.jz_tree.specs.Failures.{IfRefused, IfAnswered};
ghost use Rattle.jz_io.specs.Telling.{IsWhole};
ghost use Rattle.jz_items.specs.Items.{AreItems};
ghost use Rattle.jasminc_words.specs.Wanted.{compile, exec, interp, leak, disasm, check, ct};
ghost use Rattle.jasminc_words.specs.Wanted.{gen, selfrun, called_of, wanted_of};
ghost use Rattle.jasminc_words.specs.Inputs.{input_of, origin_of};
ghost use Rattle.jasminc_words.specs.Wanted.{texts_of, wanted_command, HasNumbers};
ghost use Rattle.jasminc_top.specs.Told.{source_told};
ghost use Rattle.jasminc_top.specs.Answers.{source_limit};
ghost use Rattle.jasminc_top.specs.Answers.{IsShortFile, IsLongFile, IsReadFault, FileRefuses};
ghost use Rattle.jasminc_top.specs.Answers.{IsShortInput, IsInputRead, InputRefuses, IsQuiet};
ghost use Rattle.jasminc_top.specs.Answers.{IsToldBy, IsToldAs, IsDone, After, Performs};

use crate::refusal::{Refusal, Status};
use jasminc_check::check_text;
use jasminc_ct::ct_text;
use jasminc_interp as source;
use jasminc_interp::interp_text;
use jasminc_selfrun::{Compilation, Ran, Told, compile_text, exec_text, leak_text, selfrun_text};
use jasminc_source::as_refused;
use jasminc_words::{Call, Input, Request, request_of};
use jz_disasm_text::disasm_text;
use jz_gen::{generate, programs_are_short};
use jz_io::{Bytes, ReadRefused, Source, read_all};
use jz_listing::Compiled;
use jz_tree::{Failure, Seq};
use std::alloc::Global;

const SOURCE_LIMIT: usize = 1_048_576;

/// What a command gives: a status, the text to write, and what was made.
#[derive(Drop)]
pub struct Reply {
    pub status: Status,
    pub text: Bytes,
    pub made: Seq<Compiled>,
}

/// The text of a file, up to the limit.
fn read_text<S: Source>(alloc: Global, src: &mut S, file: &str) -> Result<Bytes, ReadRefused>
    ensures text { IfOk result (IsShortFile file.now (S.told src.old)) }
    ensures whole { OnOk result (IsWhole (S.told src.new) × (S.faults src.new ≡ S.faults src.old)) }
    ensures long { IsErrOf result ReadRefused.TooLong
        → IsLongFile file.now (S.told src.old) × (S.faults src.new ≡ S.faults src.old) }
    ensures fault { IsErrOf result ReadRefused.Fault
        → IsReadFault file.now (source_told S.told S.faults src.old src.new) }
{
    match src.begin(file) {
        Ok(()) => read_all(alloc, src, SOURCE_LIMIT),
        Err(_) => Err(ReadRefused::Fault),
    }
}

/// The text of a command's file.
fn file_text<S: Source>(alloc: Global, src: &mut S, file: &str) -> Result<Bytes, Failure<Refusal>>
    ensures text { IfOk result (IsShortFile file.now (S.told src.old)) }
    ensures whole { OnOk result (IsWhole (S.told src.new) × (S.faults src.new ≡ S.faults src.old)) }
    ensures refused { let told = source_told S.told S.faults src.old src.new
        in IfErr result (λ e. IfRefused e (FileRefuses file.now told)) }
{
    match read_text(alloc, src, file) {
        Ok(text) => Ok(text),
        Err(ReadRefused::Fault) => Err(Failure::Refused(Refusal::ReadFault)),
        Err(ReadRefused::TooLong) => Err(Failure::Refused(Refusal::Source)),
        Err(ReadRefused::OutOfMemory) => Err(Failure::OutOfMemory),
    }
}

/// The text of a command: of its file, up to the limit, or the program of its seed and its size.
fn text_of<S: Source>(
    alloc: Global,
    src: &mut S,
    request: &Request<'_>,
) -> Result<Bytes, Failure<Refusal>>
    requires { HasNumbers (wanted_of request.now) }
    ensures text { IfOk result (IsShortInput (origin_of (wanted_of request.now)) (S.told src.old)) }
    ensures read { let told = source_told S.told S.faults src.old src.new
        in OnOk result (IsInputRead (origin_of (wanted_of request.now)) told × IsQuiet told) }
    ensures refused { let told = source_told S.told S.faults src.old src.new
        in IfErr result (λ e. IfRefused e
        (InputRefuses (origin_of (wanted_of request.now)) told)) }
{
    let input = request.input();
    match input {
        Input::File(file) => file_text(alloc, src, file),
        Input::Program { seed, size } => {
            programs_are_short();
            let text = generate(alloc, seed, size)?;
            Ok(text)
        }
    }
}

/// The export functions of a text, compiled, and their listing.
fn compile_reply(alloc: Global, file: &str, text: &[u8]) -> Result<Reply, Failure<Refusal>>
    requires { length text.now ≤ source_limit }
    ensures { IfAnswered result (After (Some (compile file.now)) text.now) }
{
    let answer = compile_text(alloc, text);
    let compiled = as_refused(answer, Refusal::Compile)?;
    let Compilation { functions, listing } = compiled;
    Ok(Reply {
        status: Status::Ok,
        text: listing,
        made: functions,
    })
}

/// What a call of a compiled function is told by, beside what was made for it.
fn told_reply(ran: Ran, made: Seq<Compiled>) -> Reply
    ensures told { IsToldBy ran result.status result.text }
    ensures made { result.made ≡ made }
{
    let (status, text) = match ran {
        Ran::Ended(text) => (Status::Ok, text),
        Ran::Cut(text) => (Status::OutOfFuel, text),
    };
    Reply { status, text, made }
}

/// The run of what a function of a text is compiled to.
fn exec_reply(alloc: Global, call: &Call<'_>, text: &[u8]) -> Result<Reply, Failure<Refusal>>
    requires short { length text.now ≤ source_limit }
    requires given { AreItems call.now.items }
    ensures { IfAnswered result (After (Some (exec (called_of call.now))) text.now) }
{
    let answer = exec_text(alloc, text, call.fun, &call.items, call.fuel);
    let told = as_refused(answer, Refusal::Exec)?;
    let Told { ran, functions } = told;
    Ok(told_reply(ran, functions))
}

/// What a function of a text shows, by the transformer that it is compiled with.
fn leak_reply(alloc: Global, call: &Call<'_>, text: &[u8]) -> Result<Reply, Failure<Refusal>>
    requires short { length text.now ≤ source_limit }
    requires given { AreItems call.now.items }
    ensures { IfAnswered result (After (Some (leak (called_of call.now))) text.now) }
{
    let answer = leak_text(alloc, text, call.fun, &call.items, call.fuel);
    let told = as_refused(answer, Refusal::Exec)?;
    let Told { ran, functions } = told;
    Ok(told_reply(ran, functions))
}

/// What a run of the source is told by. Nothing was made for it.
fn outcome_reply(alloc: Global, ran: source::Ran) -> Reply
    ensures told { IsToldAs ran result.status result.text }
    ensures none { result.made ≡ [] }
{
    let (status, text) = match ran {
        source::Ran::Ended(text) => (Status::Ok, text),
        source::Ran::Cut(text) => (Status::OutOfFuel, text),
        source::Ran::Stuck(text) => (Status::Stuck, text),
    };
    Reply {
        status,
        text,
        made: Seq::new(alloc),
    }
}

/// The run of a function of a text in the source.
fn interp_reply(alloc: Global, call: &Call<'_>, text: &[u8]) -> Result<Reply, Failure<Refusal>>
    requires { length text.now ≤ source_limit }
    ensures { IfAnswered result (After (Some (interp (called_of call.now))) text.now) }
{
    let answer = interp_text(alloc, text, call.fun, &call.items, call.fuel);
    let ran = as_refused(answer, Refusal::Interp)?;
    Ok(outcome_reply(alloc, ran))
}

/// The disassembly of a text. Nothing is made for it.
fn disasm_reply(alloc: Global, file: &str, text: &[u8]) -> Result<Reply, Failure<Refusal>>
    requires { length text.now ≤ source_limit }
    ensures { IfAnswered result (After (Some (disasm file.now)) text.now) }
{
    let answer = disasm_text(alloc, text);
    let lines = as_refused(answer, Refusal::Disasm)?;
    Ok(Reply {
        status: Status::Ok,
        text: lines,
        made: Seq::new(alloc),
    })
}

/// Whether the functions of a text are safe. Nothing is made for it.
fn check_reply(alloc: Global, file: &str, text: &[u8]) -> Result<Reply, Failure<Refusal>>
    requires { length text.now ≤ source_limit }
    ensures { IfAnswered result (After (Some (check file.now)) text.now) }
{
    let answer = check_text(alloc, text);
    let safe = as_refused(answer, Refusal::Check)?;
    Ok(Reply {
        status: Status::Ok,
        text: safe,
        made: Seq::new(alloc),
    })
}

/// Whether the functions of a text are constant time. Nothing is made for it.
fn ct_reply(alloc: Global, file: &str, text: &[u8]) -> Result<Reply, Failure<Refusal>>
    requires { length text.now ≤ source_limit }
    ensures { IfAnswered result (After (Some (ct file.now)) text.now) }
{
    let answer = ct_text(alloc, text);
    let constant = as_refused(answer, Refusal::Ct)?;
    Ok(Reply {
        status: Status::Ok,
        text: constant,
        made: Seq::new(alloc),
    })
}

/// A text that is told as it is. Nothing is made for it.
fn text_reply(alloc: Global, text: Bytes) -> Reply
    ensures { (seed size : ℕ)
        → IsDone (Some (gen seed size)) text result.status result.text result.made }
{
    Reply {
        status: Status::Ok,
        text,
        made: Seq::new(alloc),
    }
}

/// The run of what a program from a number is compiled to, with its summary.
fn selfrun_reply(
    alloc: Global,
    seed: u32,
    size: u32,
    fuel: u64,
    text: &[u8],
) -> Result<Reply, Failure<Refusal>>
    requires { length text.now ≤ source_limit }
    ensures { IfAnswered result (After (Some (selfrun seed size fuel)) text.now) }
{
    let answer = selfrun_text(alloc, text, seed, size, fuel);
    let told = as_refused(answer, Refusal::Exec)?;
    let Told { ran, functions } = told;
    Ok(told_reply(ran, functions))
}

/// A request, from the reading on.
fn perform<S: Source>(
    alloc: Global,
    request: Request<'_>,
    src: &mut S,
) -> Result<Reply, Failure<Refusal>>
    requires { HasNumbers (wanted_of request) }
    ensures { let told = source_told S.told S.faults src.old src.new
        in IfAnswered result (Performs (Some (wanted_of request.entry)) told) }
{
    let text = text_of(alloc, src, &request)?;
    match request {
        Request::Compile { file } => compile_reply(alloc, file, text.as_slice()),
        Request::Exec(call) => exec_reply(alloc, &call, text.as_slice()),
        Request::Interp(call) => interp_reply(alloc, &call, text.as_slice()),
        Request::Leak(call) => leak_reply(alloc, &call, text.as_slice()),
        Request::Disasm { file } => disasm_reply(alloc, file, text.as_slice()),
        Request::Check { file } => check_reply(alloc, file, text.as_slice()),
        Request::Ct { file } => ct_reply(alloc, file, text.as_slice()),
        Request::Gen { .. } => Ok(text_reply(alloc, text)),
        Request::Selfrun { seed, size, fuel } => {
            selfrun_reply(alloc, seed, size, fuel, text.as_slice())
        }
    }
}

/// The stages in their order: each refuses, wants memory or goes on.
pub fn answer<S: Source>(
    alloc: Global,
    words: &[String],
    src: &mut S,
) -> Result<Reply, Failure<Refusal>>
    ensures { let told = source_told S.told S.faults src.old src.new
        in IfAnswered result (Performs (wanted_command (texts_of words.now)) told) }
{
    match request_of(alloc, words)? {
        Some(request) => perform(alloc, request, src),
        None => Err(Failure::Refused(Refusal::Usage)),
    }
}
