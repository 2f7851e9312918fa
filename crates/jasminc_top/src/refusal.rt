//! The statuses of the program, and the answers other than Ok with their lines.

ghost use Rattle.std.specs.Prelude.{◌≡◌, ◌++◌, IfOk, OnOk, codes, decimal};
ghost use Rattle.jasminc_top.specs.Refusals.{status_of_unread, status_of_refused, status_of_fault};
ghost use Rattle.jasminc_top.specs.Refusals.{status_of_unsafe, status_of_breached};
ghost use Rattle.jasminc_top.specs.Refusals.{status_of_unmade, status_of_uncompiled};
ghost use Rattle.jasminc_top.specs.Refusals.{status_of_uncalled, status_of};
ghost use Rattle.jasminc_top.specs.Refusals.{cause_text, line_of};

use crate::check_lines::write_unsafe;
use crate::compile_lines::write_uncompiled;
use crate::ct_lines::write_breached;
use crate::disasm_lines::write_disasm_fault;
use crate::interp_lines::write_refused;
use crate::run_lines::write_uncalled;
use jasminc_check as checking;
use jasminc_ct as judging;
use jasminc_interp::Refused;
use jasminc_selfrun::{Refused as Uncalled, Uncompiled, Unmade};
use jasminc_source::Unread;
use jz_disasm_text::Fault;
use std::alloc::{AllocError, Global};

/// How a command ends, by the program's exit status.
#[derive(Clone, Copy, PartialEq, Eq)]
pub enum Status {
    Ok = 0,
    Usage = 1,
    Syntax = 2,
    Typing = 3,
    Limit = 4,
    Alarm = 5,
    NoPlace = 6,
    Precondition = 7,
    Stuck = 8,
    OutOfFuel = 9,
    ReadFault = 10,
    WriteFault = 11,
    Memory = 12,
    CtNo = 13,
    NoFunction = 14,
    Undecodable = 15,
}

/// Why a command is refused, by what the answer's line shows.
#[derive(Drop)]
pub enum Refusal {
    /// The words are no command.
    Usage,
    /// The file was not opened or not read.
    ReadFault,
    /// The text is longer than 1,048,576 bytes.
    Source,
    /// An export function of a text is not run.
    Interp(Refused),
    /// A text has no disassembly.
    Disasm(Fault),
    /// An export function of a text is not safe.
    Check(checking::Refused),
    /// An export function of a text is not constant time.
    Ct(judging::Refused),
    /// An export function of a text is not compiled.
    Compile(Uncompiled),
    /// What an export function of a text is compiled to is not run, or nothing of it is shown.
    Exec(Uncalled),
}

fn status_of_unread(unread: Unread) -> Status
    ensures { result ≡ status_of_unread unread }
{
    match unread {
        Unread::Lex(_) | Unread::Parse(_) => Status::Syntax,
        Unread::Typing(_) => Status::Typing,
    }
}

/// The status of a function that is not run.
fn status_of_refused(refused: &Refused) -> Status
    ensures { result ≡ status_of_refused refused.now }
{
    match refused {
        Refused::Unread(unread) => status_of_unread(*unread),
        Refused::NoFunction(_) => Status::NoFunction,
        Refused::Limit(_) => Status::Limit,
        Refused::Items | Refused::Unmet(_) => Status::Precondition,
    }
}

/// The status of a text without a disassembly.
fn status_of_fault(fault: Fault) -> Status
    ensures { result ≡ status_of_fault fault }
{
    match fault {
        Fault::BadListing(_) | Fault::BadHex(_) => Status::Syntax,
        Fault::Undecodable(_) => Status::Undecodable,
    }
}

/// The status of a text whose functions are not all safe.
fn status_of_unsafe(refused: &checking::Refused) -> Status
    ensures { result ≡ status_of_unsafe refused.now }
{
    match refused {
        checking::Refused::Unread(unread) => status_of_unread(*unread),
        checking::Refused::Limit(_) => Status::Limit,
        checking::Refused::Alarm(_) => Status::Alarm,
    }
}

/// The status of a text whose functions are not all constant time.
fn status_of_breached(refused: &judging::Refused) -> Status
    ensures { result ≡ status_of_breached refused.now }
{
    match refused {
        judging::Refused::Unread(unread) => status_of_unread(*unread),
        judging::Refused::Limit(_) => Status::Limit,
        judging::Refused::Breach(_) => Status::CtNo,
    }
}

/// The status of a text of which a safe function is not compiled.
fn status_of_unmade(unmade: &Unmade) -> Status
    ensures { result ≡ status_of_unmade unmade.now }
{
    match unmade {
        Unmade::Frame(_) => Status::Limit,
        Unmade::NoPlace(_) => Status::NoPlace,
    }
}

/// The status of a text whose functions are not all compiled.
fn status_of_uncompiled(refused: &Uncompiled) -> Status
    ensures { result ≡ status_of_uncompiled refused.now }
{
    match refused {
        Uncompiled::Unread(unread) => status_of_unread(*unread),
        Uncompiled::Limit(_) => Status::Limit,
        Uncompiled::Alarm(_) => Status::Alarm,
        Uncompiled::Making(unmade) => status_of_unmade(unmade),
    }
}

/// The status of a function that is not called.
fn status_of_uncalled(refused: &Uncalled) -> Status
    ensures { result ≡ status_of_uncalled refused.now }
{
    match refused {
        Uncalled::Compile(uncompiled) => status_of_uncompiled(uncompiled),
        Uncalled::NoFunction(_) => Status::NoFunction,
        Uncalled::Items | Uncalled::Unmet(_) => Status::Precondition,
    }
}

impl Refusal {
    /// The status that it ends a command with.
    pub fn status(&self) -> Status
        ensures { result ≡ status_of self.now }
    {
        match self {
            Refusal::Usage => Status::Usage,
            Refusal::ReadFault => Status::ReadFault,
            Refusal::Source => Status::Limit,
            Refusal::Interp(refused) => status_of_refused(refused),
            Refusal::Disasm(fault) => status_of_fault(*fault),
            Refusal::Check(refused) => status_of_unsafe(refused),
            Refusal::Ct(refused) => status_of_breached(refused),
            Refusal::Compile(refused) => status_of_uncompiled(refused),
            Refusal::Exec(refused) => status_of_uncalled(refused),
        }
    }

    /// Appends its line without the line feed.
    fn write(&self, line: &mut Vec<u8>) -> Result<(), AllocError>
        ensures { OnOk result (line.new.items ≡ line.old.items ++ cause_text self.now) }
    {
        match self {
            Refusal::Usage => line.extend_from_slice(b"usage: jasminc COMMAND ARGS"),
            Refusal::ReadFault => line.extend_from_slice(b"read fault"),
            Refusal::Source => line.extend_from_slice(b"limit Source"),
            Refusal::Interp(refused) => write_refused(line, refused),
            Refusal::Disasm(fault) => write_disasm_fault(line, *fault),
            Refusal::Check(refused) => write_unsafe(line, refused),
            Refusal::Ct(refused) => write_breached(line, refused),
            Refusal::Compile(refused) => write_uncompiled(line, refused),
            Refusal::Exec(refused) => write_uncalled(line, refused),
        }
    }

    /// The line that tells it, with its line feed.
    pub fn line(&self, alloc: Global) -> Result<Vec<u8>, AllocError>
        ensures { IfOk result (λ line. line.items ≡ line_of self.now) }
    {
        let mut line = Vec::new(alloc);
        self.write(&mut line)?;
        line.extend_from_slice(b"\n")?;
        Ok(line)
    }
}
