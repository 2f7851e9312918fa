//! The call over all stages.

ghost use Rattle.std.specs.Prelude.{[], codes};
ghost use Rattle.jasminc_words.specs.Wanted.{texts_of, wanted_command};
ghost use Rattle.jasminc_top.specs.Told.{source_told, sink_told};
ghost use Rattle.jasminc_top.specs.Runs.{Writes, WritesNoMemory, WritesRefusal};
ghost use Rattle.jasminc_top.specs.Promises.{KeepsPromises};

use crate::answer::{Reply, answer};
use crate::refusal::{Refusal, Status};
use jz_io::{Sink, Source, write_all};
use jz_listing::Compiled;
use jz_tree::{Failure, Seq};
use std::alloc::Global;

/// How a command ended, and what this call compiled: in `compile`, `exec` and `leak` at Ok and
/// OutOfFuel each export function in the text's order, else nothing.
#[derive(Drop)]
pub struct Done {
    pub status: Status,
    pub made: Seq<Compiled>,
}

/// Writes what is due.
fn deliver<K: Sink>(
    alloc: Global,
    out: &mut K,
    status: Status,
    text: &[u8],
    made: Seq<Compiled>,
) -> Done
    ensures { Writes status text.now made (sink_told K.written K.faults out.old out.new) result }
{
    match write_all(out, text) {
        Ok(()) => Done { status, made },
        Err(_) => Done {
            status: Status::WriteFault,
            made: Seq::new(alloc),
        },
    }
}

/// Writes that there was no memory, and takes none.
fn deliver_no_memory<K: Sink>(alloc: Global, out: &mut K) -> Done
    ensures { WritesNoMemory (sink_told K.written K.faults out.old out.new) result }
{
    deliver(
        alloc,
        out,
        Status::Memory,
        b"out of memory\n",
        Seq::new(alloc),
    )
}

/// Writes the line of a refusal. That of a fault of reading takes no memory.
fn deliver_refusal<K: Sink>(alloc: Global, out: &mut K, refusal: &Refusal) -> Done
    ensures { WritesRefusal refusal.now (sink_told K.written K.faults out.old out.new) result }
{
    if let Refusal::ReadFault = refusal {
        return deliver(
            alloc,
            out,
            Status::ReadFault,
            b"read fault\n",
            Seq::new(alloc),
        );
    }
    match refusal.line(alloc) {
        Ok(line) => deliver(
            alloc,
            out,
            refusal.status(),
            line.as_slice(),
            Seq::new(alloc),
        ),
        Err(_) => deliver_no_memory(alloc, out),
    }
}

/// Does what the words ask for, the program's name first: reads the file from the source, and
/// writes the answer, or the line that tells why there is none, to the sink. It ends with a status
/// of the table and never otherwise.
pub fn jasminc_run<S: Source, K: Sink>(
    alloc: Global,
    words: &[String],
    src: &mut S,
    out: &mut K,
) -> Done
    ensures { KeepsPromises (record {
      wish = wanted_command (texts_of words.now);
      source = source_told S.told S.faults src.old src.new;
      sink = sink_told K.written K.faults out.old out.new;
      done = result;
    }) }
{
    match answer(alloc, words, src) {
        Ok(Reply { status, text, made }) => deliver(alloc, out, status, text.as_slice(), made),
        Err(Failure::Refused(refusal)) => deliver_refusal(alloc, out, &refusal),
        Err(Failure::OutOfMemory) => deliver_no_memory(alloc, out),
    }
}
