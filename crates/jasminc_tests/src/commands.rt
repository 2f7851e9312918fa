//! Whole commands over a text in memory.

use jasminc_top::{Done, Status, jasminc_run};
use jz_io::{MemSink, MemSource};
use jz_leak::Seq;
use jz_listing::Compiled;
use std::alloc::{AllocError, Global};

/// A whole command, and what its sink and its source tell afterwards.
#[derive(Drop)]
pub struct Ran {
    pub status: Status,
    pub made: Seq<Compiled>,
    pub written: Vec<u8>,
    pub source_faults: u64,
    pub sink_faults: u64,
}

/// The calls of the source and of the sink that fail, and how many bytes the sink takes.
pub struct Faults {
    pub source: &'static [u64],
    pub sink: &'static [u64],
    pub room: usize,
}

pub const NO_FAULTS: Faults = Faults {
    source: &[],
    sink: &[],
    room: 1000,
};

/// Nothing fails, and the sink takes long answers.
pub const WIDE: Faults = Faults {
    source: &[],
    sink: &[],
    room: 1_000_000,
};

/// Appends the words of a line, which blanks part.
pub fn push_words<'a>(words: &mut Vec<&'a str>, line: &'a str) -> Result<(), AllocError> {
    for word in line.split(" ") {
        if !word.is_empty() {
            words.push(word)?;
        }
    }
    Ok(())
}

fn written(alloc: Global, sink: &MemSink) -> Result<Vec<u8>, AllocError> {
    sink.written().to_vec(alloc)
}

/// A command over one file in memory, add.jazz.
pub fn run(alloc: Global, words: &[&str], text: &[u8], faults: &Faults) -> Result<Ran, AllocError> {
    let mut list = Vec::new(alloc);
    for word in words {
        list.push(String::from_str(alloc, word)?)?;
    }
    let mut files = Vec::new(alloc);
    let name = String::from_str(alloc, "add.jazz")?;
    files.push((name, Vec::from_slice(alloc, text)?))?;
    let mut source = MemSource::new(alloc, files, faults.source)?;
    let mut sink = MemSink::new(alloc, faults.sink, faults.room)?;
    let Done { status, made } = jasminc_run(alloc, list.as_slice(), &mut source, &mut sink);
    Ok(Ran {
        status,
        made,
        written: written(alloc, &sink)?,
        source_faults: source.faults(),
        sink_faults: sink.faults(),
    })
}
