//! Small texts, read and written whole, past a limit and with faults.
ghost use Rattle.std.specs.Prelude.{None};

use jz_io::{Failed, MemSink, MemSource, ReadRefused, Sink, Source, read_all, write_all};
use std::alloc::{AllocError, Global};
use std::test::Fail;

/// Two files of one name, of which the second never shows.
fn source(alloc: Global, fails: &[u64]) -> Result<MemSource, AllocError> {
    let mut files = Vec::new(alloc);
    for (name, text) in [("one", "first text"), ("one", "second")] {
        let name = String::from_str(alloc, name)?;
        let text = Vec::from_slice(alloc, text.as_bytes())?;
        files.push((name, text))?;
    }
    MemSource::new(alloc, files, fails)
}

#[test]
fn a_text_is_read_up_to_the_limit(rt: HostRuntime) -> Result<(), Fail> {
    let mut source = source(rt.alloc(), &[])?;
    for limit in [100, 10] {
        assert!(rt; source.begin("one").is_ok());
        let text = read_all(rt.alloc(), &mut source, limit)
            .ok()
            .ok_or("no text")?;
        assert_eq!(rt; text.as_slice(), b"first text".as_slice());
    }
    assert!(rt; source.begin("one").is_ok());
    let refused = read_all(rt.alloc(), &mut source, 9).err();
    assert!(rt; refused == Some(ReadRefused::TooLong));
    assert_eq!(rt; source.faults(), 0);
    Ok(())
}

#[test]
fn the_second_read_fails_and_the_next_goes_on(rt: HostRuntime) -> Result<(), Fail> {
    let mut source = source(rt.alloc(), &[2, 5])?;
    let mut buf = [0u8; 4];
    assert!(rt; source.begin("one").is_ok());
    assert!(rt; source.read(&mut buf) == Ok(4));
    assert!(rt; source.read(&mut buf) == Err(Failed));
    assert_eq!(rt; source.faults(), 1);
    assert!(rt; source.read(&mut buf) == Ok(4));
    assert_eq!(rt; buf.as_slice(), b"t te".as_slice());
    assert!(rt; source.read(&mut buf) == Ok(2));
    let refused = read_all(rt.alloc(), &mut source, 9).err();
    assert!(rt; refused == Some(ReadRefused::Fault));
    assert_eq!(rt; source.faults(), 2);
    Ok(())
}

#[test]
fn a_missing_name_is_a_fault(rt: HostRuntime) -> Result<(), Fail> {
    let mut source = source(rt.alloc(), &[])?;
    let mut buf = [0u8; 4];
    assert!(rt; source.begin("one").is_ok());
    assert!(rt; source.begin("missing") == Err(Failed));
    assert_eq!(rt; source.faults(), 1);
    assert!(rt; source.read(&mut buf) == Ok(0));
    Ok(())
}

#[test]
fn a_sink_is_full_or_fails(rt: HostRuntime) -> Result<(), Fail> {
    let mut full = MemSink::new(rt.alloc(), &[], 5)?;
    assert!(rt; full.write(b"abc") == Ok(3));
    assert!(rt; write_all(&mut full, b"defg") == Err(Failed));
    assert_eq!(rt; full.written(), b"abcde".as_slice());
    assert!(rt; full.write(b"") == Ok(0));
    assert_eq!(rt; full.faults(), 1);
    let mut failing = MemSink::new(rt.alloc(), &[1], 5)?;
    assert!(rt; write_all(&mut failing, b"ab") == Ok(()));
    assert!(rt; write_all(&mut failing, b"cd") == Err(Failed));
    assert!(rt; write_all(&mut failing, b"ef") == Ok(()));
    assert_eq!(rt; failing.written(), b"abef".as_slice());
    assert_eq!(rt; failing.faults(), 1);
    Ok(())
}

/// A sink that takes three bytes at most.
#[derive(Drop)]
struct Narrow {
    writes: usize,
    bytes: usize,
}

impl Sink for Narrow {
    ghost written = { λ s. None };

    ghost faults = { λ s. 0 };

    fn write(&mut self, piece: &[u8]) -> Result<usize, Failed> {
        let count = piece.len().min(3);
        self.writes = self.writes.saturating_add(1);
        self.bytes = self.bytes.saturating_add(count);
        Ok(count)
    }
}

#[test]
fn a_piece_is_written_in_several_writes(rt: HostRuntime) -> Result<(), Fail> {
    let mut narrow = Narrow {
        writes: 0,
        bytes: 0,
    };
    assert!(rt; write_all(&mut narrow, b"12345678") == Ok(()));
    assert_eq!(rt; narrow.writes, 3);
    assert_eq!(rt; narrow.bytes, 8);
    Ok(())
}
