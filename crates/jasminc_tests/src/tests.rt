//! Whole commands over texts in memory, with the answers that the rules give by hand.

use crate::commands::{Faults, NO_FAULTS, run};
use jasminc_top::Status;
use std::alloc::{AllocError, Global};
use std::test::Fail;

pub(crate) const SUM: &[u8] =
    b"export fn add(reg u64 x, reg u64 y) -> reg u64 { reg u64 r; r = x; r += y; return r; }\n";

const LISTING: &str =
    "jasmin-listing 1\nfn add\narg x u64 rdi\narg y u64 rsi\nret r u64 rax\nframe 0\nsaved -\ninsns 3\ncode 4889f84801f0c3\ntr [] {op[] op[]} [a:@0]\nct yes\nend\n";

pub(crate) const COMPILE: &[&str] = &["jasminc", "compile", "add.jazz"];

#[test]
fn tells_what_it_made(rt: HostRuntime) -> Result<(), Fail> {
    let ran = run(rt.alloc(), COMPILE, SUM, &NO_FAULTS)?;
    let made = ran.made.get(0).ok_or("nothing is made")?;
    assert_eq!(rt; made.name.as_str(), "add");
    assert_eq!(rt; made.insns, 3);
    assert_eq!(rt;
        made.code.as_slice(),
        b"\x48\x89\xf8\x48\x01\xf0\xc3".as_slice()
    );
    Ok(())
}

/// A text of so many bytes: blanks, and the function behind them.
fn padded(alloc: Global, length: usize) -> Result<Vec<u8>, AllocError> {
    let mut text = vec![in alloc; b' '; length.saturating_sub(SUM.len())]?;
    text.extend_from_slice(SUM)?;
    Ok(text)
}

#[test]
fn reads_a_text_up_to_the_limit(rt: HostRuntime) -> Result<(), Fail> {
    let alloc = rt.alloc();
    for (length, status, wanted) in [
        (1_048_576, Status::Ok, LISTING),
        (1_048_577, Status::Limit, "limit Source\n"),
    ] {
        let text = padded(alloc, length)?;
        assert_eq!(rt; text.len(), length);
        let ran = run(alloc, COMPILE, text.as_slice(), &NO_FAULTS)?;
        assert!(rt; ran.status == status);
        assert_eq!(rt; ran.written.as_slice(), wanted.as_bytes());
    }
    Ok(())
}

/// Faults of a compile command, its answer, and how many faults the source and the sink count.
struct Faulty {
    faults: Faults,
    status: Status,
    written: &'static str,
    source_faults: u64,
    sink_faults: u64,
}

static FAULTS: [Faulty; 4] = [
    Faulty {
        faults: Faults {
            source: &[0],
            sink: &[],
            room: 300,
        },
        status: Status::ReadFault,
        written: "read fault\n",
        source_faults: 1,
        sink_faults: 0,
    },
    Faulty {
        faults: Faults {
            source: &[1],
            sink: &[],
            room: 300,
        },
        status: Status::ReadFault,
        written: "read fault\n",
        source_faults: 1,
        sink_faults: 0,
    },
    Faulty {
        faults: Faults {
            source: &[],
            sink: &[0],
            room: 300,
        },
        status: Status::WriteFault,
        written: "",
        source_faults: 0,
        sink_faults: 1,
    },
    Faulty {
        faults: Faults {
            source: &[],
            sink: &[],
            room: 10,
        },
        status: Status::WriteFault,
        written: "jasmin-lis",
        source_faults: 0,
        sink_faults: 1,
    },
];

#[test]
fn tells_faults(rt: HostRuntime) -> Result<(), Fail> {
    for (i, row) in FAULTS.iter().enumerate() {
        let ran = run(rt.alloc(), COMPILE, SUM, &row.faults)?;
        assert!(rt; ran.status == row.status, "row {i}");
        assert_eq!(rt; ran.written.as_slice(), row.written.as_bytes(), "row {i}");
        assert!(rt; ran.made.is_empty(), "row {i}");
        assert_eq!(rt; ran.source_faults, row.source_faults, "row {i}");
        assert_eq!(rt; ran.sink_faults, row.sink_faults, "row {i}");
    }
    Ok(())
}
