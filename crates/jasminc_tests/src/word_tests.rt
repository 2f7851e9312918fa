//! The words of the command line: which are a command.

use crate::commands::{NO_FAULTS, run};
use crate::tests::SUM;
use jasminc_top::Status;
use std::alloc::{AllocError, Global};
use std::test::Fail;

/// Command lines over a file add.jazz, and how they end: as a command, as one that names another
/// file, or as none.
static LINES: [(&str, Status); 40] = [
    ("jasminc", Status::Usage),
    ("jasminc add.jazz", Status::Usage),
    ("jasminc run add.jazz", Status::Usage),
    ("jasminc Compile add.jazz", Status::Usage),
    ("jasminc comp add.jazz", Status::Usage),
    ("jasminc help", Status::Usage),
    ("jasminc help compile", Status::Usage),
    ("jasminc --help", Status::Usage),
    ("jasminc -h", Status::Usage),
    ("jasminc --version", Status::Usage),
    ("jasminc compile --help", Status::Usage),
    ("jasminc exec -h add.jazz add 2 3", Status::Usage),
    ("jasminc compile add.jazz add.jazz", Status::Usage),
    ("jasminc compile --fuel 5 add.jazz", Status::Usage),
    ("jasminc --fuel 5 exec add.jazz add 2 3", Status::Usage),
    ("jasminc exec add.jazz add 2 3 --fuel", Status::Usage),
    ("jasminc exec add.jazz add 2 3 --fuel -1", Status::Usage),
    ("jasminc exec add.jazz add 2 3 --fuel five", Status::Usage),
    ("jasminc exec add.jazz add 2 3 --fuel 007", Status::Usage),
    ("jasminc exec add.jazz add 2 3 --fuel=", Status::Usage),
    (
        "jasminc exec add.jazz add 2 3 --fuel 5 --fuel 5",
        Status::Usage,
    ),
    (
        "jasminc exec add.jazz add 2 3 --fuel 18446744073709551616",
        Status::Usage,
    ),
    ("jasminc exec add.jazz add 2 -3", Status::Usage),
    ("jasminc -- compile add.jazz", Status::Usage),
    ("jasminc compile --", Status::Usage),
    ("jasminc compile -- --all", Status::ReadFault),
    ("jasminc compile -", Status::ReadFault),
    ("jasminc compile -- add.jazz", Status::Ok),
    ("jasminc exec add.jazz add -- 2 3", Status::Ok),
    ("jasminc exec --fuel=0x5 add.jazz add 2 3", Status::Ok),
    ("jasminc exec add.jazz --fuel 5 add 2 3", Status::Ok),
    ("jasminc exec add.jazz add 2 --fuel 5 3", Status::Ok),
    ("jasminc disasm", Status::Usage),
    ("jasminc Disasm add.jazz", Status::Usage),
    ("jasminc disasm add.jazz add.jazz", Status::Usage),
    ("jasminc disasm --fuel 5 add.jazz", Status::Usage),
    ("jasminc disasm --all add.jazz", Status::Usage),
    ("jasminc disasm -- --all", Status::ReadFault),
    ("jasminc disasm other.txt", Status::ReadFault),
    ("jasminc disasm add.jazz", Status::Syntax),
];

/// How a command line ends.
fn end_of(alloc: Global, line: &str) -> Result<Status, AllocError> {
    let mut words = Vec::new(alloc);
    for word in line.split(' ') {
        words.push(word)?;
    }
    let ran = run(alloc, words.as_slice(), SUM, &NO_FAULTS)?;
    Ok(ran.status)
}

#[test]
fn which_words_are_a_command(rt: HostRuntime) -> Result<(), Fail> {
    for (line, status) in LINES.iter() {
        let ended = end_of(rt.alloc(), line)?;
        assert!(rt; ended == *status, "{line}");
    }
    Ok(())
}

#[test]
fn no_words_are_no_command(rt: HostRuntime) -> Result<(), Fail> {
    let ran = run(rt.alloc(), &[], SUM, &NO_FAULTS)?;
    assert!(rt; ran.status == Status::Usage);
    assert_eq!(rt;
        ran.written.as_slice(),
        b"usage: jasminc COMMAND ARGS\n".as_slice()
    );
    Ok(())
}
