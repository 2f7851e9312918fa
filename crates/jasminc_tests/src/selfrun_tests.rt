//! The commands `gen` and `selfrun`: programs from numbers, and what compiling and running them comes
//! to, by a model of its own that knows the rules of the lowering and not its code.

use crate::commands::{Faults, WIDE, run};
use crate::tests::SUM;
use jasminc_top::Status;
use std::test::Fail;

const FAILING: Faults = Faults {
    source: &[0, 1, 2, 3],
    sink: &[],
    room: 1000,
};

/// The program that is printed, compiled and run as a file gives the summary's result.
#[test]
fn a_printed_program_as_a_file(rt: HostRuntime) -> Result<(), Fail> {
    let printed = run(rt.alloc(), &["jasminc", "gen", "1", "8"], b"", &WIDE)?;
    let words = ["jasminc", "exec", "add.jazz", "main", "2", "3", "4", "0"];
    let ran = run(rt.alloc(), &words, printed.written.as_slice(), &WIDE)?;
    let text = std::str::from_utf8(ran.written.as_slice())?;
    assert!(rt; text.ends_with("end 42\nresult x0 0xfffffffffffffff5\n"));
    Ok(())
}

/// A source that fails at each call is not asked.
#[test]
fn no_file_is_read(rt: HostRuntime) -> Result<(), Fail> {
    for words in [
        ["jasminc", "gen", "1", "2"],
        ["jasminc", "selfrun", "1", "2"],
    ] {
        let ran = run(rt.alloc(), &words, SUM, &FAILING)?;
        assert!(rt; ran.status == Status::Ok);
        assert_eq!(rt; ran.source_faults, 0);
    }
    Ok(())
}
