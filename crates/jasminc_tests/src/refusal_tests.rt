//! Answers of docs/REFUSALS.md that more than one text or word tells: limits of statements and of
//! constants, items, and what to write in place of what is refused.

use crate::commands::{NO_FAULTS, run};
use crate::tests::{COMPILE, SUM};
use jasminc_top::Status;
use std::alloc::{AllocError, Global};
use std::test::Fail;

/// A function of so many statements, the last with a constant that no instruction holds.
fn long_function(alloc: Global, statements: usize) -> Result<Vec<u8>, AllocError> {
    let mut text = Vec::from_slice(alloc, b"export fn big() { reg u64 x; ")?;
    for _ in 1..statements {
        text.extend_from_slice(b"x = 1; ")?;
    }
    text.extend_from_slice(b"x += 0x80000000; }")?;
    Ok(text)
}

#[test]
fn statements_are_limited(rt: HostRuntime) -> Result<(), Fail> {
    let alloc = rt.alloc();
    for (statements, wanted) in [
        (65_536, "limit ImmRange 1:458780\n"),
        (65_537, "limit Expand big\n"),
    ] {
        let text = long_function(alloc, statements)?;
        let ran = run(alloc, COMPILE, text.as_slice(), &NO_FAULTS)?;
        assert!(rt; ran.status == Status::Limit);
        assert_eq!(rt; ran.written.as_slice(), wanted.as_bytes());
    }
    Ok(())
}

/// Words as items, and whether each is a number.
static ITEMS: [(&str, bool); 11] = [
    ("0", true),
    ("11", true),
    ("0x0B", true),
    ("18446744073709551615", true),
    ("007", false),
    ("00", false),
    ("0X1f", false),
    ("0x", false),
    ("+5", false),
    ("1_000", false),
    ("18446744073709551616", false),
];

#[test]
fn items_are_numbers(rt: HostRuntime) -> Result<(), Fail> {
    for (item, is_number) in ITEMS.iter() {
        let words = ["jasminc", "exec", "add.jazz", "add", *item, "1"];
        let ran = run(rt.alloc(), &words, SUM, &NO_FAULTS)?;
        let status = if *is_number {
            Status::Ok
        } else {
            Status::Usage
        };
        assert!(rt; ran.status == status, "item {item}");
    }
    Ok(())
}

/// The right sides of `r += NUM;`, and whether an instruction holds the number.
static CONSTANTS: [(&str, bool); 4] = [
    ("0x7fffffff", true),
    ("0xffffffff80000000", true),
    ("0x80000000", false),
    ("0xffffffff7fffffff", false),
];

#[test]
fn constants_of_operations_are_limited(rt: HostRuntime) -> Result<(), Fail> {
    let alloc = rt.alloc();
    for (number, is_held) in CONSTANTS.iter() {
        let mut text = Vec::from_slice(
            alloc,
            b"export fn f() -> reg u64 { reg u64 r; r = 1; r += ",
        )?;
        text.extend_from_slice(number.as_bytes())?;
        text.extend_from_slice(b"; return r; }")?;
        let ran = run(alloc, COMPILE, text.as_slice(), &NO_FAULTS)?;
        let status = if *is_held { Status::Ok } else { Status::Limit };
        assert!(rt; ran.status == status, "number {number}");
    }
    Ok(())
}

/// What docs/REFUSALS.md tells to write in place of a text that is refused.
static REMEDIES: [&[u8]; 3] = [
    b"export fn id(reg u64 x) -> reg u64 { reg u64 r; r = x; return r; }",
    b"export fn f() -> reg u64 { reg u64 r t; r = 1; t = 0x80000000; r += t; return r; }",
    b"export fn h(reg u64 x, reg u64 y, reg u64 z) -> reg u64, reg u64 {\n  reg u64 r s t;\n  r = x;\n  t = z;\n  s = y;\n  s += t;\n  return r, s;\n}\n",
];

#[test]
fn remedies_are_compiled(rt: HostRuntime) -> Result<(), Fail> {
    for (i, text) in REMEDIES.iter().enumerate() {
        let ran = run(rt.alloc(), COMPILE, text, &NO_FAULTS)?;
        assert!(rt; ran.status == Status::Ok, "text {i}");
        assert_eq!(rt; ran.made.len(), 1, "text {i}");
    }
    Ok(())
}
