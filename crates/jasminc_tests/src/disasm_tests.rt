//! Disassembly by the command `disasm`, of hexadecimal text and of listings, with the answers that
//! the rules give by hand.

use crate::commands::{Faults, NO_FAULTS, run};
use crate::tests::{COMPILE, SUM};
use jasminc_top::Status;
use std::alloc::{AllocError, Global};
use std::test::Fail;

const DISASM: &[&str] = &["jasminc", "disasm", "add.jazz"];

/// The listing of `add`, and how many of its first bytes are a file, with the answer.
const LISTING: &[u8] =
    b"jasmin-listing 1\nfn add\narg x u64 rdi\narg y u64 rsi\nret r u64 rax\nframe 0\nsaved -\ninsns 3\ncode 4889f84801f0c3\ntr [] {op[] op[]} [a:@0]\nct yes\nend\n";

static CUTS: [(usize, Status, &str); 8] = [
    (0, Status::Ok, ""),
    (13, Status::Syntax, "syntax BadHex 0\n"),
    (14, Status::Syntax, "syntax BadListing 1\n"),
    (17, Status::Ok, ""),
    (22, Status::Syntax, "syntax BadListing 2\n"),
    (110, Status::Syntax, "syntax BadListing 10\n"),
    (145, Status::Syntax, "syntax BadListing 12\n"),
    (
        146,
        Status::Ok,
        "fn add\n00000000 4889f8 mov.64 rax, rdi\n00000003 4801f0 add.64 rax, rsi\n00000006 c3 ret\n",
    ),
];

#[test]
fn listings_are_cut(rt: HostRuntime) -> Result<(), Fail> {
    for (length, status, written) in CUTS.iter() {
        let text = LISTING.get(..*length).ok_or("a shorter listing")?;
        let ran = run(rt.alloc(), DISASM, text, &NO_FAULTS)?;
        assert!(rt; ran.status == *status, "{length}");
        assert_eq!(rt; ran.written.as_slice(), written.as_bytes(), "{length}");
    }
    Ok(())
}

const EXCHANGE: &[u8] =
    b"export fn exchange(reg u64 x, reg u64 y) -> reg u64, reg u64 {\n  reg u64 a b;\n  a = x;\n  b = y;\n  a ^= b;\n  b ^= a;\n  a ^= b;\n  return a, b;\n}\n";

const MIX: &[u8] =
    b"export fn mix(reg u64 a, reg u64 b, reg u64 c, reg u64 d) -> reg u64 {\n  reg u64 r k;\n  r = a;\n  r += b;\n  k = 0x9e3779b97f4a7c15;\n  r ^= k;\n  c -= d;\n  r += c;\n  r ^= 0x5bd1e995;\n  return r;\n}\n";

const SUM_AND_DIFFERENCE: &[u8] =
    b"export fn sum_and_difference(reg u64 x, reg u64 y) -> reg u64, reg u64 {\n  reg u64 sum difference;\n  sum = x;\n  sum += y;\n  difference = x;\n  difference -= y;\n  return sum, difference;\n}\n";

/// Routines of examples/, and their lines.
static COMPILED: [(&[u8], &str); 4] = [
    (
        SUM,
        "fn add\n00000000 4889f8 mov.64 rax, rdi\n00000003 4801f0 add.64 rax, rsi\n00000006 c3 ret\n",
    ),
    (
        EXCHANGE,
        "fn exchange\n00000000 4889f8 mov.64 rax, rdi\n00000003 4889f2 mov.64 rdx, rsi\n00000006 4831d0 xor.64 rax, rdx\n00000009 4831c2 xor.64 rdx, rax\n0000000c 4831d0 xor.64 rax, rdx\n0000000f c3 ret\n",
    ),
    (
        MIX,
        "fn mix\n00000000 4883ec08 sub.64 rsp, 8\n00000004 48891c24 mov.64 [rsp], rbx\n00000008 4889f8 mov.64 rax, rdi\n0000000b 4801f0 add.64 rax, rsi\n0000000e 48bb157c4a7fb979379e mov.64 rbx, -7046029254386353131\n00000018 4831d8 xor.64 rax, rbx\n0000001b 4829ca sub.64 rdx, rcx\n0000001e 4801d0 add.64 rax, rdx\n00000021 4881f095e9d15b xor.64 rax, 1540483477\n00000028 488b1c24 mov.64 rbx, [rsp]\n0000002c 4883c408 add.64 rsp, 8\n00000030 c3 ret\n",
    ),
    (
        SUM_AND_DIFFERENCE,
        "fn sum_and_difference\n00000000 4889f8 mov.64 rax, rdi\n00000003 4801f0 add.64 rax, rsi\n00000006 4889fa mov.64 rdx, rdi\n00000009 4829f2 sub.64 rdx, rsi\n0000000c c3 ret\n",
    ),
];

#[test]
fn what_is_compiled_is_disassembled(rt: HostRuntime) -> Result<(), Fail> {
    for (i, (text, lines)) in COMPILED.iter().enumerate() {
        let listed = run(rt.alloc(), COMPILE, text, &NO_FAULTS)?;
        assert!(rt; listed.status == Status::Ok, "{i}");
        let shown = run(rt.alloc(), DISASM, listed.written.as_slice(), &NO_FAULTS)?;
        assert!(rt; shown.status == Status::Ok, "{i}");
        assert_eq!(rt; shown.written.as_slice(), lines.as_bytes(), "{i}");
    }
    Ok(())
}

#[test]
fn a_text_is_read_up_to_the_limit(rt: HostRuntime) -> Result<(), Fail> {
    let alloc = rt.alloc();
    for (length, status, written) in [
        (1_048_576, Status::Ok, ""),
        (1_048_577, Status::Limit, "limit Source\n"),
    ] {
        let text = vec![in alloc; b' '; length]?;
        let ran = run(alloc, DISASM, text.as_slice(), &NO_FAULTS)?;
        assert!(rt; ran.status == status);
        assert_eq!(rt; ran.written.as_slice(), written.as_bytes());
    }
    Ok(())
}

/// A sink with room for ten bytes.
const TEN_BYTES: Faults = Faults {
    source: &[],
    sink: &[],
    room: 10,
};

#[test]
fn a_fault_of_writing_is_told(rt: HostRuntime) -> Result<(), Fail> {
    let ran = run(rt.alloc(), DISASM, b"c3", &TEN_BYTES)?;
    assert!(rt; ran.status == Status::WriteFault);
    assert_eq!(rt; ran.written.as_slice(), b"00000000 c".as_slice());
    assert_eq!(rt; ran.sink_faults, 1);
    Ok(())
}

/// A listing whose transformer nests so many times a beginning and an end.
fn nested(alloc: Global, depth: usize, begin: &[u8], end: &[u8]) -> Result<Vec<u8>, AllocError> {
    let mut text = Vec::from_slice(alloc, b"jasmin-listing 1\nfn f\nframe 0\n")?;
    text.extend_from_slice(b"saved -\ninsns 1\ncode c3\ntr [] ")?;
    for _ in 0..depth {
        text.extend_from_slice(begin)?;
    }
    text.extend_from_slice(b"{}")?;
    for _ in 0..depth {
        text.extend_from_slice(end)?;
    }
    text.extend_from_slice(b" []\nct yes\nend\n")?;
    Ok(text)
}

#[test]
fn a_listing_nests_as_deep_as_it_is_long(rt: HostRuntime) -> Result<(), Fail> {
    let alloc = rt.alloc();
    for (depth, begin, end) in [
        (70_000, b"{call([] ".as_slice(), b" [])}".as_slice()),
        (100_000, b"{for(".as_slice(), b")}".as_slice()),
        (50_000, b"{if([] [] {} [] ".as_slice(), b")}".as_slice()),
        (40_000, b"{while(".as_slice(), b" [] [] {} [])}".as_slice()),
        (40_000, b"{while({} [] [] ".as_slice(), b" [])}".as_slice()),
    ] {
        let text = nested(alloc, depth, begin, end)?;
        let ran = run(alloc, DISASM, text.as_slice(), &NO_FAULTS)?;
        assert!(rt; ran.status == Status::Ok, "{depth}");
        assert_eq!(rt;
            ran.written.as_slice(),
            b"fn f\n00000000 c3 ret\n".as_slice(),
            "{depth}"
        );
    }
    Ok(())
}
