//! Lines of a listing, and texts that are none.

use jz_listing_lines::{Line, read_line};

fn kind(line: &Option<Line>) -> u8 {
    match line {
        None => 0,
        Some(Line::First) => 1,
        Some(Line::Fn(_)) => 2,
        Some(Line::Arg(_)) => 3,
        Some(Line::Ret(_)) => 4,
        Some(Line::Pre(_)) => 5,
        Some(Line::Frame(_)) => 6,
        Some(Line::Saved(_)) => 7,
        Some(Line::Insns(_)) => 8,
        Some(Line::Code(_)) => 9,
        Some(Line::Leakage(_)) => 10,
        Some(Line::Ct(_)) => 11,
        Some(Line::End) => 12,
    }
}

static ROWS: [(&str, u8); 60] = [
    ("jasmin-listing 1", 1),
    ("jasmin-listing 2", 0),
    ("jasmin-listing 1 ", 0),
    ("fn add", 2),
    ("fn while", 0),
    ("fn _", 0),
    ("fn _a", 2),
    ("fn 1a", 0),
    ("fn add ", 0),
    ("arg x u64 rdi", 3),
    ("arg x u64 Rdi", 0),
    ("arg x u8 r15", 3),
    ("arg x u9 r15", 0),
    ("ret x u16 r8", 4),
    ("ret x u16 r16", 0),
    ("pre region p 5", 5),
    ("pre region p 1*v+0", 5),
    ("pre region p 0*v+0", 5),
    ("pre region p v", 0),
    ("pre region p 01", 0),
    ("pre range x 0..18446744073709551615", 5),
    ("pre range x 0..18446744073709551616", 0),
    ("pre align p 8", 5),
    ("pre align p -8", 0),
    ("frame 0", 6),
    ("frame 00", 0),
    ("frame ", 0),
    ("saved -", 7),
    ("saved", 0),
    ("saved rbx rbp", 7),
    ("saved rbx  rbp", 0),
    ("saved rbx ", 0),
    ("insns 3", 8),
    ("code 4889f8c3", 9),
    ("code 4889F8c3", 0),
    ("code ", 9),
    ("code", 0),
    ("code 4", 0),
    ("tr [] {} []", 10),
    ("tr [] {} [] ", 0),
    (
        "tr [a:@0] {op[a:5 b1]} [d:$1:@-8:@-9223372036854775808+2*$0]",
        10,
    ),
    ("tr [a:@-9223372036854775809] {} []", 0),
    ("tr [a:@-0] {} []", 0),
    ("tr [] {if([] [b0] {op[]} [b1] {})} []", 10),
    ("tr [] {if([] [b0] {op[]} [b1] {}) op[]} []", 10),
    ("tr [] {if([] [b0] {op[]} [b1] {})op[]} []", 0),
    ("tr [] {while({} [] [] {op[]} [])} []", 10),
    ("tr [] {for() for({} {op[]})} []", 10),
    ("tr [] {for({} )} []", 0),
    ("tr [] {for( {})} []", 0),
    ("tr [] {call([] {call([] {} [])} [])} []", 10),
    ("tr [] {call([] {call([] {} []} [])} []", 0),
    ("ct yes", 11),
    ("ct no 1:2 Branch x", 11),
    ("ct no 4294967296:2 Branch x", 0),
    ("ct no 4294967295:0 Address a[3]", 11),
    ("ct no 1:2 Divide mem", 11),
    ("ct no 1:2 Divide a[03]", 0),
    ("end", 12),
    ("end ", 0),
];

#[test]
fn rows(rt: HostRuntime) {
    for (text, want) in ROWS.iter() {
        let Ok(line) = read_line(rt.alloc(), text.as_bytes()) else {
            return;
        };
        assert_eq!(rt; kind(&line), *want, "{text}");
    }
}
