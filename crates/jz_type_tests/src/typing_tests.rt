//! Texts, and what typing tells of each.

use jz_lex::lex;
use jz_parse::parse;
use jz_tree::Failure;
use jz_types::check;
use std::alloc::{AllocError, Global};
use std::process::Abort;
use std::test::Fail;

/// A line has a text, in which `~` ends a line, and what is told of it: `typed`, or the line of its
/// first fault.
const NAMES: &str = "\
export fn f(reg u64 x) -> reg u64 { reg u64 r; r = y; return r; } => type 1 Unknown 1:52
export fn f(reg u64 x) -> reg u64 { reg u64 r; r = s; reg u64 s; s = x; return r; } => type 1 Unknown 1:52
param int N = 3; export fn f(reg u64 x) -> reg u64 { reg u64 r; r = x; N = 1; return r; } => type 1 Unknown 1:72
export fn f(reg u64 x) -> reg u64 { reg u64 r; r = N; return r; } param int N = 3; => type 1 Unknown 1:52
export fn f(reg u64 x) -> reg u64 { reg u64 r; y = x; r = z; return r; } => type 1 Unknown 1:48
export fn f(reg u64 x) -> reg u64 { reg u64 r; r = x; return q; } => type 1 Unknown 1:62
export fn f(reg u64 x) -> reg u64 { reg u64 r; r = g(x); return r; } => type 1 Unknown 1:52
param int N = M; param int M = 2; export fn f() { } => type 1 Unknown 1:15
export fn f() { stack u64[n] s; } => type 1 Unknown 1:27
export fn f(reg u64 x) -> reg u64 { reg u64 r; r = g(x); return r; } inline fn g(reg u64 y) -> reg u64 { return y; } => typed
param int N = 3; export fn f(reg u64 x) -> reg u64 { reg u64 r; r = x; r += N * 2; return r; } => typed
param int N = 3; export fn f(reg u64 N) -> reg u64 { reg u64 r; r = N; return r; } => typed
export fn d(reg u64 x x) { } => type 2 Duplicate 1:23
export fn d(reg u64 x) { reg u64 x; } => type 2 Duplicate 1:34
export fn f(reg u64 x) { stack bool x; } => type 2 Duplicate 1:37
inline fn g() { } export fn g() { } => type 2 Duplicate 1:29
inline fn g() { } export fn g(reg u64 a b c d e h i) { } => type 2 Duplicate 1:29
inline fn g() { } inline fn g() -> reg u64 { } => type 2 Duplicate 1:29
param int g = 1; export fn g() { } => type 2 Duplicate 1:28
export fn g() { } param int g = 1; => type 2 Duplicate 1:29
export fn f(reg u64 x) -> reg u64 { reg u64 h; h, h = x * x; return h; } => type 2 Duplicate 1:51
export fn f(reg u64 x) { _, _ = x * x; } => typed
inline fn g(reg u64 x) { } export fn f(reg u64 x) { g(x); } => typed
export fn d(reg u64 x x) { reg u64 x; } => type 2 Duplicate 1:23
export fn d(reg u64 x) -> reg u64 { reg u64 r; r = 1; r = x - r; return r; } => type 6 NoInstruction 1:55
";

const KINDS: &str = "\
export fn f(reg u64 x, reg u32 y) -> reg u64 { reg u64 r; r = x + y; return r; } => type 3 Mismatch 1:67
export fn f(reg u64 x, reg u32 y) -> reg u64 { reg u64 r; r = x + y; r = y; return r; } => type 3 Mismatch 1:67
export fn f(reg u64 x y) -> reg u64 { reg u64 r; reg bool c; r = x; c, r += y; r = r + y + c; return r; } => typed
export fn f(reg u64 x y) -> reg u64 { reg u64 r; reg bool c; r = x; c, r += y; r *= c; return r; } => type 3 Mismatch 1:85
export fn f() -> reg u64 { reg u64 r; inline int i; i = 1; r = (64u)(i + 1); return r; } => type 3 Mismatch 1:70
export fn f(reg u64 p) { [p] = 3; } => type 3 Mismatch 1:26
export fn f(reg u64 p x) { [p] = x; } => typed
export fn f() -> reg u64 { reg u64 r; r = 1; if (3 <s 4) { r = 2; } return r; } => type 3 Mismatch 1:50
export fn f(reg u64 x y) -> reg u64 { reg u64 r; r = x; r <<= y; return r; } => type 3 Mismatch 1:63
export fn f(reg u64 x) -> reg u64 { reg u64 r; r = x; if (x) { r = 1; } return r; } => type 3 Mismatch 1:59
export fn f(reg u64 x) { inline int i; if (i) { } } => type 3 Mismatch 1:44
inline fn g(reg u64 x) -> reg u64 { return x; } export fn f(reg u64 x) -> reg u64 { reg u64 r s; r, s = g(x); return r; } => type 3 Mismatch 1:105
export fn g(reg u64 x) -> reg u64 { reg u64 r; r = x; return r; } export fn f(reg u64 x) -> reg u64 { reg u64 r; r = g(x); return r; } => type 3 Mismatch 1:118
export fn f(reg u64 x) -> reg u64 { reg u64 r; r = x; } => type 3 Mismatch 1:11
inline fn g(reg u64 x) -> reg u64 { reg u64 r; r = g(x); } => type 3 Mismatch 1:11
export fn f(reg u32 x) -> reg u64 { reg u32 r; r = x; return r; } => type 3 Mismatch 1:62
export fn f(reg u64 x) -> reg u64 { reg u64 r; r = x; r = #NOT_32(x); return r; } => type 3 Mismatch 1:59
export fn f(reg u64 x) -> reg u64 { reg u64 r; r = x; r = #ADD(r, x); return r; } => type 3 Mismatch 1:59
export fn f() -> reg u64 { reg u64 r; r = 0; for r = 0 to 4 { r = 1; } return r; } => type 3 Mismatch 1:50
export fn f(reg u32 i) -> reg u64 { reg u64 r; stack u64[4] s; s[0] = 1; r = s[i]; return r; } => type 3 Mismatch 1:80
inline fn g(stack u64[3] a) -> reg u64 { reg u64 r; r = a[0]; return r; } export fn f() -> reg u64 { reg u64 r; stack u64[4] s; s[0] = 1; r = g(s); return r; } => type 3 Mismatch 1:145
export fn f() -> reg u64 { reg u64 r; stack u64[0] s; r = 1; return r; } => type 3 Mismatch 1:49
export fn f() -> reg u64 { reg u64 r; stack u64[65537] s; r = 1; return r; } => type 3 Mismatch 1:49
export fn f() -> reg u64 { reg u64 r; stack u64[65536] s; r = 1; return r; } => typed
export fn f() -> reg u64 { reg u64 r; inline int n; stack u64[n] s; r = 1; return r; } => type 3 Mismatch 1:63
param int N = true; => type 3 Mismatch 1:15
export fn f(reg u64 x, reg u32 h) -> reg u64 { reg u64 r; h, r = x * x; return r; } => type 3 Mismatch 1:66
";

const STORAGE: &str = "\
export fn f(reg u64 x) -> reg u64 { inline u64 i; reg u64 r; r = x; return r; } => type 4 Storage 1:48
export fn f(reg u64 x) { inline u64 i; stack bool b; } => type 4 Storage 1:37
export fn f(reg u64 x) -> reg u64 { reg int i; reg u64 r; r = x; return r; } => type 4 Storage 1:45
export fn f(reg u64 x) -> reg u64 { stack bool b; reg u64 r; r = x; return r; } => type 4 Storage 1:48
inline fn g(reg bool b) -> reg u64 { reg u64 r; r = 1; return r; } export fn f(reg u64 x) -> reg u64 { reg u64 r; r = x; return r; } => type 4 Storage 1:22
inline fn g(reg u64 x) -> inline int { inline int i; i = 1; return i; } export fn f(reg u64 x) -> reg u64 { reg u64 r; r = x; return r; } => type 4 Storage 1:11
inline fn g(reg u64 x) -> inline int { inline int i; i = g(x); return i; } => type 4 Storage 1:11
export fn f(reg u64 x) -> reg u64 { inline int i; reg u64 r; r = x; i = 0; while (r < 9) { r += 1; i = 1; } return r; } => type 4 Storage 1:100
export fn f(reg u64 x) -> reg u64 { inline int i; reg u64 r; r = x; i = 0; if (r < 9) { i = 1; } r += i; return r; } => type 4 Storage 1:89
export fn f(reg u64 x) { inline int i; while (x < 9) { i = 1 if x < 3; } } => type 4 Storage 1:56
export fn f(reg u64 x) -> reg u64 { inline int i; reg u64 r; r = x; i = 0; if (i == 0) { i = 1; } r += i; return r; } => typed
export fn f(reg u64 x) -> reg u64 { inline int i; reg u64 r; r = x; for i = 0 to 4 { i = 1; r += i; } return r; } => type 4 Storage 1:86
export fn f(reg u64 x) -> reg u64 { inline int i; reg u64 r; r = x; for i = 0 to 4 { for i = 0 to 2 { r += i; } } return r; } => type 4 Storage 1:90
export fn f(reg u64 x) -> reg u64 { inline int i; reg u64 r; r = x; while (r < 9) { for i = 0 to 4 { r += i; } } return r; } => typed
export fn f(reg u64 x) -> reg u64 { inline int i; reg u64 r; r = x; r += i; return r; } => type 4 Storage 1:74
export fn f(reg u64 x) -> reg u64 { inline int i, k; reg u64 r; r = x; k = 1; if (k == 1) { i = 2; } r += i; return r; } => type 4 Storage 1:107
export fn f(reg u64 x) -> reg u64 { inline int i, k; reg u64 r; r = x; k = 1; if (k == 1) { i = 2; } else { i = 3; } r += i; return r; } => typed
export fn f(reg u64 x) -> reg u64 { inline int i; reg u64 r; r = x; for i = 0 to 4 { r += i; } r += i; return r; } => type 4 Storage 1:101
export fn f(reg u64 x) -> reg u64 { inline int i, k; reg u64 r; r = x; for i = 0 to 4 { k = i; r += k; } r += k; return r; } => type 4 Storage 1:111
export fn f(reg u64 x) -> reg u64 { inline int i; reg u64 r; r = x; i += 1; r += i; return r; } => type 4 Storage 1:69
export fn f(reg u64 x) -> reg u64 { inline int i, n; reg u64 r; r = x; for i = 0 to n { r += i; } return r; } => type 4 Storage 1:85
inline fn g(reg u64 x, inline int n) -> reg u64 { reg u64 r; r = x; r += n; return r; } export fn f(reg u64 x) -> reg u64 { reg u64 r; r = g(x, 3); return r; } => typed
";

const FUNCTIONS: &str = "\
inline fn g(reg u64 x) -> reg u64 { reg u64 r; r = g(x); return r; } export fn f(reg u64 x) -> reg u64 { reg u64 r; r = x; return r; } => type 5 Recursion 1:11
inline fn g(reg u64 x) -> reg u64 { reg u64 r; r = h(x); return r; } inline fn h(reg u64 x) -> reg u64 { reg u64 r; r = g(x); return r; } export fn f(reg u64 x) -> reg u64 { reg u64 r; r = x; return r; } => type 5 Recursion 1:11
inline fn a(reg u64 x) -> reg u64 { reg u64 r; r = b(x); return r; } inline fn b(reg u64 x) -> reg u64 { reg u64 r; r = c(x); return r; } inline fn c(reg u64 x) -> reg u64 { reg u64 r; r = a(x); return r; } export fn f(reg u64 x) -> reg u64 { reg u64 r; r = a(x); return r; } => type 5 Recursion 1:11
inline fn a(reg u64 x) -> reg u64 { reg u64 r; r = b(x); return r; } inline fn b(reg u64 x) -> reg u64 { reg u64 r; r = b(x); return r; } export fn f(reg u64 x) -> reg u64 { reg u64 r; r = a(x); return r; } => type 5 Recursion 1:80
inline fn g(reg u64 x) -> reg u64 { reg u64 r; r = x; while (r < 9) { r = g(r); } return r; } export fn f(reg u64 x) -> reg u64 { reg u64 r; r = x; return r; } => type 5 Recursion 1:11
export fn f(reg u64 x) -> reg u64 { reg u64 r; r = x; return r; } inline fn g(reg u64 x) -> reg u64 { reg u64 r; if (x < 1) { r = x; } else { r = g(x); } return r; } => type 5 Recursion 1:77
inline fn a(reg u64 x) -> reg u64 { reg u64 r; r = b(x); return r; } inline fn b(reg u64 x) -> reg u64 { reg u64 r; r = c(x); return r; } inline fn c(reg u64 x) -> reg u64 { reg u64 r; r = x; return r; } export fn f(reg u64 x) -> reg u64 { reg u64 r; r = a(x); return r; } => typed
inline fn c(reg u64 x) -> reg u64 { reg u64 r; r = x; return r; } inline fn b(reg u64 x) -> reg u64 { reg u64 r; r = c(x); r = c(r); return r; } export fn f(reg u64 x) -> reg u64 { reg u64 r; r = b(x); r = c(r); return r; } => typed
export fn s7(reg u64 a b c d e g h) -> reg u64 { reg u64 r; r = a; return r; } => type 9 ExportShape 1:11
export fn p1(stack u64 x) { } => type 9 ExportShape 1:11
export fn s6(reg u64 a b c d e g) -> reg u64, reg u64 { reg u64 r; r = a; return r, b; } => typed
inline fn i7(reg u64 a b c d e g h) -> reg u64, reg u64, reg u64 { return a, b, c; } => typed
export fn p1(stack u64 x) { }~export fn p2(stack u64 x) { } => type 9 ExportShape 1:11
export fn f(reg u64 a b c d e g h) { f(a, b, c, d, e, g, h); } => type 5 Recursion 1:11
export fn t3(reg u64 a b c) -> reg u64, reg u64, reg u64 { return a, b, c; } => type 9 ExportShape 1:11
export fn m7(reg u64 a b c d e g h) -> reg u64 { } => type 3 Mismatch 1:11
#[region=\"p: 8\"]~export fn f(reg u64 p) { } => typed
#[range=\"x: 1..7\"]~#[align=\"x: 8\"]~export fn f(reg u64 x) { } => type 8 BadAnnotation 1:1
#[size=\"8\"]~#[align=\"x: 3\"]~export fn f(reg u64 x) { } => type 8 BadAnnotation 2:1
#[range=\"y: 9..1\"]~export fn f(reg u64 y) { } => type 8 BadAnnotation 1:1
#[region=\"p: 8*len\"]~#[range=\"len: 0..1024\"]~#[align=\"p: 8\"]~export fn f(reg u64 p len) { } => typed
#[region=\"p: 8\"]~inline fn f(reg u64 p) { } => typed
#[regions=\"p: 8\"]~export fn f(reg u64 p) { } => typed
inline fn g(reg u64 x x) { }~#[range=\"x: 9..1\"]~export fn f(reg u64 x) { } => type 2 Duplicate 1:23
inline fn f(reg u64[4] a, reg u64 i) { reg u64 r; r = a[i]; } => type 10 RegIndex 1:57
inline fn f(reg u64[4] a, reg u64 i j) -> reg u64[4] { a[i] = a[j]; return a; } => type 10 RegIndex 1:58
inline fn f(reg u64[4] a, reg u64 i) -> reg u64[4] { if i == 0 { a[1 + i] = 2; } return a; } => type 10 RegIndex 1:68
export fn f(reg u64 x) -> reg u64 { reg u64[2] a; inline int i; reg u64 r; for i = 0 to 2 { a[i] = x; } r = a[1 - 0]; return r; } => typed
export fn f(reg u64 i) -> reg u64 { stack u64[4] s; reg u64 r; s[0] = i; r = s[i]; return r; } => typed
";

const TABLES: &str = "\
inline fn f(reg u64[4] a, reg u32 i) { reg u64 r; r = a[i]; } => type 3 Mismatch 1:57
inline fn f(reg u64[2] a) { reg u64[2] b; b = a; } => type 7 ArrayCopy 1:43
inline fn h(reg u64[2] a b) -> reg u64[2] { a[0] = b[0]; return a; }~inline fn f(reg u64[2] x) -> reg u64[2] { x = h(x, x); return x; } => type 7 ArrayCopy 2:52
inline fn h(reg u64[2] a b) -> reg u64 { reg u64 r; r = a[0]; r += b[1]; return r; }~inline fn f(reg u64[2] x) -> reg u64 { reg u64 r; r = h(x, x); return r; } => typed
inline fn g(reg u64[2] a) -> reg u64[2] { a[0] = 1; return a; }~inline fn f(reg u64[2] x) -> reg u64[2] { x = g(x); return x; } => typed
inline fn g(reg u64[2] a) { a[0] = 1; }~inline fn f(reg u64[2] x) { g(x); } => type 7 ArrayCopy 2:31
inline fn g(reg u64[2] a) -> reg u64[2] { return a; }~inline fn f(reg u64[2] x) { reg u64[2] y; y = g(x); } => type 7 ArrayCopy 2:43
inline fn g() -> reg u64[2] { reg u64[2] b; b[0] = 1; b[1] = 2; return b; }~inline fn f() { reg u64[2] y; y = g(); } => type 7 ArrayCopy 2:31
inline fn g(reg u64[2] a) { a[0] = 1; }~inline fn f(reg u64[2] x) { reg u64[2] y; y = x; g(x); } => type 7 ArrayCopy 2:43
inline fn f(reg u64[2] a) { reg u64 r; r = #NOT(a); } => type 7 ArrayCopy 1:49
inline fn g(reg u64[2] a b) -> reg u64[2], reg u64[2] { return a, b; }~inline fn f(reg u64[2] x y) { x, x = g(x, y); } => type 2 Duplicate 2:34
inline fn f() { stack u64 s t; s = t; t = s; } => type 6 NoInstruction 1:32
inline fn g(stack u64 s) { }~export fn f(reg u64 x) { stack u64 s; s = x; g(s); } => type 6 NoInstruction 2:46
inline fn g(reg u64 r) -> reg u64 { return r; }~export fn f(reg u64 x) -> reg u64 { reg u64 r q; r = 1; q = g(x - r); return q; } => typed
export fn f(reg u64 x) -> reg u64 { inline int i; reg u64 r; i = 3 * 5; i -= 1; r = x; return r; } => typed
inline fn g(reg u64 x) -> reg u64 { return x; }~export fn f(reg u64 x) -> reg u64 { reg u64 r; r = x; r += g(x); return r; } => type 6 NoInstruction 2:55
inline fn f(reg u64 x) { reg u64 r; r = #NOSUCH(x); } => type 6 NoInstruction 1:37
export fn f(reg u64 x) { reg u64 r; r = 1; y = x - r; } => type 1 Unknown 1:44
";

fn with_lines(alloc: Global, text: &str) -> Result<String, AllocError> {
    let mut whole = String::new(alloc);
    for (i, line) in text.split("~").enumerate() {
        if i > 0 {
            whole.push_str("\n")?;
        }
        whole.push_str(line)?;
    }
    Ok(whole)
}

fn answer(rt: &impl Abort, alloc: Global, text: &str) -> Result<String, Fail> {
    assert!(rt; text.len() < 1000);
    let tokens = lex(alloc, text.as_bytes())
        .ok()
        .ok_or("the text has no tokens")?;
    let program = parse(alloc, &tokens).ok().ok_or("the text is no program")?;
    match check(alloc, program) {
        Ok(_) => Ok(String::from_str(alloc, "typed")?),
        Err(Failure::Refused(fault)) => Ok(format!(in alloc;
            "type {} {:?} {}:{}",
            fault.rule.number(),
            fault.rule,
            fault.span.line,
            fault.span.col
        )?),
        Err(Failure::OutOfMemory) => Err("no memory".into()),
    }
}

pub(crate) fn row_is(rt: &impl Abort, alloc: Global, row: &str) -> Result<(), Fail> {
    let columns: Vec<&str> = row.split(" => ").collect(alloc)?;
    let [text, wanted] = columns.as_slice() else {
        panic!(rt; "no row: {row}")
    };
    let text = with_lines(alloc, text)?;
    let told = answer(rt, alloc, text.as_str())?;
    assert!(rt; told.as_str() == *wanted, "{row}");
    Ok(())
}

pub(crate) fn rows_are(rt: &impl Abort, alloc: Global, rows: &str) -> Result<(), Fail> {
    for row in rows.lines() {
        row_is(rt, alloc, row)?;
    }
    Ok(())
}

#[test]
fn names_are_known_and_differ(rt: HostRuntime) -> Result<(), Fail> {
    rows_are(&rt, rt.alloc(), NAMES)
}

#[test]
fn types_and_sizes_agree(rt: HostRuntime) -> Result<(), Fail> {
    rows_are(&rt, rt.alloc(), KINDS)
}

#[test]
fn variables_are_set_before_they_are_read(rt: HostRuntime) -> Result<(), Fail> {
    rows_are(&rt, rt.alloc(), STORAGE)
}

#[test]
fn calls_exports_annotations_and_indexes(rt: HostRuntime) -> Result<(), Fail> {
    rows_are(&rt, rt.alloc(), FUNCTIONS)
}

#[test]
fn arrays_and_rows(rt: HostRuntime) -> Result<(), Fail> {
    rows_are(&rt, rt.alloc(), TABLES)
}
