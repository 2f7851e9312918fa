//! Small functions, one a line, with the first limit of the last one, found by hand.

use jz_first_limit::{Limit, first_limit};
use jz_lex::lex;
use jz_parse::parse;
use jz_tree::Span;
use jz_types::{Typed, check};
use std::alloc::{AllocError, Global};
use std::process::Abort;
use std::test::Fail;

/// How many statements there are.
const COUNTS: &str = "\
export fn f() { } => none
export fn f() { inline int i; for i = 0 to 65536 { } } => none
export fn f() { inline int i; for i = 0 to 65537 { } } => Expand
export fn f() { inline int i; for i = 65536 downto 0 { } } => none
export fn f() { inline int i; for i = 5 to 3 { } } => none
export fn f() { inline int i; for i = 0 to 18446744073709551616 { } } => Expand
export fn f() { inline int i j; for i = 0 to 1000000 { for j = 0 to 1000000 { } } } => Expand
export fn f() { inline int i j; for i = 0 to 256 { for j = 0 to 255 { } } } => none
export fn f() { inline int i j; for i = 0 to 256 { for j = 0 to 256 { } } } => Expand
inline fn k(reg u64 a b c d e f g h i) -> reg u64 { a += i; return a; } export fn f(reg u64 x) -> reg u64 { reg u64 r; inline int n; for n = 0 to 65532 { } r = k(x, x, x, x, x, x, x, x, x); return r; } => none
inline fn k(reg u64 a b c d e f g h i) -> reg u64 { a += i; return a; } export fn f(reg u64 x) -> reg u64 { reg u64 r; inline int n; for n = 0 to 65533 { } r = k(x, x, x, x, x, x, x, x, x); return r; } => Expand
";

/// What a constant test leaves out has no limits.
const PRUNED: &str = "\
export fn f() -> reg u64 { reg u64 r; inline int i; r = 0; if (1 == 2) { for i = 0 to 65537 { } } return r; } => none
export fn f() -> reg u64 { reg u64[2] a; reg u64 r; r = 0; if (1 == 1) { r = 1; } else { r = a[9]; } return r; } => none
export fn f() -> reg u64 { reg u64[2] a; reg u64 r; r = 0; if (1 == 1) { r = a[9]; } else { r = 1; } return r; } => IndexRange 1:78
export fn f() -> reg u64 { reg u64[2] a; reg u64 r; r = 0; while (1 == 2) { r = a[9]; } return r; } => none
export fn f() -> reg u64 { reg u64[2] a; reg u64 r; r = 0; while { r = a[9]; } (1 == 2) return r; } => IndexRange 1:72
export fn f() -> reg u64 { reg u64[2] a; reg u64 r; r = 0; while (true) { r = a[9]; } return r; } => IndexRange 1:79
export fn f() -> reg u64 { reg u64 r; r = 0; if (1 == 2 && 1 / 0 == 1) { r = 1; } return r; } => none
export fn f() -> reg u64 { reg u64 r; r = 0; if (1 / 0 == 1) { r = 1; } return r; } => InlineWidth 1:50
";

/// Inline expressions without a value.
const WIDTHS: &str = "\
export fn f() { inline int i; i = 1 / 0; } => InlineWidth 1:35
export fn f() { inline int i; i = 0x7fffffffffffffffffffffffffffffff + 1; } => InlineWidth 1:35
export fn f() { inline int i; i = 1 << 128; } => InlineWidth 1:35
export fn f() { inline int i; i = 1; i /= 0; } => InlineWidth 1:38
export fn f() { inline int i; for i = 0 to 1 % 0 { } } => InlineWidth 1:44
export fn f(reg u64 r) -> reg u64 { r += 1 / 0; return r; } => InlineWidth 1:42
export fn f(reg u64 p) -> reg u64 { reg u64 r; r = [p + 1 / 0]; return r; } => InlineWidth 1:52
export fn f() -> reg u64 { stack u64[2] s; reg u64 r; r = s[1 / 0]; return r; } => InlineWidth 1:59
export fn f(reg u64 p) -> reg u64 { reg u64 r; r = #LEA(p + 1 / 0); return r; } => InlineWidth 1:61
inline fn g(inline int i) -> reg u64 { reg u64 r; r = i; return r; } export fn f() -> reg u64 { reg u64 r; r = g(1 / 0); return r; } => InlineWidth 1:114
";

/// Indexes of register arrays.
const RANGES: &str = "\
export fn down() -> reg u64 { reg u64[4] a; reg u64 r; inline int i; for i = 4 downto 0 { a[i] = i; } r = 0; for i = 4 downto 0 { r += a[i]; } return r; } => IndexRange 1:91
export fn down() -> reg u64 { reg u64[5] a; reg u64 r; inline int i; for i = 4 downto 0 { a[i] = i; } r = 0; for i = 4 downto 0 { r += a[i]; } return r; } => none
export fn f() -> reg u64 { reg u64[2] a; reg u64 r; inline int i; i = 0; r = a[i - 1]; return r; } => IndexRange 1:78
export fn f(reg u64 x) -> reg u64 { stack u64[4] s; reg u64 r; s[4] = x; r = s[4]; return r; } => none
inline fn g(reg u64[2] a, inline int i) -> reg u64 { reg u64 r; r = a[i]; return r; } export fn f() -> reg u64 { reg u64[2] b; reg u64 r; b[0] = 1; b[1] = 2; r = g(b, 1); r = g(b, 2); return r; } => IndexRange 1:69
inline fn g(reg u64 x) -> reg u64 { x += 1; return x; } export fn f() -> reg u64 { reg u64[2] a; reg u64 r; r = 1; a[9] = g(r); return r; } => IndexRange 1:116
";

/// Immediates, displacements, scales and counts.
const FIELDS: &str = "\
export fn f(reg u64 r) -> reg u64 { r += 0x80000000; return r; } => ImmRange 1:42
export fn f(reg u64 r) -> reg u64 { r += 0x7fffffff; r += 0xffffffff80000000; r = 0x80000000; return r; } => none
export fn f(reg u32 r) -> reg u32 { r += 0xffffffff; return r; } => none
export fn f(reg u64 r) -> reg u64 { stack u64 s; s = 0x80000000; r = s; return r; } => ImmRange 1:54
export fn f(reg u64 r) -> reg u64 { r <<= 63; r <<= 64; return r; } => ImmRange 1:53
export fn f(reg u64 r) -> reg u64 { r >>= 0 - 1; return r; } => ImmRange 1:43
export fn f(reg u64 r) -> reg u64 { if (r < 0x80000000) { r = 1; } return r; } => ImmRange 1:45
export fn f(reg u64 r q) -> reg u64 { r = q if q < 0x80000000; return r; } => ImmRange 1:52
export fn f(reg u64 p) -> reg u64 { reg u64 r; r = [p + 0x80000000]; return r; } => ImmRange 1:52
export fn f(reg u64 p) -> reg u64 { reg u64 r; r = [p + 0x7fffffff + 1 - 1]; r = [p + 0xffffffffffffffff]; return r; } => none
export fn f(reg u64 p) -> reg u64 { reg u64 r; r = [p + 0x7fffffffffffffffffffffffffffffff + 0x7fffffffffffffffffffffffffffffff]; return r; } => none
export fn f(reg u64 p q) -> reg u64 { reg u64 r; r = [p + 8 * q]; r = [p + 3 * q]; return r; } => ImmRange 1:71
export fn f(reg u64 q) -> reg u64 { stack u64[2] s; reg u64 r; r = s[q + 134217727]; r = s[q + 134217728]; return r; } => ImmRange 1:90
export fn f(reg u64 p) -> reg u64 { reg u64 r; r = #LEA(p + 0x80000000); return r; } => ImmRange 1:57
export fn f(reg u64 r) -> reg u64 { _, _, _, _, _, r = #ADD(r, 0x80000000); return r; } => ImmRange 1:64
export fn f(reg u64 r) -> reg u64 { _, _, _, _, _, r = #SHL(r, 64); return r; } => ImmRange 1:64
inline fn g(stack u64 s) -> reg u64 { reg u64 r; r = s; return r; } export fn f() -> reg u64 { reg u64 r; r = g(0x80000000); return r; } => ImmRange 1:113
";

/// Two limits, of which the first is told.
const ORDER: &str = "\
export fn f() { inline int i j; for i = 0 to 65536 { } j = 1 / 0; } => Expand
export fn f() { inline int i j; for i = 0 to 65535 { } j = 1 / 0; } => InlineWidth 1:60
export fn f() -> reg u64 { reg u64[2] a; reg u64 r; inline int i; for i = 0 to 65536 { } r = a[9]; return r; } => Expand
export fn f() -> reg u64 { reg u64[2] a; reg u64 r; inline int i; for i = 0 to 65535 { } r = a[9]; return r; } => IndexRange 1:94
export fn f() -> reg u64 { reg u64[2] a; reg u64 r; inline int i; r = a[9]; for i = 0 to 65537 { } return r; } => IndexRange 1:71
export fn f(reg u64 r) -> reg u64 { inline int i; for i = 0 to 65536 { } r += 0x80000000; return r; } => Expand
export fn f(reg u64 r) -> reg u64 { inline int i; for i = 0 to 65535 { } r += 0x80000000; return r; } => ImmRange 1:79
export fn f() -> reg u64 { reg u64[2] a; reg u64 r; r = 0; a[9] += 1 / 0; return r; } => InlineWidth 1:68
export fn f() -> reg u64 { reg u64[2] a; reg u64 r; r = 0; a[9] += 0x80000000; return r; } => IndexRange 1:60
inline fn g(reg u64 x) -> reg u64 { x += 0x80000000; return x; } export fn f() -> reg u64 { reg u64[2] a; reg u64 r; r = 1; a[9] = g(r); return r; } => ImmRange 1:42
";

fn typed_of(rt: &impl Abort, alloc: Global, text: &str) -> Result<Typed, Fail> {
    assert!(rt; text.len() < 100_000);
    let tokens = lex(alloc, text.as_bytes())
        .ok()
        .ok_or("the text has no tokens")?;
    let program = parse(alloc, &tokens).ok().ok_or("the text is no program")?;
    let typed = check(alloc, program).ok().ok_or("the text has no types")?;
    Ok(typed)
}

fn at(alloc: Global, name: &str, span: Span) -> Result<String, AllocError> {
    format!(in alloc; "{name} {}:{}", span.line, span.col)
}

fn told(alloc: Global, limit: Option<Limit>) -> Result<String, AllocError> {
    match limit {
        None => String::from_str(alloc, "none"),
        Some(Limit::Expand) => String::from_str(alloc, "Expand"),
        Some(Limit::InlineWidth(span)) => at(alloc, "InlineWidth", span),
        Some(Limit::IndexRange(span)) => at(alloc, "IndexRange", span),
        Some(Limit::ImmRange(span)) => at(alloc, "ImmRange", span),
    }
}

/// The answer for the last function of a text.
fn answer(rt: &impl Abort, alloc: Global, text: &str) -> Result<String, Fail> {
    let typed = typed_of(rt, alloc, text)?;
    let program = typed.program();
    let fun = program.funs.as_slice().last().ok_or("no function")?;
    let limit = first_limit(alloc, program, fun)?;
    Ok(told(alloc, limit)?)
}

fn row_is(rt: &impl Abort, alloc: Global, row: &str) -> Result<(), Fail> {
    let columns: Vec<&str> = row.split(" => ").collect(alloc)?;
    let [text, wanted] = columns.as_slice() else {
        panic!(rt; "no row: {row}")
    };
    let told = answer(rt, alloc, text)?;
    assert!(rt; told.as_str() == *wanted, "{told}: {row}");
    Ok(())
}

fn rows_are(rt: &impl Abort, alloc: Global, rows: &str) -> Result<(), Fail> {
    for row in rows.lines() {
        row_is(rt, alloc, row)?;
    }
    Ok(())
}

#[test]
fn counts(rt: HostRuntime) -> Result<(), Fail> {
    rows_are(&rt, rt.alloc(), COUNTS)
}

#[test]
fn pruned(rt: HostRuntime) -> Result<(), Fail> {
    rows_are(&rt, rt.alloc(), PRUNED)
}

#[test]
fn widths(rt: HostRuntime) -> Result<(), Fail> {
    rows_are(&rt, rt.alloc(), WIDTHS)
}

#[test]
fn ranges(rt: HostRuntime) -> Result<(), Fail> {
    rows_are(&rt, rt.alloc(), RANGES)
}

#[test]
fn fields(rt: HostRuntime) -> Result<(), Fail> {
    rows_are(&rt, rt.alloc(), FIELDS)
}

#[test]
fn order(rt: HostRuntime) -> Result<(), Fail> {
    rows_are(&rt, rt.alloc(), ORDER)
}

/// Of functions each of which but the first calls the one before it twice.
#[test]
fn doubling_functions(rt: HostRuntime) -> Result<(), Fail> {
    let alloc = rt.alloc();
    let mut text = String::from_str(alloc, "inline fn g0() { }\n")?;
    for k in 0..40 {
        let next = k + 1;
        text.push_str(format!(in alloc; "inline fn g{next}() {{ g{k}(); g{k}(); }}\n")?.as_str())?;
    }
    text.push_str("export fn f() { g40(); }\n")?;
    let told = answer(&rt, alloc, text.as_str())?;
    assert!(rt; told.as_str() == "Expand", "{told}");
    Ok(())
}
