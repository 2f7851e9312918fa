//! Small functions, one a line, with how many statements the last one has with all that it calls,
//! and how deep they stand, counted by hand.

use jz_copies::copied_extent;
use jz_lex::lex;
use jz_parse::parse;
use jz_tree::{Failure, Program};
use std::alloc::{AllocError, Global};
use std::process::Abort;
use std::test::Fail;

const BODIES: &str = "\
export fn f() { } => 0 0
export fn f() -> reg u64 { reg u64 r; r = 1; return r; } => 1 1
export fn f(reg u64 x) -> reg u64 { reg u64 r; r = 1; if x < 3 { r = 2; r += x; } else { r = 3; } return r; } => 5 2
export fn f(reg u64 n) -> reg u64 { reg u64 r; r = 0; while { r += 1; } (r < n) { r += 2; } return r; } => 4 2
export fn f(reg u64 n) -> reg u64 { reg u64 r; r = 0; while { r += 1; } (r < n) return r; } => 3 2
export fn f() -> reg u64 { reg u64 r; inline int i; r = 0; for i = 0 to 1000000 { r += 1; } return r; } => 3 2
";

/// Each call counts what it copies, once.
const CALLS: &str = "\
inline fn inc(reg u64 x) -> reg u64 { x += 1; return x; } export fn two(reg u64 a) -> reg u64 { reg u64 r; r = inc(a); r = inc(r); return r; } => 4 2
inline fn g(reg u64 x) -> reg u64 { x += 1; x += 2; return x; } export fn f(reg u64 a) -> reg u64 { inline int i; reg u64 r; r = a; for i = 0 to 5 { r = g(r); } return r; } => 5 3
inline fn h(reg u64 x) -> reg u64 { x += 1; return x; } inline fn g(reg u64 x) -> reg u64 { x = h(x); x = h(x); return x; } export fn f(reg u64 a) -> reg u64 { reg u64 r; r = g(a); r = g(r); return r; } => 10 3
inline fn k(reg u64 a b c d e f g h i) -> reg u64 { a += i; return a; } export fn f(reg u64 x) -> reg u64 { reg u64 r; r = k(x, x, x, x, x, x, x, x, x); return r; } => 2 2
inline fn g() { } export fn f() { g(); g(); } => 2 1
";

fn program_of(rt: &impl Abort, alloc: Global, text: &str) -> Result<Program, Fail> {
    assert!(rt; text.len() < 100_000);
    let tokens = lex(alloc, text.as_bytes())
        .ok()
        .ok_or("the text has no tokens")?;
    let program = parse(alloc, &tokens).ok().ok_or("the text is no program")?;
    Ok(program)
}

/// The answer for the last function of a text.
fn answer(rt: &impl Abort, alloc: Global, text: &str) -> Result<String, Fail> {
    let program = program_of(rt, alloc, text)?;
    let fun = program.funs.as_slice().last().ok_or("no function")?;
    match copied_extent(alloc, &program, fun) {
        Ok(extent) => Ok(format!(in alloc; "{} {}", extent.count, extent.deepest)?),
        Err(Failure::Refused(_)) => Ok(String::from_str(alloc, "limit")?),
        Err(Failure::OutOfMemory) => Err("no memory".into()),
    }
}

fn row_is(rt: &impl Abort, alloc: Global, row: &str) -> Result<(), Fail> {
    let columns: Vec<&str> = row.split(" => ").collect(alloc)?;
    let [text, wanted] = columns.as_slice() else {
        panic!(rt; "no row: {row}")
    };
    let told = answer(rt, alloc, text)?;
    assert!(rt; told.as_str() == *wanted, "{row}");
    Ok(())
}

fn rows_are(rt: &impl Abort, alloc: Global, rows: &str) -> Result<(), Fail> {
    for row in rows.lines() {
        row_is(rt, alloc, row)?;
    }
    Ok(())
}

/// Functions of which each but the first calls the one before it twice, and one that calls the last
/// of them once and the first so many times.
fn doubled(alloc: Global, functions: usize, calls: usize) -> Result<String, AllocError> {
    let mut text = String::from_str(alloc, "inline fn g0() { }\n")?;
    for k in 0..functions {
        let before = k;
        text.push_str(format!(in alloc;
            "inline fn g{}() {{ g{before}(); g{before}(); }}\n",
            k.saturating_add(1)
        )?
        .as_str())?;
    }
    text.push_str(format!(in alloc; "export fn f() {{ g{functions}();")?.as_str())?;
    for _ in 0..calls {
        text.push_str(" g0();")?;
    }
    text.push_str(" }\n")?;
    Ok(text)
}

fn doubled_is(
    rt: &impl Abort,
    alloc: Global,
    functions: usize,
    calls: usize,
    wanted: &str,
) -> Result<(), Fail> {
    let text = doubled(alloc, functions, calls)?;
    let told = answer(rt, alloc, text.as_str())?;
    assert!(rt; told.as_str() == wanted, "{told}");
    Ok(())
}

#[test]
fn statements_of_bodies(rt: HostRuntime) -> Result<(), Fail> {
    rows_are(&rt, rt.alloc(), BODIES)
}

#[test]
fn statements_that_calls_copy(rt: HostRuntime) -> Result<(), Fail> {
    rows_are(&rt, rt.alloc(), CALLS)
}

/// 1 + (2 ^ 16 - 2) statements, and the calls.
#[test]
fn the_limit_is_exact(rt: HostRuntime) -> Result<(), Fail> {
    doubled_is(&rt, rt.alloc(), 15, 1, "65536 16")?;
    doubled_is(&rt, rt.alloc(), 15, 2, "limit")
}

/// 2 ^ 41 statements are not gone over.
#[test]
fn the_limit_is_found_soon(rt: HostRuntime) -> Result<(), Fail> {
    doubled_is(&rt, rt.alloc(), 40, 0, "limit")
}
