//! Seeds and sizes with the lines of the loop, counted by hand or by a model of its own; and whether
//! a program is typed.

use jz_gen::generate;
use jz_lex::lex;
use jz_parse::parse;
use jz_types::check;
use std::alloc::Global;
use std::process::Abort;
use std::test::Fail;

const ROWS: &str = "\
1 2 => x0 += 4; | x3 += 5;
0 4 => x0 += x0; | x3 *= x2; | x0 *= x0; | x0 <<r= 5;
2 6 => x1 *= x0; | x0 -= s[2]; | if (x3 < x3) { x3 -= 1; } | x2 ^= x3; | x1 <<r= 2; | if (x2 < x2) { x2 -= 1; }
42 8 => x1 -= s[5]; | x1 -= s[5]; | x0 <<r= 8; | x2 <<r= 7; | x0 += x1; | x0 <<r= 1; | x1 <<r= 3; | x0 *= x0;
1000 12 => x0 ^= x1; | if (x0 < x0) { x0 -= 1; } | x1 <<r= 5; | x0 <<r= 8; | x1 *= x1; | x2 += 6; | x3 -= s[5]; | x1 <<r= 8; | x0 <<r= 1; | s[7] = x1; | x3 += 8; | x0 -= s[3];
2147483647 4 => x3 -= s[4]; | x3 -= s[2]; | x0 += 6; | x3 += 1;
4294967295 4 => x3 -= s[4]; | x3 -= s[2]; | x0 += 6; | x3 += 1;
";

const WITHOUT_LINES: &str = "\
export fn main(reg u64 x1 x2 x3 c) -> reg u64 {
  reg u64 x0;
  stack u64[8] s;
  inline int m;
  x0 = 1;
  for m = 0 to 8 { s[m] = m; }
  c = 0;
  while (c < 2) {
    c += 1;
  }
  x0 ^= x1;
  x0 ^= x2;
  x0 ^= x3;
  return x0;
}
";

/// The program of the first two columns, with the lines of the third.
fn row_is(rt: &impl Abort, alloc: Global, row: &str) -> Result<(), Fail> {
    let columns: Vec<&str> = row.split(" => ").collect(alloc)?;
    let [numbers, lines] = columns.as_slice() else {
        panic!(rt; "no row: {row}")
    };
    let numbers: Vec<&str> = numbers.split(" ").collect(alloc)?;
    let [seed, size] = numbers.as_slice() else {
        panic!(rt; "no numbers: {row}")
    };
    let mut wanted = String::from_str(alloc, "  while (c < 2) {\n")?;
    for line in lines.split(" | ") {
        write!(wanted, "    {line}\n")?;
    }
    wanted.push_str("    c += 1;\n")?;
    let made = generate(alloc, seed.parse()?, size.parse()?)?;
    let text = std::str::from_utf8(made.as_slice())?;
    assert!(rt; text.contains(wanted.as_str()), "{row}");
    Ok(())
}

#[test]
fn the_lines_of_seeds(rt: HostRuntime) -> Result<(), Fail> {
    for row in ROWS.lines() {
        row_is(&rt, rt.alloc(), row)?;
    }
    Ok(())
}

#[test]
fn a_program_without_lines(rt: HostRuntime) -> Result<(), Fail> {
    let made = generate(rt.alloc(), 7, 0)?;
    assert!(rt; made.as_slice() == WITHOUT_LINES.as_bytes());
    Ok(())
}

/// A program of so many lines has tokens, is derived by the grammar and typed.
fn is_typed(rt: &impl Abort, alloc: Global, seed: u32, size: u32) -> Result<(), Fail> {
    let text = generate(alloc, seed, size)?;
    assert!(rt; text.len() < 4_294_967_294);
    let tokens = lex(alloc, text.as_slice())
        .ok()
        .ok_or("the text has no tokens")?;
    let program = parse(alloc, &tokens).ok().ok_or("the text is no program")?;
    let _typed = check(alloc, program).ok().ok_or("the program has a fault")?;
    Ok(())
}

#[test]
fn programs_are_typed(rt: HostRuntime) -> Result<(), Fail> {
    is_typed(&rt, rt.alloc(), 1, 4)?;
    is_typed(&rt, rt.alloc(), 3, 500)?;
    is_typed(&rt, rt.alloc(), 2_147_483_647, 30_000)
}
