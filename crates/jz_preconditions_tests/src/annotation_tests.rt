//! Annotations before an export function, and what they come to, found by hand: the preconditions
//! in their order, or the place of the first that is refused.

use jz_lex::lex;
use jz_parse::parse;
use jz_preconditions::{Pre, preconditions};
use jz_tree::{Failure, Program};
use std::alloc::{AllocError, Global};
use std::process::Abort;
use std::test::Fail;

/// A line has the annotations of `export fn f(reg u64 p len, reg u8 b, stack u64 s)`, in which `~`
/// ends a line.
const REGIONS: &str = "\
#[region=\"p: 8*len + 0\"] => region p 8*len+0
#[region=\"p: 8*len\"] => region p 8*len+0
#[region=\"p: len\"] => region p 1*len+0
#[region=\"p: 16\"] => region p 16
#[region=\"p:8*len+4\"] => region p 8*len+4
#[region=\"p\t:  8 *len+\t4\"] => region p 8*len+4
#[region=\"p: 8*len + 0x1f\"] => region p 8*len+31
#[region=\"p: 1_0*len + 08\"] => region p 10*len+8
#[region=\"p: 0\"] => region p 0
#[region=\"p: 4294967295*len + 4294967295\"] => region p 4294967295*len+4294967295
#[region=\"p: 8\"]~#[region=\"p: 16\", region=\"len: p\"] => region p 8, region p 16, region len 1*p+0
#[region=\"p: len + 4\"] => 1:1
#[region=\"p: len*8\"] => 1:1
#[region=\"p: 8*len - 1\"] => 1:1
#[region=\"p: 8*len + 0 + 0\"] => 1:1
#[region=\"p: 8*4\"] => 1:1
#[region=\"p: 8 len\"] => 1:1
#[region=\"p: 8len\"] => 1:1
#[region=\"p 8\"] => 1:1
#[region=\"p\"] => 1:1
#[region=\"p:\"] => 1:1
#[region=\"\"] => 1:1
#[region=\" p: 8\"] => 1:1
#[region=\"p: 8 \"] => 1:1
#[region=\"p: 4294967296*len\"] => 1:1
#[region=\"p: 8*len + 4294967296\"] => 1:1
#[region=\"p: 4294967296\"] => 1:1
#[region=\"p: 0x\"] => 1:1
#[region=\"p: 8*p\"] => 1:1
#[region=\"p: p\"] => 1:1
#[region=\"q: 8\"] => 1:1
#[region=\"p: 8*q\"] => 1:1
#[region=\"b: 8\"] => 1:1
#[region=\"p: 8*b\"] => 1:1
#[region=\"s: 8\"] => 1:1
#[region=p] => 1:1
#[region=8] => 1:1
#region => 1:1
";

const RANGES: &str = "\
#[range=\"len: 0..1024\"] => range len 0..1024
#[range=\"len:5..5\"] => range len 5..5
#[range=\"len : 0 ..\t9\"] => range len 0..9
#[range=\"len: 0x10..0x1F\"] => range len 16..31
#[range=\"len: 1_..2_0\"] => range len 1..20
#[range=\"len: 0..18446744073709551615\"] => range len 0..18446744073709551615
#[range=\"b: 255..300\"] => range b 255..300
#[range=\"s: 0..1\"] => range s 0..1
#[range=\"len: 9..1\"] => 1:1
#[range=\"len: 0..18446744073709551616\"] => 1:1
#[range=\"len: 0. .9\"] => 1:1
#[range=\"len: 0...9\"] => 1:1
#[range=\"len: 0.9\"] => 1:1
#[range=\"len: 0..\"] => 1:1
#[range=\"len: -1..9\"] => 1:1
#[range=\"len: 5u..9\"] => 1:1
#[range=\"len: 0..p\"] => 1:1
#[range=\"q: 0..1\"] => 1:1
#[range=\"b: 256..300\"] => 1:1
#[range=\"len: 0..9\"]~#[range=\"len: 0..9\"] => 2:1
#[range=\"len: 0..9\", range=\"len: 9..1\"] => 1:1
#[range=\"len: 0..9\"]~#[range=\"p: 0..9\"] => range len 0..9, range p 0..9
#range => 1:1
";

const ALIGNMENTS: &str = "\
#[align=\"p: 1\"]~#[align=\"len: 2\"]~#[align=\"b: 4\"] => align p 1, align len 2, align b 4
#[align=\"p: 8\"] => align p 8
#[align=\"p:0x8\"] => align p 8
#[align=\"p: 0\"] => 1:1
#[align=\"p: 3\"] => 1:1
#[align=\"p: 16\"] => 1:1
#[align=\"p: 8*1\"] => 1:1
#[align=\"q: 8\"] => 1:1
#[align=\"p: 8\"]~#[align=\"p: 8\"] => 2:1
#[align=\"p: 8\"]~#[range=\"p: 0..0\"] => align p 8, range p 0..0
";

/// What a range and an alignment permit, and where regions end at the least values.
const VALUES: &str = "\
#[range=\"p: 1..7\"]~#[align=\"p: 8\"] => 1:1
#[align=\"p: 8\"]~#[range=\"p: 1..7\"] => 1:1
#[align=\"p: 8\"]~#[range=\"p: 9..1\"] => 1:1
#[range=\"p: 1..8\"]~#[align=\"p: 8\"] => range p 1..8, align p 8
#[range=\"len: 0..9\"]~#[align=\"p: 8\"]~#[range=\"p: 1..7\"] => 2:1
#[range=\"p: 0..9\"]~#[range=\"p: 1..7\"]~#[align=\"p: 8\"] => 2:1
#[range=\"b: 248..255\"]~#[align=\"b: 8\"] => range b 248..255, align b 8
#[range=\"b: 249..255\"]~#[align=\"b: 8\"] => 1:1
#[align=\"p: 8\"]~#[range=\"p: 0xfffffffffffffff8..0xffffffffffffffff\"] => align p 8, range p 18446744073709551608..18446744073709551615
#[align=\"p: 8\"]~#[range=\"p: 0xfffffffffffffff9..0xffffffffffffffff\"] => 1:1
#[region=\"p: 8\"]~#[range=\"p: 0x7ffffffffffffff8..0xffffffffffffffff\"] => region p 8, range p 9223372036854775800..18446744073709551615
#[region=\"p: 8\"]~#[range=\"p: 0x7ffffffffffffff9..0xffffffffffffffff\"] => 1:1
#[range=\"p: 0x7ffffffffffffff9..0xffffffffffffffff\"]~#[region=\"p: 8\"] => 2:1
#[region=\"p: 8\"]~#[range=\"p: 0x7ffffffffffffff1..0xffffffffffffffff\"]~#[align=\"p: 8\"] => region p 8, range p 9223372036854775793..18446744073709551615, align p 8
#[region=\"p: 9\"]~#[range=\"p: 0x7ffffffffffffff1..0xffffffffffffffff\"]~#[align=\"p: 8\"] => 1:1
#[region=\"p: 0x10000000*len\"]~#[range=\"len: 0x800000000..0xffffffffffffffff\"] => region p 268435456*len+0, range len 34359738368..18446744073709551615
#[region=\"p: 0x10000000*len + 1\"]~#[range=\"len: 0x800000000..0xffffffffffffffff\"] => 1:1
#[region=\"p: 0xffffffff*len\"]~#[range=\"len: 0xffffffffffffffff..0xffffffffffffffff\"] => 1:1
#[region=\"p: 8\"]~#[range=\"p: 0xffffffffffffffff..0xffffffffffffffff\"]~#[range=\"len: 1..7\"] => 1:1
#[region=\"p: 8\"]~#[range=\"p: 0xffffffffffffffff..0xffffffffffffffff\"]~#[range=\"len: 1..7\"]~#[align=\"len: 8\"] => 3:1
";

const OTHERS: &str = "\
#[size=\"8\"]~#fast~#[regions=\"p: 8\", Range=8] => 
#[region=\"p: 8*len\"]~#[range=\"len: 0..1024\"]~#[align=\"p: 8\"] => region p 8*len+0, range len 0..1024, align p 8
#[align=\"p: 8\", region=\"p: 8*len\"]~#[size=\"8\", range=\"len: 0..1024\"] => align p 8, region p 8*len+0, range len 0..1024
#[range=\"len: 9..1\"]~#[region=\"q: 8\"] => 1:1
#[size=\"8\", region=\"q: 8\"]~#[range=\"len: 9..1\"] => 1:1
  #[range=\"len: 9..1\"] => 1:3
";

const FUNCTION: &str = "\nexport fn f(reg u64 p len, reg u8 b, stack u64 s) { }\n";

fn with_lines(alloc: Global, annotations: &str) -> Result<String, AllocError> {
    let mut whole = String::new(alloc);
    for line in annotations.split("~") {
        whole.push_str(line)?;
        whole.push_str("\n")?;
    }
    whole.push_str(FUNCTION)?;
    Ok(whole)
}

fn program_of(rt: &impl Abort, alloc: Global, annotations: &str) -> Result<Program, Fail> {
    let text = with_lines(alloc, annotations)?;
    assert!(rt; text.len() < 1000);
    let tokens = lex(alloc, text.as_bytes())
        .ok()
        .ok_or("the text has no tokens")?;
    let program = parse(alloc, &tokens).ok().ok_or("the text is no program")?;
    Ok(program)
}

fn pre_text(alloc: Global, pre: &Pre) -> Result<String, AllocError> {
    match pre {
        Pre::Region {
            pointer,
            factor,
            variable,
            constant,
        } => match variable {
            None => format!(in alloc; "region {} {constant}", pointer.as_str()),
            Some(variable) => format!(in alloc;
                "region {} {factor}*{}+{constant}",
                pointer.as_str(),
                variable.as_str()
            ),
        },
        Pre::Range { name, low, high } => {
            format!(in alloc; "range {} {low}..{high}", name.as_str())
        }
        Pre::Align { pointer, multiple } => {
            format!(in alloc; "align {} {multiple}", pointer.as_str())
        }
    }
}

fn pres_text(alloc: Global, pres: &[Pre]) -> Result<String, AllocError> {
    let mut whole = String::new(alloc);
    for (i, pre) in pres.iter().enumerate() {
        if i > 0 {
            whole.push_str(", ")?;
        }
        whole.push_str(pre_text(alloc, pre)?.as_str())?;
    }
    Ok(whole)
}

/// The preconditions, or the place of the first annotation that is refused.
fn answer(rt: &impl Abort, alloc: Global, annotations: &str) -> Result<String, Fail> {
    let program = program_of(rt, alloc, annotations)?;
    let fun = program.funs.as_slice().last().ok_or("no function")?;
    match preconditions(alloc, fun) {
        Ok(pres) => Ok(pres_text(alloc, pres.as_slice())?),
        Err(Failure::Refused(at)) => Ok(format!(in alloc; "{}:{}", at.line, at.col)?),
        Err(Failure::OutOfMemory) => Err("no memory".into()),
    }
}

fn row_is(rt: &impl Abort, alloc: Global, row: &str) -> Result<(), Fail> {
    let columns: Vec<&str> = row.split(" => ").collect(alloc)?;
    let [annotations, wanted] = columns.as_slice() else {
        panic!(rt; "no row: {row}")
    };
    let told = answer(rt, alloc, annotations)?;
    assert!(rt; told.as_str() == *wanted, "{told}: {row}");
    Ok(())
}

fn rows_are(rt: &impl Abort, alloc: Global, rows: &str) -> Result<(), Fail> {
    for row in rows.lines() {
        row_is(rt, alloc, row)?;
    }
    Ok(())
}

#[test]
fn regions_have_their_shapes(rt: HostRuntime) -> Result<(), Fail> {
    rows_are(&rt, rt.alloc(), REGIONS)
}

#[test]
fn ranges_have_their_shape(rt: HostRuntime) -> Result<(), Fail> {
    rows_are(&rt, rt.alloc(), RANGES)
}

#[test]
fn alignments_have_their_shape(rt: HostRuntime) -> Result<(), Fail> {
    rows_are(&rt, rt.alloc(), ALIGNMENTS)
}

#[test]
fn parameters_have_values(rt: HostRuntime) -> Result<(), Fail> {
    rows_are(&rt, rt.alloc(), VALUES)
}

#[test]
fn the_first_is_told(rt: HostRuntime) -> Result<(), Fail> {
    rows_are(&rt, rt.alloc(), OTHERS)
}
