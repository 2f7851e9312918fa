//! Two passes, one after the other: what they make of programs and of leaks, worked by hand.

use crate::add_nothing::AddNothing;
use crate::halves::Halves;
use crate::small::Small;
use jz_change::{Number, Step};
use jz_pass::{Change, Failure, Numbers, Pass, Passed, Seq, Then};
use std::alloc::{AllocError, Global};
use std::test::Fail;

/// Additions, an `if`, and a `while`; then the text of the program that comes out, and of what it
/// makes of leaks.
struct Row {
    first: &'static [u64],
    bound: u64,
    then_arm: &'static [u64],
    else_arm: &'static [u64],
    prologue: &'static [u64],
    limit: u64,
    body: &'static [u64],
    program: &'static str,
    change: &'static str,
}

static ROWS: [Row; 3] = [
    Row {
        first: &[1, 4],
        bound: 5,
        then_arm: &[0],
        else_arm: &[3],
        prologue: &[2],
        limit: 9,
        body: &[1],
        program: "1 2 2 if 5 {} {1 2 } while {1 1 } 9 {1 } ",
        change: "op(1 ) op(2 2 ) if $ {op() } {op(1 2 ) } while {op(1 1 ) } $ {op(1 ) } ",
    },
    Row {
        first: &[],
        bound: 0,
        then_arm: &[],
        else_arm: &[],
        prologue: &[],
        limit: 1,
        body: &[0, 0],
        program: "if 0 {} {} while {} 1 {} ",
        change: "if $ {} {} while {} $ {op() op() } ",
    },
    Row {
        first: &[0, 18446744073709551615],
        bound: 7,
        then_arm: &[6, 5],
        else_arm: &[],
        prologue: &[0],
        limit: 8,
        body: &[],
        program: "9223372036854775807 9223372036854775808 if 7 {3 3 2 3 } {} while {} 8 {} ",
        change: "op() op(9223372036854775807 9223372036854775808 ) if $ {op(3 3 ) op(2 3 ) } {} while {op() } $ {} ",
    },
];

fn additions(alloc: Global, numbers: &[u64]) -> Result<Seq<Small>, AllocError> {
    let mut out = Seq::new(alloc);
    for number in numbers {
        out.push(Small::Add(*number))?;
    }
    Ok(out)
}

fn program_of(alloc: Global, row: &Row) -> Result<Seq<Small>, AllocError> {
    let mut out = additions(alloc, row.first)?;
    let then_arm = additions(alloc, row.then_arm)?;
    let else_arm = additions(alloc, row.else_arm)?;
    out.push(Small::If(row.bound, then_arm, else_arm))?;
    let prologue = additions(alloc, row.prologue)?;
    let body = additions(alloc, row.body)?;
    out.push(Small::While(prologue, row.limit, body))?;
    Ok(out)
}

#[cycle(program)]
fn statements_text(alloc: Global, ss: &Seq<Small>) -> Result<String, AllocError> {
    let mut text = String::new(alloc);
    for s in ss.as_slice() {
        text.push_str(statement_text(alloc, s)?.as_str())?;
    }
    Ok(text)
}

#[cycle(program)]
fn statement_text(alloc: Global, s: &Small) -> Result<String, AllocError> {
    match s {
        Small::Add(number) => format!(in alloc; "{number} "),
        Small::Mark => String::from_str(alloc, "mark "),
        Small::If(bound, then_arm, else_arm) => {
            let then_text = statements_text(alloc, then_arm)?;
            let else_text = statements_text(alloc, else_arm)?;
            format!(in alloc;
                "if {bound} {{{}}} {{{}}} ",
                then_text.as_str(),
                else_text.as_str()
            )
        }
        Small::While(prologue, bound, body) => {
            let prologue_text = statements_text(alloc, prologue)?;
            let body_text = statements_text(alloc, body)?;
            format!(in alloc;
                "while {{{}}} {bound} {{{}}} ",
                prologue_text.as_str(),
                body_text.as_str()
            )
        }
    }
}

fn numbers_text(alloc: Global, numbers: &Numbers) -> Result<String, AllocError> {
    let mut text = String::new(alloc);
    match numbers {
        Numbers::Same => text.push_str("$ ")?,
        Numbers::These(these) => {
            for number in these.as_slice() {
                let shown = match number {
                    Number::Fixed(n) => format!(in alloc; "{n} ")?,
                    Number::Nth(i) => format!(in alloc; "${i} ")?,
                };
                text.push_str(shown.as_str())?;
            }
        }
    }
    Ok(text)
}

fn items_text(alloc: Global, items: &Seq<Numbers>) -> Result<String, AllocError> {
    let mut text = String::new(alloc);
    for item in items.as_slice() {
        text.push_str(numbers_text(alloc, item)?.as_str())?;
    }
    Ok(text)
}

/// The step of an `if`, with the texts of its arms.
fn if_text(
    alloc: Global,
    before: &Seq<Numbers>,
    test: &Numbers,
    then_text: &str,
    else_text: &str,
) -> Result<String, AllocError> {
    let before = items_text(alloc, before)?;
    let test = numbers_text(alloc, test)?;
    format!(in alloc;
        "{}if {}{{{then_text}}} {{{else_text}}} ",
        before.as_str(),
        test.as_str()
    )
}

/// The step of a `while`, with the texts of its prologue and of its body.
fn while_text(
    alloc: Global,
    prologue: &str,
    before: &Seq<Numbers>,
    test: &Numbers,
    body: &str,
) -> Result<String, AllocError> {
    let before = items_text(alloc, before)?;
    let test = numbers_text(alloc, test)?;
    format!(in alloc;
        "while {{{prologue}}} {}{}{{{body}}} ",
        before.as_str(),
        test.as_str()
    )
}

#[cycle(change_shown)]
fn change_text(alloc: Global, change: &Change) -> Result<String, AllocError> {
    let mut text = String::new(alloc);
    for step in change.steps.as_slice() {
        text.push_str(step_text(alloc, step)?.as_str())?;
    }
    Ok(text)
}

#[cycle(change_shown)]
fn step_text(alloc: Global, step: &Step) -> Result<String, AllocError> {
    match step {
        Step::Ops(items) => format!(in alloc; "op({}) ", items_text(alloc, items)?.as_str()),
        Step::If {
            before,
            test,
            then_part,
            else_part,
        } => {
            let then_text = change_text(alloc, then_part)?;
            let else_text = change_text(alloc, else_part)?;
            if_text(alloc, before, test, then_text.as_str(), else_text.as_str())
        }
        Step::While {
            prologue,
            before,
            test,
            body,
        } => {
            let prologue = change_text(alloc, prologue)?;
            let body = change_text(alloc, body)?;
            while_text(alloc, prologue.as_str(), before, test, body.as_str())
        }
        _ => String::from_str(alloc, "other "),
    }
}

#[test]
fn halves_without_nothing(rt: HostRuntime) -> Result<(), Fail> {
    let alloc = rt.alloc();
    for row in ROWS.iter() {
        let program = program_of(alloc, row)?;
        let passes = Then::new(Halves, AddNothing);
        match passes.run(alloc, &program) {
            Ok(Passed { program, change }) => {
                assert_eq!(rt; statements_text(alloc, &program)?.as_str(), row.program);
                assert_eq!(rt; change_text(alloc, &change)?.as_str(), row.change);
            }
            Err(_) => assert!(rt; false),
        }
    }
    Ok(())
}

#[test]
fn a_mark_is_refused(rt: HostRuntime) -> Result<(), Fail> {
    let alloc = rt.alloc();
    let mut arm = additions(alloc, &[1])?;
    arm.push(Small::Mark)?;
    let mut program = additions(alloc, &[2])?;
    program.push(Small::If(3, Seq::new(alloc), arm))?;
    let passes = Then::new(Halves, AddNothing);
    let refused = match passes.run(alloc, &program) {
        Err(Failure::Refused(_)) => true,
        _ => false,
    };
    assert!(rt; refused);
    Ok(())
}
