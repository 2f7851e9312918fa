//! Small functions, one a line, with what their runs come to by the rules of the language. A line
//! has the text, the arguments, the memory from address 16 on, the turns, and the outcome: `end`,
//! the results, the memory and the leak; `cut` and the leak; or `stuck`, the place and the reason.
//! The last function of a text is run.

use jz_interp::{Input, Outcome, interpret, takes};
use jz_lex::lex;
use jz_meaning::{Item, Kind, Leak, MemMap, Stuck, Turn, Why, kind_of};
use jz_parse::parse;
use jz_tree::{Failure, Param, Seq};
use jz_types::{Typed, check};
use jz_words::{Size, Word};
use std::alloc::{AllocError, Global};
use std::process::Abort;
use std::test::Fail;

const ASSIGNMENTS: &str = "\
export fn f(reg u64 x y) -> reg u64 { reg u64 r; r = x; r += y; return r; } => 2 3 =>  => 10 => end 5 ;  ; op[] op[]
export fn f(reg u64 x y) -> reg u64 { reg u64 r; r = x; r += y; return r; } => 18446744073709551615 2 =>  => 10 => end 1 ;  ; op[] op[]
export fn f(reg u64 x y) -> reg u64, reg u64 { reg u64 r h; reg bool c; r = x; h = 0; c, r += y; h += 0 + c; return r, h; } => 18446744073709551615 2 =>  => 10 => end 1 1 ;  ; op[] op[] op[] op[]
export fn f(reg u64 x y) -> reg u64, reg u64 { reg u64 r h; reg bool c; r = x; h = 0; c, r -= y; h -= 0 - c; return r, h; } => 1 2 =>  => 10 => end 18446744073709551615 18446744073709551615 ;  ; op[] op[] op[] op[]
export fn f(reg u64 x y) -> reg u64, reg u64 { reg u64 h l; h, l = x * y; return h, l; } => 9223372036854775808 6 =>  => 10 => end 3 0 ;  ; op[]
export fn f(reg u64 x y) -> reg u64, reg u64 { reg u64 q r; q = x / y; r = x % y; return q, r; } => 17 5 =>  => 10 => end 3 2 ;  ; op[0,17,5] op[0,17,5]
export fn f(reg u64 x y) -> reg u64, reg u64 { reg u64 q r; q = x /s y; r = x %s y; return q, r; } => 18446744073709551599 5 =>  => 10 => end 18446744073709551613 18446744073709551614 ;  ; op[18446744073709551615,18446744073709551599,5] op[18446744073709551615,18446744073709551599,5]
export fn f(reg u32 x) -> reg u32 { reg u32 r; r = x; r <<r= 8; r = -r; r = !r; return r; } => 305419896 =>  => 10 => end 878082065 ;  ; op[] op[] op[] op[]
export fn f(reg u8 b) -> reg u64, reg u64 { reg u64 r s; r = (64u)b; s = (64s)b; return r, s; } => 200 =>  => 10 => end 200 18446744073709551560 ;  ; op[] op[]
";

/// The operand is read, then the condition, then the old value.
const CONDITIONAL: &str = "\
export fn f(reg u64 x y) -> reg u64 { stack u64[3] s; reg u64 r; s[0] = x; s[2] = y; r = 7; r = s[x] if s[y] == y; return r; } => 0 2 =>  => 10 => end 0 ;  ; op[0] op[2] op[] op[0,2]
export fn f(reg u64 x y) -> reg u64 { stack u64[3] s; reg u64 r; s[0] = x; s[2] = x; r = 7; r = s[x] if s[y] == y; return r; } => 0 2 =>  => 10 => end 7 ;  ; op[0] op[2] op[] op[0,2]
export fn f(reg u64 x y) -> reg u64 { reg u64 r; r = x if x == y; return r; } => 1 1 =>  => 10 => stuck 1:50 Init
";

/// The right side comes before the left sides, and these come from the left.
const ORDER: &str = "\
export fn f(reg u64 j) -> reg u64 { stack u64[3] s; reg u64[2] a; reg u64 r; s[1] = j; a[0] = s[j]; r = a[0]; return r; } => 1 =>  => 10 => end 1 ;  ; op[1] op[1,0] op[0]
export fn f(reg u64 i) -> reg u64 { stack u64[3] s; reg u64 r; s[1] = 5; s[i] += i; r = s[i]; return r; } => 1 =>  => 10 => end 6 ;  ; op[1] op[1,1] op[1]
";

const MEMORY: &str = "\
export fn f(reg u64 p) -> reg u64 { reg u64 r; r = [p]; [p + 8] = r; return r; } => 16 => 01020304050607080000000000000000 => 10 => end 578437695752307201 ; 01020304050607080102030405060708 ; op[16] op[24]
export fn f(reg u64 p) -> reg u16 { reg u16 r; r = [:u16 p + 2]; (u8)[p] = 255; return r; } => 16 => 01020304 => 10 => end 1027 ; ff020304 ; op[18] op[16]
export fn f(reg u64 p) -> reg u64 { reg u64 r; r = [p]; return r; } => 17 => 0102030405060708 => 10 => stuck 1:52 Address
export fn f(reg u64 p) -> reg u32 { reg u32 r; r = [p]; return r; } => 17 => 0102030405060708 => 10 => stuck 1:52 Align
export fn f(reg u64 p) -> reg u32 { reg u32 r; r = 1; [p + 6] = r; return r; } => 15 => 0102030405060708 => 10 => stuck 1:55 Address
export fn f(reg u64 p) -> reg u32 { reg u32 r; r = 1; [p] = r; return r; } => 18 => 0102030405060708 => 10 => stuck 1:55 Align
";

const ARRAYS: &str = "\
export fn f(reg u64 i) -> reg u64 { stack u64[3] s; reg u64 r; s[0] = 1; r = s[i]; return r; } => 3 =>  => 10 => stuck 1:78 Bounds
export fn f(reg u64 i) -> reg u64 { stack u64[3] s; reg u64 r; s[0] = 1; r = s[i]; return r; } => 1 =>  => 10 => stuck 1:78 Init
export fn f(reg u64 i) -> reg u64 { stack u64[3] s; reg u64 r; r = 1; s[i] = r; return r; } => 3 =>  => 10 => stuck 1:71 Bounds
";

const UNSET: &str = "\
export fn f() -> reg u64 { reg u64 r s; r = 1; r += s; return r; } =>  =>  => 10 => stuck 1:53 Init
export fn f() -> reg u64 { reg u64 r; return r; } =>  =>  => 10 => stuck 1:46 Init
export fn f(reg u64 x y) -> reg u8, reg u64 { reg u64 r; reg u8 a; reg bool of cf sf pf zf; of, cf, sf, pf, zf, r = #ADD(x, y); r += 0 + cf; a = #SETcc(of); return a, r; } => 9223372036854775808 9223372036854775808 =>  => 10 => end 1 1 ;  ; op[] op[] op[]
export fn f(reg u64 x) -> reg u64 { reg u64 r; reg u8 c; reg bool of cf sf pf zf; r = x; c = 1; of, cf, sf, pf, zf, r = #SHL(r, c & 63); r += 0 + cf; return r; } => 1 =>  => 10 => stuck 1:147 Init
export fn f(reg u64 x) -> reg u64 { reg u64 r; reg bool of cf sf pf zf; r = x; of, cf, sf, pf, zf, r = #SHL(r, 1); r += 0 + cf; return r; } => 9223372036854775809 =>  => 10 => end 3 ;  ; op[] op[] op[]
export fn f(reg u64 x) -> reg u64 { reg u64 r; reg bool of cf sf pf zf; r = x; of, cf, sf, pf, zf, r = #SHL(r, 0); r += 0 + cf; return r; } => 1 =>  => 10 => stuck 1:125 Init
export fn f(reg u64 x) -> reg u64 { reg u64 r; reg u8 c; r = x; c = 65; r <<= c & 63; return r; } => 3 =>  => 10 => end 6 ;  ; op[] op[] op[]
";

const DIVISIONS: &str = "\
export fn f(reg u64 x y) -> reg u64 { reg u64 q; q = x / y; return q; } => 1 0 =>  => 10 => stuck 1:54 Divide
export fn f(reg u64 x y) -> reg u64 { reg u64 q; q = x /s y; return q; } => 9223372036854775808 18446744073709551615 =>  => 10 => stuck 1:54 Divide
export fn f(reg u64 h l d) -> reg u64, reg u64 { reg u64 q r; _, _, _, _, _, q, r = #DIV(h, l, d); return q, r; } => 1 0 2 =>  => 10 => end 9223372036854775808 0 ;  ; op[1,0,2]
export fn f(reg u64 h l d) -> reg u64, reg u64 { reg u64 q r; _, _, _, _, _, q, r = #DIV(h, l, d); return q, r; } => 2 0 2 =>  => 10 => stuck 1:85 Divide
";

const CHOICES: &str = "\
export fn f(reg u64 x) -> reg u64 { reg u64 r; r = 1; if x < 3 { r = 2; r += x; } else { r = 3; } return r; } => 2 =>  => 10 => end 4 ;  ; op[] if[]1{op[] op[]}
export fn f(reg u64 x) -> reg u64 { reg u64 r; r = 1; if x < 3 { r = 2; r += x; } else if x <s 0 { r = 3; } return r; } => 18446744073709551615 =>  => 10 => end 3 ;  ; op[] if[]0{if[]1{op[]}}
export fn f(reg u64 x) -> reg u64 { reg u64 r; inline int i; i = 3; if i == 3 { r = x; } else { r = 0; } return r; } => 9 =>  => 10 => end 9 ;  ; op[] if[]1{op[]}
export fn f(reg u64 p) -> reg u64 { reg u64 r; r = 1; if [p] == r { r = 2; } return r; } => 16 => 0100000000000000 => 10 => end 2 ; 0100000000000000 ; op[] if[16]1{op[]}
";

const LOOPS: &str = "\
export fn f() { while (true) { } } =>  =>  => 5 => cut ; while({}[]1{};{}[]1{};{}[]1{};{}[]1{};{}[]1{};{}[]1{cut})
export fn f(reg u64 n) -> reg u64 { reg u64 r; r = 0; while (r < n) { r += 1; } return r; } => 2 =>  => 2 => end 2 ;  ; op[] while({}[]1{op[]};{}[]1{op[]};{}[]0{})
export fn f(reg u64 n) -> reg u64 { reg u64 r; r = 0; while (r < n) { r += 1; } return r; } => 2 =>  => 1 => cut ; op[] while({}[]1{op[]};{}[]1{cut})
export fn f(reg u64 n) -> reg u64 { reg u64 r; r = 0; while { r += 1; } (r < n) { r += 2; } return r; } => 3 =>  => 10 => end 4 ;  ; op[] while({op[]}[]1{op[]};{op[]}[]0{})
export fn f(reg u64 n) -> reg u64 { reg u64 r; r = 0; while { r += 1; } (r < n) return r; } => 2 =>  => 1 => end 2 ;  ; op[] while({op[]}[]1{};{op[]}[]0{})
export fn f(reg u64 n) -> reg u64 { reg u64 r; r = 0; while { r += 1; } (r < n) return r; } => 2 =>  => 0 => cut ; op[] while({op[]}[]1{cut})
export fn f(reg u64 n) -> reg u64 { reg u64 i j; i = 0; while (i < n) { i += 1; j = 0; while (j < n) { j += 1; } } return i; } => 2 =>  => 4 => cut ; op[] while({}[]1{op[] op[] while({}[]1{op[]};{}[]1{op[]};{}[]0{})};{}[]1{op[] op[] while({}[]1{cut})})
export fn f(reg u64 n) -> reg u64 { reg u64 i j; i = 0; j = 0; while { i += 1; while (j < n) { j += 1; } } (i < n) return i; } => 2 =>  => 1 => cut ; op[] op[] while({op[] while({}[]1{op[]};{}[]1{cut})}[]0{})
";

const COUNTERS: &str = "\
export fn f() -> reg u64 { reg u64[5] a; reg u64 r; inline int i; for i = 4 downto 0 { a[i] = i; } r = 0; for i = 4 downto 0 { r += a[i]; } return r; } =>  =>  => 10 => end 10 ;  ; for({op[4]}{op[3]}{op[2]}{op[1]}) op[] for({op[4]}{op[3]}{op[2]}{op[1]})
export fn f() -> reg u64 { reg u64 r; inline int i j; r = 0; for i = 0 to 3 { for j = i to 2 { r += 10 * i + j; } } return r; } =>  =>  => 10 => end 12 ;  ; op[] for({for({op[]}{op[]})}{for({op[]})}{for()})
export fn f() -> reg u64 { reg u64 r; inline int i; i = 9; for i = 0 to 2 { } r = i; return r; } =>  =>  => 10 => end 9 ;  ; op[] for({}{}) op[]
";

const CALLS: &str = "\
inline fn g(reg u64 a) -> reg u64 { reg u64 t; t = a; t += 1; return t; } export fn f(reg u64 x) -> reg u64 { reg u64 t; t = 5; t = g(x); t = g(t); return t; } => 3 =>  => 10 => end 5 ;  ; op[] call[]{op[] op[]}[] call[]{op[] op[]}[]
inline fn g(stack u64[2] a, reg u64 v) -> stack u64[2] { a[1] = v; return a; } export fn f(reg u64 x) -> reg u64 { stack u64[2] s; reg u64 r; s[0] = x; s = g(s, x); r = s[1]; return r; } => 8 =>  => 10 => end 8 ;  ; op[0] call[]{op[1]}[] op[1]
inline fn g(reg u64 a) -> reg u64, reg u64 { reg u64 t; t = 1; return t, a; } export fn f(reg u64 x) -> reg u64 { stack u64[2] s; reg u64 i r; i, s[i] = g(x); r = s[1]; return r; } => 6 =>  => 10 => end 6 ;  ; call[]{op[]}[1] op[1]
inline fn g(reg u64 a) -> reg u64, reg u64 { reg u64 t; return t, a; } export fn f(reg u64 x) -> reg u64 { reg u64 r; _, r = g(x); return r; } => 6 =>  => 10 => end 6 ;  ; call[]{}[]
inline fn g(reg u64 a) -> reg u64 { reg u64 t; return t; } export fn f(reg u64 x) -> reg u64 { reg u64 r; r = g(x); return r; } => 6 =>  => 10 => stuck 1:55 Init
inline fn g(reg u64 a) -> reg u64 { reg u64 t; t = a; t += 1; return t; } inline fn h(reg u64 a) -> reg u64 { reg u64 t; t = g(a); t = g(t); return t; } export fn f(reg u64 x) -> reg u64 { reg u64 r; r = h(x); return r; } => 1 =>  => 10 => end 3 ;  ; call[]{call[]{op[] op[]}[] call[]{op[] op[]}[]}[]
inline fn g(reg u64 v) -> reg u64 { reg u64 t; t = v; return t; } export fn f(reg u64 p i) -> reg u64 { stack u64[2] s; reg u64 r; s[1] = 4; r = g(s[i]); [p] = r; return r; } => 16 1 => 0000000000000000 => 10 => end 4 ; 0400000000000000 ; op[1] call[1]{op[]}[] op[16]
inline fn g(reg u64 a) -> reg u64 { while (a < 9) { a += 1; } return a; } export fn f(reg u64 x) -> reg u64 { reg u64 r; r = g(x); return r; } => 7 =>  => 1 => cut ; call[]{while({}[]1{op[]};{}[]1{cut})}[]
";

const START: u64 = 16;

fn numbers_text(alloc: Global, numbers: &Seq<u64>) -> Result<String, AllocError> {
    let mut text = String::from_str(alloc, "[")?;
    for (i, number) in numbers.as_slice().iter().enumerate() {
        if i > 0 {
            text.push_str(",")?;
        }
        text.push_str(format!(in alloc; "{number}")?.as_str())?;
    }
    text.push_str("]")?;
    Ok(text)
}

fn bit(answer: bool) -> &'static str {
    if answer { "1" } else { "0" }
}

#[cycle(shown)]
fn turn_text(alloc: Global, turn: &Turn) -> Result<String, AllocError> {
    let prologue = leak_text(alloc, &turn.prologue)?;
    let numbers = numbers_text(alloc, &turn.numbers)?;
    let body = leak_text(alloc, &turn.body)?;
    format!(in alloc;
        "{{{}}}{}{}{{{}}}",
        prologue.as_str(),
        numbers.as_str(),
        bit(turn.more),
        body.as_str()
    )
}

#[cycle(shown)]
fn turns_text(alloc: Global, turns: &Seq<Turn>) -> Result<String, AllocError> {
    let mut text = String::new(alloc);
    for (i, turn) in turns.as_slice().iter().enumerate() {
        if i > 0 {
            text.push_str(";")?;
        }
        text.push_str(turn_text(alloc, turn)?.as_str())?;
    }
    Ok(text)
}

#[cycle(shown)]
fn rounds_text(alloc: Global, rounds: &Seq<Leak>) -> Result<String, AllocError> {
    let mut text = String::new(alloc);
    for round in rounds.as_slice() {
        text.push_str("{")?;
        text.push_str(leak_text(alloc, round)?.as_str())?;
        text.push_str("}")?;
    }
    Ok(text)
}

#[cycle(shown)]
fn item_text(alloc: Global, item: &Item) -> Result<String, AllocError> {
    match item {
        Item::Op(numbers) => format!(in alloc; "op{}", numbers_text(alloc, numbers)?.as_str()),
        Item::If(numbers, answer, arm) => {
            let numbers = numbers_text(alloc, numbers)?;
            let arm = leak_text(alloc, arm)?;
            format!(in alloc;
                "if{}{}{{{}}}",
                numbers.as_str(),
                bit(*answer),
                arm.as_str()
            )
        }
        Item::While(turns) => format!(in alloc; "while({})", turns_text(alloc, turns)?.as_str()),
        Item::For(rounds) => format!(in alloc; "for({})", rounds_text(alloc, rounds)?.as_str()),
        Item::Call(numbers, body, results) => {
            let numbers = numbers_text(alloc, numbers)?;
            let body = leak_text(alloc, body)?;
            let results = numbers_text(alloc, results)?;
            format!(in alloc;
                "call{}{{{}}}{}",
                numbers.as_str(),
                body.as_str(),
                results.as_str()
            )
        }
        Item::Cut => String::from_str(alloc, "cut"),
    }
}

#[cycle(shown)]
fn leak_text(alloc: Global, leak: &Leak) -> Result<String, AllocError> {
    let mut text = String::new(alloc);
    for (i, item) in leak.items.as_slice().iter().enumerate() {
        if i > 0 {
            text.push_str(" ")?;
        }
        text.push_str(item_text(alloc, item)?.as_str())?;
    }
    Ok(text)
}

fn why_text(why: Why) -> &'static str {
    match why {
        Why::Bounds => "Bounds",
        Why::Address => "Address",
        Why::Align => "Align",
        Why::Init => "Init",
        Why::Divide => "Divide",
    }
}

fn words_text(alloc: Global, words: &Seq<Word>) -> Result<String, AllocError> {
    let mut text = String::new(alloc);
    for (i, word) in words.as_slice().iter().enumerate() {
        if i > 0 {
            text.push_str(" ")?;
        }
        text.push_str(format!(in alloc; "{}", word.bits())?.as_str())?;
    }
    Ok(text)
}

fn memory_text(alloc: Global, mem: &MemMap) -> Result<String, AllocError> {
    let mut text = String::new(alloc);
    for address in START..START + 64 {
        if let Some(byte) = mem.get(address) {
            text.push_str(format!(in alloc; "{byte:02x}")?.as_str())?;
        }
    }
    Ok(text)
}

fn outcome_text(alloc: Global, outcome: &Outcome) -> Result<String, AllocError> {
    match outcome {
        Outcome::End(words, mem, leak) => {
            let words = words_text(alloc, words)?;
            let memory = memory_text(alloc, mem)?;
            let leak = leak_text(alloc, leak)?;
            format!(in alloc;
                "end {} ; {} ; {}",
                words.as_str(),
                memory.as_str(),
                leak.as_str()
            )
        }
        Outcome::Cut(leak) => format!(in alloc; "cut ; {}", leak_text(alloc, leak)?.as_str()),
        Outcome::Stuck(Stuck { span, why }) => {
            format!(in alloc; "stuck {}:{} {}", span.line, span.col, why_text(*why))
        }
    }
}

fn typed_text(rt: &impl Abort, alloc: Global, text: &str) -> Result<Typed, Fail> {
    assert!(rt; text.len() < 1000);
    let tokens = lex(alloc, text.as_bytes())
        .ok()
        .ok_or("the text has no tokens")?;
    let program = parse(alloc, &tokens).ok().ok_or("the text is no program")?;
    match check(alloc, program) {
        Ok(typed) => Ok(typed),
        Err(Failure::Refused(_)) => Err("the text is not typed".into()),
        Err(Failure::OutOfMemory) => Err("no memory".into()),
    }
}

fn size_of(param: &Param) -> Size {
    match kind_of(&param.var) {
        Kind::Word(size) => size,
        _ => Size::S64,
    }
}

fn words_of(alloc: Global, params: &Seq<Param>, numbers: &str) -> Result<Seq<Word>, Fail> {
    let mut words = Seq::new(alloc);
    let numbers = numbers.split(" ").filter(|number| !number.is_empty());
    for (param, number) in params.as_slice().iter().zip(numbers) {
        let bits = number.parse::<u64>().map_err(|_| "no number")?;
        words.push(Word::truncate(size_of(param), bits))?;
    }
    Ok(words)
}

fn memory_of(alloc: Global, digits: &str) -> Result<MemMap, Fail> {
    let bytes = hex::decode(alloc, digits).ok().ok_or("no digits")?;
    let mut mem = MemMap::new(alloc);
    mem.add(START, bytes.as_slice())?;
    Ok(mem)
}

/// The number of a program's last function, and the input that a row has for it.
fn input_of(
    alloc: Global,
    typed: &Typed,
    numbers: &str,
    digits: &str,
) -> Result<(usize, Input), Fail> {
    let functions = typed.program().funs.as_slice();
    let last = functions.len().checked_sub(1).ok_or("no function")?;
    let function = functions.get(last).ok_or("no function")?;
    let words = words_of(alloc, &function.params, numbers)?;
    let mem = memory_of(alloc, digits)?;
    Ok((last, Input { words, mem }))
}

/// What the run of a function comes to, as a row tells it.
fn run_text(
    rt: &impl Abort,
    alloc: Global,
    typed: &Typed,
    function: usize,
    input: &Input,
    turns: &str,
) -> Result<String, Fail> {
    assert!(rt; takes(typed, function, &input.words));
    let turns = turns.parse::<u64>().map_err(|_| "no turns")?;
    let outcome = interpret(alloc, typed, function, input, turns)?;
    Ok(outcome_text(alloc, &outcome)?)
}

fn row_is(rt: &impl Abort, alloc: Global, row: &str) -> Result<(), Fail> {
    let columns: Vec<&str> = row.split(" => ").collect(alloc)?;
    let [text, numbers, digits, turns, wanted] = columns.as_slice() else {
        panic!(rt; "no row: {row}")
    };
    let typed = typed_text(rt, alloc, text)?;
    let (last, input) = input_of(alloc, &typed, numbers, digits)?;
    let told = run_text(rt, alloc, &typed, last, &input, turns)?;
    assert!(rt; told.as_str() == *wanted, "{row}: {}", told.as_str());
    Ok(())
}

fn rows_are(rt: &impl Abort, alloc: Global, rows: &str) -> Result<(), Fail> {
    for row in rows.lines() {
        row_is(rt, alloc, row)?;
    }
    Ok(())
}

#[test]
fn assignments(rt: HostRuntime) -> Result<(), Fail> {
    rows_are(&rt, rt.alloc(), ASSIGNMENTS)
}

#[test]
fn conditional_assignments(rt: HostRuntime) -> Result<(), Fail> {
    rows_are(&rt, rt.alloc(), CONDITIONAL)
}

#[test]
fn right_sides_before_left_sides(rt: HostRuntime) -> Result<(), Fail> {
    rows_are(&rt, rt.alloc(), ORDER)
}

#[test]
fn memory(rt: HostRuntime) -> Result<(), Fail> {
    rows_are(&rt, rt.alloc(), MEMORY)
}

#[test]
fn arrays(rt: HostRuntime) -> Result<(), Fail> {
    rows_are(&rt, rt.alloc(), ARRAYS)
}

#[test]
fn unset_variables_and_flags(rt: HostRuntime) -> Result<(), Fail> {
    rows_are(&rt, rt.alloc(), UNSET)
}

#[test]
fn divisions(rt: HostRuntime) -> Result<(), Fail> {
    rows_are(&rt, rt.alloc(), DIVISIONS)
}

#[test]
fn choices(rt: HostRuntime) -> Result<(), Fail> {
    rows_are(&rt, rt.alloc(), CHOICES)
}

#[test]
fn turns_of_while(rt: HostRuntime) -> Result<(), Fail> {
    rows_are(&rt, rt.alloc(), LOOPS)
}

#[test]
fn rounds_of_for(rt: HostRuntime) -> Result<(), Fail> {
    rows_are(&rt, rt.alloc(), COUNTERS)
}

#[test]
fn calls(rt: HostRuntime) -> Result<(), Fail> {
    rows_are(&rt, rt.alloc(), CALLS)
}
