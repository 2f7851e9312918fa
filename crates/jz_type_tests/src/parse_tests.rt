//! Texts with the programs and faults that the language's rules give by hand.

use crate::names::operation_name;
use jz_io::Span;
use jz_lex::{Tokens, lex};
use jz_parse::{SyntaxFault, SyntaxKind, parse};
use jz_tree::{
    Access, BinOp, Decl, Expr, Failure, Fun, FunKind, Lval, Note, NoteValue, Param, Program, Ret,
    Rhs, Seq, Size, Stmt, StmtKind, Storage, Text, Ty, Var,
};
use std::alloc::{AllocError, Global};
use std::process::Abort;
use std::test::Fail;

fn size_text(size: Size) -> &'static str {
    match size {
        Size::S8 => "u8",
        Size::S16 => "u16",
        Size::S32 => "u32",
        Size::S64 => "u64",
    }
}

fn var_text(alloc: Global, var: &Var) -> Result<String, AllocError> {
    format!(in alloc; "{}@{}", var.name.as_str(), var.span.col)
}

fn cast_text(
    alloc: Global,
    size: Size,
    signed: bool,
    span: Span,
    inner: &str,
) -> Result<String, AllocError> {
    let sign = if signed { "s" } else { "u" };
    format!(in alloc; "({}{sign}@{}){inner}", size_text(size), span.col)
}

fn operation_text(
    alloc: Global,
    op: BinOp,
    span: Span,
    first: &str,
    second: &str,
) -> Result<String, AllocError> {
    format!(in alloc; "({first} {}@{} {second})", operation_name(op), span.col)
}

/// An access: its size if one is written, its place and its address.
#[cycle(shown)]
fn access_text(alloc: Global, access: &Access) -> Result<String, AllocError> {
    let at = expr_text(alloc, access.at.get())?;
    let size = match access.size {
        Some(size) => size_text(size),
        None => "",
    };
    format!(in alloc; "[{size}:{} @{}]", at.as_str(), access.span.col)
}

/// An expression with parentheses round each operation, and the column of each name.
#[cycle(shown)]
fn expr_text(alloc: Global, expr: &Expr) -> Result<String, AllocError> {
    match expr {
        Expr::Num(value, span) => format!(in alloc; "{value}@{}", span.col),
        Expr::Bool(value, span) => format!(in alloc; "{value}@{}", span.col),
        Expr::Var(var) => var_text(alloc, var),
        Expr::Cell(var, at) => {
            let inner = expr_text(alloc, at.get())?;
            let name = var_text(alloc, var)?;
            format!(in alloc; "{}[{}]", name.as_str(), inner.as_str())
        }
        Expr::Load(access) => access_text(alloc, access),
        Expr::Neg(e, span) => {
            let inner = expr_text(alloc, e.get())?;
            format!(in alloc; "-@{} {}", span.col, inner.as_str())
        }
        Expr::Not(e, span) => {
            let inner = expr_text(alloc, e.get())?;
            format!(in alloc; "!@{} {}", span.col, inner.as_str())
        }
        Expr::Cast {
            size,
            signed,
            e,
            span,
        } => {
            let inner = expr_text(alloc, e.get())?;
            cast_text(alloc, *size, *signed, *span, inner.as_str())
        }
        Expr::Bin(op, left, right, span) => {
            let first = expr_text(alloc, left.get())?;
            let second = expr_text(alloc, right.get())?;
            operation_text(alloc, *op, *span, first.as_str(), second.as_str())
        }
    }
}

fn exprs_text(alloc: Global, exprs: &Seq<Expr>) -> Result<String, AllocError> {
    let mut text = String::new(alloc);
    for expr in exprs.as_slice() {
        let next = expr_text(alloc, expr)?;
        text.push_str(next.as_str())?;
        text.push_str(" ")?;
    }
    Ok(text)
}

fn note_text(alloc: Global, note: &Note) -> Result<String, AllocError> {
    let value = match &note.value {
        NoteValue::None => String::new(alloc),
        NoteValue::Name(name) => format!(in alloc; "={}", name.as_str())?,
        NoteValue::Num(value) => format!(in alloc; "={value}")?,
        NoteValue::Str(bytes) => format!(in alloc; "=\"{}\"", bytes.len())?,
    };
    format!(in alloc;
        "#{}{}@{} ",
        note.name.as_str(),
        value.as_str(),
        note.span.col
    )
}

fn notes_text(alloc: Global, notes: &Seq<Note>) -> Result<String, AllocError> {
    let mut text = String::new(alloc);
    for note in notes.as_slice() {
        let next = note_text(alloc, note)?;
        text.push_str(next.as_str())?;
    }
    Ok(text)
}

fn decl_text(alloc: Global, decl: &Decl) -> Result<String, AllocError> {
    let storage = match decl.storage {
        Storage::Reg => "reg",
        Storage::Stack => "stack",
        Storage::Inline => "inline",
    };
    match &decl.ty {
        Ty::Int => format!(in alloc; "{storage} int"),
        Ty::Bool => format!(in alloc; "{storage} bool"),
        Ty::Word(size) => format!(in alloc; "{storage} {}", size_text(*size)),
        Ty::Array(size, count) => {
            let count = expr_text(alloc, count.get())?;
            format!(in alloc; "{storage} {}[{}]", size_text(*size), count.as_str())
        }
    }
}

/// A variable behind what is declared of it.
fn declared_text(alloc: Global, var: &Var) -> Result<String, AllocError> {
    let name = var_text(alloc, var)?;
    match &var.decl {
        Some(decl) => {
            let decl = decl_text(alloc, decl)?;
            format!(in alloc; "{} {}", decl.as_str(), name.as_str())
        }
        None => Ok(name),
    }
}

fn vars_text(alloc: Global, vars: &Seq<Var>) -> Result<String, AllocError> {
    let mut text = String::new(alloc);
    for var in vars.as_slice() {
        let next = declared_text(alloc, var)?;
        text.push_str(next.as_str())?;
        text.push_str("; ")?;
    }
    Ok(text)
}

fn lval_text(alloc: Global, to: &Lval) -> Result<String, AllocError> {
    match to {
        Lval::Skip(_) => String::from_str(alloc, "_"),
        Lval::Var(var) => var_text(alloc, var),
        Lval::Cell(var, at) => {
            let at = expr_text(alloc, at.get())?;
            format!(in alloc; "{}[{}]", var.name.as_str(), at.as_str())
        }
        Lval::Store(access) => access_text(alloc, access),
    }
}

fn lvals_text(alloc: Global, to: &Seq<Lval>) -> Result<String, AllocError> {
    let mut text = String::new(alloc);
    for lval in to.as_slice() {
        let next = lval_text(alloc, lval)?;
        text.push_str(next.as_str())?;
        text.push_str(" ")?;
    }
    Ok(text)
}

fn call_text(
    alloc: Global,
    name: &Text,
    args: &Seq<Expr>,
    span: Span,
) -> Result<String, AllocError> {
    let args = exprs_text(alloc, args)?;
    format!(in alloc; "{}@{}({})", name.as_str(), span.col, args.as_str())
}

fn rhs_text(alloc: Global, rhs: &Rhs) -> Result<String, AllocError> {
    match rhs {
        Rhs::Value(value) => expr_text(alloc, value),
        Rhs::Call(name, args, span) => call_text(alloc, name, args, *span),
        Rhs::Intrinsic(name, args, span) => {
            let call = call_text(alloc, name, args, *span)?;
            format!(in alloc; "#{}", call.as_str())
        }
    }
}

/// A loop: the lengths of its blocks, 99 where there is no body.
fn while_text(
    alloc: Global,
    prologue: &Seq<Stmt>,
    cond: &Expr,
    body: &Option<Seq<Stmt>>,
) -> Result<String, AllocError> {
    let cond = expr_text(alloc, cond)?;
    let body = match body {
        Some(body) => body.len(),
        None => 99,
    };
    format!(in alloc; "while {} {} {}", prologue.len(), cond.as_str(), body)
}

fn assign_text(
    alloc: Global,
    to: &Seq<Lval>,
    rhs: &Rhs,
    cond: &Option<Expr>,
    op: &str,
) -> Result<String, AllocError> {
    let to = lvals_text(alloc, to)?;
    let rhs = rhs_text(alloc, rhs)?;
    let cond = match cond {
        Some(cond) => expr_text(alloc, cond)?,
        None => String::from_str(alloc, "always")?,
    };
    format!(in alloc; "{}{op} {} if {}", to.as_str(), rhs.as_str(), cond.as_str())
}

/// What a statement does; of a block the number of its statements.
fn kind_text(alloc: Global, kind: &StmtKind) -> Result<String, AllocError> {
    match kind {
        StmtKind::Assign { to, op, rhs, cond } => {
            let op = op.map(operation_name).unwrap_or("None");
            assign_text(alloc, to, rhs, cond, op)
        }
        StmtKind::If(cond, then, other) => {
            let cond = expr_text(alloc, cond)?;
            format!(in alloc; "if {} {} else {}", cond.as_str(), then.len(), other.len())
        }
        StmtKind::While {
            prologue,
            cond,
            body,
        } => while_text(alloc, prologue, cond, body),
        StmtKind::For {
            counter,
            from,
            down,
            to,
            body,
        } => {
            let name = var_text(alloc, counter)?;
            let from = expr_text(alloc, from)?;
            let to = expr_text(alloc, to)?;
            let count = body.len();
            format!(in alloc;
                "for {} {} {down} {} {count}",
                name.as_str(),
                from.as_str(),
                to.as_str()
            )
        }
        StmtKind::Mark(_) => String::from_str(alloc, "mark"),
    }
}

fn stmts_text(alloc: Global, stmts: &Seq<Stmt>) -> Result<String, AllocError> {
    let mut text = String::new(alloc);
    for stmt in stmts.as_slice() {
        let notes = notes_text(alloc, &stmt.notes)?;
        let kind = kind_text(alloc, &stmt.kind)?;
        text.push_str(notes.as_str())?;
        let kind = format!(in alloc; "{}: {}; ", stmt.span.col, kind.as_str())?;
        text.push_str(kind.as_str())?;
    }
    Ok(text)
}

/// A function's head, without its body.
fn push_params(text: &mut String, alloc: Global, params: &Seq<Param>) -> Result<(), AllocError> {
    for param in params.as_slice() {
        text.push_str(notes_text(alloc, &param.notes)?.as_str())?;
        text.push_str(declared_text(alloc, &param.var)?.as_str())?;
        text.push_str("; ")?;
    }
    Ok(())
}

fn push_rets(text: &mut String, alloc: Global, rets: &Seq<Ret>) -> Result<(), AllocError> {
    for ret in rets.as_slice() {
        text.push_str(notes_text(alloc, &ret.notes)?.as_str())?;
        text.push_str(decl_text(alloc, &ret.decl)?.as_str())?;
        text.push_str("; ")?;
    }
    Ok(())
}

fn head_text(alloc: Global, fun: &Fun) -> Result<String, AllocError> {
    let mut text = notes_text(alloc, &fun.notes)?;
    text.push_str(match fun.kind {
        FunKind::Inline => "inline ",
        FunKind::Export => "export ",
    })?;
    text.push_str(fun.name.as_str())?;
    text.push_str("( ")?;
    push_params(&mut text, alloc, &fun.params)?;
    text.push_str(") ")?;
    push_rets(&mut text, alloc, &fun.rets)?;
    Ok(text)
}

fn fun_text(alloc: Global, fun: &Fun) -> Result<String, AllocError> {
    let mut text = head_text(alloc, fun)?;
    let vars = vars_text(alloc, &fun.vars)?;
    let stmts = stmts_text(alloc, &fun.body)?;
    let result = vars_text(alloc, &fun.result)?;
    text.push_str("{ ")?;
    text.push_str(vars.as_str())?;
    text.push_str(stmts.as_str())?;
    text.push_str("return ")?;
    text.push_str(result.as_str())?;
    text.push_str("}")?;
    Ok(text)
}

/// The constants, then the functions.
fn program_text(alloc: Global, program: &Program) -> Result<String, AllocError> {
    let mut text = String::new(alloc);
    for constant in program.consts.as_slice() {
        let value = expr_text(alloc, &constant.value)?;
        let next = format!(in alloc; "{} = {}; ", constant.name.as_str(), value.as_str())?;
        text.push_str(next.as_str())?;
    }
    for fun in program.funs.as_slice() {
        let next = fun_text(alloc, fun)?;
        text.push_str(next.as_str())?;
    }
    Ok(text)
}

fn fault_text(alloc: Global, fault: SyntaxFault) -> Result<String, AllocError> {
    let SyntaxFault { kind, token, span } = fault;
    let kind = match kind {
        SyntaxKind::Unexpected => "Unexpected",
        SyntaxKind::TooDeep => "TooDeep",
    };
    format!(in alloc; "{kind} {}:{} token {token}", span.line, span.col)
}

fn answer_text(
    alloc: Global,
    answer: Result<Program, Failure<SyntaxFault>>,
) -> Result<String, AllocError> {
    match answer {
        Ok(program) => program_text(alloc, &program),
        Err(Failure::Refused(fault)) => fault_text(alloc, fault),
        Err(Failure::OutOfMemory) => Err(AllocError),
    }
}

fn tokens_of(rt: &impl Abort, alloc: Global, text: &str) -> Result<Tokens, Fail> {
    assert!(rt; text.len() < 2_000_000);
    Ok(
        lex(alloc, text.as_bytes())
            .ok()
            .ok_or("the text has no tokens")?,
    )
}

fn outcome(rt: &impl Abort, alloc: Global, text: &str) -> Result<String, Fail> {
    let tokens = tokens_of(rt, alloc, text)?;
    Ok(answer_text(alloc, parse(alloc, &tokens))?)
}

/// Each text with its tree, or with its first wrong token.
static ROWS: [(&str, &str); 59] = [
    (
        "export fn f() {x = 1; }",
        "export f( ) { 16: x@16 None 1@20 if always; return }",
    ),
    (
        "export fn f() {x = true; }",
        "export f( ) { 16: x@16 None true@20 if always; return }",
    ),
    (
        "export fn f() {x = a - b - c; }",
        "export f( ) { 16: x@16 None ((a@20 Sub@20 b@24) Sub@20 c@28) if always; return }",
    ),
    (
        "export fn f() {x = a + b * c; }",
        "export f( ) { 16: x@16 None (a@20 Add@20 (b@24 Mul@24 c@28)) if always; return }",
    ),
    (
        "export fn f() {x = ( a + b ) * c; }",
        "export f( ) { 16: x@16 None ((a@22 Add@22 b@26) Mul@20 c@32) if always; return }",
    ),
    (
        "export fn f() {x = - a * ! b; }",
        "export f( ) { 16: x@16 None (-@20 a@22 Mul@20 !@26 b@28) if always; return }",
    ),
    (
        "export fn f() {x = a [ b + 1 ]; }",
        "export f( ) { 16: x@16 None a@20[(b@24 Add@24 1@28)] if always; return }",
    ),
    (
        "export fn f() {x = [ a ]; }",
        "export f( ) { 16: x@16 None [:a@22 @20] if always; return }",
    ),
    (
        "export fn f() {x = [ : u32 a + 8 ]; }",
        "export f( ) { 16: x@16 None [u32:(a@28 Add@28 8@32) @20] if always; return }",
    ),
    (
        "export fn f() {x = ( u16 ) [ a ] + 1; }",
        "export f( ) { 16: x@16 None ([u16:a@30 @20] Add@20 1@36) if always; return }",
    ),
    (
        "export fn f() {x = ( 64s ) a [ 0 ]; }",
        "export f( ) { 16: x@16 None (u64s@20)a@28[0@32] if always; return }",
    ),
    (
        "export fn f() {x = ( 8u ) - 1; }",
        "export f( ) { 16: x@16 None (u8u@20)-@27 1@29 if always; return }",
    ),
    (
        "export fn f() {x = a || b && c; }",
        "export f( ) { 16: x@16 None (a@20 OrElse@20 (b@25 AndThen@25 c@30)) if always; return }",
    ),
    (
        "export fn f() {x = a && b | c; }",
        "export f( ) { 16: x@16 None (a@20 AndThen@20 (b@25 Or@25 c@29)) if always; return }",
    ),
    (
        "export fn f() {x = a | b ^ c; }",
        "export f( ) { 16: x@16 None (a@20 Or@20 (b@24 Xor@24 c@28)) if always; return }",
    ),
    (
        "export fn f() {x = a ^ b & c; }",
        "export f( ) { 16: x@16 None (a@20 Xor@20 (b@24 And@24 c@28)) if always; return }",
    ),
    (
        "export fn f() {x = a & b != c; }",
        "export f( ) { 16: x@16 None (a@20 And@20 (b@24 Ne@24 c@29)) if always; return }",
    ),
    (
        "export fn f() {x = a == b <=s c; }",
        "export f( ) { 16: x@16 None (a@20 Eq@20 (b@25 LeS@25 c@31)) if always; return }",
    ),
    (
        "export fn f() {x = a < b >>r c; }",
        "export f( ) { 16: x@16 None (a@20 Lt@20 (b@24 Ror@24 c@30)) if always; return }",
    ),
    (
        "export fn f() {x = a << b + c; }",
        "export f( ) { 16: x@16 None (a@20 Shl@20 (b@25 Add@25 c@29)) if always; return }",
    ),
    (
        "export fn f() {x = a - b %s c; }",
        "export f( ) { 16: x@16 None (a@20 Sub@20 (b@24 RemS@24 c@29)) if always; return }",
    ),
    (
        "export fn f() {x = ( ( 1 ) ); }",
        "export f( ) { 16: x@16 None 1@24 if always; return }",
    ),
    (
        "export fn f() {x = ( u8 ) [ - 1 ]; }",
        "export f( ) { 16: x@16 None [u8:-@29 1@31 @20] if always; return }",
    ),
    (
        "export fn f() {x = ( u8 ) [ a ]; }",
        "export f( ) { 16: x@16 None [u8:a@29 @20] if always; return }",
    ),
    ("", ""),
    (
        "param int n = 3 + 4 * 2;",
        "n = (3@15 Add@15 (4@19 Mul@19 2@23)); ",
    ),
    (
        "#[a, b=c] #d=3 #e=\"xy\" inline fn f(#public reg u64 x y, stack u8[4] z) {}",
        "#a@1 #b=c@1 #d=3@11 #e=\"2\"@16 inline f( #public@36 reg u64 x@52; #public@36 reg u64 y@54; stack u8[4@66] z@69; ) { return }",
    ),
    (
        "export fn g() -> #secret reg u32, reg bool { inline int i; reg u16 a b, c; return (a, b); } param int m = -1;",
        "m = -@107 1@108; export g( ) #secret@18 reg u32; reg bool; { inline int i@57; reg u16 a@68; reg u16 b@70; reg u16 c@73; return a@84; b@87; }",
    ),
    (
        "export fn f() {a = b;}",
        "export f( ) { 16: a@16 None b@20 if always; return }",
    ),
    (
        "export fn f() {a[i + 1] >>s= 3 if b <s 2;}",
        "export f( ) { 16: a[(i@18 Add@18 1@22)] Sar 3@30 if (b@35 LtS@35 2@40); return }",
    ),
    (
        "export fn f() {cf, x += c;}",
        "export f( ) { 16: cf@16 x@20 Add c@25 if always; return }",
    ),
    (
        "export fn f() {#loud _, x = #add(x, (u64)[p + e]);}",
        "export f( ) { #loud@16 22: _ x@25 None #add@29(x@34 [u64:(p@43 Add@43 e@47) @37] ) if always; return }",
    ),
    (
        "export fn f() {[:u64 p + e] = (64u)y;}",
        "export f( ) { 16: [u64:(p@22 Add@22 e@26) @16] None (u64u@31)y@36 if always; return }",
    ),
    (
        "export fn f() {x = #pause();}",
        "export f( ) { 16: x@16 None #pause@20() if always; return }",
    ),
    (
        "export fn f() {g(x, 1); y = h();}",
        "export f( ) { 16: None g@16(x@18 1@21 ) if always; 25: y@25 None h@29() if always; return }",
    ),
    (
        "export fn f() {if a == b { c = 1; d = 2; } else if true { e = 3; } else { }}",
        "export f( ) { 16: if (a@19 Eq@19 b@24) 2 else 1; return }",
    ),
    (
        "export fn f() {while { p = 1; } (c) while (d) { q = 1; r = 2; } while { } (e) { s = 3; }}",
        "export f( ) { 16: while 1 c@34 99; 37: while 0 d@44 2; 65: while 0 e@76 1; return }",
    ),
    (
        "export fn f() {for i = n downto 0 { } for j = 0 to 4 { a = 1; }}",
        "export f( ) { 16: for i@20 n@24 true 0@33 0; 39: for j@43 0@47 false 4@52 1; return }",
    ),
    (
        "export fn f() {_ , a [ 1 ] , [ b ] <<r= # f ( a , 2 ) if c ;}",
        "export f( ) { 16: _ a[1@24] [:b@32 @30] Rol #f@41(a@47 2@51 ) if c@58; return }",
    ),
    (
        "export fn f() {# a # [ b = 1 , c ] a /s= f ( b ) ;}",
        "export f( ) { #a@16 #b=1@20 #c@20 36: a@36 DivS f@42(b@46 ) if always; return }",
    ),
    (
        "export fn f() {if a { } else { f ( ) ; f ( ) ; }}",
        "export f( ) { 16: if a@19 0 else 2; return }",
    ),
    (
        "export fn f() {# b while ( a ) ;}",
        "export f( ) { #b@16 20: while 0 a@28 99; return }",
    ),
    ("export fn f(", "Unexpected 1:13 token 4"),
    ("export fn f() {} fn", "Unexpected 1:18 token 7"),
    ("param int n = ;", "Unexpected 1:15 token 4"),
    ("export fn f(reg u64) {}", "Unexpected 1:20 token 6"),
    (
        "export fn f() { reg u64 z z = x; }",
        "Unexpected 1:29 token 10",
    ),
    (
        "export fn f() { return a; a = b; }",
        "Unexpected 1:27 token 9",
    ),
    ("export fn f() { #a reg u64 x; }", "Unexpected 1:20 token 8"),
    ("export fn f() {( a ) ; }", "Unexpected 1:18 token 7"),
    ("export fn f() {a = b }", "Unexpected 1:22 token 9"),
    ("export fn f() {a = b if ; }", "Unexpected 1:25 token 10"),
    ("export fn f() {f ( ) = a ; }", "Unexpected 1:22 token 9"),
    ("export fn f() {while a { } }", "Unexpected 1:22 token 7"),
    (
        "export fn f() {for a = 0 b { } }",
        "Unexpected 1:26 token 10",
    ),
    (
        "export fn f() {if a { } else b }",
        "Unexpected 1:30 token 11",
    ),
    ("export fn f() {x = a + }", "Unexpected 1:24 token 10"),
    ("export fn f() {x = ( u8 ) a }", "Unexpected 1:27 token 11"),
    ("export fn f() {x = [ : a ] }", "Unexpected 1:24 token 10"),
];

#[test]
fn reads_each_text(rt: HostRuntime) -> Result<(), Fail> {
    let alloc = rt.alloc();
    for (text, want) in ROWS {
        assert_eq!(rt; outcome(&rt, alloc, text)?.as_str(), want);
    }
    Ok(())
}

/// A text's head, and a piece so many times that leaves it open.
fn nested(alloc: Global, head: &str, piece: &str, count: usize) -> Result<String, AllocError> {
    let mut text = String::from_str(alloc, head)?;
    for _ in 0..count {
        text.push_str(piece)?;
    }
    Ok(text)
}

const VALUE: &str = "export fn f() { reg u64 x; x = ";

const BODY: &str = "export fn f() {";

/// The text with so many pieces behind its head, read.
fn nested_outcome(
    rt: &impl Abort,
    alloc: Global,
    head: &str,
    piece: &str,
    count: usize,
) -> Result<String, Fail> {
    let text = nested(alloc, head, piece, count)?;
    outcome(rt, alloc, text.as_str())
}

#[test]
fn tells_what_is_nested_too_deep(rt: HostRuntime) -> Result<(), Fail> {
    for (head, piece, count, want) in [
        (VALUE, "(", 300, "TooDeep 1:231 token 211"),
        (VALUE, "(", 200, "TooDeep 1:231 token 211"),
        (VALUE, "(", 199, "Unexpected 1:231 token 211"),
        (VALUE, "(", 1_048_576, "TooDeep 1:231 token 211"),
        (VALUE, "- ", 201, "TooDeep 1:430 token 211"),
        (BODY, "if a{", 201, "TooDeep 1:1015 token 605"),
        (BODY, "if a{}else ", 201, "TooDeep 1:2209 token 1003"),
    ] {
        let told = nested_outcome(&rt, rt.alloc(), head, piece, count)?;
        assert_eq!(rt; told.as_str(), want);
    }
    Ok(())
}

/// How many operations stand on the left side of one another.
fn chain_length(expr: &Expr) -> u32 {
    let mut count = 0u32;
    let mut rest = expr;
    while let Expr::Bin(_, left, _, _) = rest {
        count = count.saturating_add(1);
        rest = left.get();
    }
    count
}

/// The length of the chain that a statement assigns.
fn assigned_length(stmt: &Stmt) -> Option<u32> {
    match &stmt.kind {
        StmtKind::Assign {
            to: _,
            op: _,
            rhs: Rhs::Value(value),
            cond: _,
        } => Some(chain_length(value)),
        _ => None,
    }
}

#[test]
fn reads_long_sums(rt: HostRuntime) -> Result<(), Fail> {
    let alloc = rt.alloc();
    let mut text = String::from_str(alloc, "export fn f() { x = ")?;
    for _ in 0..262_144 {
        text.push_str("1 + ")?;
    }
    text.push_str("1; }")?;
    let tokens = tokens_of(&rt, alloc, text.as_str())?;
    let program = parse(alloc, &tokens).ok().ok_or("the text is no program")?;
    let fun = program.funs.get(0).ok_or("there is no function")?;
    let stmt = fun.body.get(0).ok_or("there is no statement")?;
    assert_eq!(rt; assigned_length(stmt), Some(262_144));
    Ok(())
}
