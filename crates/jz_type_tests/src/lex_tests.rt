//! Texts with the tokens and faults that the language's rules give by hand.

use jz_io::Span;
use jz_lex::{LexFault, LexKind, Token, TokenKind, lex};
use jz_tree::Failure;
use std::alloc::{AllocError, Global};
use std::process::Abort;
use std::test::Fail;

fn token_line(alloc: Global, token: &Token) -> Result<String, AllocError> {
    let Span { line, col } = token.span;
    match &token.kind {
        TokenKind::Ident(name) => format!(in alloc; "I{}@{line}:{col}", name.as_str()),
        TokenKind::Keyword(word) => format!(in alloc; "K{}@{line}:{col}", word.as_str()),
        TokenKind::Num(value) => format!(in alloc; "N{value}@{line}:{col}"),
        TokenKind::Cast(size, signed) => {
            let bits = size.bits();
            format!(in alloc; "C{bits}{}@{line}:{col}", if *signed { "s" } else { "u" })
        }
        TokenKind::Str(bytes) => {
            let bytes = bytes.as_slice();
            format!(in alloc; "T{bytes:?}@{line}:{col}")
        }
        TokenKind::Sign(sign) => format!(in alloc; "S{}@{line}:{col}", sign.as_str()),
        TokenKind::End => format!(in alloc; "E@{line}:{col}"),
    }
}

/// The tokens with a letter for their kind, their text and their place, or the fault and its place.
fn outcome(rt: &impl Abort, alloc: Global, text: &[u8]) -> Result<String, AllocError> {
    assert!(rt; text.len() < 1000);
    match lex(alloc, text) {
        Ok(tokens) => {
            let mut line = String::new(alloc);
            for token in tokens.as_slice() {
                if !line.is_empty() {
                    line.push_str(" ")?;
                }
                line.push_str(token_line(alloc, token)?.as_str())?;
            }
            Ok(line)
        }
        Err(Failure::Refused(fault)) => {
            let Span { line, col } = fault.span;
            match fault.kind {
                LexKind::BadByte => format!(in alloc; "bad byte at {line}:{col}"),
                LexKind::OpenComment => format!(in alloc; "open comment at {line}:{col}"),
                LexKind::BadNumber => format!(in alloc; "bad number at {line}:{col}"),
            }
        }
        Err(Failure::OutOfMemory) => Err(AllocError),
    }
}

/// Texts and their tokens.
static TOKENS: [(&[u8], &str); 31] = [
    (
        b"export fn add(reg u64 x, reg u64 y) -> reg u64 { reg u64 r; r = x; r += y; return r; }",
        "Kexport@1:1 Kfn@1:8 Iadd@1:11 S(@1:14 Kreg@1:15 Ku64@1:19 Ix@1:23 S,@1:24 Kreg@1:26 Ku64@1:30 Iy@1:34 S)@1:35 S->@1:37 Kreg@1:40 Ku64@1:44 S{@1:48 Kreg@1:50 Ku64@1:54 Ir@1:58 S;@1:59 Ir@1:61 S=@1:63 Ix@1:65 S;@1:66 Ir@1:68 S+=@1:70 Iy@1:73 S;@1:74 Kreturn@1:76 Ir@1:83 S;@1:84 S}@1:86 E@1:87",
    ),
    (
        b"export fn f(",
        "Kexport@1:1 Kfn@1:8 If@1:11 S(@1:12 E@1:13",
    ),
    (b"", "E@1:1"),
    (b"a\tb\r\nc\n\nd \r", "Ia@1:1 Ib@1:3 Ic@2:1 Id@4:1 E@4:4"),
    (
        b"0xfF_ 0x00 1_ 1_000",
        "N255@1:1 N0@1:7 N1@1:12 N1000@1:15 E@1:20",
    ),
    (
        b"170141183460469231731687303715884105727",
        "N170141183460469231731687303715884105727@1:1 E@1:40",
    ),
    (
        b"0x7fffffffffffffffffffffffffffffff",
        "N170141183460469231731687303715884105727@1:1 E@1:35",
    ),
    (
        b"00000000000000000000000000000000000000000000000009",
        "N9@1:1 E@1:51",
    ),
    (
        b"->-=^==+={}",
        "S->@1:1 S-=@1:3 S^=@1:5 S=@1:7 S+=@1:8 S{@1:10 S}@1:11 E@1:12",
    ),
    (
        b"_ __ _1 true1 true downto",
        "K_@1:1 I__@1:3 I_1@1:6 Itrue1@1:9 Ktrue@1:15 Kdownto@1:20 E@1:26",
    ),
    (b"1(2", "N1@1:1 S(@1:2 N2@1:3 E@1:4"),
    (
        b"param int inline export fn reg stack bool u8 u16 u32 u64 return if else while for to downto true false _",
        "Kparam@1:1 Kint@1:7 Kinline@1:11 Kexport@1:18 Kfn@1:25 Kreg@1:28 Kstack@1:32 Kbool@1:38 Ku8@1:43 Ku16@1:46 Ku32@1:50 Ku64@1:54 Kreturn@1:58 Kif@1:65 Kelse@1:68 Kwhile@1:73 Kfor@1:79 Kto@1:83 Kdownto@1:86 Ktrue@1:93 Kfalse@1:98 K_@1:104 E@1:105",
    ),
    (b"0xAbCdEf 0xa9", "N11259375@1:1 N169@1:10 E@1:14"),
    (
        b">>s= <<r= >>r= <<= >>= /s= %s= += -= *= /= %= &= |= ^= -> == != <= >= << >> && || ( ) { } [ ] , ; : # = + - * / % & | ^ < > !",
        "S>>s=@1:1 S<<r=@1:6 S>>r=@1:11 S<<=@1:16 S>>=@1:20 S/s=@1:24 S%s=@1:28 S+=@1:32 S-=@1:35 S*=@1:38 S/=@1:41 S%=@1:44 S&=@1:47 S|=@1:50 S^=@1:53 S->@1:56 S==@1:59 S!=@1:62 S<=@1:65 S>=@1:68 S<<@1:71 S>>@1:74 S&&@1:77 S||@1:80 S(@1:83 S)@1:85 S{@1:87 S}@1:89 S[@1:91 S]@1:93 S,@1:95 S;@1:97 S:@1:99 S#@1:101 S=@1:103 S+@1:105 S-@1:107 S*@1:109 S/@1:111 S%@1:113 S&@1:115 S|@1:117 S^@1:119 S<@1:121 S>@1:123 S!@1:125 E@1:126",
    ),
    (
        b">>s <<r >>r <=s >=s <s >s /s %s",
        "S>>s@1:1 S<<r@1:5 S>>r@1:9 S<=s@1:13 S>=s@1:17 S<s@1:21 S>s@1:24 S/s@1:27 S%s@1:30 E@1:32",
    ),
    (b"a<s b", "Ia@1:1 S<s@1:2 Ib@1:5 E@1:6"),
    (b"a<sb", "Ia@1:1 S<@1:2 Isb@1:3 E@1:5"),
    (b"a/s=b", "Ia@1:1 S/s=@1:2 Ib@1:5 E@1:6"),
    (b"a<<rb", "Ia@1:1 S<<@1:2 Irb@1:4 E@1:6"),
    (
        b"a>=s_ a>>s1 a%s%s",
        "Ia@1:1 S>=@1:2 Is_@1:4 Ia@1:7 S>>@1:8 Is1@1:10 Ia@1:13 S%s@1:14 S%s@1:16 E@1:18",
    ),
    (b"a>>>s=b", "Ia@1:1 S>>@1:2 S>s@1:4 S=@1:6 Ib@1:7 E@1:8"),
    (
        b"8u 16u 32u 64u 8s 16s 32s 64s",
        "C8u@1:1 C16u@1:4 C32u@1:8 C64u@1:12 C8s@1:16 C16s@1:19 C32s@1:23 C64s@1:27 E@1:30",
    ),
    (
        b"8ux (64u)64s8",
        "C8u@1:1 Ix@1:3 S(@1:5 C64u@1:6 S)@1:9 C64s@1:10 N8@1:13 E@1:14",
    ),
    (
        b"\"\"\"a\\\t\r\x00\xff'// /*\"x",
        "T[]@1:1 T[97, 92, 9, 13, 0, 255, 39, 47, 47, 32, 47, 42]@1:3 Ix@1:17 E@1:18",
    ),
    (b"a//", "Ia@1:1 E@1:4"),
    (
        b"// /* \xff\" \n a// b\r\n/ /",
        "Ia@2:2 S/@3:1 S/@3:3 E@3:4",
    ),
    (b"a/**/b", "Ia@1:1 Ib@1:6 E@1:7"),
    (b"/* /* */ a", "Ia@1:10 E@1:11"),
    (b"/*/*/a/***/b", "Ia@1:6 Ib@1:12 E@1:13"),
    (b"/**/*/", "S*@1:5 S/@1:6 E@1:7"),
    (
        b"a /* \" // \xc8\n*\n/ **/ b\n\t/**/c",
        "Ia@1:1 Ib@3:7 Ic@4:6 E@4:7",
    ),
];

#[test]
fn tells_tokens(rt: HostRuntime) -> Result<(), Fail> {
    let alloc = rt.alloc();
    for (text, want) in TOKENS.iter() {
        assert_eq!(rt; outcome(&rt, alloc, text)?.as_str(), *want);
    }
    Ok(())
}

/// Texts without tokens, each with its fault.
static FAULTS: [(&[u8], &str); 23] = [
    (b"0x", "bad number at 1:1"),
    (b"12ab", "bad number at 1:1"),
    (b"0x_1", "bad number at 1:1"),
    (b"0xfg", "bad number at 1:1"),
    (b"0X1", "bad number at 1:1"),
    (b"1_a", "bad number at 1:1"),
    (b"128u", "bad number at 1:1"),
    (b"8_u", "bad number at 1:1"),
    (b"016u", "bad number at 1:1"),
    (b"0x8u", "bad number at 1:1"),
    (b"8 8U", "bad number at 1:3"),
    (
        b"170141183460469231731687303715884105728",
        "bad number at 1:1",
    ),
    (b"0x80000000000000000000000000000000", "bad number at 1:1"),
    (
        b"340282366920938463463374607431768211456",
        "bad number at 1:1",
    ),
    (b"ab\n \xc8", "bad byte at 2:2"),
    (b"a.b", "bad byte at 1:2"),
    (b"x \"ab", "bad byte at 1:3"),
    (b"\"ab\nc\"", "bad byte at 1:1"),
    (b"\"", "bad byte at 1:1"),
    (b"/*/", "open comment at 1:1"),
    (b"/**", "open comment at 1:1"),
    (b"a\n/* * / \n//", "open comment at 2:1"),
    (b"1/*", "open comment at 1:2"),
];

#[test]
fn tells_faults(rt: HostRuntime) -> Result<(), Fail> {
    let alloc = rt.alloc();
    for (text, want) in FAULTS.iter() {
        assert_eq!(rt; outcome(&rt, alloc, text)?.as_str(), *want);
    }
    Ok(())
}

/// What the text of one byte begins with, as `outcome` tells it.
fn of_one_byte(byte: u8) -> &'static str {
    match byte {
        b'\t' | b'\n' | b'\r' | b' ' => "E@",
        b'a'..=b'z' | b'A'..=b'Z' => "I",
        b'_' => "K_@1:1",
        b'0'..=b'9' => "N",
        b'(' | b')' | b'{' | b'}' | b'[' | b']' | b',' | b';' | b':' | b'#' | b'=' => "S",
        b'+' | b'-' | b'*' | b'/' | b'%' | b'&' | b'|' | b'^' | b'<' | b'>' | b'!' => "S",
        _ => "bad byte at 1:1",
    }
}

#[test]
fn tells_each_byte(rt: HostRuntime) -> Result<(), Fail> {
    let alloc = rt.alloc();
    for byte in 0..=u8::MAX {
        let told = outcome(&rt, alloc, &[byte])?;
        assert!(rt; told.starts_with(of_one_byte(byte)), "{byte}: {told}");
    }
    Ok(())
}

/// How many tokens a piece has that is repeated, or its fault.
fn repeated(
    rt: &impl Abort,
    alloc: Global,
    piece: &[u8],
    times: usize,
) -> Result<usize, Failure<LexFault>> {
    let mut text = Vec::new(alloc);
    for _ in 0..times {
        text.extend_from_slice(piece)?;
    }
    assert!(rt; text.len() == 1_048_576);
    Ok(lex(alloc, text.as_slice())?.len())
}

fn open_at(col: u32) -> Result<usize, Failure<LexFault>> {
    Err(Failure::Refused(LexFault {
        kind: LexKind::OpenComment,
        span: Span { line: 1, col },
    }))
}

#[test]
fn takes_long_texts(rt: HostRuntime) -> Result<(), Fail> {
    let alloc = rt.alloc();
    for (piece, times, want) in [
        (b"a".as_slice(), 1_048_576, Ok(2)),
        (b"1 + ".as_slice(), 262_144, Ok(524_289)),
        (b"/**/".as_slice(), 262_144, Ok(1)),
        (b"/*  ".as_slice(), 262_144, open_at(1)),
        // Three of them are a comment and a sign.
        (b"/*".as_slice(), 524_288, open_at(1_048_573)),
    ] {
        assert!(rt; repeated(&rt, alloc, piece, times) == want);
    }
    Ok(())
}
