//! Whole routines of the language, each of which reads.

use jz_lex::lex;
use jz_parse::parse;
use std::alloc::Global;
use std::process::Abort;
use std::test::Fail;

const ROUTINES: [&str; 22] = [
    // a sum
    "export fn add(reg u64 x, reg u64 y) -> reg u64 { reg u64 r; r = x; r += y; return r; }\n",
    // a slot of the frame
    "export fn slot(reg u64 x) -> reg u64 { stack u64 s; reg u64 r; s = x; r = s; return r; }\n",
    // carries
    "export fn add2x(reg u64 a b c d) -> reg u64, reg u64 {\n  reg u64 x y;\n  reg bool cf;\n  x = a;\n  cf, x += c;\n  x ^= a;\n  y = b;\n  cf, y += d + cf;\n  return x, y;\n}\n",
    // register arrays
    "export fn s15() -> reg u64 { reg u64[15] a; reg u64 r; inline int i; for i = 0 to 15 { a[i] = i + 1; } for i = 1 to 15 { a[0] += a[i]; } r = a[0]; return r; }\n",
    // a stack array
    "export fn sum8(reg u64 x i) -> reg u64 {\n  stack u64[8] s;\n  reg u64 r;\n  inline int k;\n  for k = 0 to 8 { s[k] = x; }\n  r = 0; i = 0;\n  while (i < 8) {\n    r += s[i];\n    i += 1;\n  }\n  return r;\n}\n",
    // annotations
    "#[region=\"p: 8*len\"]\n#[range=\"len: 0..1024\"]\n#[align=\"p: 8\"]\nexport fn tot(#public reg u64 p, #public reg u64 len, reg u64 i) -> reg u64 {\n  reg u64 r;\n  r = 0; i = 0;\n  while (i < len) {\n    r += [p + 8*i];\n    i += 1;\n  }\n  return r;\n}\n",
    // a quotient
    "#[range=\"y: 1..9\"]\nexport fn quo(#public reg u64 x y) -> reg u64 {\n  reg u64 q;\n  q = x / y;\n  return q;\n}\n",
    // a secret
    "export fn z(#secret reg u64 s) -> reg u64 {\n  reg u64 r t;\n  r = 1; t = 0;\n  if (s == 0) { r = t; }\n  return r;\n}\n",
    // a move on a condition
    "export fn z(#secret reg u64 s) -> reg u64 {\n  reg u64 r t;\n  r = 1; t = 0;\n  r = t if s == 0;\n  return r;\n}\n",
    // no end
    "export fn spin() { while (true) { } }\n",
    // downwards
    "export fn down() -> reg u64 {\n  reg u64[4] a;\n  reg u64 r;\n  inline int i;\n  for i = 4 downto 0 { a[i] = i; }\n  r = 0;\n  for i = 4 downto 0 { r += a[i]; }\n  return r;\n}\n",
    // a shift by a masked count
    "export fn sh(reg u64 x y z w) -> reg u64 {\n  reg u64 r;\n  reg u8 c;\n  r = x;\n  c = (8u)y;\n  r <<= c & 63;\n  r += w;\n  return r;\n}\n",
    // an extension
    "export fn lowb(reg u8 b) -> reg u64 { reg u64 r; r = (64u)b; return r; }\n",
    // calls
    "inline fn inc(reg u64 x) -> reg u64 { x += 1; return x; }\nexport fn two(reg u64 a) -> reg u64 { reg u64 r; r = inc(a); r = inc(r); return r; }\n",
    // inline arguments
    "inline fn g(inline int i) -> reg u64 { reg u64 r; if (i == 0) { r = 1; } return r; }\nexport fn h() -> reg u64 { reg u64 x; inline int k; for k = 0 to 2 { x = g(k); } return x; }\n",
    // a product of two words
    "export fn mh(reg u64 x, reg u64 y) -> reg u64, reg u64 { reg u64 h l; h, l = x * y; return l, h; }\n",
    // an intrinsic
    "export fn mx(reg u64 a b d) -> reg u64, reg u64 { reg u64 h l; h, l = #MULX(d, a); return l, h; }\n",
    // an intrinsic with a size
    "export fn i(reg u64 a b) -> reg u64 { reg u64 r; _, _, _, _, _, r = #ADD_64(a, b); return r; }\n",
    // accesses with sizes
    "export fn m(reg u64 p e) -> reg u64 { reg u64 x; x = [:u64 p + e]; x += (u64)[p + e]; [p + e] = x; return x; }\n",
    // a test behind its body
    "export fn w(reg u64 c) { while { c -= 1; } (c != 0) while { } (c == 1); }\n",
    // a constant
    "param int n = 3 + 4 * 2;\nexport fn c() -> reg u64 { reg u64 r; r = n; return (r); }\n",
    // a generated loop
    "export fn main(reg u64 x1 x2 x3 c) -> reg u64 {\n  reg u64 x0;\n  stack u64[8] s;\n  inline int m;\n  x0 = 1;\n  for m = 0 to 8 { s[m] = m; }\n  c = 0;\n  while (c < 2) {\n    x0 += x1;\n    x1 -= s[3];\n    x2 ^= x3;\n    s[7] = x0;\n    x3 *= x1;\n    x2 <<r= 5;\n    if (x1 < x2) { x1 -= 1; }\n    c += 1;\n  }\n  x0 ^= x1;\n  return x0;\n}\n",
];

fn reads(rt: &impl Abort, alloc: Global, text: &str) -> Result<bool, Fail> {
    assert!(rt; text.len() < 1000);
    let tokens = lex(alloc, text.as_bytes())
        .ok()
        .ok_or("the text has no tokens")?;
    Ok(parse(alloc, &tokens).is_ok())
}

#[test]
fn reads_routines(rt: HostRuntime) -> Result<(), Fail> {
    let alloc = rt.alloc();
    for text in ROUTINES {
        assert!(rt; reads(&rt, alloc, text)?);
    }
    Ok(())
}
