//! Single statements, and what typing tells of each: what breaks one rule alone beside what just
//! keeps it.

use crate::typing_tests::{row_is, rows_are};
use std::alloc::Global;
use std::process::Abort;
use std::test::Fail;

/// Each statement is the last of a function with these declarations, on its second line.
const HEAD: &str = "\
param int N = 4; inline fn h(reg u64 a) -> reg u64 { return a; } \
export fn f(reg u64 x y, reg u32 w, reg u8 k) { reg u64 r q; reg bool c b; \
stack u64[8] s; reg u64[8] g; inline int i j; i = 1; j = 2;~";

/// A bool in an operand, an index or an address.
const BOOLS: &str = "\
r = 3 + true; } => type 6 NoInstruction 2:1
r = 3 - true; } => type 6 NoInstruction 2:1
r = 3 + 1; } => typed
r = 3 + (1 < 2); } => type 6 NoInstruction 2:1
r = 3 + (x < y); } => type 6 NoInstruction 2:1
r = 3 + (true && false); } => type 6 NoInstruction 2:1
r = 3 + c; } => type 6 NoInstruction 2:1
r = x + c; } => type 6 NoInstruction 2:1
r = x + true; } => type 6 NoInstruction 2:1
r = x + 1 + true; } => type 6 NoInstruction 2:1
r = x + (1 + true); } => type 6 NoInstruction 2:1
r = x + (1 + c); } => type 6 NoInstruction 2:1
r = x + 1 + c; } => typed
r = 1 + 2 + c; } => type 6 NoInstruction 2:1
r += true; } => type 6 NoInstruction 2:1
r -= true; } => type 6 NoInstruction 2:1
r += c; } => type 6 NoInstruction 2:1
r += 3 + true; } => type 6 NoInstruction 2:1
r += 1 + c; } => typed
r -= x - c; } => typed
r += 1 - c; } => type 6 NoInstruction 2:1
r -= 1 + c; } => type 6 NoInstruction 2:1
r &= true; } => type 3 Mismatch 2:6
r = true; } => type 3 Mismatch 2:5
r = true + 3; } => type 3 Mismatch 2:5
r = 3 * true; } => type 3 Mismatch 2:9
r = 1 << 3 + true; } => type 6 NoInstruction 2:1
r = x << 3 + true; } => type 6 NoInstruction 2:1
r = 1 << true; } => type 3 Mismatch 2:10
r = 1 << 3; } => typed
r = [x + true]; } => type 6 NoInstruction 2:1
r = [x + 8]; } => typed
r = [true + x]; } => type 3 Mismatch 2:6
r = [x + 8 * true]; } => type 3 Mismatch 2:14
r = [3 + true]; } => type 6 NoInstruction 2:1
[3 + true] = x; } => type 6 NoInstruction 2:1
r = s[x + true]; } => type 6 NoInstruction 2:1
r = s[x - true]; } => type 6 NoInstruction 2:1
r = s[x + 1]; } => typed
r = s[true]; } => type 3 Mismatch 2:7
r = s[3 + true]; } => type 6 NoInstruction 2:1
s[3 + true] = x; } => type 6 NoInstruction 2:1
r = g[3 + true]; } => type 10 RegIndex 2:7
g[3 + true] = x; } => type 10 RegIndex 2:3
r = g[x + true]; } => type 10 RegIndex 2:7
r = g[true]; } => type 3 Mismatch 2:7
if (r < 3 + true) { } } => type 6 NoInstruction 2:1
while (r < 3 + true) { } } => type 6 NoInstruction 2:1
if (3 + true < r) { } } => type 6 NoInstruction 2:1
if (r < 3) { } } => typed
if (r < true) { } } => type 3 Mismatch 2:9
r = x if r < 3 + true; } => type 6 NoInstruction 2:1
r = h(3 + true); } => type 6 NoInstruction 2:1
_ = h(3 + true); } => type 6 NoInstruction 2:1
r = h(3); } => typed
r = h(true); } => type 3 Mismatch 2:7
";

/// Conditions, and what inline variables take.
const CONDITIONS: &str = "\
if (true) { } } => typed
if (1 < 2 && true) { } } => typed
if (!(i == 1) || N < 3) { } } => typed
while (i < 1) { } } => typed
if (x < y && true) { } } => type 6 NoInstruction 2:1
if (true && c) { } } => type 6 NoInstruction 2:1
if (!c) { } } => typed
if (!(x < y)) { } } => typed
r = x if true; } => type 6 NoInstruction 2:1
r = x if i == 1; } => type 6 NoInstruction 2:1
r = x if !c; } => typed
r = 3 if c; } => type 6 NoInstruction 2:1
r += 1 if c; } => type 6 NoInstruction 2:1
i = 3 if i == 1; } => typed
i = 3 if x < y; } => type 6 NoInstruction 2:1
i = 1 + true; } => type 3 Mismatch 2:9
i = x; } => type 3 Mismatch 2:5
i = 1 + x; } => type 3 Mismatch 2:9
i = s[0]; } => type 3 Mismatch 2:5
i = [x]; } => type 3 Mismatch 2:5
for i = 0 to x { } } => type 3 Mismatch 2:14
for i = 0 to 3 + true { } } => type 3 Mismatch 2:18
if (x) { } } => type 3 Mismatch 2:5
if (!x) { } } => type 3 Mismatch 2:6
if (!i) { } } => type 3 Mismatch 2:6
if (-x) { } } => type 3 Mismatch 2:5
while (!x) { } } => type 3 Mismatch 2:9
";

/// Destinations that stand among the operands, and accesses that are one.
const CELLS: &str = "\
g[2] = g[1 + 1] - x; } => typed
g[2] = x - g[1 + 1]; } => type 6 NoInstruction 2:1
g[2] = x - g[N - 2]; } => type 6 NoInstruction 2:1
g[2] = g[N - 2] - x; } => typed
g[2] = x - g[N - 1]; } => typed
g[1 + 1] = x - g[3]; } => typed
g[N - 2] = x - g[2 * 1]; } => type 6 NoInstruction 2:1
g[i] = x - g[i]; } => type 6 NoInstruction 2:1
g[i] = g[i] - x; } => typed
g[2] = g[i] - g[i]; } => typed
g[2] = g[i] - g[j]; } => type 6 NoInstruction 2:1
g[2] = g[i] + g[j]; } => typed
g[0] = x + g[i]; } => typed
g[0] = x - g[i]; } => type 6 NoInstruction 2:1
g[i] = x - g[0]; } => type 6 NoInstruction 2:1
g[i] = g[0] - g[0]; } => typed
g[i] = g[0] - g[1]; } => type 6 NoInstruction 2:1
g[i] = g[i] - g[0]; } => typed
g[i + 1] = x - g[i + 1]; } => type 6 NoInstruction 2:1
g[i + 1] = x - g[1 + i]; } => type 6 NoInstruction 2:1
g[i + 1] = g[1 + i] - x; } => typed
g[i + 1] = g[1 + i] - g[1 + i]; } => typed
g[2] = x / g[i]; } => type 6 NoInstruction 2:1
g[2] = x / g[3]; } => typed
g[2] = g[i] / x; } => typed
g[2] = g[i] * g[i]; } => typed
g[2] = g[i] & g[j]; } => typed
g[2] = g[i] + g[j] + c; } => typed
g[2] = g[i] - g[j] - c; } => type 6 NoInstruction 2:1
g[2] = g[i] - g[i] - c; } => typed
q, g[2] = g[i] * g[j]; } => typed
q, g[2] = 3 * g[i]; } => type 6 NoInstruction 2:1
s[1 + 1] = s[2] + x; } => typed
s[1 + 1] = s[3] + x; } => type 6 NoInstruction 2:1
s[N - 2] = s[2] - x; } => typed
s[i] = s[i] + x; } => typed
s[i] = s[j] + x; } => type 6 NoInstruction 2:1
s[i + 1] = s[1 + i] + x; } => type 6 NoInstruction 2:1
s[x] = s[x] + y; } => typed
s[x + 1] = s[1 + x] + y; } => type 6 NoInstruction 2:1
s[2] = s[1 + 1]; } => type 6 NoInstruction 2:1
s[2] = s[3]; } => type 6 NoInstruction 2:1
[x + 8] = [x + 8] + y; } => typed
[x + 8] = [8 + x] + y; } => type 6 NoInstruction 2:1
[x + 8] = [x + 2 * 4] + y; } => type 6 NoInstruction 2:1
(u64)[x] = [x] + y; } => typed
r = [r] - x; } => typed
r = [r] + r; } => typed
r = [r] - r; } => type 6 NoInstruction 2:1
r = x + s[r]; } => type 6 NoInstruction 2:1
r = x / s[r]; } => type 6 NoInstruction 2:1
";

/// Sizes that are missing, and what integers have not.
const SIZES: &str = "\
_, _, _, _, _ = #CMP([x], x); } => type 3 Mismatch 2:22
_, _, _, _, _ = #CMP_64([x], x); } => typed
_, _, _, _, _ = #CMP([:u64 x], x); } => typed
_, _, _, _, _ = #CMP(x, y); } => typed
_, _, _, _, _ = #CMP(x, [x]); } => type 6 NoInstruction 2:1
r = #NOT([x]); } => typed
[x] = #NOT(y); } => type 6 NoInstruction 2:1
k = #SETcc(x < y); } => typed
k = #SETcc(!c); } => typed
k = #SETcc_8(x < y); } => typed
k = #SETcc_16(x < y); } => type 6 NoInstruction 2:1
k = #SETcc(i == 1); } => type 6 NoInstruction 2:1
k = #SETcc(true); } => type 6 NoInstruction 2:1
k = #SETcc(x); } => type 3 Mismatch 2:12
r = #SETcc(c); } => type 3 Mismatch 2:5
_ <<= k & 63; } => type 6 NoInstruction 2:1
_ <<= x; } => type 3 Mismatch 2:7
_ = 1 + true; } => type 6 NoInstruction 2:1
_ = 1 * true; } => type 3 Mismatch 2:9
_ = x; } => type 6 NoInstruction 2:1
_ = [x]; } => type 3 Mismatch 2:5
_ = [:u64 x]; } => type 6 NoInstruction 2:1
_ = x + w; } => type 3 Mismatch 2:9
_ += x; } => type 6 NoInstruction 2:1
r = (64u)3; } => type 3 Mismatch 2:10
r = (64u)(i + 1); } => type 3 Mismatch 2:11
r = (64u)w; } => typed
r = (64u)[x]; } => type 3 Mismatch 2:10
r = (64u)[:u32 x]; } => typed
r = 3 <<r 1; } => type 3 Mismatch 2:5
r = x <<r 1; } => typed
r = (i + 2) >>s 1; } => type 3 Mismatch 2:6
r = 6 /s 2; } => type 3 Mismatch 2:5
r = 6 / 2; } => typed
r = 6 /s x; } => typed
i = 6 /s 2; } => type 3 Mismatch 2:5
i = 3 <<r 1; } => type 3 Mismatch 2:5
r = s[3 /s 1]; } => type 3 Mismatch 2:7
if (3 <s r) { } } => type 6 NoInstruction 2:1
if (r <s 3) { } } => typed
[x + w] = y; } => type 3 Mismatch 2:6
";

/// Several left sides, and accesses without a size.
const SIDES: &str = "\
c, r = x + y; } => typed
_, r = x - y; } => typed
q, r = x + y; } => type 3 Mismatch 2:8
w, r = x + y; } => type 3 Mismatch 2:8
c, b, r = x + y; } => type 3 Mismatch 2:11
c, r = x & y; } => type 6 NoInstruction 2:1
q, r = x & y; } => type 3 Mismatch 2:8
q, r = x * y; } => typed
c, r = x * y; } => type 3 Mismatch 2:8
w, r = x * y; } => type 3 Mismatch 2:8
c, r += y; } => typed
q, r += y; } => type 3 Mismatch 2:9
q, r *= y; } => typed
c, r *= y; } => type 3 Mismatch 2:9
c, _ = x + y; } => type 6 NoInstruction 2:1
c, r = x + y + c; } => typed
[x] = 3; } => type 3 Mismatch 2:1
[x] = y; } => typed
if ([x] == 3) { } } => type 3 Mismatch 2:5
if (3 == [x]) { } } => type 3 Mismatch 2:10
if ([x] == y) { } } => typed
r = s[[x]]; } => type 3 Mismatch 2:7
r = [[x]]; } => type 3 Mismatch 2:6
r = [x + [y]]; } => type 3 Mismatch 2:10
";

/// Counts, products, quotients and flags.
const COUNTS: &str = "\
r <<= k & 63; } => typed
r <<= k & 31; } => type 6 NoInstruction 2:1
r <<= k & (64 - 1); } => typed
r <<= 63 & k; } => type 6 NoInstruction 2:1
r <<= k & i; } => type 6 NoInstruction 2:1
r <<= k; } => type 6 NoInstruction 2:1
r <<= w; } => type 3 Mismatch 2:7
r <<= 64; } => typed
r = 3 << (k & 63); } => typed
r = 3 >>r (k & 63); } => typed
r = (64u)(3 << (k & 63)); } => type 3 Mismatch 2:11
w <<= k & 31; } => typed
w <<= k & 63; } => type 6 NoInstruction 2:1
k <<= k & 31; } => typed
k = 3 << (k & 31); } => type 6 NoInstruction 2:1
s[0] <<= 3; } => typed
s[0] = x << 3; } => type 6 NoInstruction 2:1
r = x << (r & 63); } => type 3 Mismatch 2:11
r = 3 * r; } => type 6 NoInstruction 2:1
r = 3 * x; } => typed
r = r * 3; } => typed
r = i * j; } => typed
k *= 3; } => type 6 NoInstruction 2:1
k = k * k; } => type 6 NoInstruction 2:1
s[0] *= 3; } => type 6 NoInstruction 2:1
s[0] = x * y; } => type 6 NoInstruction 2:1
r = x / 3; } => type 6 NoInstruction 2:1
r = 3 / x; } => typed
r = x / r; } => type 6 NoInstruction 2:1
r /= x; } => typed
r /= r; } => type 6 NoInstruction 2:1
r %s= s[r]; } => type 6 NoInstruction 2:1
k /= k; } => type 6 NoInstruction 2:1
q, r = x * 3; } => type 6 NoInstruction 2:1
q, r = 3 * r; } => type 6 NoInstruction 2:1
q, r = 3 * x; } => typed
q, r = x * [r]; } => type 6 NoInstruction 2:1
q, r = r * [r]; } => typed
q, r = [r] * r; } => typed
_, r = x * y; } => typed
q, _ = x * y; } => typed
_, k = k * k; } => type 6 NoInstruction 2:1
q, s[0] = x * y; } => type 6 NoInstruction 2:1
r = x - y - c; } => typed
r = x + y - c; } => type 6 NoInstruction 2:1
c, r -= y - c; } => typed
r = -c; } => type 3 Mismatch 2:6
r = !c; } => type 3 Mismatch 2:6
r = !i; } => typed
";

/// Copies, casts, addresses and instructions by name.
const MOVES: &str = "\
s[0] = x; } => typed
s[0] = 3; } => typed
s[0] = [x]; } => type 6 NoInstruction 2:1
[x] = s[0]; } => type 6 NoInstruction 2:1
s[0] = x + y; } => type 6 NoInstruction 2:1
s[0] = s[0] + s[1]; } => type 6 NoInstruction 2:1
s[0] = -x; } => type 6 NoInstruction 2:1
s[0] = -s[0]; } => typed
s[0] = x if c; } => type 6 NoInstruction 2:1
k = k if c; } => type 6 NoInstruction 2:1
r = s[0] if c; } => typed
w = (32u)x; } => typed
w = (32u)s[0]; } => type 6 NoInstruction 2:1
w = (32u)[:u64 x]; } => type 6 NoInstruction 2:1
w = (32u)k; } => typed
r = (64u)x; } => typed
r = (64s)w; } => typed
r = (64s)x; } => type 6 NoInstruction 2:1
r = (64u)(w + 1); } => type 6 NoInstruction 2:1
s[0] = (64u)w; } => type 6 NoInstruction 2:1
r = (32u)x; } => type 3 Mismatch 2:5
r = [3]; } => type 6 NoInstruction 2:1
r = [2 * x]; } => type 6 NoInstruction 2:1
r = [x + y]; } => typed
r = [x + 2 * y]; } => typed
r = [x + i * y]; } => typed
r = [x + y + 2 * q]; } => type 6 NoInstruction 2:1
r = [x + (8 * y - 8)]; } => typed
r = [x - (8 - i)]; } => typed
r = [x - (8 - 8 * y)]; } => type 6 NoInstruction 2:1
r = [8 - x]; } => type 6 NoInstruction 2:1
r = [x - y]; } => type 6 NoInstruction 2:1
r = [x << 3]; } => type 6 NoInstruction 2:1
r = [g[1] + 8]; } => typed
r = [w + 8]; } => type 3 Mismatch 2:6
r = s[2 * x]; } => type 6 NoInstruction 2:1
r = s[x + y]; } => type 6 NoInstruction 2:1
r = s[x + 1]; } => typed
r = #LEA(2 * x + 8); } => typed
r = #LEA(2 * x + 2 * y); } => type 6 NoInstruction 2:1
w = #LEA(x); } => type 6 NoInstruction 2:1
if (3 < x) { } } => type 6 NoInstruction 2:1
if (s[0] < [x]) { } } => type 6 NoInstruction 2:1
if (s[0] < x) { } } => typed
if (x < y + 1) { } } => type 6 NoInstruction 2:1
if (c == b) { } } => type 3 Mismatch 2:5
_, _, _, _, _, r = #ADD(1, 2); } => typed
_, _, _, _, _, _ = #ADD(x, y); } => type 6 NoInstruction 2:1
_, _, _, _, _, r = #SUB(x, r); } => type 6 NoInstruction 2:1
_, _, _, _, _, r = #ADC(x, y, true); } => type 6 NoInstruction 2:1
_, _, _, _, _, r, q = #DIV(r, x, y); } => type 6 NoInstruction 2:1
_, _, _, _, _, r, q = #DIV(x, r, y); } => typed
_, _, _, _, _, q, r = #DIV(r, x, y); } => typed
r = #BSWAP_32(x); } => type 3 Mismatch 2:5
w = #BSWAP(w); } => typed
k = #BSWAP(k); } => type 6 NoInstruction 2:1
";

/// Constants, their uses, and calls in a circle.
const CONSTANTS: &str = "\
param int N = N; export fn f() { } => type 1 Unknown 1:15
param int N = 1 + N; export fn f() { } => type 1 Unknown 1:19
param int M = 2; param int N = M + 1; export fn f() { } => typed
param int N = M; param int M = 2; export fn f() { } => type 1 Unknown 1:15
param int N = 1; param int N = N; export fn f() { } => type 2 Duplicate 1:28
param int N = 4; export fn f() -> reg u64 { reg u64 r; r = N; reg u64 N; N = 1; return r; } => typed
export fn f() -> reg u64 { reg u64 r; r = N; reg u64 N; return r; } param int N = 4; => type 1 Unknown 1:43
param int N = 4; export fn f() -> reg u64 { reg u64 r N; N = 1; r = N; return r; } => typed
param int N = 4; export fn f(reg u64 x) { N = 1; reg u64 N; } => type 1 Unknown 1:43
param int N = 4; export fn f(reg u64 x) -> reg u64 { reg u64 r; r = N[3]; return r; } => type 1 Unknown 1:69
param int N = 4; export fn f(reg u64 x) { N[3] = x; } => type 1 Unknown 1:43
param int N = 4; export fn f(reg u64 x) { for N = 0 to 3 { } } => type 1 Unknown 1:47
param int N = 4; export fn f(reg u64 x) -> reg u64 { return N; } => type 1 Unknown 1:61
param int N = 4; export fn f(reg u64 x) -> reg u64 { reg u64 N; N = x; return N; } => typed
param int N = 2; export fn f(reg u64 x) { stack u64[N] s; s[0] = x; } => typed
param int N = 2; export fn f(reg u64 x) { reg u64 N; stack u64[N] s; s[0] = x; } => type 3 Mismatch 1:64
param int N = 2; export fn f(reg u64 x) { stack u64[N] s; reg u64 N; s[1] = x; } => typed
export fn f(reg u64 x) { reg u64 r; r = f; } => type 1 Unknown 1:41
param int g = 1; export fn f(reg u64 x) { g(x); } => type 1 Unknown 1:43
inline fn a() { a(); } => type 5 Recursion 1:11
inline fn a() { b(); } inline fn b() { c(); } inline fn c() { b(); } => type 5 Recursion 1:34
export fn f() { g(); } inline fn g() { h(); } inline fn h() { k(); } inline fn k() { h(); g(); } => type 5 Recursion 1:34
export fn f() { g(); } inline fn g() { h(); } inline fn h() { k(); } inline fn k() { } => typed
inline fn a(reg u64 x) { b(y); } inline fn b(reg u64 x) { b(x); } => type 1 Unknown 1:28
inline fn b(reg u64 x) { _ = b(x); } => type 5 Recursion 1:11
";

/// Inline variables, arrays and results.
const CALLS: &str = "\
export fn f(reg u64 x) { inline int i j; j = 1; i = 3 if j == 1; } => type 4 Storage 1:49
export fn f(reg u64 x) { inline int i j; j = 1; i = 2; i = 3 if j == 1; } => typed
export fn f() -> reg u64 { reg u64 r; inline int i; i = 1; for i = 0 to 3 { } r = i; return r; } => typed
inline fn g(stack u64[2] a) -> reg u64 { reg u64 r; r = a[0]; return r; } export fn f(reg u64 x) -> reg u64 { reg u64 r; reg u64[2] b; b[0] = x; r = g(b); return r; } => type 3 Mismatch 1:152
inline fn g(stack u64[2] a) -> reg u64 { reg u64 r; r = a[0]; return r; } export fn f(reg u64 x) -> reg u64 { reg u64 r; stack u64[1 + 1] b; b[0] = x; r = g(b); return r; } => typed
inline fn g(reg u64 x) -> reg u64 { stack u64 s; s = x; return s; } export fn f() { } => type 3 Mismatch 1:64
inline fn g(reg u64 x) -> stack u64 { stack u64 s; s = x; return s; } export fn f(reg u64 x) -> reg u64 { reg u64 r; r = g(x); return r; } => typed
inline fn g(reg u64 x) -> stack u64 { stack u64 s; s = x; return s; } export fn f(reg u64 x) { stack u64 t; t = g(x); } => type 6 NoInstruction 1:109
inline fn g(reg u64 x) -> reg u64 { return x; } export fn f(reg u64 x) -> reg u64 { reg u64 r; reg u64[2] a; a[0] = x; r = g(a); return r; } => type 3 Mismatch 1:126
inline fn g(stack u64[2] a) -> stack u64[2] { a[0] = 1; return a; } export fn f() { stack u64[2] b; _ = g(b); } => type 7 ArrayCopy 1:107
inline fn g(stack u64[2] a) -> stack u64[2] { return a; } export fn f() { stack u64[2] b; _ = g(b); } => typed
export fn f(reg u64 x) { reg u64[2] a; a[0], a[1] = x * x; } => typed
";

fn statement_is(rt: &impl Abort, alloc: Global, row: &str) -> Result<(), Fail> {
    let mut whole = String::from_str(alloc, HEAD)?;
    whole.push_str(row)?;
    row_is(rt, alloc, whole.as_str())
}

fn statements_are(rt: &impl Abort, alloc: Global, rows: &str) -> Result<(), Fail> {
    for row in rows.lines() {
        statement_is(rt, alloc, row)?;
    }
    Ok(())
}

#[test]
fn bools_are_no_operands(rt: HostRuntime) -> Result<(), Fail> {
    statements_are(&rt, rt.alloc(), BOOLS)
}

#[test]
fn inline_conditions_stay(rt: HostRuntime) -> Result<(), Fail> {
    statements_are(&rt, rt.alloc(), CONDITIONS)
}

#[test]
fn cells_are_told_apart_by_value(rt: HostRuntime) -> Result<(), Fail> {
    statements_are(&rt, rt.alloc(), CELLS)
}

#[test]
fn sizes_come_from_somewhere(rt: HostRuntime) -> Result<(), Fail> {
    statements_are(&rt, rt.alloc(), SIZES)
}

#[test]
fn several_left_sides(rt: HostRuntime) -> Result<(), Fail> {
    statements_are(&rt, rt.alloc(), SIDES)
}

#[test]
fn counts_products_and_quotients(rt: HostRuntime) -> Result<(), Fail> {
    statements_are(&rt, rt.alloc(), COUNTS)
}

#[test]
fn copies_casts_and_addresses(rt: HostRuntime) -> Result<(), Fail> {
    statements_are(&rt, rt.alloc(), MOVES)
}

#[test]
fn constants_and_circles(rt: HostRuntime) -> Result<(), Fail> {
    rows_are(&rt, rt.alloc(), CONSTANTS)
}

#[test]
fn inline_variables_arrays_and_results(rt: HostRuntime) -> Result<(), Fail> {
    rows_are(&rt, rt.alloc(), CALLS)
}
