//! What a line of a listing says.

use jz_io::{Bytes, Ct};
use jz_leak::{Seq, Text, Transformer};
use jz_listing::{Arg, Pre};
use x64_insn::Reg;

/// A line of a listing.
#[derive(Drop)]
pub enum Line {
    /// The first line of all.
    First,
    /// The name of a function, whose first line it is.
    Fn(Text),
    /// A parameter.
    Arg(Arg),
    /// A result.
    Ret(Arg),
    /// A precondition.
    Pre(Pre),
    /// How many bytes the stack frame has.
    Frame(u64),
    /// The preserved registers that are saved.
    Saved(Seq<Reg>),
    /// How many instructions the code has.
    Insns(u64),
    /// The code.
    Code(Bytes),
    /// The transformer.
    Leakage(Transformer),
    /// Whether the function is constant time.
    Ct(Ct),
    /// The last line of a function.
    End,
}
