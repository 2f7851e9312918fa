//! What is listed of a compiled function.

use jz_io::{Bytes, Ct};
use jz_leak::{Seq, Text, Transformer};
use x64_insn::{Reg, Size};

/// A parameter or a result, and the register that holds it in its low bits.
#[derive(Drop)]
pub struct Arg {
    pub name: Text,
    pub size: Size,
    pub reg: Reg,
}

/// A precondition of a function.
#[derive(Drop)]
pub enum Pre {
    /// From the parameter on, `factor * variable + constant` bytes are valid; without a variable
    /// `constant` bytes.
    Region {
        pointer: Text,
        factor: u64,
        variable: Option<Text>,
        constant: u64,
    },
    /// The parameter lies between two numbers, both included.
    Range {
        name: Text,
        low: u64,
        high: u64,
    },
    /// The parameter is a multiple of a number.
    Align {
        pointer: Text,
        multiple: u64,
    },
}

/// A compiled export function: what a caller has to know, its bytes and its transformer.
#[derive(Drop)]
pub struct Compiled {
    pub name: Text,
    pub args: Seq<Arg>,
    pub rets: Seq<Arg>,
    pub pre: Seq<Pre>,
    /// How many bytes the stack frame has.
    pub frame: u64,
    /// The preserved registers that it saves.
    pub saved: Seq<Reg>,
    /// How many instructions the code has.
    pub insns: u64,
    pub code: Bytes,
    pub tr: Transformer,
    pub ct: Ct,
}
