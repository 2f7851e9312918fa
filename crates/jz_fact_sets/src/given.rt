//! What is given of a function: its constants, its parameters and its regions.

ghost use Rattle.std.specs.Prelude.{◌≡◌};
ghost use Rattle.jz_facts.specs.Facts.{hi_of};
ghost use Rattle.jz_fact_sets.specs.Kept.{start_of};

use jz_data::Seq;
use jz_intervals::{Constants, Interval, greatest_word};
use jz_tree::Var;
use x64_insn::Size;

/// A parameter, with the range and the alignment that its annotations state.
#[derive(Drop)]
pub struct Parameter {
    pub var: Var,
    pub size: Size,
    pub range: Option<Interval>,
    pub align: Option<u64>,
}

/// `times * by + plus` bytes from what the parameter `of` was.
#[derive(Drop)]
pub struct Region {
    pub of: Var,
    pub times: u64,
    pub by: Option<Var>,
    pub plus: u64,
}

/// What is given of a function.
#[derive(Drop)]
pub struct Given {
    /// What facts compare with.
    pub constants: Constants,
    pub params: Seq<Parameter>,
    pub regions: Seq<Region>,
}

impl Parameter {
    /// The end of its range, else the greatest word.
    pub fn hi(&self) -> u64
        ensures { result ≡ hi_of (start_of self.now) }
    {
        match self.range {
            None => greatest_word(self.size),
            Some(range) => range.hi,
        }
    }
}
