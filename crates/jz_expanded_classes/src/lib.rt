//! Each statement and each test of the expansion of a typed text has the classes of a row. There is no
//! code here.
#![tactic(auto)]

mod laws;

pub use laws::expansions_are_classed;
