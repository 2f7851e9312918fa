//! Each assignment of the expansion of a typed text has a row of the pattern table. There is no
//! code here.
#![tactic(auto)]

mod laws;

pub use laws::expansions_have_patterns;
