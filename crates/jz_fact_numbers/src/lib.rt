//! The constants that facts about a function speak of: the numbers of its text and those beside
//! them.
#![tactic(auto)]

mod around;

pub use around::constants_of;
