//! Which variables the items of leaks name; there is no code here.
#![tactic(auto)]

mod laws;

pub use laws::{copies_name_the_same, names_are_composed};
