//! What a listing says of a function about constant time.
#![tactic(auto)]

mod saying;

pub use saying::said;
