//! Where calls have become copies and loops their rounds, the statements are as the rule of
//! register arrays as scalars asks, by the kinds that the functions declare. There is no code here.
#![tactic(auto)]

mod laws;

pub use laws::unrolled_bodies_are_ready;
