//! What is known of a run before it runs: facts on variables, what statements and tests do to them,
//! and the intervals of expressions.
#![tactic(auto)]

mod fact;
mod laws;

pub use fact::{Fact, entails, same_variable};
pub use laws::more_facts_give_more;
