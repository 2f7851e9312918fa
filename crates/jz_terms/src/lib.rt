//! Expressions as terms: without their declarations, with each variable as it is meant. What is
//! known of an expression before it runs is read from its term. There is no code here.
#![tactic(auto)]

mod laws;

pub use laws::expressions_mean_what_their_terms_do;
