//! Functions over variables: how they begin and end, and what the placing of their variables asks
//! of them; there is no code here.
#![tactic(auto)]

mod laws;

pub use laws::{bodies_are_sorted, entries_are_related, functions_are_ready, results_are_there};
