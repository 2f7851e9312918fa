//! Functions whose expansions are constant time leak the same. There is no code here.
#![tactic(auto)]

mod laws;

pub use laws::functions_leak_the_same;
