//! The labels of a body, drawn: which come of which, and which have to be public.
#![tactic(auto)]

mod breach;
mod statements;

pub use breach::first_breach;
