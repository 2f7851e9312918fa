//! That what `compile` makes of a text can be started on inputs of which its promises speak. There
//! is no code here that does anything.
#![tactic(auto)]

mod made;

pub use made::what_is_made_can_be_started;
