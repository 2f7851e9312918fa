//! That what `compile` makes of a text can be listed, so that two such lists have two texts. The
//! code looks at numbers alone and gives nothing.
#![tactic(auto)]

mod made;

pub use made::what_is_made_can_be_listed;
