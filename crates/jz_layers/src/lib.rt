//! Tables of variables in layers: what arms and loops change lies over what was there before them.
#![tactic(auto)]

mod layers;
mod named;

pub use layers::Layers;
pub use named::Named;
