//! The operations of code, one after another, and after each the variables that are live, as
//! ordered lists: where few are live at once, they take little.
#![tactic(auto)]

mod flat;
mod followed;
mod lists;
mod tree;

pub use flat::flat_ops;
pub use followed::live_of;
pub use tree::live;
