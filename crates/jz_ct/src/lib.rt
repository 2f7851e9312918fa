//! Constant time: whether an expanded function has labels that meet the rules, or its first breach.
#![tactic(auto)]

mod breach;
mod judging;

pub use breach::{Breach, Secret};
pub use judging::{Ct, judge};
pub use jz_one_expansion::Expanded;
pub use jz_required::Reason;
