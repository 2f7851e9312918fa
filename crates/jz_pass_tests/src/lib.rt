//! Passes tried on a small language: two rules for one statement, each a pass, and one after the
//! other.
#![tactic(auto)]

mod add_nothing;
mod halves;
mod small;

pub use add_nothing::AddNothing;
pub use halves::Halves;
pub use small::{
    Small, SmallLanguage, Unknown, first_of, form_of, no_operation, same_choice, second_of,
};

#[cfg(test)]
mod pass_tests;
