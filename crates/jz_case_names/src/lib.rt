//! The items of leaks with what is known of their statements; there is no code here.
#![tactic(auto)]
