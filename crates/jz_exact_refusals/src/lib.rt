//! That refusals of expansions are exact: what has operations is refused at no place. There is no
//! code here.
#![tactic(auto)]

mod laws;

pub use laws::what_is_compiled_is_not_refused;
