//! Typed bodies that the expansion leaves are of the forms that facts and conditions ask. There is no
//! code here.
#![tactic(auto)]

mod laws;

pub use laws::bodies_are_fine;
