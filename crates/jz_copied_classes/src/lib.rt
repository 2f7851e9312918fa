//! Each statement of a typed text that needs a row has the classes of one, in the copies of bodies that
//! calls become too. There is no code here.
#![tactic(auto)]

mod laws;

pub use laws::copies_have_classes;
