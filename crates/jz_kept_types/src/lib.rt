//! What typing says of an expression and of an assignment stays where inline parts become their
//! values, and cells of register arrays words of their own. There is no code here.
#![tactic(auto)]

mod laws;

pub use laws::{assignments_stay_typed, bodies_stay_typed, expressions_keep_their_types};
