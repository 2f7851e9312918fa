//! What rows of the pattern table and of intrinsics ask of the classes of results and operands. There
//! is no code here.
#![tactic(auto)]

mod laws;

pub use laws::rows_have_classes;
