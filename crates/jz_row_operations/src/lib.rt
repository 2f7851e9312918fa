//! Which operations over variables each row of the pattern table has, and that they do what its
//! statement does; there is no code here.
#![tactic(auto)]

mod laws;

pub use laws::rows_keep_runs;
