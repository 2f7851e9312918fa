//! Cells of register arrays at constant indices become scalars, each with the place that the cell
//! has, so no state changes: the indices alone are leaked no more.
#![tactic(auto)]

mod laws;

pub use laws::scalars_keep_runs;
