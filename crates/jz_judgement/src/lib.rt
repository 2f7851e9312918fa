//! Well typed, as a judgement of the rules.
#![tactic(auto)]

mod laws;

pub use laws::{
    calls_are_judged, expressions_are_judged, intrinsics_are_judged, programs_are_judged,
    statements_are_judged, values_are_judged,
};
