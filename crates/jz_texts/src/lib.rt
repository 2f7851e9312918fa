//! What a program has that was read from a text, and what typing adds to it: no variable is a copy
//! or a cell, names differ, and each variable that is used is declared. There is no code here.
#![tactic(auto)]

mod laws;

pub use laws::{
    names_of_typed_programs, texts_are_read, texts_stay_resolved, typed_programs_are_well_typed,
};
