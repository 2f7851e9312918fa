//! Where `exec` starts a compiled function of the whole language on items, and that this is a start
//! of which correct compilation speaks; there is no code here.
#![tactic(auto)]

mod laws;

pub use laws::{
    arguments_are_low_bits, correct_functions_never_fault, exec_is_a_start, items_stand_apart,
    start_memories_exist,
};
