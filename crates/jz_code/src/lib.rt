//! Functions over variables as machine code.
#![tactic(auto)]

mod code;
mod laws;

pub use code::{MachineCode, NoCode, machine_code};
pub use laws::code_or_refusal;
