//! A place for each variable of code with branches and loops, by first fit: in time that goes with
//! the length of the code.
#![tactic(auto)]

mod batches;
mod code;
mod fit;
mod holders;
mod needs;
mod placing;
mod seats;
mod spots;
mod table;
mod wants;

pub use code::Branching;
pub use placing::allocate;
