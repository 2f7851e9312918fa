//! Where variables may be declared, set and read; which functions reach themselves by their calls,
//! and ranks of the functions where none does.
#![tactic(auto)]

mod asked;
mod called;
mod declarations;
mod fall;
mod graph;
mod numbers;
mod rank_laws;
mod reaching;
mod reads;
mod recursion;
mod sets;
mod settings;
mod walk;

pub use asked::read_unset;
pub use declarations::wrongly_kept;
pub use rank_laws::ranks_leave_no_recursion;
pub use recursion::{Ranking, find_recursion};
pub use settings::wrongly_set;
