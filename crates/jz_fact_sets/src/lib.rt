//! Sets of facts, as the code keeps them, and what they say.
#![tactic(auto)]

mod given;
mod knowledge;
mod laws;
mod meeting;
mod renewing;
mod saying;
mod set;

pub use given::{Given, Parameter, Region};
pub use knowledge::Knowledge;
pub use laws::changes_of_facts;
pub use meeting::{meet, narrow};
pub use renewing::{add_cell, forget_all, renew};
pub use saying::{Saying, is_named};
pub use set::{FactSet, Table, known, known_at};
