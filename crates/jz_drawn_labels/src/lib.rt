//! Labels as they are drawn: which label each scalar has, which labels come of which, which have to
//! be public, and what operations draw.
#![tactic(auto)]

mod drawing;
mod operating;
mod sheet;
mod table;

pub use drawing::Drawing;
pub use operating::draw_assign;
pub use sheet::{Ask, Sheet, ask_all, fresh, link};
pub use table::{Table, above, put, put_named};
