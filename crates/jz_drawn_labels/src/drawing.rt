//! A drawing.

use crate::sheet::Sheet;
use crate::table::Table;

/// What is drawn of the statements so far, and the labels that scalars have behind them.
#[derive(Drop)]
pub struct Drawing<'a> {
    pub table: Table<'a>,
    pub sheet: Sheet<'a>,
}
