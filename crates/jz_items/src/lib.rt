//! Items of a command line: numbers, and bytes that are placed in memory.
#![tactic(auto)]

mod item;
mod numerals;
mod reading;
mod words;

pub use item::{Item, Placed};
pub use numerals::number;
pub use reading::items;
pub use words::{word_of, words_of};
