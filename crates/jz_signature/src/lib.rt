//! What a function over variables has of the text: the sizes of its words, and its stack variables;
//! there is no code here.
#![tactic(auto)]

mod laws;

pub use laws::{the_stack_is_that_of_the_text, words_have_their_sizes};
