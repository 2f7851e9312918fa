//! What transformers of compiled texts show of the frame; there is no code here.
#![tactic(auto)]

mod laws;

pub use laws::compiled_texts_are_compilations;
