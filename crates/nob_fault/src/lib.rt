//! The fault that can be put into a link: a shim loses, repeats and delays frames, as its words
//! say.
#![tactic(auto)]

mod effect;
mod generator;
pub mod laws;
mod shim;

pub use effect::Effect;
pub use generator::{WORDS, words_between};
pub use shim::Shim;
