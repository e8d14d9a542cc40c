//! What an item is, seen in its bytes without memory.
#![tactic(auto)]

mod seeing;
mod walking;

pub use seeing::{Seen, peek};
