//! The calls of a space whose replies aren't taken, and the ready replies to them, each found by
//! the number of its call.
#![tactic(auto)]

mod calls;
mod firsts;
mod index;
mod ready;
mod rows;

pub use calls::Calls;
