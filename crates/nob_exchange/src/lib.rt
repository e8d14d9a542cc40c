//! What a program does for spaces that it holds itself: it carries frames between them, and has each
//! act on what came.
#![tactic(auto)]

mod asking;
mod carrying;
mod opening;

pub use asking::MOST_TURNS;
pub use carrying::{agent_of, carry, exchange};
pub use opening::with_three;
