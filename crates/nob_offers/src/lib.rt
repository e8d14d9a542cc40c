//! Turns that threads share. Who hands something on offers a turn and waits for nobody: where the
//! turn is another's, that one looks again before it rests.
#![tactic(auto)]

mod bell;
pub mod laws;
mod offered;
mod retry;

pub use bell::Bell;
pub use offered::Offered;
pub use retry::{Retry, Tries};
