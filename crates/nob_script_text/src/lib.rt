//! What is written for a script of a world: the steps as they came, each with its answer, and then
//! the verdict.
#![tactic(auto)]

mod ending;
mod results;
mod verdict;

pub use ending::Ending;
pub use results::{limits_of, result_text};
pub use verdict::verdict_line;
