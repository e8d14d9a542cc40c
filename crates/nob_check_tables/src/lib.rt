//! The tables of a space: what the judge of a journal looks up of a space's deeds in place of
//! reading them again. Which numbers the sessions have and which have closed, which items came, and what was asked of the
//! owner of each reference and answered.
#![tactic(auto)]

mod came;
mod closed;
pub mod laws;
mod numbers;
mod rows;
mod tables;
mod taken;

pub use came::{Arrival, Came};
pub use closed::Closed;
pub use numbers::SessionNumbers;
pub use rows::TurnRows;
pub use tables::{Tables, new_tables, with_deed};
pub use taken::Taken;
