//! Which rows of a run are drawn: those of an object's life, of one space's part, or all but small
//! ones; and what of the plan is drawn then, at their places.
#![tactic(auto)]

mod choice;
mod choosing;
pub mod laws;
mod lives;
mod names;
mod naming;
mod plan;

pub use choice::Choice;
pub use lives::names_at;
pub use names::Names;
pub use plan::{Plan, count_drawn, place_of, plan_of};
