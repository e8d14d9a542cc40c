//! The texts of events, answers and results to what they spell, each exactly: what is read spells
//! the text, and whatever the text spells is read.
#![tactic(auto)]

mod answer_parts;
mod answer_reading;
mod event_reading;
mod opening;
mod outcomes;
mod parts;
mod script_reading;

pub use answer_reading::{answer_of, whole_answer};
pub use event_reading::{event_of, whole_event};
pub use opening::Opening;
pub use parts::{after, after_space, whole_number, whole_space};
pub use script_reading::{limits_at, opening_of, step_of};
