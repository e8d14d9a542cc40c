//! The texts of values, events, answers and refusals, as scripts and traces have them: each has one
//! spelling, and what is read is what that spelling says.
#![tactic(auto)]

mod answer_writing;
mod answers;
mod bytes;
mod event_writing;
mod fronts;
mod lines;
mod number;
mod refusal_reading;
mod refusal_writing;
mod unread;
mod value_reading;
mod value_writing;

pub use answer_writing::answer_text;
pub use answers::{push_bad_step, push_line};
pub use bytes::bytes_of;
pub use event_writing::event_text;
pub use fronts::{bytes_at, number_at, rep_numbers_at, rep_of, space_of};
pub use lines::first_line;
pub use number::number_of;
pub use refusal_reading::refusal_of;
pub use refusal_writing::refusal_text;
pub use unread::Unread;
pub use value_reading::{value_of, whole_value};
pub use value_writing::{rep_text, value_text};
