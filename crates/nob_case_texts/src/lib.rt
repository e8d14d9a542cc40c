//! What the words of a case are, and how its answer is written: words spell numbers, references,
//! bytes, values, items and frames, and an answer has one text.
#![tactic(auto)]

mod answer;
pub mod items;
mod refusals;
mod text;
pub mod tokens;
mod unanswered;
mod value_text;
mod values;

pub use answer::{Answer, PinAnswer, Push, Refusal};
pub use refusals::{refused_call, refused_frame, refused_item, refused_table_call, refused_value};
pub use text::text_of;
pub use unanswered::Unanswered;
pub use values::{deep_value, value};
