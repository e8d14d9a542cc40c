//! Traces and their one spelling in text.
#![tactic(auto)]

mod entry_reading;
mod fault;
mod frame_reading;
mod head;
mod head_reading;
mod known;
pub mod laws;
mod lines;
mod numbers;
mod reading;
mod refusals;
mod stamped;
mod texts;
mod trace;
mod writing;

pub use entry_reading::entry_of;
pub use fault::{TraceError, TraceFault};
pub use head::Head;
pub use head_reading::limits_at;
pub use lines::{split_at_byte, whole_line};
pub use numbers::{number_behind, number_of};
pub use reading::{decode, decode_all, trace_at};
pub use refusals::refusal_line;
pub use stamped::Stamped;
pub use texts::{have_one_text, right_line, wrong_line};
pub use trace::{Entries, Trace};
pub use writing::{encode, entry_text, result_text};
