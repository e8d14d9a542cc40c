//! What the parts of the runtime mean: entries as plain data, and in `specs/` the words, the right
//! answers and the laws that contracts cite. The functions here compute the right answers plainly
//! and slowly from a whole list of calls; each has its definition as its contract, and faster
//! bodies are compared with them in tests.
#![tactic(auto)]

pub mod end;
mod entry;
pub mod laws;
mod refusal;
pub mod right;

pub use entry::{Arrived, EndEntry, Ending, Frames, Kind, PairEntry};
pub use nob_frame::Frame;
pub use refusal::EndRefusal;
