//! The lines of one chain or trace, one after the other: each is judged behind those before it, and
//! none is kept.
#![tactic(auto)]

mod first;
pub mod laws;
mod line_reading;
mod reached;
mod seal_line;
mod taking;
mod text_lines;

pub use first::{FirstLine, first_of};
pub use line_reading::{count_at_line, entry_at_line};
pub use reached::{LineDue, Reached, due_of};
pub use seal_line::seal_of_line;
pub use taking::LinesRead;
pub use text_lines::TextLines;
