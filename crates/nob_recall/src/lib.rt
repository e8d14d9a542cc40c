//! What a checker that follows keeps: what it may say of the next entry, the frames that may still
//! arrive, in memory that doesn't grow with their number, and the next entries of several spaces.
#![tactic(auto)]

mod dated;
mod fault;
mod head;
mod heads;
mod heard;
pub mod laws;
mod memory;
mod next;
mod recall;
mod table;

pub use dated::{Dated, SegmentSeal};
pub use fault::{WatchError, WatchFault};
pub use head::Upcoming;
pub use heads::Heads;
pub use heard::{Heard, heard_by, is_past, make_heard, no_word};
pub use memory::{Memory, is_in, make_memory};
pub use next::next_fault;
pub use recall::Recall;
