//! A checker that follows: it is told the entries of several spaces while they are read, passes them
//! in the order of their stamps, and keeps only the spaces themselves, the next entry of each, and
//! the frames that may still arrive. All that it has passed is a run of a world, and safe.
#![tactic(auto)]

mod asking;
mod making;
mod members;
mod rerun;
mod sealing;
mod watch;

pub use nob_recall::{Dated, Heads, SegmentSeal, WatchError, WatchFault};
pub use rerun::Rerun;
pub use watch::Watch;
