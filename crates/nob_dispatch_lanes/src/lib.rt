//! Lanes: the way of errands from the threads that give them to those that carry them out. Each is
//! got by one.
#![tactic(auto)]

mod ends;
mod fault;
mod gathering;
mod making;
mod rule;

pub use ends::{LanePut, LaneTake};
pub use fault::{Gone, LaneError};
pub use gathering::gather;
pub use making::lane;
pub use rule::{Fair, Knowledge};

/// The maximum number of errands in a lane.
pub const MOST_ERRANDS: usize = 1024;
