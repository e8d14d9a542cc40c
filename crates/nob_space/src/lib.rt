//! A space: what it answers to each event, for every list of what it did before.
#![tactic(auto)]

mod answers;
mod counts;
mod events;
mod space;
mod twice;
mod work;

pub use counts::{PeerCounts, SpaceCounts};
pub use nob_model::{Backlog, Tally};
pub use nob_session::Due;
pub use nob_space_items::{ActResult, SettledItem};
pub use nob_space_state::{Birth, BirthError, BirthFault, CallResult, ReplyFate, SpaceError};
pub use space::Space;
pub use work::Work;
