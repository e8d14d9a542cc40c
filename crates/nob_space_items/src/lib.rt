//! What a space does about the items that come: acting on them, settling the messages that wait for
//! their references, and giving surrogates up.
#![tactic(auto)]

mod acting;
mod cleaning;
mod copies;
mod dirties;
mod faults;
mod few;
mod grants;
mod growing;
mod loans;
mod messages;
mod next;
mod notes;
mod placing;
mod receiving;
mod settling;

pub use acting::{ActResult, act};
pub use cleaning::clean;
pub use next::{can_clean, can_settle};
pub use settling::{SettledItem, is_lost, settle};
