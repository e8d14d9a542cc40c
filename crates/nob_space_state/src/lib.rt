//! The state of a space, in parts: what a space keeps, for which lists of what it did that stands, and
//! how the holds of references go from one part to another.
#![tactic(auto)]

mod birth;
mod calls;
mod closing;
mod error;
mod finish;
mod jobs;
mod listings;
mod looks;
mod next;
mod objects;
mod opening;
mod parts;
mod pinning;
mod returns;
mod sending;
mod sessions;
mod shut;
mod take;
mod taking_over;

pub use birth::{Birth, BirthError, BirthFault};
pub use error::SpaceError;
pub use finish::ReplyFate;
pub use listings::{settle_pins, unlist};
pub use parts::Parts;
pub use pinning::{encode_note, send_pinned, send_reserved};
pub use returns::{end_job, give_back, give_back_message, throw_ready_away, throw_waiting_away};
pub use take::CallResult;
pub use taking_over::{take_over, times};
