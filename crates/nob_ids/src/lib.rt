//! The names that every crate of the runtime shares: spaces, references, the numbers of items,
//! calls and jobs, the reasons of a close, and the limits of a session. A space, a reason and
//! limits are in their ranges by construction; the numbers of items, calls and jobs are any of 64
//! bits.
#![tactic(auto)]

mod limits;
mod numbers;
mod reason;
mod space;
mod wire_rep;

pub use limits::Limits;
pub use numbers::{CallNo, ItemNo, JobNo};
pub use reason::Reason;
pub use space::SpaceId;
pub use wire_rep::WireRep;
