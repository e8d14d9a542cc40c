//! Links: the way of parcels from one thread to another. A link has one end that puts and one that
//! takes, and holds at most as many parcels as its capacity says. What is taken is what was put, in
//! order, and each parcel once.
#![tactic(auto)]

mod ends;
mod fault;
mod finishing;
mod parcel;
mod rule;

pub use ends::{PutEnd, TakeEnd, link};
pub use fault::{Gone, LinkError, TryPutError, TryTakeError};
pub use finishing::finish;
pub use parcel::Parcel;

/// The greatest capacity of a link.
pub const MOST_PARCELS: usize = 1024;
