//! The messages of a space that were acted on and aren't over: those that wait for their references,
//! those that are ready, and the jobs that run. Each stands in one place from its Act to its end; what waits, is
//! ready or runs are lists of the places. Which may be settled next, and which claimed, is known and
//! not searched for.
#![tactic(auto)]

mod copies;
mod entry;
mod from;
mod in_line;
mod lanes;
mod lending;
mod lines;
mod links;
mod losing;
mod messages;
mod owner_lines;
mod owners;
mod ready;
mod taking;
mod waits;

pub use from::From;
pub use messages::Messages;
