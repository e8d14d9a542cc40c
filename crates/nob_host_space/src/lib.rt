//! A space as a program in another language has it: what it is asked and what it answers, in
//! numbers and bytes.
#![tactic(auto)]

mod asking;
mod births;
mod bits;
mod bringing;
mod bytes;
mod counts;
mod feeds;
mod handle;
mod host;
mod looks;
mod loose;
mod numbers;
mod streams;
mod told;
mod waiting;

pub use births::birth_of;
pub use counts::{Front, counts_of_no_peer, counts_of_no_space};
pub use handle::Handle;
pub use host::Host;
pub use looks::{Tally, Work};
pub use nob_space::{PeerCounts, SpaceCounts};
pub use numbers::{KEEPS_NONE, KEEPS_ONE, OUT_OF_RANGE, WANTED};
pub use told::Told;
