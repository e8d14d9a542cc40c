//! Chains of sealed segments and their one spelling in text.
#![tactic(auto)]

mod chain;
mod fault;
mod head;
mod head_reading;
mod inputs;
pub mod laws;
mod numbers;
mod reading;
mod refusals;
mod seal;
mod seal_reading;
mod segment;
mod writing;

pub use chain::{Chain, ChainParts};
pub use fault::{ChainError, ChainFault};
pub use head::ChainHead;
pub use inputs::decode_all;
pub use reading::{chain_at, decode};
pub use refusals::refusal_line;
pub use seal::{PeerSeal, PeerSeals, Seal};
pub use segment::{Segment, Segments};
pub use writing::{encode, head_line, segment_text};
