//! Frames and their one spelling in bytes.
#![tactic(auto)]

mod fault;
mod feed;
mod frame;
mod header;
pub mod laws;
mod reading;
mod version;
mod writing;

pub use fault::{FrameError, FrameFault};
pub use feed::Feed;
pub use frame::{Frame, FrameKind};
pub use nob_bytes::Bytes;
pub use reading::{decode, decode_v1};
pub use version::Version;
pub use writing::{encode, encode_v1};
