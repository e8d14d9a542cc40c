//! Bytes as contracts see them, a list, and the numbers that stand in them, the highest byte first.
//! The codecs stand on this crate.
#![tactic(auto)]

mod few;
mod owned;
mod placed;
mod taking;

pub use owned::Bytes;
pub use placed::{u16_at, u32_at, u64_at};
pub use taking::{take_u16, take_u32, take_u64};
