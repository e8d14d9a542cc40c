//! Entries with their stamps.

use nob_chain::Seal;
use nob_model_types::Entry;

/// A seal, and the number of the segment behind which it stands.
#[derive(Debug, Drop)]
pub struct SegmentSeal {
    /// The segment's number.
    pub number: u64,
    /// What it says.
    pub seal: Seal,
}

/// An entry with its stamp, and the seal behind it where it is the last one of a segment.
#[derive(Debug, Drop)]
pub struct Dated {
    /// The stamp.
    pub stamp: u64,
    /// The entry.
    pub entry: Entry,
    /// The seal.
    pub seal: Option<SegmentSeal>,
}
