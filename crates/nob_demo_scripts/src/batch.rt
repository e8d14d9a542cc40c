//! The frames that one transmit gave.

use nob_ids::SpaceId;
use nob_model_session::Frames;

/// Data frames that carry items, one after the other: where the items stand, and what the frames
/// say beside them.
#[derive(Clone, Copy, Debug)]
pub struct ItemRun {
    /// The space that transmitted them.
    pub from: SpaceId,
    /// The space to which they go.
    pub to: SpaceId,
    /// The number of their session.
    pub session: u32,
    /// What each acknowledges.
    pub ack: u64,
    /// The number of the first item.
    pub first: u64,
    /// How many items there are.
    pub count: u64,
}

/// The frames that one transmit gave.
#[derive(Debug, Drop)]
pub enum Batch {
    /// A frame for each of these items, whose payloads stand elsewhere.
    Run(ItemRun),
    /// The frames as they are.
    Whole(Frames),
}

/// A batch, and how many frames were transmitted before it.
#[derive(Debug, Drop)]
pub struct Row {
    /// How many frames were transmitted before.
    pub before: u64,
    /// The frames.
    pub batch: Batch,
}
