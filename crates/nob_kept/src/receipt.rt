//! Receipts.

use nob_model_types::{Answer, Event, Refusal};

/// What one call was told: its entry's place in the trace, stamp, event and result.
#[derive(Debug, Drop)]
pub struct Receipt {
    /// The place of the entry in the trace, counted from 1.
    pub place: u64,
    /// The stamp of the entry.
    pub stamp: u64,
    /// What the space was asked.
    pub event: Event,
    /// What it answered, or why it refused.
    pub result: Result<Answer, Refusal>,
}
