//! What an agent is to ask of its keeper.

use nob_model_types::Event;

/// An event that an agent is to ask of its keeper, and the stamp that it has seen.
#[derive(Debug, Drop)]
pub struct DueEvent {
    /// The stamp that was seen: that of the parcel of a frame that arrives, else 0.
    pub seen: u64,
    /// The event.
    pub event: Event,
}
