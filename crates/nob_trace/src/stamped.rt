//! One entry of a trace.

use nob_model_types::{Answer, Event, Refusal};

/// One event of the trace's space with its result, and the stamp of the step.
#[derive(Debug, Drop)]
pub struct Stamped {
    /// The stamp: at least 1, and above that of the entry before.
    pub stamp: u64,
    /// What the space was asked.
    pub event: Event,
    /// What it answered.
    pub result: Result<Answer, Refusal>,
}
