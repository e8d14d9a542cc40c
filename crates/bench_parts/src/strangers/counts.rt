//! What became of frames.

use nob_model::Answer;
use nob_space::SpaceError;
use std::alloc::AllocError;

/// How many frames had which end.
#[derive(Clone, Copy, Debug)]
pub(crate) struct FrameCounts {
    /// How many were written.
    pub(crate) frames: u64,
    /// How many were read.
    pub(crate) read: u64,
    /// How many brought an item.
    pub(crate) taken: u64,
    /// How many brought nothing.
    pub(crate) passed: u64,
    /// How many items were acted on.
    pub(crate) acted: u64,
    /// How many events closed a session.
    pub(crate) closed: u64,
    /// How many events were refused.
    pub(crate) refused: u64,
}

impl FrameCounts {
    /// Nothing came.
    pub(crate) fn new() -> FrameCounts {
        FrameCounts {
            frames: 0,
            read: 0,
            taken: 0,
            passed: 0,
            acted: 0,
            closed: 0,
            refused: 0,
        }
    }

    /// A frame was written.
    pub(crate) fn note_written(&mut self) {
        self.frames = self.frames.saturating_add(1);
    }

    /// A frame was read.
    pub(crate) fn note_read(&mut self) {
        self.read = self.read.saturating_add(1);
    }

    /// A space answered: whether an item was taken. Only memory fails it.
    pub(crate) fn note(
        &mut self,
        answered: &Result<Answer, SpaceError>,
    ) -> Result<bool, AllocError> {
        match answered {
            Ok(Answer::Took(0)) => self.passed = self.passed.saturating_add(1),
            Ok(Answer::Took(_)) => {
                self.taken = self.taken.saturating_add(1);
                return Ok(true);
            }
            Ok(Answer::Acted(_)) => self.acted = self.acted.saturating_add(1),
            Ok(Answer::Closed(_)) => self.closed = self.closed.saturating_add(1),
            Ok(_) => {}
            Err(SpaceError::Refused(_)) => self.refused = self.refused.saturating_add(1),
            Err(SpaceError::OutOfMemory) => return Err(AllocError),
        }
        Ok(false)
    }
}
