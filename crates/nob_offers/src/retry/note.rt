//! That a refusal is noted: who knows that has read it, or noted it.

use crate::retry::Retry;
use std::sync::atomic::Ordering;

/// That a refusal is noted. It must be spent: it stands, or is taken back.
pub struct Note<'a> {
    retry: &'a Retry,
}

impl<'a> Note<'a> {
    /// Reads whether a refusal is noted.
    pub fn read(retry: &'a Retry) -> Option<Note<'a>> {
        if retry.is_late() {
            return Some(Note { retry });
        }
        None
    }

    /// Notes a refusal.
    pub fn make(retry: &'a Retry) -> Note<'a> {
        retry.is_noted.store(true, Ordering::SeqCst);
        Note { retry }
    }

    /// Leaves it noted, for whoever makes room.
    pub fn stand(self) {
        let Note { retry: _ } = self;
    }

    /// Takes the note back.
    pub fn take_back(self) {
        let Note { retry } = self;
        retry.is_noted.store(false, Ordering::SeqCst);
    }
}
