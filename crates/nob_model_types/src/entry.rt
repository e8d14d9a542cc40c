//! An event with what a space answered to it, and a step of a world.

ghost use Rattle.std.specs.Prelude.{◌≡◌, IfOk};

use crate::answer::Answer;
use crate::event::Event;
use crate::refusal::Refusal;
use nob_ids::SpaceId;
use std::alloc::AllocError;

/// One event at one space with its result: an answer, or a refusal that changed nothing. A step
/// that was refused for want of memory makes no entry.
#[derive(Debug)]
pub struct Entry {
    /// The space.
    pub space: SpaceId,
    /// What it was asked.
    pub event: Event,
    /// What it answered.
    pub result: Result<Answer, Refusal>,
}

impl Drop for Entry {
    fn drop(self) {
        let Entry {
            space: _,
            event,
            result,
        } = self;
        drop(event);
        drop(result);
    }
}

impl Entry {
    /// An equal entry. Only memory fails it. It recurses once for each level of a value.
    pub fn copy(&self) -> Result<Entry, AllocError>
        ensures { IfOk result (λ entry. entry ≡ self.now) }
    {
        let event = self.event.copy()?;
        match &self.result {
            Ok(answer) => Ok(Entry {
                space: self.space,
                event,
                result: Ok(answer.copy()?),
            }),
            Err(refusal) => Ok(Entry {
                space: self.space,
                event,
                result: Err(*refusal),
            }),
        }
    }
}

/// One step of a world of spaces.
#[derive(Debug, Drop)]
pub enum WorldStep {
    /// A space is asked something.
    Do(SpaceId, Event),
    /// The frame of this number, counted from 1 over all that were ever transmitted, arrives.
    Deliver(u64),
}

impl WorldStep {
    /// An equal step. Only memory fails it. It recurses once for each level of a value.
    pub fn copy(&self) -> Result<WorldStep, AllocError>
        ensures { IfOk result (λ step. step ≡ self.now) }
    {
        match self {
            WorldStep::Do(space, event) => Ok(WorldStep::Do(*space, event.copy()?)),
            WorldStep::Deliver(frame) => Ok(WorldStep::Deliver(*frame)),
        }
    }
}
