//! Strangers come to a space.

use crate::strangers::counts::FrameCounts;
use crate::strangers::frames::{Making, bytes_of};
use crate::strangers::held::{SPACES, export, hold};
use crate::strangers::task::{Reach, StrangerTask};
use nob_frame::{Frame, FrameError, decode};
use nob_ids::{Limits, SpaceId};
use nob_model::Event;
use nob_rounds::Words;
use nob_space::Space;
use std::alloc::{AllocError, Global};

// The strangers of a round.
#[derive(Drop)]
struct Strangers<'a> {
    alloc: Global,
    task: &'a StrangerTask,
    // The object that they ask for.
    index: u64,
    words: Words,
    counts: FrameCounts,
}

/// Strangers come as often as a task says, each time to a new space: what became of their frames.
/// Only memory fails it.
pub(crate) fn visits_of(alloc: Global, task: &StrangerTask) -> Result<FrameCounts, AllocError> {
    let mut counts = FrameCounts::new();
    for round in 0..task.rounds {
        counts = round_of(alloc, task, round, counts)?;
    }
    Ok(counts)
}

// Strangers come to a new space.
fn round_of(
    alloc: Global,
    task: &StrangerTask,
    seed: u64,
    counts: FrameCounts,
) -> Result<FrameCounts, AllocError> {
    let Some(id) = SpaceId::new(1) else {
        return Ok(counts);
    };
    let mut space = Space::new(alloc, id, SPACES, Limits::default())?;
    let done = all_come(alloc, &mut space, task, seed, counts);
    space.shut();
    done
}

// The same with a new space.
fn all_come(
    alloc: Global,
    space: &mut Space,
    task: &StrangerTask,
    seed: u64,
    counts: FrameCounts,
) -> Result<FrameCounts, AllocError> {
    let come = hold(alloc, space, task)?;
    let mut strangers = Strangers {
        alloc,
        task,
        index: export(space)?,
        words: Words::new(seed),
        counts,
    };
    for place in 1..SPACES {
        let Some(from) = SpaceId::new(place + 1) else {
            continue;
        };
        let before = come.get(place as usize).copied().unwrap_or(0);
        strangers.one_comes(space, from, before)?;
    }
    Ok(strangers.counts)
}

impl<'a> Strangers<'a> {
    // One stranger's frames come, from which so many items came before.
    fn one_comes(
        &mut self,
        space: &mut Space,
        from: SpaceId,
        before: u64,
    ) -> Result<(), AllocError> {
        let mut number = before;
        for _ in 0..self.task.frames {
            let making = Making {
                sort: self.task.sort,
                from,
                to: space.id(),
                number: number.saturating_add(1),
                size: self.task.size,
                index: self.index,
            };
            if self.frame_comes(space, &making)? {
                number = number.saturating_add(1);
            }
        }
        if self.task.reach == Reach::Acted {
            self.act_on_all(space, from)?;
        }
        Ok(())
    }

    // A frame is made and gets as far as the task says: whether it brought an item.
    fn frame_comes(&mut self, space: &mut Space, making: &Making) -> Result<bool, AllocError> {
        let bytes = bytes_of(self.alloc, making, &mut self.words)?;
        self.counts.note_written();
        if self.task.reach == Reach::Written {
            return Ok(false);
        }
        let Some(frame) = frame_in(self.alloc, bytes.as_slice())? else {
            return Ok(false);
        };
        self.counts.note_read();
        if self.task.reach == Reach::Read {
            return Ok(false);
        }
        self.counts.note(&space.step(&Event::Arrive(frame)))
    }

    // The space acts as often as frames came.
    fn act_on_all(&mut self, space: &mut Space, from: SpaceId) -> Result<(), AllocError> {
        for _ in 0..self.task.frames {
            self.counts.note(&space.step(&Event::Act(from)))?;
        }
        Ok(())
    }
}

// The frame that bytes spell, if they do. Only memory fails it.
fn frame_in(alloc: Global, bytes: &[u8]) -> Result<Option<Frame>, AllocError> {
    match decode(alloc, bytes) {
        Ok(frame) => Ok(Some(frame)),
        Err(FrameError::Fault(_)) => Ok(None),
        Err(FrameError::OutOfMemory) => Err(AllocError),
    }
}
