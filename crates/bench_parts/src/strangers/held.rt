//! The space, and what it holds before strangers are measured.

use crate::strangers::frames::asking;
use crate::strangers::task::{ObjectsKept, StrangerTask};
use nob_ids::SpaceId;
use nob_model::Event;
use nob_space::{Space, SpaceError};
use std::alloc::{AllocError, Global};

/// The number of spaces; all but the first are strangers.
pub(crate) const SPACES: u16 = 32;

/// Exports an object: its index. Only memory fails it.
pub(crate) fn export(space: &mut Space) -> Result<u64, AllocError> {
    match space.export() {
        Ok(rep) => Ok(rep.index),
        Err(SpaceError::Refused(_)) => Ok(0),
        Err(SpaceError::OutOfMemory) => Err(AllocError),
    }
}

/// Exports the objects of a task, for each of which a stranger may ask: how many items have come
/// from each space. Only memory fails it.
pub(crate) fn hold(
    alloc: Global,
    space: &mut Space,
    task: &StrangerTask,
) -> Result<Vec<u64>, AllocError> {
    let mut come = vec![in alloc; 0u64; SPACES as usize]?;
    for place in 0..task.held {
        let index = export(space)?;
        if task.kept == ObjectsKept::Listed {
            ask_for(alloc, space, place, index, &mut come)?;
        }
    }
    Ok(come)
}

// A stranger asks for an object, each in its turn.
fn ask_for(
    alloc: Global,
    space: &mut Space,
    place: u64,
    index: u64,
    come: &mut Vec<u64>,
) -> Result<(), AllocError> {
    let number = (place % 31 + 2) as u16;
    let Some(from) = SpaceId::new(number) else {
        return Ok(());
    };
    let Some(count) = come.get_mut(number as usize - 1) else {
        return Ok(());
    };
    *count = count.saturating_add(1);
    let frame = asking(alloc, from, space.id(), *count, index)?;
    step(space, &Event::Arrive(frame))?;
    step(space, &Event::Act(from))
}

// Asks a space something, whatever it answers. Only memory fails it.
fn step(space: &mut Space, event: &Event) -> Result<(), AllocError> {
    match space.step(event) {
        Ok(_) => Ok(()),
        Err(SpaceError::Refused(_)) => Ok(()),
        Err(SpaceError::OutOfMemory) => Err(AllocError),
    }
}
