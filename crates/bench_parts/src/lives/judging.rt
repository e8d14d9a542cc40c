//! A run of a world that is judged, and whose traces are checked.

use crate::lives::task::WorldTask;
use crate::lives::tracing::{are_accepted, traces_of};
use crate::lives::world::{SPACES, live};
use nob_check::{Verdict, judge};
use nob_ids::Limits;
use nob_model::Entry;
use nob_world::{World, WorldError};
use std::alloc::{AllocError, Global};

/// Carries a task out in a new world: how many entries there are, where each verdict is yes and the
/// traces are accepted each time.
pub(crate) fn carry_out(alloc: Global, task: WorldTask) -> Result<Option<usize>, WorldError> {
    let mut world = World::new(alloc, SPACES as u16, Limits::default())?;
    let done = carry_out_in(alloc, task, &mut world);
    world.shut();
    done
}

// The same in this world.
fn carry_out_in(
    alloc: Global,
    task: WorldTask,
    world: &mut World,
) -> Result<Option<usize>, WorldError> {
    if !live(world, task.lives)? {
        return Ok(None);
    }
    let entries = world.entries();
    if !is_right(alloc, task, entries)? {
        return Ok(None);
    }
    Ok(Some(entries.len()))
}

// Whether entries are judged right so often, and their traces are accepted so often.
fn is_right(alloc: Global, task: WorldTask, entries: &[Entry]) -> Result<bool, AllocError> {
    for _ in 0..task.judged {
        if judge(alloc, entries)? != Verdict::Yes {
            return Ok(false);
        }
    }
    let traces = traces_of(alloc, entries)?;
    are_accepted(alloc, traces.as_slice(), task.checked)
}
