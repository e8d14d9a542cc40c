//! Whole lives of references, between two spaces or in a world that is judged and whose traces are
//! checked. `bench/lives`, `bench/sessions`, `bench/judge` and `bench/check` measure it.

mod judging;
mod spaces;
mod task;
mod tracing;
mod world;

use crate::lives::judging::carry_out;
use crate::lives::spaces::live_all;
use crate::lives::task::{LifeTask, SpacesTask, WorldTask, task_of};
use std::alloc::Global;
use std::io;

/// Carries out a task, and says what became of it.
pub(crate) fn measure<R: Print>(rt: &R, alloc: Global, text: &str) -> io::Result<()> {
    match task_of(text) {
        Some(LifeTask::Spaces(task)) => live_between(rt, alloc, task),
        Some(LifeTask::World(task)) => live_in_world(rt, alloc, task),
        None => rt.println("spaces HELD LIVES CALLS, or world LIVES JUDGED CHECKED"),
    }
}

// Lives and calls between two spaces.
fn live_between<R: Print>(rt: &R, alloc: Global, task: SpacesTask) -> io::Result<()> {
    match live_all(alloc, task) {
        Ok(()) => rt.println("done"),
        Err(_) => rt.println("refused"),
    }
}

// Lives in a world.
fn live_in_world<R: Print>(rt: &R, alloc: Global, task: WorldTask) -> io::Result<()> {
    match carry_out(alloc, task) {
        Ok(Some(count)) => println!(rt; "{count} entries: verdict yes, traces accepted"),
        Ok(None) => rt.println("not as it should be"),
        Err(_) => rt.println("memory"),
    }
}
