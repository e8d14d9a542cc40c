//! Frames of strangers come to a space that holds much. `bench/strangers` measures it.

mod counts;
mod frames;
mod held;
mod task;
mod visits;

use crate::strangers::counts::FrameCounts;
use crate::strangers::task::task_of;
use crate::strangers::visits::visits_of;
use std::alloc::Global;
use std::io;

/// Has the strangers of a task come, and says what became of their frames.
pub(crate) fn measure<R: Print>(rt: &R, alloc: Global, text: &str) -> io::Result<()> {
    match task_of(text) {
        Some(task) => say(rt, text, visits_of(alloc, &task)?),
        None => rt.println("SORT STAGE KEPT HELD SIZE FRAMES ROUNDS"),
    }
}

// Says what became of the frames of a task.
fn say<R: Print>(rt: &R, text: &str, counts: FrameCounts) -> io::Result<()> {
    let FrameCounts {
        frames,
        read,
        taken,
        passed,
        acted,
        closed,
        refused,
    } = counts;
    println!(rt;
        "{text}: {frames} frames, {read} read, {taken} taken, {passed} passed over, {acted} acted on, {closed} closed, {refused} refused"
    )
}
