//! What is asked for, and its text.

use crate::reading::number_of;

/// What is to be done.
#[derive(Clone, Copy)]
pub(crate) enum LifeTask {
    /// Lives and calls between two spaces.
    Spaces(SpacesTask),
    /// Lives in a world of four, which is judged.
    World(WorldTask),
}

/// Lives and calls between two spaces.
#[derive(Clone, Copy)]
pub(crate) struct SpacesTask {
    /// How many objects are held beside.
    pub(crate) held: u64,
    /// How many whole lives are made.
    pub(crate) lives: u64,
    /// How many calls are made then.
    pub(crate) calls: u64,
}

/// Lives in a world of four spaces.
#[derive(Clone, Copy)]
pub(crate) struct WorldTask {
    /// How many whole lives are made.
    pub(crate) lives: u64,
    /// How often the run is judged.
    pub(crate) judged: u64,
    /// How often its traces are checked.
    pub(crate) checked: u64,
}

/// The task that a line says: `spaces HELD LIVES CALLS` or `world LIVES JUDGED CHECKED`.
pub(crate) fn task_of(line: &str) -> Option<LifeTask> {
    let mut words = line.split_whitespace();
    let kind = words.next()?;
    let first = number_of(words.next())?;
    let second = number_of(words.next())?;
    let third = number_of(words.next())?;
    match kind {
        "spaces" => Some(LifeTask::Spaces(SpacesTask {
            held: first,
            lives: second,
            calls: third,
        })),
        "world" => Some(LifeTask::World(WorldTask {
            lives: first,
            judged: second,
            checked: third,
        })),
        _ => None,
    }
}
