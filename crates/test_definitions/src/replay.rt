//! A trace, run on a space.

use nob_frame::Version;
use nob_model::{Answer, Event};
use nob_space::{Space, SpaceError};
use nob_trace::{Stamped, TraceError, decode, have_one_text, right_line, wrong_line};
use std::alloc::{AllocError, Global};

/// What is said of a trace: whether a space answers each event as the trace has it.
pub fn verdict_of(alloc: Global, input: &[u8]) -> Result<Vec<u8>, TraceError> {
    let trace = decode(alloc, input)?;
    let mut space = Space::new(alloc, trace.space, trace.n.get(), trace.limits)?;
    let text = verdict_on(alloc, &mut space, trace.version, trace.entries.as_slice());
    space.shut();
    Ok(text?.into_bytes())
}

// What is said of the entries of a trace of a version, when a new space is asked their events.
fn verdict_on(
    alloc: Global,
    space: &mut Space,
    version: Version,
    entries: &[Stamped],
) -> Result<String, AllocError> {
    for (place, entry) in entries.iter().enumerate() {
        if !answers(alloc, space, version, entry)? {
            return wrong_line(alloc, place);
        }
    }
    right_line(alloc, entries.len())
}

// What a space answers to an event. Where it wanted memory it is asked once more: it is as it was.
fn ask(space: &mut Space, event: &Event) -> Result<Answer, SpaceError> {
    match space.step(event) {
        Err(SpaceError::OutOfMemory) => space.step(event),
        result => result,
    }
}

// Whether a space answers an event as the trace has it.
fn answers(
    alloc: Global,
    space: &mut Space,
    version: Version,
    entry: &Stamped,
) -> Result<bool, AllocError> {
    let result = match ask(space, &entry.event) {
        Ok(answer) => Ok(answer),
        Err(SpaceError::Refused(refusal)) => Err(refusal),
        Err(SpaceError::OutOfMemory) => return Err(AllocError),
    };
    have_one_text(alloc, version, &entry.result, &result)
}
