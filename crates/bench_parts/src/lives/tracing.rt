//! The traces of what happened in a world.

use crate::lives::world::{SPACES, space_at};
use nob_check::{CheckError, check};
use nob_frame::Version;
use nob_ids::{Limits, SpaceId};
use nob_model::{Answer, Entry, Refusal};
use nob_trace::{Entries, Stamped, Trace};
use std::alloc::{AllocError, Global};

/// The trace of each space, by the entries of all.
pub(crate) fn traces_of(alloc: Global, all: &[Entry]) -> Result<Vec<Trace>, AllocError> {
    let mut traces = Vec::new(alloc);
    for place in 0..SPACES {
        traces.push(trace_of(alloc, space_at(place), all)?)?;
    }
    Ok(traces)
}

/// Whether traces are accepted, each of so many times.
pub(crate) fn are_accepted(
    alloc: Global,
    traces: &[Trace],
    times: u64,
) -> Result<bool, AllocError> {
    for _ in 0..times {
        match check(alloc, traces) {
            Ok(_) => {}
            Err(CheckError::Fault(_)) => return Ok(false),
            Err(CheckError::OutOfMemory) => return Err(AllocError),
        }
    }
    Ok(true)
}

// The trace of a space: its entries, stamped with their places among all.
fn trace_of(alloc: Global, space: SpaceId, all: &[Entry]) -> Result<Trace, AllocError> {
    let mut entries = Entries::new(alloc);
    for (place, entry) in all.iter().enumerate() {
        if entry.space == space {
            entries = with_entry(entries, place as u64 + 1, entry)?;
        }
    }
    Ok(Trace {
        version: Version::Two,
        space,
        n: space_at(SPACES - 1),
        limits: Limits::default(),
        entries,
    })
}

// Entries with one more, if its stamp is above the last.
fn with_entry(mut entries: Entries, stamp: u64, entry: &Entry) -> Result<Entries, AllocError> {
    let event = entry.event.copy()?;
    let result = copy_of_result(&entry.result)?;
    if entries.last_stamp() < stamp {
        entries.push(Stamped {
            stamp,
            event,
            result,
        })?;
    }
    Ok(entries)
}

// The same result.
fn copy_of_result(told: &Result<Answer, Refusal>) -> Result<Result<Answer, Refusal>, AllocError> {
    match told {
        Ok(answer) => Ok(Ok(answer.copy()?)),
        Err(refusal) => Ok(Err(*refusal)),
    }
}
