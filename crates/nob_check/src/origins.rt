//! Where the frames that arrive come from.

ghost use Rattle.std.specs.Prelude.{◌≡◌, ◌++◌, List, IfOk, MatchOption};
ghost use Rattle.std.specs.List.{Contains};
ghost use Rattle.nob_frame.specs.declared.frame.Frame.{Frame as FrameOf};
ghost use Rattle.nob_check.specs.Marks.{AreOf};
ghost use Rattle.nob_model_types.specs.declared.entry.Entry.{Entry as EntryOf};
ghost use Rattle.nob_model_types.specs.declared.event.Event.TheVariants as events;
ghost use Rattle.nob_model_journal.specs.Journals.{transmitted_frames};
ghost use Rattle.nob_model_journal.specs.Runs.{ArrivesGiven};
ghost use Rattle.nob_model_traces.specs.Origins as words;

use crate::set::FrameSet;
use nob_frame::Frame;
use nob_model_traces::CheckFault;
use nob_model_types::Entry;
use nob_plain_traces::origins::{frame_in, frames_of, origin_fault};
use std::alloc::{AllocError, Global};

// The frame that arrives by an entry, where it isn't one of these.
fn lone_frame<'a>(
    alloc: Global,
    entry: &'a Entry,
    set: &FrameSet,
) -> Result<Option<&'a Frame>, AllocError>
    ensures { (J : List EntryOf) → AreOf (transmitted_frames J) set.now
        → IfOk result (λ lone. MatchOption lone (ArrivesGiven entry.now.event J)
        (λ frame. (entry.now.event ≡ events.Arrive frame.now)
        × (Contains (transmitted_frames J) frame.now → ⊥))) }
{
    let Some(frame) = frame_in(entry) else {
        return Ok(None);
    };
    if set.has(alloc, frame)? {
        return Ok(None);
    }
    Ok(Some(frame))
}

// These with some frames more. Only memory fails it.
fn with_frames(alloc: Global, mut set: FrameSet, frames: &[Frame]) -> Result<FrameSet, AllocError>
    ensures { (before : List FrameOf) → AreOf before set
        → IfOk result (λ more. AreOf (before ++ frames.now) more) }
{
    for frame in frames {
        set = set.with(alloc, frame)?;
    }
    Ok(set)
}

/// What the first of the merged entries is refused for that is the arrival of a frame that no entry
/// before it transmitted. Only memory fails it. Each frame is looked up in a table.
pub fn first_fault(alloc: Global, merged: &[Entry]) -> Result<Option<CheckFault>, AllocError>
    ensures { IfOk result (λ found. MatchOption found (words.HaveOrigins merged.now)
        (λ fault. words.IsOriginFault merged.now fault)) }
{
    let mut set = FrameSet::new(alloc);
    for (place, entry) in merged.iter().enumerate() {
        if let Some(frame) = lone_frame(alloc, entry, &set)? {
            let before = merged.split_at(place).0;
            return Ok(Some(origin_fault(merged, before, entry.space, frame)));
        }
        set = with_frames(alloc, set, frames_of(entry))?;
    }
    Ok(None)
}
