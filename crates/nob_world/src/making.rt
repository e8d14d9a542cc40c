//! What a step needs of one space and of the frames.

ghost use Rattle.std.specs.Prelude.{◌≡◌, ◌≢◌, ◌≤◌, ◌<◌, ◌+◌, ◌++◌, ◌∷◌, [], List, ℕ, Some, None, Ok, length, reverse, Err, IfOk, IfErr, OnErr, MatchOption};
ghost use Rattle.std.specs.List.{AllByRecursion};
ghost use Rattle.std.specs.Vec.{vec_len, vec_capacity};
ghost use Rattle.nob_ids.specs.Names.{IsSpace};
ghost use Rattle.nob_ids.specs.declared.limits.Limits.{Limits as LimitsOf};
ghost use Rattle.nob_frame.specs.Spelling.{Fits};
ghost use Rattle.nob_frame.specs.declared.version.Version.TheVariants.{Two};
ghost use Rattle.nob_model_types.specs.declared.entry.Entry.{Entry as EntryOf};
ghost use Rattle.nob_model_types.specs.declared.answer.Answer.{Answer as AnswerOf};
ghost use Rattle.nob_model.specs.Right.{right};
ghost use Rattle.nob_model_types.specs.Deeds.{deed_of};
ghost use Rattle.nob_model_journal.specs.Journals.{frames_of};
ghost use Rattle.nob_model_journal.specs.Runs as runs;
ghost use Rattle.nob_model_journal.specs.Runs.{ArrivesGiven};
ghost use Rattle.nob_space.specs.Spaces.{StandsFor};
ghost use Rattle.nob_world.specs.Worlds as spec;
ghost use Rattle.nob_world.specs.declared.error.WorldError.{WorldError as WorldErrorOf};

use crate::error::WorldError;
use nob_frame::Frame;
use nob_ids::SpaceId;
use nob_model::{Answer, Entry, Event, WorldStep};
use nob_session::wire;
use nob_space::{Space, SpaceError};
use std::alloc::{AllocError, Global};

// A frame as it arrives: its bytes are written, and it is read from them alone.
pub(crate) fn carry(alloc: Global, frame: &Frame) -> Result<Frame, AllocError>
    requires { Fits Two frame.now }
    ensures { IfOk result (λ arrived. arrived ≡ frame.now) }
{
    let bytes = wire::to_bytes(alloc, frame)?;
    wire::from_bytes(alloc, bytes.as_slice())
}

// The frame of a number, counted from 1.
pub(crate) fn frame_at(frames: &[Frame], number: u64) -> Option<&Frame>
    ensures { MatchOption result (runs.frame_of number frames.now ≡ None)
        (λ frame. runs.frame_of number frames.now ≡ Some frame.now) }
{
    if number == 0 {
        return None;
    }
    frames.get((number - 1) as usize)
}

// The frames that a space gives if it is asked this: none but by a Transmit.
pub(crate) fn frames_due(
    alloc: Global,
    space: &Space,
    event: &Event,
) -> Result<Vec<Frame>, AllocError>
    ensures frames { IfOk result (λ frames. (L : List EntryOf) (answer : AnswerOf)
        → StandsFor space.now L → right space.now.id space.now.n space.now.limits L event.now
        ≡ Ok answer → frames.items ≡ frames_of (deed_of event.now answer)) }
    ensures to { IfOk result (λ frames. (L : List EntryOf) → StandsFor space.now L
        → AllByRecursion (λ frame. frame.to ≤ space.now.n) frames.items) }
    ensures spelt { IsSpace space.now.id
        → IfOk result (λ frames. AllByRecursion (Fits Two) frames.items) }
{
    let Event::Transmit(peer) = event else {
        return Ok(Vec::new(alloc));
    };
    match space.frames(*peer) {
        Ok(frames) => Ok(frames),
        Err(SpaceError::Refused(_)) => Ok(Vec::new(alloc)),
        Err(SpaceError::OutOfMemory) => Err(AllocError),
    }
}

// Puts frames behind others, for which there is room. It takes no memory.
pub(crate) fn put_frames(frames: &mut Vec<Frame>, more: Vec<Frame>)
    requires room { vec_len frames.old + vec_len more ≤ vec_capacity frames.old }
    ensures { frames.new.items ≡ frames.old.items ++ more.items }
{
    let mut rest = more;
    if rest.is_empty() {
        return;
    }
    let frame = rest.remove(0);
    match frames.push(frame) {
        Ok(()) => {}
        Err(_failed) => unreachable!(),
    }
    put_frames(frames, rest);
}

// Puts an entry behind others, for which there is room. It takes no memory.
fn put_entry(entries: &mut Vec<Entry>, entry: Entry)
    requires room { vec_len entries.old < vec_capacity entries.old }
    ensures { entries.new.items ≡ entries.old.items ++ entry ∷ [] }
{
    match entries.push(entry) {
        Ok(()) => {}
        Err(_failed) => unreachable!(),
    }
}

// What an event makes of the spaces of a world and of what is kept of them. All growth is made
// first.
pub(crate) fn make(
    alloc: Global,
    spaces: &mut Vec<Space>,
    entries: &mut Vec<Entry>,
    frames: &mut Vec<Frame>,
    space: SpaceId,
    event: Event,
) -> Result<Answer, WorldError>
    requires { space ≤ length spaces.old.items }
    ensures entries { IfOk (spec.outcome result) (λ answer. entries.new.items
        ≡ entries.old.items ++ spec.entry_of space event answer ∷ []) }
    ensures world { (n : ℕ) (limits : LimitsOf)
        → spec.IsWorld (spec.world_of n limits spaces.old.items entries.old.items frames.old.items)
        → ArrivesGiven event (reverse entries.old.items)
        → spec.IsWorld (spec.world_of n limits spaces.new.items entries.new.items
        frames.new.items) }
    ensures only { IfErr (spec.outcome result) (λ error. error ≡ WorldError.OutOfMemory) }
    ensures err { OnErr (spec.outcome result) (entries.new.items ≡ entries.old.items) }
    ensures err_frames { OnErr (spec.outcome result) (frames.new.items ≡ frames.old.items) }
{
    let Ok(()) = entries.reserve(1) else {
        return Err(WorldError::OutOfMemory);
    };
    let place = space.place();
    let Ok(more) = frames_due(alloc, &spaces[place], &event) else {
        return Err(WorldError::OutOfMemory);
    };
    let Ok(()) = frames.reserve(more.len()) else {
        return Err(WorldError::OutOfMemory);
    };
    match spaces[place].step_twice(&event) {
        Ok((answer, copy)) => {
            put_entry(
                entries,
                Entry {
                    space,
                    event,
                    result: Ok(copy),
                },
            );
            put_frames(frames, more);
            Ok(answer)
        }
        Err(SpaceError::Refused(refusal)) => {
            put_entry(
                entries,
                Entry {
                    space,
                    event,
                    result: Err(refusal),
                },
            );
            Err(WorldError::Refused(refusal))
        }
        Err(SpaceError::OutOfMemory) => Err(WorldError::OutOfMemory),
    }
}

// Whether an event is the arrival of a frame.
fn is_arrival(event: &Event) -> bool
    ensures { result ≡ spec.is_arrival event.now }
{
    match event {
        Event::Arrive(_) => true,
        _ => false,
    }
}

// One step of the world of these spaces, n of them, and of what is kept of them.
pub(crate) fn take_step(
    alloc: Global,
    n: u16,
    spaces: &mut Vec<Space>,
    entries: &mut Vec<Entry>,
    frames: &mut Vec<Frame>,
    step: &WorldStep,
) -> Result<Answer, WorldError>
    requires { (limits : LimitsOf) × spec.IsWorld
        (spec.world_of n limits spaces.old.items entries.old.items frames.old.items) }
    ensures entries { IfOk (spec.outcome result) (λ answer.
        spec.AddsTo step.now answer entries.old.items entries.new.items) }
    ensures world { (limits : LimitsOf) → spec.IsWorld
        (spec.world_of n limits spaces.old.items entries.old.items frames.old.items)
        → spec.IsWorld (spec.world_of n limits spaces.new.items entries.new.items
        frames.new.items) }
    ensures fault { (fault : WorldErrorOf)
        → spec.step_fault n frames.old.items step.now ≡ Some fault → result ≡ Err fault }
    ensures only { IfErr (spec.outcome result) (λ error. error ≢ WorldError.OutOfMemory
        → spec.step_fault n frames.old.items step.now ≡ Some error) }
    ensures err { OnErr (spec.outcome result) (entries.new.items ≡ entries.old.items) }
    ensures err_frames { OnErr (spec.outcome result) (frames.new.items ≡ frames.old.items) }
{
    match step {
        WorldStep::Do(space, event) => {
            if n < space.get() {
                return Err(WorldError::NoSpace);
            }
            if is_arrival(event) {
                return Err(WorldError::NoFrame);
            }
            let Ok(event) = event.copy() else {
                return Err(WorldError::OutOfMemory);
            };
            make(alloc, spaces, entries, frames, *space, event)
        }
        WorldStep::Deliver(number) => {
            let Some(frame) = frame_at(frames.as_slice(), *number) else {
                return Err(WorldError::NoFrame);
            };
            let Ok(frame) = carry(alloc, frame) else {
                return Err(WorldError::OutOfMemory);
            };
            let space = frame.to;
            make(alloc, spaces, entries, frames, space, Event::Arrive(frame))
        }
    }
}
