//! Scripts on worlds, where a step that wanted memory is made once more.

ghost use Rattle.std.specs.Prelude.{◌≡◌, ◌↔◌, ◌≤◌, ◌∷◌, [], List, true, length, reverse, take, IfOk, OnOk, OnErr};
ghost use Rattle.nob_model_types.specs.declared.entry.Entry.{Entry as EntryOf};
ghost use Rattle.nob_model_journal.specs.Runs.{WorldRun};
ghost use Rattle.nob_trace.specs.declared.trace.Trace.{Trace as TraceOf};
ghost use Rattle.nob_model_traces.specs.Faults.{AreAccepted};
ghost use Rattle.test_worlds.specs.Makings as makings;

use crate::asking::answer_of;
use crate::growths::step_script::StepScript;
use nob_check::{CheckError, check};
use nob_frame::Version;
use nob_ids::SpaceId;
use nob_model::{Answer, Entry, Refusal, WorldStep};
use nob_trace::{Entries, Stamped, Trace};
use nob_world::{World, WorldError};
use std::alloc::{AllocError, Global};

/// How the steps of a script are made.
#[derive(Clone, Copy)]
pub enum Stride {
    /// One after the other.
    StepByStep,
    /// As whole lists: all that are left, as often as a step stops them.
    AllAtOnce,
}

/// The entries that a script makes in a new world, the first first: a run of a world of as many
/// spaces with these limits. Only memory fails it, twice in one place.
pub fn entries_of(
    alloc: Global,
    script: &StepScript,
    stride: Stride,
) -> Result<Vec<Entry>, AllocError>
    ensures run { IfOk result (λ entries.
        WorldRun script.now.n (λ _. script.now.limits) (reverse entries.items)) }
    ensures made { IfOk result (λ entries. makings.CameFrom script.now.n
        (reverse script.now.steps.items) (reverse entries.items)) }
{
    let mut world = new_world(alloc, script)?;
    let entries = entries_in(alloc, &mut world, script, stride);
    world.shut();
    entries
}

// A new world of a script's spaces, with its limits.
fn new_world(alloc: Global, script: &StepScript) -> Result<World, AllocError>
    ensures n { IfOk result (λ world. world.n ≡ script.now.n) }
    ensures limits { IfOk result (λ world. world.limits ≡ script.now.limits) }
    ensures entries { IfOk result (λ world. world.entries ≡ []) }
{
    match World::new(alloc, script.n.get(), script.limits) {
        Ok(world) => Ok(world),
        Err(_) => World::new(alloc, script.n.get(), script.limits),
    }
}

// The same in a world that has made no step.
fn entries_in(
    alloc: Global,
    world: &mut World,
    script: &StepScript,
    stride: Stride,
) -> Result<Vec<Entry>, AllocError>
    ensures run { IfOk result (λ entries.
        WorldRun world.new.n (λ _. world.new.limits) (reverse entries.items)) }
    ensures made { IfOk result (λ entries. world.old.entries ≡ []
        → makings.CameFrom world.old.n (reverse script.now.steps.items)
        (reverse entries.items)) }
    ensures n { world.new.n ≡ world.old.n }
    ensures limits { world.new.limits ≡ world.old.limits }
{
    make_steps(world, script.steps.as_slice(), stride)?;
    entries_made(alloc, world)
}

// Makes steps in a way.
fn make_steps(world: &mut World, steps: &[WorldStep], stride: Stride) -> Result<(), AllocError>
    ensures made { OnOk result (makings.Makes (reverse steps.now) world.old world.new) }
    ensures n { world.new.n ≡ world.old.n }
    ensures limits { world.new.limits ≡ world.old.limits }
{
    match stride {
        Stride::StepByStep => make_each(world, steps),
        Stride::AllAtOnce => make_all(world, steps),
    }
}

// The entries that were made.
fn entries_made(alloc: Global, world: &World) -> Result<Vec<Entry>, AllocError>
    ensures entries { IfOk result (λ entries. entries.items ≡ world.now.entries) }
    ensures run { IfOk result (λ entries.
        WorldRun world.now.n (λ _. world.now.limits) (reverse entries.items)) }
{
    let made = world.entries();
    let Ok(entries) = copy_with_retry(alloc, made) else {
        return Err(AllocError);
    };
    Ok(entries)
}

// The same entries once more. One of the two runs of a script may want memory once.
fn copy_with_retry(alloc: Global, entries: &[Entry]) -> Result<Vec<Entry>, AllocError>
    ensures { IfOk result (λ copy. copy.items ≡ entries.now) }
{
    match copy_of(alloc, entries) {
        Ok(copy) => Ok(copy),
        Err(_) => copy_of(alloc, entries),
    }
}

// Makes steps one after the other.
fn make_each(world: &mut World, steps: &[WorldStep]) -> Result<(), AllocError>
    ensures made { OnOk result (makings.Makes (reverse steps.now) world.old world.new) }
    ensures n { world.new.n ≡ world.old.n }
    ensures limits { world.new.limits ≡ world.old.limits }
{
    for step in steps {
        make(world, step)?;
    }
    Ok(())
}

// Makes a step, once more where it wanted memory.
fn make(world: &mut World, step: &WorldStep) -> Result<Option<Answer>, AllocError>
    ensures made { OnOk result (makings.Makes (step.now ∷ []) world.old world.new) }
    ensures n { world.new.n ≡ world.old.n }
    ensures limits { world.new.limits ≡ world.old.limits }
{
    match answer_of(world, step) {
        Ok(answer) => Ok(answer),
        Err(_) => answer_of(world, step),
    }
}

// Makes steps as whole lists: behind one that there is no space or no frame for it goes on with the
// next, at one that wanted memory with that one. So each list but one leaves a step out.
fn make_all(world: &mut World, steps: &[WorldStep]) -> Result<(), AllocError>
    ensures made { OnOk result (makings.Makes (reverse steps.now) world.old world.new) }
    ensures n { world.new.n ≡ world.old.n }
    ensures limits { world.new.limits ≡ world.old.limits }
{
    let mut left = steps;
    for _ in 0..steps.len().saturating_add(2) {
        let count = make_some(world, left);
        if count == left.len() {
            return Ok(());
        }
        left = left.split_at(count).1;
    }
    Err(AllocError)
}

// Makes steps as a whole list, up to one that wants memory, or past one that there is no space or
// no frame for: how many had their turn.
fn make_some(world: &mut World, steps: &[WorldStep]) -> usize
    ensures few { result ≤ length steps.now }
    ensures made { makings.Makes (reverse (take result steps.now)) world.old world.new }
    ensures n { world.new.n ≡ world.old.n }
    ensures limits { world.new.limits ≡ world.old.limits }
{
    let count = steps.len();
    // Looks at the entries and the frames show what they are.
    let _ = world.entries();
    let outcome = world.run(steps);
    let _ = world.entries();
    let _ = world.frames();
    match outcome {
        Ok(()) => count,
        Err((place, error)) => {
            if is_memory(error) {
                return place;
            }
            prove!(place < count);
            place + 1
        }
    }
}

// Whether memory was wanted.
fn is_memory(error: WorldError) -> bool
    ensures { (result ≡ true) ↔ (error ≡ WorldError.OutOfMemory) }
{
    match error {
        WorldError::Refused(_) => false,
        WorldError::NoSpace => false,
        WorldError::NoFrame => false,
        WorldError::OutOfMemory => true,
    }
}

// The same entries once more.
fn copy_of(alloc: Global, entries: &[Entry]) -> Result<Vec<Entry>, AllocError>
    ensures { IfOk result (λ copy. copy.items ≡ entries.now) }
{
    let mut copy = Vec::new(alloc);
    for entry in entries {
        copy.push(entry.copy()?)?;
    }
    Ok(copy)
}

/// Whether `check` accepts the traces that the entries of a script are, and finds as many. Only
/// memory fails it.
pub fn is_accepted(
    alloc: Global,
    script: &StepScript,
    entries: &[Entry],
) -> Result<bool, AllocError>
    ensures { IfOk result (λ is_accepted. is_accepted ≡ true → (traces : List TraceOf)
        × (merged : List EntryOf) × AreAccepted traces merged
        × (length merged ≡ length entries.now)) }
{
    let mut traces = Vec::new(alloc);
    for place in 0..script.n.get() {
        if let Some(space) = SpaceId::new(place.saturating_add(1)) {
            traces.push(trace_of(alloc, script, space, entries)?)?;
        }
    }
    match check(alloc, traces.as_slice()) {
        Ok(merged) => Ok(merged.len() == entries.len()),
        Err(CheckError::Fault(_)) => Ok(false),
        Err(CheckError::OutOfMemory) => Err(AllocError),
    }
}

// The trace of a space: its entries, stamped with their places among all.
fn trace_of(
    alloc: Global,
    script: &StepScript,
    space: SpaceId,
    all: &[Entry],
) -> Result<Trace, AllocError> {
    let mut entries = Entries::new(alloc);
    for (place, entry) in all.iter().enumerate() {
        if entry.space == space {
            entries = with_entry(entries, place as u64 + 1, entry)?;
        }
    }
    Ok(Trace {
        version: Version::Two,
        space,
        n: script.n,
        limits: script.limits,
        entries,
    })
}

// Entries with one more, if its stamp is above the last.
fn with_entry(mut entries: Entries, stamp: u64, entry: &Entry) -> Result<Entries, AllocError> {
    let event = entry.event.copy()?;
    let result = copy_of_result(&entry.result)?;
    if entries.last_stamp() < stamp {
        entries.push(Stamped {
            stamp,
            event,
            result,
        })?;
    }
    Ok(entries)
}

// The same result.
fn copy_of_result(told: &Result<Answer, Refusal>) -> Result<Result<Answer, Refusal>, AllocError> {
    match told {
        Ok(answer) => Ok(Ok(answer.copy()?)),
        Err(refusal) => Ok(Err(*refusal)),
    }
}
