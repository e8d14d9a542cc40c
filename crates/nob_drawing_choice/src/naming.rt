//! Which references an entry names.

ghost use Rattle.std.specs.Prelude.{◌≡◌, ◌++◌, IfOk, flat_map};
ghost use Rattle.nob_model_types.specs.Sessions.{item_spelt as item_spelt_of};
ghost use Rattle.nob_pickle.specs.Spelling.{refs_in};
ghost use Rattle.nob_ids.specs.declared.wire_rep.WireRep.{WireRep as Rep};
ghost use Rattle.std.specs.Prelude.{◌∷◌, []};
ghost use Rattle.nob_drawing_choice.specs.Naming as spec;

use nob_frame::{Frame, FrameKind};
use nob_ids::{SpaceId, WireRep};
use nob_item::Item;
use nob_model_types::{Answer, Entry, Event, Outcome, Refusal};
use nob_pickle::{Value, refs_of};
use nob_plain_words::sessions::item_spelt;
use std::alloc::{AllocError, Global};

// An object of a space.
fn object_of(owner: SpaceId, index: u64) -> WireRep
    ensures { result ≡ spec.object_of owner index }
{
    WireRep { owner, index }
}

// One reference.
fn lone(alloc: Global, rep: WireRep) -> Result<Vec<WireRep>, AllocError>
    ensures { IfOk result (λ names. names.items ≡ rep ∷ []) }
{
    let mut names = Vec::new(alloc);
    names.push(rep)?;
    Ok(names)
}

// A reference, and those in a value.
fn and_those_in(alloc: Global, rep: WireRep, value: &Value) -> Result<Vec<WireRep>, AllocError>
    ensures { IfOk result (λ names. names.items ≡ rep ∷ refs_in value.now) }
{
    let mut names = refs_of(alloc, value)?;
    names.insert(0, rep)?;
    Ok(names)
}

// What an item from one space to another names.
fn names_of_item(
    alloc: Global,
    from: SpaceId,
    to: SpaceId,
    item: &Item,
) -> Result<Vec<WireRep>, AllocError>
    ensures { IfOk result (λ names. names.items ≡ spec.names_of_item from to item.now) }
{
    match item {
        Item::Call {
            call: _,
            target,
            method: _,
            value,
        } => and_those_in(alloc, object_of(to, *target), value),
        Item::Reply {
            call: _,
            status: _,
            value,
        } => refs_of(alloc, value),
        Item::Settle(_) => Ok(Vec::new(alloc)),
        Item::Dirty(index) | Item::Clean(index) => lone(alloc, object_of(to, *index)),
        Item::DirtyOk(index) | Item::DirtyNo(index) => lone(alloc, object_of(from, *index)),
    }
}

// What the item that bytes carry from one space to another names, if they carry one.
fn names_of_payload(
    alloc: Global,
    from: SpaceId,
    to: SpaceId,
    payload: &[u8],
) -> Result<Vec<WireRep>, AllocError>
    ensures { IfOk result (λ names. names.items
        ≡ spec.names_of_some from to (item_spelt_of payload.now)) }
{
    match item_spelt(alloc, payload)? {
        Some(item) => names_of_item(alloc, from, to, &item),
        None => Ok(Vec::new(alloc)),
    }
}

// What a frame names.
fn names_of_frame(alloc: Global, frame: &Frame) -> Result<Vec<WireRep>, AllocError>
    ensures { IfOk result (λ names. names.items ≡ spec.names_of_frame frame.now) }
{
    match frame.kind {
        FrameKind::Data => {
            names_of_payload(alloc, frame.from, frame.to, frame.payload.as_slice())
        }
        FrameKind::Ack => Ok(Vec::new(alloc)),
        FrameKind::Close => Ok(Vec::new(alloc)),
    }
}

// What frames name.
fn names_of_frames(alloc: Global, frames: &[Frame]) -> Result<Vec<WireRep>, AllocError>
    ensures { IfOk result (λ names. names.items ≡ flat_map spec.names_of_frame frames.now) }
{
    let mut names = Vec::new(alloc);
    for frame in frames {
        let mut more = names_of_frame(alloc, frame)?;
        names.append(&mut more)?;
    }
    Ok(names)
}

// What a job's method made of its call names.
fn names_of_outcome(alloc: Global, outcome: &Outcome) -> Result<Vec<WireRep>, AllocError>
    ensures { IfOk result (λ names. names.items ≡ spec.names_of_outcome outcome.now) }
{
    match outcome {
        Outcome::Answer(value) | Outcome::Fault(value) => refs_of(alloc, value),
        Outcome::NoMethod => Ok(Vec::new(alloc)),
    }
}

// What a space is asked names.
fn names_of_event(alloc: Global, space: SpaceId, event: &Event) -> Result<Vec<WireRep>, AllocError>
    ensures { IfOk result (λ names. names.items ≡ spec.names_of_event space event.now) }
{
    match event {
        Event::Dup(rep) | Event::Release(rep) => lone(alloc, *rep),
        Event::Call {
            target,
            method: _,
            value,
        } => and_those_in(alloc, *target, value),
        Event::Finish(_, outcome) => names_of_outcome(alloc, outcome),
        Event::Withdraw(index) => lone(alloc, object_of(space, *index)),
        Event::Arrive(frame) => names_of_frame(alloc, frame),
        _ => Ok(Vec::new(alloc)),
    }
}

// What a space answers names.
fn names_of_answer(
    alloc: Global,
    space: SpaceId,
    answer: &Answer,
) -> Result<Vec<WireRep>, AllocError>
    ensures { IfOk result (λ names. names.items ≡ spec.names_of_answer space answer.now) }
{
    match answer {
        Answer::Exported(rep) | Answer::Cleaned(rep) => lone(alloc, *rep),
        Answer::Replied(_, value) => refs_of(alloc, value),
        Answer::Job(job) => and_those_in(alloc, object_of(space, job.target), &job.value),
        Answer::Frames(frames) => names_of_frames(alloc, frames.as_slice()),
        _ => Ok(Vec::new(alloc)),
    }
}

// What an event with its result names: a refusal names nothing.
fn names_of_result(
    alloc: Global,
    space: SpaceId,
    response: &Result<Answer, Refusal>,
) -> Result<Vec<WireRep>, AllocError>
    ensures { IfOk result (λ names. names.items ≡ spec.names_of_result space response.now) }
{
    match response {
        Ok(answer) => names_of_answer(alloc, space, answer),
        Err(_) => Ok(Vec::new(alloc)),
    }
}

// What an entry names.
pub(crate) fn names_in(alloc: Global, entry: &Entry) -> Result<Vec<WireRep>, AllocError>
    ensures { IfOk result (λ names. names.items ≡ spec.names_in entry.now) }
{
    let mut names = names_of_event(alloc, entry.space, &entry.event)?;
    let mut more = names_of_result(alloc, entry.space, &entry.result)?;
    names.append(&mut more)?;
    Ok(names)
}
