//! Which rows are drawn, and their places.

ghost use Rattle.std.specs.Prelude.{◌≡◌, ◌≤◌, ◌++◌, ◌∷◌, [], suc, Some, None, IfOk, length, if◌then◌else◌};
ghost use Rattle.std.specs.List.{list_any, list_all};
ghost use Rattle.nob_frame.specs.Kinds.{is_ack};
ghost use Rattle.nob_frame.specs.declared.frame.Frame.{Frame as FrameOf};
ghost use Rattle.nob_drawing_choice.specs.Choices as spec;

use crate::choice::{Choice, has_subject, is_of_space, is_subject, is_with};
use crate::lives::names_at;
use crate::names::Names;
use nob_frame::Frame;
use nob_ids::WireRep;
use nob_model_types::{Answer, Entry, Event, Refusal};
use std::alloc::{AllocError, Global};

// Whether an entry is part of the life that is asked for, where it is part of the lives of these
// references.
fn is_in_life(choice: &Choice, names: &[WireRep]) -> bool
    ensures { result ≡ spec.is_in_life choice.now names.now }
{
    names.iter().any(|rep| is_subject(choice, *rep))
}

// Whether one of these frames is from or to the space that is asked for.
fn one_is_with(choice: &Choice, frames: &[Frame]) -> bool
    ensures { result ≡ list_any (spec.is_with choice.now) frames.now }
{
    frames.iter().any(|frame| is_with(choice, frame))
}

// Whether a frame arrives that is from or to the space that is asked for.
fn brings(choice: &Choice, event: &Event) -> bool
    ensures { result ≡ spec.brings choice.now event.now }
{
    match event {
        Event::Arrive(frame) => is_with(choice, frame),
        _ => false,
    }
}

// Whether one is given.
fn gives(choice: &Choice, response: &Result<Answer, Refusal>) -> bool
    ensures { result ≡ spec.gives choice.now response.now }
{
    match response {
        Ok(answer) => match answer {
            Answer::Frames(frames) => one_is_with(choice, frames.as_slice()),
            _ => false,
        },
        Err(_) => false,
    }
}

// Whether an entry is of the space that is asked for, or a frame from or to it arrives or is given.
fn is_in_part(choice: &Choice, entry: &Entry) -> bool
    ensures { result ≡ spec.is_in_part choice.now entry.now }
{
    is_of_space(choice, entry.space.get())
        || (brings(choice, &entry.event) || gives(choice, &entry.result))
}

// Whether all of these frames are Acks.
fn all_acks(frames: &[Frame]) -> bool
    ensures { result ≡ list_all (λ (frame : FrameOf). is_ack frame.kind) frames.now }
{
    frames.iter().all(|frame| frame.kind.is_ack())
}

// Whether there are frames, and all are Acks.
fn are_acks(frames: &[Frame]) -> bool
    ensures { result ≡ spec.are_acks frames.now }
{
    match frames {
        [] => false,
        [frame, others @ ..] => frame.kind.is_ack() && all_acks(others),
    }
}

// Whether an Ack arrives.
fn brings_ack(event: &Event) -> bool
    ensures { result ≡ spec.brings_ack event.now }
{
    match event {
        Event::Arrive(frame) => frame.kind.is_ack(),
        _ => false,
    }
}

// Whether an event with its result is left out of what is brief.
fn is_small(event: &Event, response: &Result<Answer, Refusal>) -> bool
    ensures { result ≡ spec.is_small event.now response.now }
{
    match response {
        Err(_) => true,
        Ok(answer) => match answer {
            Answer::Took(_) => brings_ack(event),
            Answer::Frames(frames) => are_acks(frames.as_slice()),
            _ => false,
        },
    }
}

// Whether the entry at a row is the one that is wrong.
fn is_wrong(fault: Option<usize>, row: usize) -> bool
    ensures { result ≡ spec.is_wrong fault row }
{
    match fault {
        None => false,
        Some(place) => place == row,
    }
}

// Whether the entry at a row is drawn.
fn is_chosen(
    choice: &Choice,
    fault: Option<usize>,
    lives: &[Names],
    row: usize,
    entry: &Entry,
) -> bool
    ensures { result ≡ spec.is_chosen choice.now fault lives.now row entry.now }
{
    if is_wrong(fault, row) {
        return true;
    }
    if !is_in_part(choice, entry) {
        return false;
    }
    if choice.brief && is_small(&entry.event, &entry.result) {
        return false;
    }
    if !has_subject(choice) {
        return true;
    }
    is_in_life(choice, names_at(lives, row))
}

// How many entries are drawn with the one at a row, after so many others, and the places with its
// own.
fn with_place(
    chosen: bool,
    count: usize,
    mut all: Vec<Option<usize>>,
) -> Result<(usize, Vec<Option<usize>>), AllocError>
    requires { count ≤ length all.items }
    ensures count { IfOk result (λ found. found.0 ≡ (if chosen then suc count else count)) }
    ensures places { IfOk result (λ found. found.1.items
        ≡ all.items ++ (if chosen then Some (suc count) else None) ∷ []) }
    ensures bound { IfOk result (λ found. found.0 ≤ length found.1.items) }
{
    if chosen {
        all.push(Some(count + 1))?;
        return Ok((count + 1, all));
    }
    all.push(None)?;
    Ok((count, all))
}

// The place of each row of a journal among those that are drawn.
pub(crate) fn places(
    alloc: Global,
    choice: &Choice,
    fault: Option<usize>,
    lives: &[Names],
    journal: &[Entry],
) -> Result<Vec<Option<usize>>, AllocError>
    ensures { IfOk result (λ all. all.items
        ≡ spec.places choice.now fault lives.now journal.now) }
{
    let mut all = Vec::new(alloc);
    let mut count = 0usize;
    for passed in 0..journal.len() {
        let entry = &journal[journal.len() - 1 - passed];
        let chosen = is_chosen(choice, fault, lives, passed + 1, entry);
        let (more, longer) = with_place(chosen, count, all)?;
        count = more;
        all = longer;
    }
    Ok(all)
}
