//! Lines of traces to entries.

ghost use Rattle.std.specs.Prelude.{◌≡◌, ◌++◌, ◌∷◌, [], List, ℕ, Ok, Err, Result as ResultOf, IfOk, MatchOption, codes, true, false};
ghost use Rattle.nob_frame.specs.declared.frame.Frame.{Frame as FrameOf};
ghost use Rattle.nob_frame.specs.Spelling.{Fits};
ghost use Rattle.nob_model_types.specs.declared.event.Event.{Event as EventOf};
ghost use Rattle.nob_model_types.specs.declared.answer.Answer.{Answer as AnswerOf};
ghost use Rattle.nob_model_types.specs.declared.refusal.Refusal.{Refusal as RefusalOf};
ghost use Rattle.nob_model_text.specs.Events.{IsSpoken, event_text};
ghost use Rattle.nob_model_text.specs.Reading.{Reads};
ghost use Rattle.nob_model_text.specs.Answers.{answer_text};
ghost use Rattle.nob_model_reading.specs.Told.{IsTold};
ghost use Rattle.nob_trace.specs.declared.stamped.Stamped.{Stamped as StampedOf};
ghost use Rattle.nob_trace.specs.Frames.{IsFramed, frame_text};
ghost use Rattle.nob_trace.specs.Entries.{IsTraced, IsTracedEvent, IsTracedResult, arrival_text, entry_text, result_text};
ghost use Rattle.nob_trace.specs.Entries as entries;
ghost use Rattle.nob_trace.specs.Reading.{Lacks};

use crate::frame_reading::{whole_frame, whole_frames};
use crate::lines::split_at_byte;
use crate::stamped::Stamped;
use nob_frame::Version;
use nob_model_reading::{after_space, whole_answer, whole_event};
use nob_model_text::{Unread, number_at, refusal_of};
use nob_model_types::{Answer, Event, Refusal};
use std::alloc::Global;

/// The entry that a line of a trace of a version spells, without its newline. Only memory and a
/// line that spells none fail it. It costs time and memory in proportion to the line, and recurses
/// once for each level of a value.
pub fn entry_of(alloc: Global, version: Version, line: &[u8]) -> Result<Stamped, Unread>
    ensures found { IfOk result (λ entry. IsTraced version entry
        × (line.now ≡ entry_text version entry)) }
    ensures only { (entry : StampedOf) → IsTraced version entry
        → line.now ≡ entry_text version entry → Reads (λ e. e ≡ entry) result }
{
    let (stamp, behind) = number_at(alloc, line)?;
    let (event, answer) = sides_of(after_space(behind)?)?;
    let event = traced_event(alloc, version, event)?;
    let result = traced_result(alloc, version, answer)?;
    Ok(Stamped {
        stamp,
        event,
        result,
    })
}

// What stands before the first equals sign between spaces, and what stands behind it.
fn sides_of(text: &[u8]) -> Result<(&[u8], &[u8]), Unread>
    ensures found { IfOk result (λ sides. text.now ≡ sides.0.now ++ (codes " = " ++ sides.1.now)) }
    ensures only { (left right : List ℕ) → Lacks 61 left → text.now ≡ left ++ (codes " = " ++ right)
        → Reads (λ sides. (sides.0.now ≡ left) × (sides.1.now ≡ right)) result }
{
    let Some((front, back)) = split_at_byte(text, b'=') else {
        return Err(Unread::NoText);
    };
    let Some((last, left)) = front.split_last() else {
        return Err(Unread::NoText);
    };
    if *last != b' ' {
        return Err(Unread::NoText);
    }
    let right = after_space(back)?;
    Ok((left, right))
}

// The event of a trace of a version that a text spells.
fn traced_event(alloc: Global, version: Version, text: &[u8]) -> Result<Event, Unread>
    ensures found { IfOk result (λ event. IsTracedEvent version event
        × (text.now ≡ event_text (arrival_text version event) event)) }
    ensures only { (event : EventOf) → IsTracedEvent version event
        → text.now ≡ event_text (arrival_text version event) event → Reads (λ e. e ≡ event) result }
{
    match after_arrive(text) {
        Some(rest) => arrival_of(alloc, version, rest),
        None => script_event(alloc, version, text),
    }
}

// What follows the word of an arrival with which a text begins.
fn after_arrive(text: &[u8]) -> Option<&[u8]>
    ensures { MatchOption result ((rest : List ℕ) → text.now ≡ codes "arrive " ++ rest → ⊥)
        (λ rest. text.now ≡ codes "arrive " ++ rest.now) }
{
    match text {
        [b'a', b'r', b'r', b'i', b'v', b'e', b' ', rest @ ..] => Some(rest),
        _ => None,
    }
}

// The arrival that a text spells behind its word.
fn arrival_of(alloc: Global, version: Version, text: &[u8]) -> Result<Event, Unread>
    ensures found { IfOk result (λ event. IsTracedEvent version event
        × (codes "arrive " ++ text.now ≡ event_text (arrival_text version event) event)) }
    ensures only { (frame : FrameOf) → IsFramed version frame
        → text.now ≡ frame_text version frame
        → Reads (λ e. e ≡ Event.Arrive frame) result }
{
    Ok(Event::Arrive(whole_frame(alloc, version, text)?))
}

// The event of a script that a text spells, which stands so in traces of each version that has it.
fn script_event(alloc: Global, version: Version, text: &[u8]) -> Result<Event, Unread>
    ensures found { IfOk result (λ event. IsTracedEvent version event
        × (text.now ≡ event_text (arrival_text version event) event)) }
    ensures only { (event : EventOf) → IsSpoken event → IsTracedEvent version event
        → text.now ≡ event_text [] event → Reads (λ e. e ≡ event) result }
{
    let event = whole_event(alloc, text)?;
    if !has_event(version, &event) {
        return Err(Unread::NoText);
    }
    Ok(event)
}

// Whether traces of a version have an event: version 1 has none that opens a session anew.
fn has_event(version: Version, event: &Event) -> bool
    ensures { result ≡ entries.has_event version event.now }
{
    match event {
        Event::Open(_) => can_open(version),
        _ => true,
    }
}

// Whether traces of a version have an event that opens a session anew.
fn can_open(version: Version) -> bool
    ensures { result ≡ entries.can_open version }
{
    match version {
        Version::One => false,
        Version::Two => true,
    }
}

// The result in a trace of a version that a text spells.
fn traced_result(
    alloc: Global,
    version: Version,
    text: &[u8],
) -> Result<Result<Answer, Refusal>, Unread>
    ensures found { IfOk result (λ response. IsTracedResult version response
        × (text.now ≡ result_text version response)) }
    ensures only { (response : ResultOf AnswerOf RefusalOf) → IsTracedResult version response
        → text.now ≡ result_text version response → Reads (λ r. r ≡ response) result }
{
    if begins_as_refusal(text) {
        return refusal_result(version, text);
    }
    if begins_as_frames(text) {
        return frames_result(alloc, version, text);
    }
    answer_result(alloc, version, text)
}

// Whether a text begins with the letter of refusals.
fn begins_as_refusal(text: &[u8]) -> bool
    ensures yes { result ≡ true → (rest : List ℕ) × (text.now ≡ 83 ∷ rest) }
    ensures no { result ≡ false → (rest : List ℕ) → text.now ≡ 83 ∷ rest → ⊥ }
{
    match text {
        [b'S', ..] => true,
        _ => false,
    }
}

// Whether a text begins with the first two letters of a transmit's answer.
fn begins_as_frames(text: &[u8]) -> bool
    ensures yes { result ≡ true → (rest : List ℕ) × (text.now ≡ 102 ∷ 114 ∷ rest) }
    ensures no { result ≡ false → (rest : List ℕ) → text.now ≡ 102 ∷ 114 ∷ rest → ⊥ }
{
    match text {
        [b'f', b'r', ..] => true,
        _ => false,
    }
}

// The refusal that a text spells, as a result. It takes no memory.
fn refusal_result(version: Version, text: &[u8]) -> Result<Result<Answer, Refusal>, Unread>
    ensures found { IfOk result (λ response. IsTracedResult version response
        × (text.now ≡ result_text version response)) }
    ensures only { (refusal : RefusalOf) → text.now ≡ result_text version (Err refusal)
        → Reads (λ r. r ≡ Err refusal) result }
{
    match refusal_of(text) {
        Some(refusal) => Ok(Err(refusal)),
        None => Err(Unread::NoText),
    }
}

// The frames that a text spells, as a result.
fn frames_result(
    alloc: Global,
    version: Version,
    text: &[u8],
) -> Result<Result<Answer, Refusal>, Unread>
    ensures found { IfOk result (λ response. IsTracedResult version response
        × (text.now ≡ result_text version response)) }
    ensures only { (frames : List FrameOf) → IsTracedResult version (Ok (Answer.Frames frames))
        → text.now ≡ result_text version (Ok (Answer.Frames frames))
        → Reads (λ r. r ≡ Ok (Answer.Frames frames)) result }
{
    Ok(Ok(Answer::Frames(whole_frames(alloc, version, text)?)))
}

// The answer without frames that a text spells, as a result.
fn answer_result(
    alloc: Global,
    version: Version,
    text: &[u8],
) -> Result<Result<Answer, Refusal>, Unread>
    ensures found { IfOk result (λ response. IsTracedResult version response
        × (text.now ≡ result_text version response)) }
    ensures only { (answer : AnswerOf) → IsTold answer → text.now ≡ answer_text [] answer
        → Reads (λ r. r ≡ Ok answer) result }
{
    match whole_answer(alloc, text) {
        Ok(answer) => Ok(Ok(answer)),
        Err(unread) => Err(unread),
    }
}
