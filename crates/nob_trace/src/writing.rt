//! Traces to texts.

ghost use Rattle.std.specs.Prelude.{◌≡◌, ◌≢◌, ◌++◌, ◌∷◌, [], List, true, Ok, Result as ResultOf, IfOk, IfErr, OnOk, codes};
ghost use Rattle.std.specs.List.{AllByRecursion};
ghost use Rattle.std.specs.String.{string_bytes};
ghost use Rattle.nob_frame.specs.Spelling.{Fits, Spelt, spelling};
ghost use Rattle.nob_frame.specs.Reading.{Gives};
ghost use Rattle.nob_model_text.specs.Events as events;
ghost use Rattle.nob_trace.specs.declared.fault.TraceFault.TheVariants as faults;
ghost use Rattle.nob_trace.specs.declared.fault.TraceError.TheVariants.{Fault, OutOfMemory};
ghost use Rattle.nob_trace.specs.Frames as frames;
ghost use Rattle.nob_trace.specs.Entries as entries;
ghost use Rattle.nob_trace.specs.Traces as spec;
ghost use Rattle.nob_trace.specs.Sessions.{is_known as is_known_trace};
ghost use Rattle.nob_trace.specs.Reading.{Answers, RunsOut};
ghost use Rattle.nob_trace.specs.Writing.{Writes, WritingFault};

use crate::fault::{TraceError, TraceFault};
use crate::head::Head;
use crate::known::is_known;
use crate::stamped::Stamped;
use crate::trace::Trace;
use nob_frame::{Frame, FrameError, Version};
use nob_model_text::{answer_text, event_text, refusal_text};
use nob_model_types::{Answer, Event, Refusal};
use std::alloc::{AllocError, Global};

/// The text of a trace; or R5 where its version can't speak of all that stands in it, which is
/// judged first and takes no memory; or R2 where a frame in it has no spelling. Want of memory
/// comes where there is room for no more, whatever stands behind. It costs time and memory in
/// proportion to the text, and recurses once for each level of a value.
pub fn encode(alloc: Global, trace: &Trace) -> Result<String, TraceError>
    ensures text { Answers (λ text. spec.IsWritable trace.now
        × (string_bytes text ≡ spec.trace_text trace.now)) (WritingFault trace.now) result }
    ensures memory { RunsOut (is_known_trace trace.now ≡ true) result }
{
    if !is_known(trace) {
        return Err(TraceError::Fault(TraceFault::Version));
    }
    text_of(alloc, trace)
}

// The text of a trace, or R2 where a frame in it has no spelling.
fn text_of(alloc: Global, trace: &Trace) -> Result<String, TraceError>
    ensures { Writes (λ text. string_bytes text ≡ spec.trace_text trace.now)
        (spec.IsWritable trace.now) result }
{
    let head = Head {
        version: trace.version,
        space: trace.space,
        n: trace.n,
        limits: trace.limits,
        count: trace.entries.len() as u64,
    };
    let mut text = head_text(alloc, &head)?;
    text.push_str("\n")?;
    put_entries(alloc, trace.version, &mut text, trace.entries.as_slice())?;
    Ok(text)
}

// The first line of a trace.
fn head_text(alloc: Global, head: &Head) -> Result<String, AllocError>
    ensures { IfOk result (λ text. string_bytes text ≡ spec.head_text head.now) }
{
    let word = head_word(head.version);
    let space = head.space;
    let n = head.n;
    let window = head.limits.window;
    let retry = head.limits.retry;
    let count = head.count;
    format!(in alloc; "{word}{space} of {n} window {window} retry {retry} entries {count}")
}

// The word with which a trace of a version begins, and the space behind it.
fn head_word(version: Version) -> &'static str
    ensures { result.now ≡ spec.head_word version }
{
    match version {
        Version::One => "trace ",
        Version::Two => "trace2 ",
    }
}

// Puts the lines of entries behind a text.
fn put_entries(
    alloc: Global,
    version: Version,
    text: &mut String,
    all: &[Stamped],
) -> Result<(), TraceError>
    ensures { Writes (λ _. string_bytes text.new
        ≡ string_bytes text.old ++ spec.entries_text version all.now)
        (AllByRecursion (entries.HasSpelling version) all.now) result }
{
    for entry in all {
        let line = entry_text(alloc, version, entry)?;
        text.push_str(line.as_str())?;
        text.push_str("\n")?;
    }
    Ok(())
}

/// The text of an entry in a trace of this version, or R2 where a frame in it has no spelling, or
/// the version hasn't such an event.
pub fn entry_text(alloc: Global, version: Version, entry: &Stamped) -> Result<String, TraceError>
    ensures { Writes (λ text. string_bytes text ≡ entries.entry_text version entry.now)
        (entries.HasSpelling version entry.now) result }
{
    let stamp = entry.stamp;
    let event = traced_event_text(alloc, version, &entry.event)?;
    let answer = result_text(alloc, version, &entry.result)?;
    Ok(format!(in alloc; "{stamp} {event} = {answer}")?)
}

// The text of an event in a trace, or R2 where the version hasn't such an event.
fn traced_event_text(alloc: Global, version: Version, event: &Event) -> Result<String, TraceError>
    ensures { Writes (λ text. string_bytes text
        ≡ events.event_text (entries.arrival_text version event.now) event.now)
        (entries.EventFits version event.now) result }
{
    match event {
        Event::Arrive(frame) => {
            let bytes = frame_text(alloc, version, frame)?;
            Ok(event_text(alloc, event, bytes.as_str())?)
        }
        Event::Open(_) => opening_text(alloc, version, event),
        _ => Ok(event_text(alloc, event, "")?),
    }
}

// The text of an event that opens a session, or R2 where the version has none.
fn opening_text(alloc: Global, version: Version, event: &Event) -> Result<String, TraceError>
    ensures { Writes (λ text. string_bytes text ≡ events.event_text [] event.now)
        (entries.can_open version ≡ true) result }
{
    match version {
        Version::One => Err(TraceError::Fault(TraceFault::Entry)),
        Version::Two => Ok(event_text(alloc, event, "")?),
    }
}

/// The text of a result in a trace of this version, or R2 where a frame in it has no spelling.
pub fn result_text(
    alloc: Global,
    version: Version,
    response: &Result<Answer, Refusal>,
) -> Result<String, TraceError>
    ensures { Writes (λ text. string_bytes text ≡ entries.result_text version response.now)
        (entries.TransmitFits version response.now) result }
{
    match response {
        Ok(Answer::Frames(list)) => frames_text(alloc, version, list.as_slice()),
        Ok(answer) => Ok(answer_text(alloc, answer, "")?),
        Err(refusal) => Ok(String::from_str(alloc, refusal_text(*refusal))?),
    }
}

// The text of the frames that a transmit gave.
fn frames_text(alloc: Global, version: Version, list: &[Frame]) -> Result<String, TraceError>
    ensures { Writes (λ text. string_bytes text ≡ frames.frames_text version list.now)
        (AllByRecursion (Fits version) list.now) result }
{
    if list.is_empty() {
        return Ok(String::from_str(alloc, "frames none")?);
    }
    let mut text = String::from_str(alloc, "frames")?;
    put_frames(alloc, version, &mut text, list)?;
    Ok(text)
}

// Puts frames, each behind a space, behind a text.
fn put_frames(
    alloc: Global,
    version: Version,
    text: &mut String,
    list: &[Frame],
) -> Result<(), TraceError>
    ensures { Writes (λ _. string_bytes text.new
        ≡ string_bytes text.old ++ frames.spaced_text version list.now)
        (AllByRecursion (Fits version) list.now) result }
{
    for frame in list {
        let spelling = frame_text(alloc, version, frame)?;
        text.push_str(" ")?;
        text.push_str(spelling.as_str())?;
    }
    Ok(())
}

// The text of a frame.
fn frame_text(alloc: Global, version: Version, frame: &Frame) -> Result<String, TraceError>
    ensures { Writes (λ text. string_bytes text ≡ frames.frame_text version frame.now)
        (Fits version frame.now) result }
{
    match spelling_of(alloc, version, frame) {
        Ok(bytes) => Ok(hex::encode(alloc, bytes.as_slice())?),
        Err(FrameError::Fault(_)) => Err(TraceError::Fault(TraceFault::Entry)),
        Err(FrameError::OutOfMemory) => Err(TraceError::OutOfMemory),
    }
}

// The spelling of a frame in a version.
fn spelling_of(alloc: Global, version: Version, frame: &Frame) -> Result<Vec<u8>, FrameError>
    ensures found { IfOk result (λ bytes. Spelt version bytes.items frame.now) }
    ensures only { Fits version frame.now
        → Gives (λ bytes. bytes.items) result (Ok (spelling version frame.now)) }
{
    match version {
        Version::One => nob_frame::encode_v1(alloc, frame),
        Version::Two => nob_frame::encode(alloc, frame),
    }
}
