//! Whether events, values and answers are read from their texts alone.

use nob_model::{Answer, Entry, Event, Outcome, WorldStep, same_answer, same_event, same_value};
use nob_model_reading::{answer_of, event_of};
use nob_model_text::{answer_text, value_of, value_text};
use nob_pickle::Value;
use std::alloc::{AllocError, Global};

/// Whether the event of a step is what stands in its line behind the space, and its value what the
/// value's text spells. Of a step that delivers a frame there is nothing to read.
pub fn is_read_again(alloc: Global, line: &[u8], step: &WorldStep) -> Result<bool, AllocError> {
    let WorldStep::Do(_, event) = step else {
        return Ok(true);
    };
    let Some(read) = event_of(alloc, behind_space(line))? else {
        return Ok(false);
    };
    if !same_event(&read, event) {
        return Ok(false);
    }
    match value_in(event) {
        Some(value) => is_spelt(alloc, value),
        None => Ok(true),
    }
}

// What stands behind the first space of a line.
fn behind_space(line: &[u8]) -> &[u8] {
    match line {
        [b' ', rest @ ..] => rest,
        [_, rest @ ..] => behind_space(rest),
        [] => line,
    }
}

// The value that an event hands on.
fn value_in(event: &Event) -> Option<&Value> {
    match event {
        Event::Call { value, .. } => Some(value),
        Event::Finish(_, Outcome::Answer(value)) => Some(value),
        Event::Finish(_, Outcome::Fault(value)) => Some(value),
        _ => None,
    }
}

// Whether a value is read from its text.
fn is_spelt(alloc: Global, value: &Value) -> Result<bool, AllocError> {
    let text = value_text(alloc, value)?;
    match value_of(alloc, text.as_bytes())? {
        Some(read) => Ok(same_value(&read, value)),
        None => Ok(false),
    }
}

/// Whether the answer of an entry, if it has one, is read from its text. Of the frames that a
/// Transmit gives there is nothing to read: a script has their numbers alone.
pub fn is_answer_read(alloc: Global, entry: &Entry) -> Result<bool, AllocError> {
    match &entry.result {
        Ok(Answer::Frames(_)) | Err(_) => Ok(true),
        Ok(answer) => is_told(alloc, answer),
    }
}

// Whether an answer is read from its text.
fn is_told(alloc: Global, answer: &Answer) -> Result<bool, AllocError> {
    let text = answer_text(alloc, answer, "")?;
    match answer_of(alloc, text.as_bytes())? {
        Some(read) => Ok(same_answer(&read, answer)),
        None => Ok(false),
    }
}
