//! What stands beside the text of an entry: names in place of numbers, and bytes as text.

ghost use Rattle.std.specs.Prelude.{◌≡◌, ◌++◌, ◌∷◌, [], IfOk, OnOk, flat_map};
ghost use Rattle.std.specs.List.{list_all};
ghost use Rattle.std.specs.String.{string_bytes};
ghost use Rattle.nob_pickle.specs.Shape.{tree, forest};
ghost use Rattle.nob_model_types.specs.Sessions.{item_spelt as item_spelt_of};
ghost use Rattle.nob_drawing.specs.Glosses as spec;

use nob_frame::{Frame, FrameKind};
use nob_ids::Reason;
use nob_item::Item;
use nob_model_types::{Answer, Entry, Event, Outcome, Refusal, Use};
use nob_pickle::Value;
use nob_plain_words::sessions::item_spelt;
use std::alloc::{AllocError, Global};

// Whether a byte is a sign of ASCII or a space.
fn is_sign(byte: u8) -> bool
    ensures { result ≡ spec.is_sign byte }
{
    32 <= byte && byte <= 126
}

// Whether all of these bytes are.
fn are_signs(text: &[u8]) -> bool
    ensures { result ≡ list_all spec.is_sign text.now }
{
    text.iter().all(|byte| is_sign(*byte))
}

// Whether bytes are a text that can be printed.
pub(crate) fn is_printable(text: &[u8]) -> bool
    ensures { result ≡ spec.is_printable text.now }
{
    match text {
        [] => false,
        [byte, others @ ..] => is_sign(*byte) && are_signs(others),
    }
}

// Puts a text in quotes behind another.
pub(crate) fn put_quoted(words: &mut Vec<u8>, text: &[u8]) -> Result<(), AllocError>
    ensures { OnOk result (words.new.items ≡ words.old.items ++ spec.quoted text.now) }
{
    words.push(b'"')?;
    words.extend_from_slice(text)?;
    words.push(b'"')?;
    Ok(())
}

// Puts bytes as text behind another one, if they are one.
fn put_bytes(words: &mut Vec<u8>, text: &[u8]) -> Result<(), AllocError>
    ensures { OnOk result (words.new.items ≡ words.old.items ++ spec.bytes_gloss text.now) }
{
    if !is_printable(text) {
        return Ok(());
    }
    words.push(b' ')?;
    put_quoted(words, text)
}

// The same of an element of a list.
fn put_element(words: &mut Vec<u8>, value: &Value) -> Result<(), AllocError>
    ensures { OnOk result (words.new.items
        ≡ words.old.items ++ spec.element_gloss (tree value.now)) }
{
    match value {
        Value::Bytes(bytes) => put_bytes(words, bytes.as_slice()),
        _ => Ok(()),
    }
}

// Puts the bytes among the elements of a list as text behind another one.
fn put_elements(words: &mut Vec<u8>, values: &[Value]) -> Result<(), AllocError>
    ensures { OnOk result (words.new.items
        ≡ words.old.items ++ spec.elements_gloss (forest values.now)) }
{
    for value in values {
        put_element(words, value)?;
    }
    Ok(())
}

// Puts the bytes in a value as text behind another one.
fn put_value(words: &mut Vec<u8>, value: &Value) -> Result<(), AllocError>
    ensures { OnOk result (words.new.items ≡ words.old.items ++ spec.value_gloss value.now) }
{
    match value {
        Value::Bytes(bytes) => put_bytes(words, bytes.as_slice()),
        Value::List(values) => put_elements(words, values.as_slice()),
        _ => Ok(()),
    }
}

// A method of the agent by its name, and one that it hasn't by its number.
pub(crate) fn agent_method(alloc: Global, method: u16) -> Result<String, AllocError>
    ensures { IfOk result (λ text. string_bytes text ≡ spec.agent_method method) }
{
    if method == 0 {
        return String::from_str(alloc, "put");
    }
    if method == 1 {
        return String::from_str(alloc, "get");
    }
    if method == 2 {
        return String::from_str(alloc, "remove");
    }
    format!(in alloc; "{method}")
}

// Puts which method of the agent is called behind a text.
fn put_agent(alloc: Global, words: &mut Vec<u8>, index: u64, method: u16) -> Result<(), AllocError>
    ensures { OnOk result (words.new.items ≡ words.old.items ++ spec.agent_gloss index method) }
{
    if index != 0 {
        return Ok(());
    }
    let name = agent_method(alloc, method)?;
    words.extend_from_slice(b" agent ")?;
    words.extend_from_slice(name.as_bytes())?;
    Ok(())
}

// Puts what is said of a call behind a text.
fn put_call(
    alloc: Global,
    words: &mut Vec<u8>,
    index: u64,
    method: u16,
    value: &Value,
) -> Result<(), AllocError>
    ensures { OnOk result (words.new.items
        ≡ words.old.items ++ spec.call_gloss index method value.now) }
{
    put_agent(alloc, words, index, method)?;
    put_value(words, value)
}

// Puts what is said of an item behind a text.
fn put_item(alloc: Global, words: &mut Vec<u8>, item: &Option<Item>) -> Result<(), AllocError>
    ensures { OnOk result (words.new.items ≡ words.old.items ++ spec.item_gloss item.now) }
{
    match item {
        Some(
            Item::Call {
                call: _,
                target,
                method,
                value,
            },
        ) => put_call(alloc, words, *target, *method, value),
        Some(
            Item::Reply {
                call: _,
                status: _,
                value,
            },
        ) => put_value(words, value),
        _ => Ok(()),
    }
}

// Puts what is said of a frame behind a text.
fn put_frame(alloc: Global, words: &mut Vec<u8>, frame: &Frame) -> Result<(), AllocError>
    ensures { OnOk result (words.new.items ≡ words.old.items ++ spec.frame_gloss frame.now) }
{
    match frame.kind {
        FrameKind::Data => {
            let item = item_spelt(alloc, frame.payload.as_slice())?;
            put_item(alloc, words, &item)
        }
        FrameKind::Ack => Ok(()),
        FrameKind::Close => Ok(()),
    }
}

// Puts what is said of frames behind a text.
fn put_frames(alloc: Global, words: &mut Vec<u8>, frames: &[Frame]) -> Result<(), AllocError>
    ensures { OnOk result (words.new.items
        ≡ words.old.items ++ flat_map spec.frame_gloss frames.now) }
{
    for frame in frames {
        put_frame(alloc, words, frame)?;
    }
    Ok(())
}

// Puts what is said of what a job's method made of its call behind a text.
fn put_outcome(words: &mut Vec<u8>, outcome: &Outcome) -> Result<(), AllocError>
    ensures { OnOk result (words.new.items ≡ words.old.items ++ spec.outcome_gloss outcome.now) }
{
    match outcome {
        Outcome::Answer(value) => put_value(words, value),
        Outcome::Fault(value) => put_value(words, value),
        Outcome::NoMethod => Ok(()),
    }
}

// Puts what is said of an event behind a text.
fn put_event(alloc: Global, words: &mut Vec<u8>, event: &Event) -> Result<(), AllocError>
    ensures { OnOk result (words.new.items ≡ words.old.items ++ spec.event_gloss event.now) }
{
    match event {
        Event::Call {
            target,
            method,
            value,
        } => put_call(alloc, words, target.index, *method, value),
        Event::Finish(_, outcome) => put_outcome(words, outcome),
        Event::Arrive(frame) => put_frame(alloc, words, frame),
        _ => Ok(()),
    }
}

// Why a session closes.
fn reason_gloss(reason: Reason) -> &'static str
    ensures { result.now ≡ spec.reason_gloss reason }
{
    match reason {
        Reason::Asked => " it was asked to",
        Reason::PeerClosed => " the peer closed",
        Reason::RetriesUsedUp => " the retries are used up",
        Reason::BadItem => " a bad item",
        Reason::BadReference => " a bad reference",
        Reason::OutOfPlace => " an item out of place",
    }
}

// Puts what is said of an answer behind a text.
fn put_answer(alloc: Global, words: &mut Vec<u8>, answer: &Answer) -> Result<(), AllocError>
    ensures { OnOk result (words.new.items ≡ words.old.items ++ spec.answer_gloss answer.now) }
{
    match answer {
        Answer::Replied(_, value) => put_value(words, value),
        Answer::Job(job) => put_call(alloc, words, job.target, job.method, &job.value),
        Answer::Closed(reason) => words.extend_from_slice(reason_gloss(*reason).as_bytes()),
        Answer::Frames(frames) => put_frames(alloc, words, frames.as_slice()),
        _ => Ok(()),
    }
}

// What still uses an object.
fn use_gloss(left: Use) -> &'static str
    ensures { result.now ≡ spec.use_gloss left }
{
    match left {
        Use::Held => " its owner holds it",
        Use::InTransit => " a reference is in transit",
        Use::Listed => " a client is listed",
        Use::Agent => " it is the agent",
    }
}

// A refusal by its name.
fn refusal_gloss(refusal: Refusal) -> &'static str
    ensures { result.now ≡ spec.refusal_gloss refusal }
{
    match refusal {
        Refusal::NoPeer => " no such peer",
        Refusal::Closed => " the session is closed",
        Refusal::NoObject => " the object isn't live",
        Refusal::NotHeld => " the reference isn't held",
        Refusal::QueueFull => " too many are unacknowledged",
        Refusal::SeqEnd => " the numbers are used up",
        Refusal::TooBig => " the value has no pickle",
        Refusal::NoCall => " no such call",
        Refusal::NotReady => " the reply isn't ready",
        Refusal::Nothing => " nothing to do",
        Refusal::StillUsed(left) => use_gloss(left),
        Refusal::NoJob => " the job isn't running",
        Refusal::Limit => " a limit is reached",
        Refusal::StillOpen => " the session is open",
        Refusal::StillHeld => " a reference of the peer is held",
    }
}

// Puts what is said of a result behind a text.
fn put_result(
    alloc: Global,
    words: &mut Vec<u8>,
    response: &Result<Answer, Refusal>,
) -> Result<(), AllocError>
    ensures { OnOk result (words.new.items ≡ words.old.items ++ spec.result_gloss response.now) }
{
    match response {
        Ok(answer) => put_answer(alloc, words, answer),
        Err(refusal) => words.extend_from_slice(refusal_gloss(*refusal).as_bytes()),
    }
}

// What is said beside the text of an entry.
pub(crate) fn entry_gloss(alloc: Global, entry: &Entry) -> Result<Vec<u8>, AllocError>
    ensures { IfOk result (λ words. words.items ≡ spec.entry_gloss entry.now) }
{
    let mut words = Vec::new(alloc);
    put_event(alloc, &mut words, &entry.event)?;
    put_result(alloc, &mut words, &entry.result)?;
    Ok(words)
}
