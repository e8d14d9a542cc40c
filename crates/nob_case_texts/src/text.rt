//! The texts of answers.

ghost use Rattle.std.specs.Prelude.{◌≡◌, ◌++◌, ◌∷◌, codes, IfOk, OnOk};
ghost use Rattle.std.specs.String.{string_bytes};
ghost use Rattle.std.specs.Fmt.{decimal};
ghost use Rattle.nob_ids.specs.Reasons.{reason_number};
ghost use Rattle.nob_case_texts.specs.Answers.{Writes};
ghost use Rattle.nob_case_texts.specs.Words as spec;

use crate::answer::{Answer, PinAnswer, Push, Refusal};
use crate::value_text::{push_bytes, push_reference, push_value};
use nob_frame::{Frame, FrameError, FrameKind};
use nob_ids::{Reason, SpaceId, WireRep};
use nob_item::Item;
use nob_table::{Standing, State};
use std::alloc::{AllocError, Global};

/// The text of an answer. Only memory fails it. It takes as long as the text is.
pub fn text_of(alloc: Global, answer: &Answer) -> Result<String, AllocError>
    ensures { IfOk result (λ text. Writes answer.now (string_bytes text)) }
{
    match answer {
        Answer::Word(word) => String::from_str(alloc, word),
        Answer::Number(number) => format!(in alloc; "{number}"),
        Answer::Sent(number) => sent_text(alloc, number.get()),
        Answer::Took(count) => format!(in alloc; "took {count}"),
        Answer::Closed(reason) => closed_text(alloc, *reason),
        Answer::Reference(rep) => reference_text(alloc, *rep),
        Answer::Stands(standing) => standing_text(alloc, *standing),
        Answer::Idle(place, rep) => idle_text(alloc, *place, *rep),
        Answer::Counts(objects, surrogates) => {
            format!(in alloc; "objects {objects} surrogates {surrogates}")
        }
        Answer::References(reps) => references_text(alloc, reps),
        Answer::Spaces(spaces) => spaces_text(alloc, spaces),
        _ => text_of_parts(alloc, answer),
    }
}

// The text of a refusal, and of an answer that is written part by part. Of others there is none
// here.
fn text_of_parts(alloc: Global, answer: &Answer) -> Result<String, AllocError> {
    let mut text = String::new(alloc);
    match answer {
        Answer::Refused(refusal) => push_refusal(alloc, &mut text, *refusal)?,
        Answer::Value(value) => push_value(alloc, &mut text, value)?,
        Answer::Item(item) => push_item(alloc, &mut text, item)?,
        Answer::Frames(frames) => push_frames(alloc, &mut text, frames)?,
        Answer::Bytes(bytes) => push_bytes(alloc, &mut text, bytes)?,
        Answer::Pushes(pushes) => push_pushes(alloc, &mut text, pushes)?,
        Answer::Pins(answers) => push_pin_answers(alloc, &mut text, answers)?,
        Answer::Waits(number, bytes) => {
            push_numbered(alloc, &mut text, "item", number.get())?;
            text.push(' ')?;
            push_bytes(alloc, &mut text, bytes)?;
        }
        _ => {}
    }
    Ok(text)
}

// The number of an item that is to be sent.
fn sent_text(alloc: Global, number: u64) -> Result<String, AllocError>
    ensures { IfOk result (λ text. string_bytes text ≡ codes "item " ++ decimal number) }
{
    format!(in alloc; "item {number}")
}

// That an end has closed, and why.
fn closed_text(alloc: Global, reason: Reason) -> Result<String, AllocError>
    ensures { IfOk result (λ text. string_bytes text
        ≡ codes "closed " ++ decimal (reason_number reason)) }
{
    let reason = reason.number();
    format!(in alloc; "closed {reason}")
}

// A reference.
fn reference_text(alloc: Global, rep: WireRep) -> Result<String, AllocError>
    ensures { IfOk result (λ text. string_bytes text ≡ spec.reference_word rep) }
{
    let mut text = String::new(alloc);
    push_reference(alloc, &mut text, rep)?;
    Ok(text)
}

// References.
fn references_text(alloc: Global, reps: &[WireRep]) -> Result<String, AllocError>
    ensures { IfOk result (λ text. string_bytes text ≡ spec.references_text reps.now) }
{
    let mut text = String::new(alloc);
    push_references(alloc, &mut text, reps)?;
    Ok(text)
}

// Spaces.
fn spaces_text(alloc: Global, spaces: &[SpaceId]) -> Result<String, AllocError>
    ensures { IfOk result (λ text. string_bytes text ≡ spec.spaces_text spaces.now) }
{
    let mut text = String::new(alloc);
    push_spaces(alloc, &mut text, spaces)?;
    Ok(text)
}

// A surrogate, and its place in the order of last Dirties.
fn idle_text(alloc: Global, place: u128, rep: WireRep) -> Result<String, AllocError>
    ensures { IfOk result (λ text. string_bytes text
        ≡ codes "place " ++ (decimal place ++ 32 ∷ spec.reference_word rep)) }
{
    let rep = reference_text(alloc, rep)?;
    format!(in alloc; "place {place} {rep}")
}

// Writes the name that the printed text of a refusal begins with, and in brackets that of the
// refusal within it.
fn push_refusal(alloc: Global, text: &mut String, refusal: Refusal) -> Result<(), AllocError> {
    let printed = match refusal {
        Refusal::Pickle(error) => format!(in alloc; "{error}")?,
        Refusal::Item(error) => format!(in alloc; "{error}")?,
        Refusal::Frame(error) => format!(in alloc; "{error}")?,
        Refusal::End(error) => format!(in alloc; "{error}")?,
        Refusal::Table(error) => format!(in alloc; "{error}")?,
        Refusal::Pins(fault) => format!(in alloc; "{fault}")?,
    };
    let Some((name, rest)) = printed.as_str().split_once(": ") else {
        return text.push_str(printed.as_str());
    };
    text.push_str(name)?;
    let Some((inner, _)) = rest.split_once(": ") else {
        return Ok(());
    };
    text.push_str(format!(in alloc; "({inner})")?.as_str())
}

// Writes an item.
fn push_item(alloc: Global, text: &mut String, item: &Item) -> Result<(), AllocError> {
    match item {
        Item::Call {
            call,
            target,
            method,
            value,
        } => {
            let call = call.get();
            let head = format!(in alloc; "call {call} on {target} method {method} ")?;
            text.push_str(head.as_str())?;
            push_value(alloc, text, value)
        }
        Item::Reply {
            call,
            status,
            value,
        } => {
            let call = call.get();
            let head = format!(in alloc; "reply {call} status {status} ")?;
            text.push_str(head.as_str())?;
            push_value(alloc, text, value)
        }
        Item::Settle(item) => push_numbered(alloc, text, "settle", item.get()),
        Item::Dirty(index) => push_numbered(alloc, text, "dirty", *index),
        Item::DirtyOk(index) => push_numbered(alloc, text, "dirtyok", *index),
        Item::DirtyNo(index) => push_numbered(alloc, text, "dirtyno", *index),
        Item::Clean(index) => push_numbered(alloc, text, "clean", *index),
    }
}

// Writes a name and, behind a space, a number.
fn push_numbered(
    alloc: Global,
    text: &mut String,
    name: &str,
    number: u64,
) -> Result<(), AllocError>
    ensures { OnOk result (string_bytes text.new
        ≡ string_bytes text.old ++ spec.numbered_text name.now number) }
{
    let numbered = format!(in alloc; "{name} {number}")?;
    text.push_str(numbered.as_str())
}

// The word of a frame's kind.
fn kind_word(kind: FrameKind) -> &'static str
    ensures { result.now ≡ spec.kind_word kind }
{
    match kind {
        FrameKind::Data => "data",
        FrameKind::Ack => "ack",
        FrameKind::Close => "close",
    }
}

// Writes a frame.
fn push_frame(alloc: Global, text: &mut String, frame: &Frame) -> Result<(), AllocError> {
    let kind = kind_word(frame.kind);
    let from = frame.from.get();
    let to = frame.to.get();
    let session = frame.session;
    let seq = frame.seq;
    let ack = frame.ack;
    let spaces = format!(in alloc; "{kind} {from} to {to} session {session} ")?;
    text.push_str(spaces.as_str())?;
    let numbers = format!(in alloc; "seq {seq} ack {ack} ")?;
    text.push_str(numbers.as_str())?;
    push_bytes(alloc, text, frame.payload.as_slice())
}

// Writes frames, parted by bars.
fn push_frames(alloc: Global, text: &mut String, frames: &[Frame]) -> Result<(), AllocError> {
    for (i, frame) in frames.iter().enumerate() {
        if i > 0 {
            text.push_str(" | ")?;
        }
        push_frame(alloc, text, frame)?;
    }
    push_none(text, frames.is_empty())
}

// Writes what the pushes to a Feed answer, parted by semicolons.
fn push_pushes(alloc: Global, text: &mut String, pushes: &[Push]) -> Result<(), AllocError> {
    for (i, push) in pushes.iter().enumerate() {
        if i > 0 {
            text.push_str("; ")?;
        }
        match push {
            Push::Frames(frames) => push_frames(alloc, text, frames)?,
            Push::Refused(fault) => push_refusal(
                alloc,
                text,
                Refusal::Frame(FrameError::Fault(*fault)),
            )?,
        }
    }
    Ok(())
}

// Writes what the calls on a pin table answer, parted by semicolons.
fn push_pin_answers(
    alloc: Global,
    text: &mut String,
    answers: &[PinAnswer],
) -> Result<(), AllocError> {
    for (i, answer) in answers.iter().enumerate() {
        if i > 0 {
            text.push_str("; ")?;
        }
        match answer {
            PinAnswer::Done => text.push_str("ok")?,
            PinAnswer::Replaced => text.push_str("replaced")?,
            PinAnswer::NoCall => text.push_str("no call")?,
            PinAnswer::Refused(fault) => push_refusal(alloc, text, Refusal::Pins(*fault))?,
            PinAnswer::Count(count) => text.push_str(format!(in alloc; "{count}")?.as_str())?,
        }
    }
    Ok(())
}

// Writes references, a space between two.
fn push_references(alloc: Global, text: &mut String, reps: &[WireRep]) -> Result<(), AllocError>
    ensures { OnOk result (string_bytes text.new
        ≡ string_bytes text.old ++ spec.references_text reps.now) }
{
    let Some((first, others)) = reps.split_first() else {
        return text.push_str("none");
    };
    push_reference(alloc, text, *first)?;
    for rep in others {
        text.push_str(" ")?;
        push_reference(alloc, text, *rep)?;
    }
    Ok(())
}

// Writes spaces, a space between two.
fn push_spaces(alloc: Global, text: &mut String, spaces: &[SpaceId]) -> Result<(), AllocError>
    ensures { OnOk result (string_bytes text.new
        ≡ string_bytes text.old ++ spec.spaces_text spaces.now) }
{
    let Some((first, others)) = spaces.split_first() else {
        return text.push_str("none");
    };
    push_space(alloc, text, *first)?;
    for space in others {
        text.push_str(" ")?;
        push_space(alloc, text, *space)?;
    }
    Ok(())
}

// Writes a space.
fn push_space(alloc: Global, text: &mut String, space: SpaceId) -> Result<(), AllocError>
    ensures { OnOk result (string_bytes text.new ≡ string_bytes text.old ++ decimal space) }
{
    let word = format!(in alloc; "{space}")?;
    text.push_str(word.as_str())
}

// Says that there is nothing, where there is nothing.
fn push_none(text: &mut String, is_empty: bool) -> Result<(), AllocError>
    ensures { OnOk result (string_bytes text.new
        ≡ string_bytes text.old ++ spec.none_text is_empty) }
{
    if is_empty {
        text.push_str("none")?;
    }
    Ok(())
}

// The word of a state.
fn state_word(state: State) -> &'static str
    ensures { result.now ≡ spec.state_word state }
{
    match state {
        State::Unknown => "unknown",
        State::Live => "live",
        State::Withdrawn => "withdrawn",
        State::Pending => "pending",
        State::Granted => "granted",
        State::Refused => "refused",
        State::Lost => "lost",
    }
}

// How a reference stands.
fn standing_text(alloc: Global, standing: Standing) -> Result<String, AllocError>
    ensures { IfOk result (λ text. string_bytes text ≡ spec.standing_text standing) }
{
    let state = state_word(standing.state);
    let hand = standing.counts.hand;
    let lent = standing.counts.lent;
    format!(in alloc; "{state} hand {hand} lent {lent}")
}
