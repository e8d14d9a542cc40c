//! The words of frames, entries and bars.

ghost use Rattle.std.specs.Prelude.{◌≡◌, ◌++◌, ◌∷◌, IfOk, OnOk, codes};
ghost use Rattle.std.specs.String.{string_bytes};
ghost use Rattle.std.specs.Fmt.{decimal};
ghost use Rattle.nob_model_text.specs.Events.{event_text as event_text_of};
ghost use Rattle.nob_model_types.specs.Sessions.{item_spelt};
ghost use Rattle.nob_model_text.specs.Values as values;
ghost use Rattle.nob_drawing.specs.Words as spec;

use nob_drawing_plan::Mark;
use nob_frame::{Frame, FrameKind};
use nob_ids::{SpaceId, WireRep};
use nob_item::Item;
use nob_model_text::{answer_text, event_text, refusal_text, rep_text, value_text};
use nob_model_types::{Answer, Entry, Event, Refusal};
use nob_pickle::Value;
use nob_plain_words::sessions::item_spelt;
use std::alloc::{AllocError, Global};

// A word and a reference.
pub(crate) fn about(
    alloc: Global,
    word: &str,
    owner: SpaceId,
    index: u64,
) -> Result<String, AllocError>
    ensures { IfOk result (λ text. string_bytes text ≡ spec.about word.now owner index) }
{
    let rep = rep_text(alloc, WireRep { owner, index })?;
    format!(in alloc; "{word}{rep}")
}

fn call_words(
    alloc: Global,
    owner: SpaceId,
    target: u64,
    method: u16,
    value: &Value,
) -> Result<String, AllocError>
    ensures { IfOk result (λ text. string_bytes text
        ≡ spec.about (codes "Call ") owner target ++ 32 ∷
        (decimal method ++ 32 ∷ values.value_text value.now)) }
{
    let object = about(alloc, "Call ", owner, target)?;
    let value = value_text(alloc, value)?;
    format!(in alloc; "{object} {method} {value}")
}

fn reply_words(alloc: Global, call: u64, status: u8, value: &Value) -> Result<String, AllocError>
    ensures { IfOk result (λ text. string_bytes text
        ≡ codes "Reply " ++ (decimal call ++ 32 ∷
        (decimal status ++ 32 ∷ values.value_text value.now))) }
{
    let value = value_text(alloc, value)?;
    format!(in alloc; "Reply {call} {status} {value}")
}

fn settle_words(alloc: Global, item: u64) -> Result<String, AllocError>
    ensures { IfOk result (λ text. string_bytes text ≡ codes "Settle " ++ decimal item) }
{
    format!(in alloc; "Settle {item}")
}

// An item from one space to another.
pub(crate) fn item_words(
    alloc: Global,
    from: SpaceId,
    to: SpaceId,
    item: &Item,
) -> Result<String, AllocError>
    ensures { IfOk result (λ text. string_bytes text ≡ spec.item_words from to item.now) }
{
    match item {
        Item::Call {
            call: _,
            target,
            method,
            value,
        } => call_words(alloc, to, *target, *method, value),
        Item::Reply {
            call,
            status,
            value,
        } => reply_words(alloc, call.get(), *status, value),
        Item::Settle(item) => settle_words(alloc, item.get()),
        Item::Dirty(index) => about(alloc, "Dirty ", to, *index),
        Item::DirtyOk(index) => about(alloc, "DirtyOk ", from, *index),
        Item::DirtyNo(index) => about(alloc, "DirtyNo ", from, *index),
        Item::Clean(index) => about(alloc, "Clean ", to, *index),
    }
}

// The item that bytes carry from one space to another, if they carry one.
fn data_words(
    alloc: Global,
    from: SpaceId,
    to: SpaceId,
    payload: &[u8],
) -> Result<String, AllocError>
    ensures { IfOk result (λ text. string_bytes text
        ≡ spec.data_words from to (item_spelt payload.now)) }
{
    match item_spelt(alloc, payload)? {
        Some(item) => item_words(alloc, from, to, &item),
        None => String::from_str(alloc, "no item"),
    }
}

fn ack_words(alloc: Global, ack: u64) -> Result<String, AllocError>
    ensures { IfOk result (λ text. string_bytes text ≡ codes "Ack " ++ decimal ack) }
{
    format!(in alloc; "Ack {ack}")
}

fn close_words(alloc: Global, payload: &[u8]) -> Result<String, AllocError>
    ensures { IfOk result (λ text. string_bytes text ≡ spec.close_words payload.now) }
{
    match payload {
        [] => String::from_str(alloc, "Close"),
        [reason, ..] => reason_words(alloc, *reason),
    }
}

fn reason_words(alloc: Global, reason: u8) -> Result<String, AllocError>
    ensures { IfOk result (λ text. string_bytes text ≡ codes "Close " ++ decimal reason) }
{
    format!(in alloc; "Close {reason}")
}

// A frame.
pub(crate) fn frame_words(alloc: Global, frame: &Frame) -> Result<String, AllocError>
    ensures { IfOk result (λ text. string_bytes text ≡ spec.frame_words frame.now) }
{
    match frame.kind {
        FrameKind::Data => data_words(alloc, frame.from, frame.to, frame.payload.as_slice()),
        FrameKind::Ack => ack_words(alloc, frame.ack),
        FrameKind::Close => close_words(alloc, frame.payload.as_slice()),
    }
}

// Frames behind others.
fn behind_words(alloc: Global, frames: &[Frame]) -> Result<String, AllocError>
    ensures { IfOk result (λ text. string_bytes text ≡ spec.behind_words frames.now) }
{
    match frames {
        [] => Ok(String::new(alloc)),
        [frame, others @ ..] => {
            let rest = behind_words(alloc, others)?;
            let first = frame_words(alloc, frame)?;
            behind_text(alloc, first.as_str(), rest.as_str())
        }
    }
}

fn behind_text(alloc: Global, first: &str, rest: &str) -> Result<String, AllocError>
    ensures { IfOk result (λ text. string_bytes text ≡ codes ", " ++ (first.now ++ rest.now)) }
{
    format!(in alloc; ", {first}{rest}")
}

fn joined(alloc: Global, first: &str, rest: &str) -> Result<String, AllocError>
    ensures { IfOk result (λ text. string_bytes text ≡ first.now ++ rest.now) }
{
    format!(in alloc; "{first}{rest}")
}

// The frames that a Transmit gave.
fn frames_words(alloc: Global, frames: &[Frame]) -> Result<String, AllocError>
    ensures { IfOk result (λ text. string_bytes text ≡ spec.frames_words frames.now) }
{
    match frames {
        [] => String::from_str(alloc, "none"),
        [frame, others @ ..] => {
            let first = frame_words(alloc, frame)?;
            let rest = behind_words(alloc, others)?;
            joined(alloc, first.as_str(), rest.as_str())
        }
    }
}

// An event.
fn event_words(alloc: Global, event: &Event) -> Result<String, AllocError>
    ensures { IfOk result (λ text. string_bytes text
        ≡ event_text_of (spec.arrival_words event.now) event.now) }
{
    match event {
        Event::Arrive(frame) => {
            let words = frame_words(alloc, frame)?;
            event_text(alloc, event, words.as_str())
        }
        _ => event_text(alloc, event, ""),
    }
}

// A result.
fn result_words(alloc: Global, response: &Result<Answer, Refusal>) -> Result<String, AllocError>
    ensures { IfOk result (λ text. string_bytes text ≡ spec.result_words response.now) }
{
    match response {
        Ok(Answer::Frames(frames)) => frames_words(alloc, frames.as_slice()),
        Ok(answer) => answer_text(alloc, answer, ""),
        Err(refusal) => String::from_str(alloc, refusal_text(*refusal)),
    }
}

// An entry.
pub(crate) fn entry_words(alloc: Global, entry: &Entry) -> Result<String, AllocError>
    ensures { IfOk result (λ text. string_bytes text ≡ spec.entry_words entry.now) }
{
    let space = entry.space;
    let event = event_words(alloc, &entry.event)?;
    let answer = result_words(alloc, &entry.result)?;
    format!(in alloc; "{space} {event} = {answer}")
}

fn live_words(alloc: Global, rep: WireRep) -> Result<String, AllocError>
    ensures { IfOk result (λ text. string_bytes text ≡ values.rep_text rep ++ codes " live") }
{
    let object = rep_text(alloc, rep)?;
    format!(in alloc; "{object} live")
}

fn listed_words(alloc: Global, rep: WireRep, client: SpaceId) -> Result<String, AllocError>
    ensures { IfOk result (λ text. string_bytes text
        ≡ values.rep_text rep ++ (codes " listed " ++ decimal client)) }
{
    let object = rep_text(alloc, rep)?;
    format!(in alloc; "{object} listed {client}")
}

fn pinned_words(alloc: Global, rep: WireRep, peer: SpaceId) -> Result<String, AllocError>
    ensures { IfOk result (λ text. string_bytes text
        ≡ values.rep_text rep ++ (codes " pinned for " ++ decimal peer)) }
{
    let object = rep_text(alloc, rep)?;
    format!(in alloc; "{object} pinned for {peer}")
}

// Puts a reference behind a text and a space.
fn put_life(alloc: Global, words: &mut Vec<u8>, rep: WireRep) -> Result<(), AllocError>
    ensures { OnOk result (words.new.items ≡ words.old.items ++ spec.life_word rep) }
{
    let name = rep_text(alloc, rep)?;
    words.push(b' ')?;
    words.extend_from_slice(name.as_bytes())?;
    Ok(())
}

// The references of whose lives a row is part.
pub(crate) fn lives_words(alloc: Global, names: &[WireRep]) -> Result<Vec<u8>, AllocError>
    ensures { IfOk result (λ words. words.items ≡ spec.lives_words names.now) }
{
    let mut words = Vec::new(alloc);
    for name in names {
        put_life(alloc, &mut words, *name)?;
    }
    Ok(words)
}

// The reference that a bar is of.
pub(crate) fn mark_rep(alloc: Global, mark: Mark) -> Result<String, AllocError>
    ensures { IfOk result (λ text. string_bytes text ≡ spec.mark_rep mark) }
{
    match mark {
        Mark::Live(rep) => rep_text(alloc, rep),
        Mark::Listed(rep, _) => rep_text(alloc, rep),
        Mark::Pinned(rep, _, _, _) => rep_text(alloc, rep),
    }
}

// What a bar shows.
pub(crate) fn mark_words(alloc: Global, mark: Mark) -> Result<String, AllocError>
    ensures { IfOk result (λ text. string_bytes text ≡ spec.mark_words mark) }
{
    match mark {
        Mark::Live(rep) => live_words(alloc, rep),
        Mark::Listed(rep, client) => listed_words(alloc, rep, client),
        Mark::Pinned(rep, peer, _, _) => pinned_words(alloc, rep, peer),
    }
}
