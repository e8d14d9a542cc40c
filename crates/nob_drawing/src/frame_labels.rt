//! The words of frames at arrows.

ghost use Rattle.std.specs.Prelude.{◌≡◌, ◌++◌, ◌∷◌, IfOk, OnOk, codes, if◌then◌else◌};
ghost use Rattle.std.specs.String.{string_bytes};
ghost use Rattle.std.specs.Fmt.{decimal};
ghost use Rattle.nob_model_types.specs.Sessions.{item_spelt as item_spelt_of};
ghost use Rattle.nob_model_text.specs.Values.{value_text as value_text_of};
ghost use Rattle.nob_drawing.specs.Glosses.{is_printable, quoted};
ghost use Rattle.nob_drawing.specs.Words as spec;

use crate::captions::{about, frame_words, item_words};
use crate::glosses::{agent_method, is_printable, put_quoted};
use nob_frame::{Frame, FrameKind};
use nob_ids::SpaceId;
use nob_item::Item;
use nob_model_text::value_text;
use nob_pickle::Value;
use nob_plain_words::sessions::item_spelt;
use std::alloc::{AllocError, Global};

// Bytes with their text, or as this text where they are none.
fn bytes_label(alloc: Global, bytes: &[u8], spelling: String) -> Result<Vec<u8>, AllocError>
    ensures { IfOk result (λ words. words.items
        ≡ (if is_printable bytes.now then quoted bytes.now else string_bytes spelling)) }
{
    if !is_printable(bytes) {
        return Ok(spelling.into_bytes());
    }
    let mut words = Vec::new(alloc);
    put_quoted(&mut words, bytes)?;
    Ok(words)
}

// A value.
fn value_label(alloc: Global, value: &Value) -> Result<Vec<u8>, AllocError>
    ensures { IfOk result (λ words. words.items ≡ spec.value_label value.now) }
{
    let spelling = value_text(alloc, value)?;
    match value {
        Value::Bytes(bytes) => bytes_label(alloc, bytes.as_slice(), spelling),
        _ => Ok(spelling.into_bytes()),
    }
}

// Which object is called, and which method of it.
fn called(alloc: Global, owner: SpaceId, target: u64, method: u16) -> Result<String, AllocError>
    ensures { IfOk result (λ text. string_bytes text ≡ spec.called owner target method) }
{
    if target == 0 {
        let name = agent_method(alloc, method)?;
        return format!(in alloc; "Call agent {name} ");
    }
    let object = about(alloc, "Call ", owner, target)?;
    format!(in alloc; "{object} {method} ")
}

// What a Reply is of.
fn replied(alloc: Global, call: u64, status: u8) -> Result<String, AllocError>
    ensures { IfOk result (λ text. string_bytes text ≡ spec.replied call status) }
{
    format!(in alloc; "Reply {call} {status} ")
}

// Words with a value behind them.
fn with_value(alloc: Global, words: String, value: &Value) -> Result<Vec<u8>, AllocError>
    ensures { IfOk result (λ all. all.items
        ≡ string_bytes words ++ spec.value_label value.now) }
{
    let mut all = words.into_bytes();
    let label = value_label(alloc, value)?;
    all.extend_from_slice(label.as_slice())?;
    Ok(all)
}

// An item from one space to another.
fn item_label(alloc: Global, from: SpaceId, to: SpaceId, item: &Item) -> Result<Vec<u8>, AllocError>
    ensures { IfOk result (λ words. words.items ≡ spec.item_label from to item.now) }
{
    match item {
        Item::Call {
            call: _,
            target,
            method,
            value,
        } => with_value(alloc, called(alloc, to, *target, *method)?, value),
        Item::Reply {
            call,
            status,
            value,
        } => with_value(alloc, replied(alloc, call.get(), *status)?, value),
        _ => {
            let words = item_words(alloc, from, to, item)?;
            Ok(words.into_bytes())
        }
    }
}

// The item that bytes carry from one space to another, if they carry one.
fn data_label(
    alloc: Global,
    from: SpaceId,
    to: SpaceId,
    payload: &[u8],
) -> Result<Vec<u8>, AllocError>
    ensures { IfOk result (λ words. words.items
        ≡ spec.data_label from to (item_spelt_of payload.now)) }
{
    match item_spelt(alloc, payload)? {
        Some(item) => item_label(alloc, from, to, &item),
        None => b"no item".as_slice().to_vec(alloc),
    }
}

// A frame.
pub(crate) fn frame_label(alloc: Global, frame: &Frame) -> Result<Vec<u8>, AllocError>
    ensures { IfOk result (λ words. words.items ≡ spec.frame_label frame.now) }
{
    match frame.kind {
        FrameKind::Data => data_label(alloc, frame.from, frame.to, frame.payload.as_slice()),
        _ => {
            let words = frame_words(alloc, frame)?;
            Ok(words.into_bytes())
        }
    }
}
