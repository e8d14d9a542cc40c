//! Cases of the formats: values, items, frames and streams of frames.

use nob_case_texts::{Answer, Push, Refusal, refused_frame, refused_item, refused_value};
use nob_frame::{Feed, Frame, FrameError};
use nob_item::Item;
use nob_pickle::{PickleError, Value};
use std::alloc::{AllocError, Global};

/// A case of the formats.
#[derive(Drop)]
pub enum CodecCase {
    /// The value that bytes spell.
    ReadValue(Vec<u8>),
    /// The bytes that spell a value.
    WriteValue(Value),
    /// Whether a value has a pickle.
    Fits(Value),
    /// The references in a value.
    References(Value),
    /// The item that bytes spell.
    ReadItem(Vec<u8>),
    /// The bytes that spell an item.
    WriteItem(Item),
    /// The same of a Call's or a Reply's parts.
    WriteParts(Item),
    /// The counted references of an item.
    Counted(Item),
    /// The counted reference of an item that stands behind so many.
    CountedOne(usize, Item),
    /// Whether an item is a note.
    IsNote(Item),
    /// The frame that bytes spell.
    ReadFrame(Vec<u8>),
    /// The bytes that spell a frame.
    WriteFrame(Frame),
    /// The frame of version 1 that bytes spell.
    ReadFrameV1(Vec<u8>),
    /// The bytes that spell a frame in version 1.
    WriteFrameV1(Frame),
    /// What a new Feed answers to these pieces.
    Feed(Vec<Vec<u8>>),
    /// How many frames a new Feed gives for the bytes, so often, each byte a piece.
    FeedEach(u64, Vec<u8>),
}

/// What a case answers. Only memory fails it.
pub fn answer(alloc: Global, case: &CodecCase) -> Result<Answer, AllocError> {
    match case {
        CodecCase::ReadValue(bytes) => read_value(alloc, bytes),
        CodecCase::WriteValue(value) => write_value(alloc, value),
        CodecCase::Fits(value) => Ok(fits(value)),
        CodecCase::References(value) => {
            Ok(Answer::References(nob_pickle::refs_of(alloc, value)?))
        }
        CodecCase::ReadItem(bytes) => read_item(alloc, bytes),
        CodecCase::WriteItem(item) => write_item(alloc, item),
        CodecCase::WriteParts(item) => write_parts(alloc, item),
        CodecCase::CountedOne(place, item) => Ok(counted_one(item, *place)),
        CodecCase::Counted(item) => Ok(Answer::References(nob_item::counted_refs(alloc, item)?)),
        CodecCase::IsNote(item) => Ok(Answer::of_test(item.is_note())),
        CodecCase::ReadFrame(bytes) => frame_answer(alloc, nob_frame::decode(alloc, bytes)),
        CodecCase::WriteFrame(frame) => bytes_answer(nob_frame::encode(alloc, frame)),
        CodecCase::ReadFrameV1(bytes) => frame_answer(alloc, nob_frame::decode_v1(alloc, bytes)),
        CodecCase::WriteFrameV1(frame) => bytes_answer(nob_frame::encode_v1(alloc, frame)),
        CodecCase::Feed(pieces) => feed(alloc, pieces),
        CodecCase::FeedEach(count, bytes) => feed_each(alloc, *count, bytes),
    }
}

// The answer is a copy of what was read.
fn read_value(alloc: Global, bytes: &[u8]) -> Result<Answer, AllocError> {
    match nob_pickle::decode(alloc, bytes) {
        Ok(value) => Ok(Answer::Value(value.copy()?)),
        Err(error) => refused_value(error),
    }
}

fn write_value(alloc: Global, value: &Value) -> Result<Answer, AllocError> {
    match nob_pickle::encode(alloc, value) {
        Ok(bytes) => Ok(Answer::Bytes(bytes)),
        Err(error) => refused_value(error),
    }
}

fn fits(value: &Value) -> Answer {
    match nob_pickle::fits(value) {
        Ok(()) => Answer::Word("yes"),
        Err(fault) => Answer::Refused(Refusal::Pickle(PickleError::Fault(fault))),
    }
}

fn read_item(alloc: Global, bytes: &[u8]) -> Result<Answer, AllocError> {
    match nob_item::decode(alloc, bytes) {
        Ok(item) => Ok(Answer::Item(item.copy()?)),
        Err(error) => refused_item(error),
    }
}

fn write_item(alloc: Global, item: &Item) -> Result<Answer, AllocError> {
    match nob_item::encode(alloc, item) {
        Ok(bytes) => Ok(Answer::Bytes(bytes)),
        Err(error) => refused_item(error),
    }
}

fn write_parts(alloc: Global, item: &Item) -> Result<Answer, AllocError> {
    let written = match item {
        Item::Call {
            call,
            target,
            method,
            value,
        } => nob_item::encode_call(alloc, *call, *target, *method, value),
        Item::Reply {
            call,
            status,
            value,
        } => nob_item::encode_reply(alloc, *call, *status, value),
        _ => return Ok(Answer::Word("no parts")),
    };
    match written {
        Ok(bytes) => Ok(Answer::Bytes(bytes)),
        Err(error) => refused_item(error),
    }
}

fn counted_one(item: &Item, place: usize) -> Answer {
    match nob_item::counted_ref(item, place) {
        Some(rep) => Answer::Reference(rep),
        None => Answer::Word("none"),
    }
}

// What was read as a frame, as an answer, which is a copy of it.
fn frame_answer(alloc: Global, read: Result<Frame, FrameError>) -> Result<Answer, AllocError> {
    match read {
        Ok(frame) => {
            let mut frames = Vec::new(alloc);
            frames.push(frame.copy()?)?;
            Ok(Answer::Frames(frames))
        }
        Err(error) => refused_frame(error),
    }
}

// What was written of a frame, as an answer.
fn bytes_answer(written: Result<Vec<u8>, FrameError>) -> Result<Answer, AllocError> {
    match written {
        Ok(bytes) => Ok(Answer::Bytes(bytes)),
        Err(error) => refused_frame(error),
    }
}

fn feed(alloc: Global, pieces: &[Vec<u8>]) -> Result<Answer, AllocError> {
    let mut feed = Feed::new(alloc);
    let mut pushes = Vec::new(alloc);
    for piece in pieces {
        pushes.push(push(&mut feed, piece)?)?;
    }
    Ok(Answer::Pushes(pushes))
}

// Pushes a piece, and where memory was refused once more: nothing has changed then.
fn push(feed: &mut Feed, piece: &[u8]) -> Result<Push, AllocError> {
    for _ in 0..2 {
        match feed.push(piece) {
            Ok(frames) => return Ok(Push::Frames(frames)),
            Err(FrameError::Fault(fault)) => return Ok(Push::Refused(fault)),
            Err(FrameError::OutOfMemory) => {}
        }
    }
    Err(AllocError)
}

fn feed_each(alloc: Global, count: u64, bytes: &[u8]) -> Result<Answer, AllocError> {
    let mut feed = Feed::new(alloc);
    let mut frames: u64 = 0;
    for _ in 0..count {
        for byte in bytes {
            match push(&mut feed, &[*byte])? {
                Push::Frames(given) => frames = frames.saturating_add(given.len() as u64),
                Push::Refused(fault) => return Ok(Answer::Refused(Refusal::Frame(FrameError::Fault(
                    fault,
                )))),
            }
        }
    }
    Ok(Answer::Number(frames))
}
