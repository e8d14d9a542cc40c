//! What strangers send: frames and items with small numbers, bytes of no meaning, and spellings in
//! which one byte is changed.

use nob_frame::{Bytes, Frame, FrameError, FrameKind, encode};
use nob_ids::{CallNo, ItemNo, SpaceId, WireRep};
use nob_item::{Item, ItemError};
use nob_pickle::{Value, Values};
use nob_rounds::Words;
use std::alloc::{AllocError, Global};

// The highest number of an object, of a call or of an item that strangers speak of, and one more.
const FEW: u64 = 5;

/// A random byte.
pub fn random_byte(words: &mut Words) -> u8 {
    (words.below(256) % 256) as u8
}

/// `count` random bytes.
pub fn random_bytes(alloc: Global, words: &mut Words, count: u64) -> Result<Vec<u8>, AllocError> {
    let mut bytes = Vec::new(alloc);
    for _ in 0..count {
        bytes.push(random_byte(words))?;
    }
    Ok(bytes)
}

/// One of the spaces from 1 to n.
pub fn random_space(words: &mut Words, n: u16) -> Option<SpaceId> {
    let place = (words.below(u64::from(n)) % 32) as u16;
    SpaceId::new(place.saturating_add(1))
}

/// A reference to one of the first objects of one of the spaces, or to its agent.
pub fn random_rep(words: &mut Words, n: u16) -> Option<WireRep> {
    let owner = random_space(words, n)?;
    let index = words.below(FEW);
    Some(WireRep { owner, index })
}

/// A value: one reference mostly, two in a list, or none.
pub fn random_value(alloc: Global, words: &mut Words, n: u16) -> Result<Value, AllocError> {
    let Some(rep) = random_rep(words, n) else {
        return Ok(Value::Unit);
    };
    match words.below(4) {
        0 => Ok(Value::Int(7)),
        1 => Ok(Value::List(twice(alloc, &rep)?)),
        _ => Ok(Value::Ref(rep)),
    }
}

// A reference, twice.
fn twice(alloc: Global, rep: &WireRep) -> Result<Values, AllocError> {
    let mut values = Vec::new(alloc);
    values.push(Value::Ref(*rep))?;
    values.push(Value::Ref(*rep))?;
    Ok(Values::from_vec(values))
}

// An item with small numbers.
fn random_item(alloc: Global, words: &mut Words, n: u16) -> Result<Item, AllocError> {
    let number = words.below(FEW);
    Ok(match words.below(12) {
        0..=3 => Item::Call {
            call: CallNo::new(number),
            target: words.below(FEW),
            method: 1,
            value: random_value(alloc, words, n)?,
        },
        4..=5 => Item::Reply {
            call: CallNo::new(number),
            status: (words.below(5) % 8) as u8,
            value: random_value(alloc, words, n)?,
        },
        6 => Item::Settle(ItemNo::new(number)),
        7..=8 => Item::Dirty(number),
        9 => Item::DirtyOk(number),
        10 => Item::DirtyNo(number),
        _ => Item::Clean(number),
    })
}

// An item that may well be in its place: a call of the agent with a reference of its sender's, the
// grant of one, or the reply to the first call.
fn good_item(words: &mut Words, from: SpaceId) -> Item {
    let index = words.below(2).saturating_add(1);
    match words.below(8) {
        0..=4 => Item::Call {
            call: CallNo::new(1),
            target: 0,
            method: 1,
            value: Value::Ref(WireRep { owner: from, index }),
        },
        5..=6 => Item::DirtyOk(index),
        _ => Item::Reply {
            call: CallNo::new(1),
            status: 0,
            value: Value::Unit,
        },
    }
}

/// The bytes of an item that may well be in its place.
pub fn good_payload(alloc: Global, words: &mut Words, from: SpaceId) -> Result<Bytes, AllocError> {
    let item = good_item(words, from);
    bytes_of(alloc, words, &item)
}

/// The bytes of an item; or of none, seldom.
pub fn random_payload(alloc: Global, words: &mut Words, n: u16) -> Result<Bytes, AllocError> {
    if words.below(12) == 0 {
        let count = words.below(24).saturating_add(1);
        return Ok(Bytes::from_vec(random_bytes(alloc, words, count)?));
    }
    let item = random_item(alloc, words, n)?;
    bytes_of(alloc, words, &item)
}

// The bytes of an item; or others, where it has none.
fn bytes_of(alloc: Global, words: &mut Words, item: &Item) -> Result<Bytes, AllocError> {
    match nob_item::encode(alloc, item) {
        Ok(bytes) => Ok(Bytes::from_vec(bytes)),
        Err(ItemError::Fault(_)) => Ok(Bytes::from_vec(random_bytes(alloc, words, 9)?)),
        Err(ItemError::OutOfMemory) => Err(AllocError),
    }
}

/// The bytes of a Close frame's reason.
pub fn reason_bytes(alloc: Global, words: &mut Words) -> Result<Bytes, AllocError> {
    let mut bytes = Vec::new(alloc);
    bytes.push((words.below(6).saturating_add(1) % 8) as u8)?;
    Ok(Bytes::from_vec(bytes))
}

/// The number of a session: the present one mostly, else one of the first, or 0, which no frame
/// has.
pub fn random_session(words: &mut Words, present: u32) -> u32 {
    if words.below(128) == 0 {
        (words.below(FEW) % 5) as u32
    } else {
        present
    }
}

/// A frame between two of 32 spaces with a payload of no meaning.
pub fn any_frame(alloc: Global, words: &mut Words) -> Result<Option<Frame>, AllocError> {
    let Some(from) = random_space(words, 32) else {
        return Ok(None);
    };
    let Some(to) = random_space(words, 32) else {
        return Ok(None);
    };
    let ack = words.below(1000).saturating_add(1);
    let (kind, seq, payload) = match words.below(8) {
        0 => (FrameKind::Ack, 0, Bytes::from_vec(Vec::new(alloc))),
        1 => (FrameKind::Close, 0, reason_bytes(alloc, words)?),
        _ => {
            let most = if words.below(32) == 0 { 4000 } else { 90 };
            let count = words.below(most).saturating_add(1);
            let seq = words.below(1000).saturating_add(1);
            let bytes = random_bytes(alloc, words, count)?;
            (FrameKind::Data, seq, Bytes::from_vec(bytes))
        }
    };
    Ok(Some(Frame {
        kind,
        from,
        to,
        session: random_session(words, 1),
        seq,
        ack,
        payload,
    }))
}

/// The spelling of a frame, or none. Only memory fails it.
pub fn spelling_of(alloc: Global, frame: &Frame) -> Result<Option<Vec<u8>>, AllocError> {
    match encode(alloc, frame) {
        Ok(bytes) => Ok(Some(bytes)),
        Err(FrameError::Fault(_)) => Ok(None),
        Err(FrameError::OutOfMemory) => Err(AllocError),
    }
}

/// Changes one byte, of the first ones mostly.
pub fn change_one(bytes: &mut Vec<u8>, words: &mut Words) {
    let count = bytes.len() as u64;
    let reach = if words.below(2) == 0 {
        count
    } else {
        count.min(32)
    };
    let place = words.below(reach) as usize;
    let change = if words.below(2) == 0 {
        random_byte(words)
    } else {
        (words.below(4) % 4) as u8
    };
    if let Some(byte) = bytes.get_mut(place) {
        *byte = if *byte == change { *byte ^ 1 } else { change };
    }
}
