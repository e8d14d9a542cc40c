//! The frames that strangers send.

use crate::strangers::task::Sort;
use nob_frame::{Bytes, Frame, FrameError, FrameKind, encode};
use nob_ids::{CallNo, ItemNo, SpaceId, WireRep};
use nob_item::{Item, ItemError};
use nob_pickle::{Value, Values};
use nob_rounds::Words;
use std::alloc::{AllocError, Global};

// The bytes of a frame beside its payload.
const HEADER: usize = 32;

// The bytes of a Call's item beside its value, where that is a list of bytes twice; and those of a
// reference.
const AROUND: usize = 32;

const REFERENCE: usize = 11;

// An index that no object has.
const NO_INDEX: u64 = 1 << 40;

// A number that is far ahead.
const FAR: u64 = 1_000_000;

/// What a frame is made of: what it is, who sends it to whom, which number it has, how many bytes
/// it is to have, and an object that may be asked for.
#[derive(Clone, Copy)]
pub(crate) struct Making {
    pub(crate) sort: Sort,
    pub(crate) from: SpaceId,
    pub(crate) to: SpaceId,
    pub(crate) number: u64,
    pub(crate) size: usize,
    pub(crate) index: u64,
}

/// The bytes of a frame, one of which may be changed. Only memory fails it.
pub(crate) fn bytes_of(
    alloc: Global,
    making: &Making,
    words: &mut Words,
) -> Result<Vec<u8>, AllocError> {
    let frame = frame_of(alloc, making)?;
    let mut bytes = match encode(alloc, &frame) {
        Ok(bytes) => bytes,
        Err(FrameError::Fault(_)) => Vec::new(alloc),
        Err(FrameError::OutOfMemory) => return Err(AllocError),
    };
    if making.sort == Sort::Changed {
        change_one(&mut bytes, words);
    }
    Ok(bytes)
}

// Changes one byte.
fn change_one(bytes: &mut Vec<u8>, words: &mut Words) {
    let place = words.below(bytes.len() as u64) as usize;
    let change = (words.below(255) % 255 + 1) as u8;
    if let Some(byte) = bytes.get_mut(place) {
        *byte ^= change;
    }
}

// A frame.
fn frame_of(alloc: Global, making: &Making) -> Result<Frame, AllocError> {
    let is_ack = matches!(making.sort, Sort::Acks | Sort::BadAcks);
    Ok(Frame {
        kind: if is_ack {
            FrameKind::Ack
        } else {
            FrameKind::Data
        },
        from: making.from,
        to: other_space(making),
        session: 1,
        seq: if is_ack { 0 } else { number_of(making) },
        ack: if making.sort == Sort::BadAcks { FAR } else { 1 },
        payload: if is_ack {
            Bytes::from_vec(Vec::new(alloc))
        } else {
            payload_of(alloc, making)?
        },
    })
}

// Which number a frame has.
fn number_of(making: &Making) -> u64 {
    match making.sort {
        Sort::Repeats => 1,
        Sort::Early => FAR.saturating_add(making.number),
        _ => making.number,
    }
}

// Where a frame goes to: a stray one to another space than it comes to.
fn other_space(making: &Making) -> SpaceId {
    if making.sort != Sort::Strays {
        return making.to;
    }
    let other = if making.from.get() == 2 { 3 } else { 2 };
    SpaceId::new(other).unwrap_or(making.to)
}

// What a frame carries.
fn payload_of(alloc: Global, making: &Making) -> Result<Bytes, AllocError> {
    let room = making.size.saturating_sub(HEADER).clamp(1, 16_384);
    if making.sort == Sort::Unread {
        return Ok(Bytes::from_vec(vec![in alloc; 9; room]?));
    }
    match nob_item::encode(alloc, &item_of(alloc, making, room)?) {
        Ok(bytes) => Ok(Bytes::from_vec(bytes)),
        Err(ItemError::Fault(_)) => Ok(Bytes::from_vec(vec![in alloc; 9; room]?)),
        Err(ItemError::OutOfMemory) => Err(AllocError),
    }
}

// The item that a frame carries.
fn item_of(alloc: Global, making: &Making, room: usize) -> Result<Item, AllocError> {
    Ok(match making.sort {
        Sort::Misplaced => Item::Settle(ItemNo::new(1)),
        Sort::Notes if making.number % 2 == 1 => Item::Dirty(making.index),
        Sort::Notes => Item::Clean(making.index),
        Sort::Unknown => {
            let rep = WireRep {
                owner: making.to,
                index: NO_INDEX,
            };
            call_of(alloc, making.number, room, Some(rep))?
        }
        _ => call_of(alloc, making.number, room, None)?,
    })
}

// A Call of the receiver's agent whose item has so many bytes, the 32 around its own ones at least.
fn call_of(
    alloc: Global,
    number: u64,
    room: usize,
    rep: Option<WireRep>,
) -> Result<Item, AllocError> {
    let around = if rep.is_some() {
        AROUND + REFERENCE
    } else {
        AROUND
    };
    let own = room.saturating_sub(around);
    let mut values = Vec::new(alloc);
    values.push(Value::Bytes(Bytes::from_vec(vec![in alloc; 7; own / 2]?)))?;
    values.push(Value::Bytes(Bytes::from_vec(vec![in alloc; 7; own - own / 2]?)))?;
    if let Some(rep) = rep {
        values.push(Value::Ref(rep))?;
    }
    Ok(Item::Call {
        call: CallNo::new(number),
        target: 0,
        method: 1,
        value: Value::List(Values::from_vec(values)),
    })
}

/// The bytes of a frame by which a stranger asks for an object. Only memory fails it.
pub(crate) fn asking(
    alloc: Global,
    from: SpaceId,
    to: SpaceId,
    number: u64,
    index: u64,
) -> Result<Frame, AllocError> {
    let making = Making {
        sort: Sort::Notes,
        from,
        to,
        number: 1,
        size: 0,
        index,
    };
    let mut frame = frame_of(alloc, &making)?;
    frame.seq = number;
    Ok(frame)
}
