//! The parcels of the runs: each has a number, which is its stamp and the number of its item.

use nob_frame::{Bytes, Frame, FrameKind};
use nob_ids::SpaceId;
use nob_link::Parcel;
use std::alloc::{AllocError, Global};

// What each frame carries.
const PAYLOAD: &[u8] = b"item";

/// The parcel of this number, on its way from space 1 to space 2.
pub fn parcel(alloc: Global, number: u64) -> Result<Parcel, AllocError> {
    let payload = Bytes::from_slice(alloc, PAYLOAD)?;
    Ok(Parcel::Frame {
        stamp: number,
        frame: Frame {
            kind: FrameKind::Data,
            from: space(1),
            to: space(2),
            session: 1,
            seq: number,
            ack: 1,
            payload,
        },
    })
}

/// The parcels of the numbers from 1 on, so many.
pub fn first_parcels(alloc: Global, count: u64) -> Result<Vec<Parcel>, AllocError> {
    let mut parcels = Vec::new(alloc);
    for number in 1..=count {
        parcels.push(parcel(alloc, number)?)?;
    }
    Ok(parcels)
}

/// The space of this number, 1 to 32: the first for any other.
pub fn space(number: u16) -> SpaceId {
    match SpaceId::new(number) {
        Some(space) => space,
        None => first_space(),
    }
}

// The space of number 1.
fn first_space() -> SpaceId {
    let Some(space) = SpaceId::new(1) else {
        unreachable!();
    };
    space
}

/// The number of a parcel: 0 for the end.
pub fn number_of(parcel: &Parcel) -> u64 {
    match parcel {
        Parcel::Frame { stamp, .. } => *stamp,
        Parcel::End => 0,
    }
}

/// Whether this is the parcel of that number, whole.
pub fn is_parcel(parcel: &Parcel, number: u64) -> bool {
    match parcel {
        Parcel::Frame { stamp, frame } => {
            *stamp == number && frame.seq == number && frame.payload.as_slice() == PAYLOAD
        }
        Parcel::End => false,
    }
}

/// The names of parcels: A is the first, and `end` the end.
pub fn names(alloc: Global, parcels: &[Parcel]) -> Result<String, AllocError> {
    let mut text = String::new(alloc);
    for parcel in parcels {
        text.push_str(" ")?;
        text.push_str(name(parcel))?;
    }
    Ok(text)
}

/// The name of a parcel: A is the first, and `end` the end.
pub fn name(parcel: &Parcel) -> &'static str {
    match number_of(parcel) {
        0 => "end",
        1 => "A",
        2 => "B",
        3 => "C",
        4 => "D",
        _ => "another",
    }
}
