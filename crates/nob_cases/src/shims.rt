//! Cases of shims with the words of a link of running spaces.

use nob_case_texts::Answer;
use nob_fault::{Shim, words_between};
use nob_frame::{Bytes, Frame, FrameKind};
use nob_ids::SpaceId;
use nob_link::Parcel;
use std::alloc::{AllocError, Global};

// How many frames pass a shim: the last ten meet no word.
const FRAMES: u64 = 10_010;

// What a digest begins with, and by what it is multiplied.
const BASIS: u64 = 14_695_981_039_346_656_037;

const PRIME: u64 = 1_099_511_628_211;

/// What is asked of a link.
#[derive(Clone, Copy)]
pub enum Asked {
    /// The digest of the shim's words.
    Words,
    /// How many parcels come out for frames with the numbers from 1 to 10,010, and the end.
    Parcels,
    /// The digest of the numbers of these parcels, the end's being 0.
    Output,
}

/// A question about the link from a space to another.
#[derive(Clone, Copy)]
pub struct ShimCase {
    /// What is asked.
    pub asked: Asked,
    /// What the words are made from.
    pub seed: u64,
    /// The space that puts.
    pub from: SpaceId,
    /// The space that takes.
    pub to: SpaceId,
    /// How many frames of ten are lost.
    pub loss: u64,
}

/// Answers a case. Only memory fails it.
pub fn answer(alloc: Global, case: &ShimCase) -> Result<Answer, AllocError> {
    let words = words_between(alloc, case.seed, case.from, case.to, case.loss)?;
    if let Asked::Words = case.asked {
        return Ok(Answer::Number(digest_of(words.as_slice())));
    }
    let numbers = passed(alloc, words, case.from, case.to)?;
    match case.asked {
        Asked::Parcels => Ok(Answer::Number(numbers.len() as u64)),
        _ => Ok(Answer::Number(digest_of(numbers.as_slice()))),
    }
}

// The numbers of what comes out of a new shim with these words.
fn passed(
    alloc: Global,
    words: Vec<u64>,
    from: SpaceId,
    to: SpaceId,
) -> Result<Vec<u64>, AllocError> {
    let mut shim = Shim::new(words);
    let mut numbers = Vec::new(alloc);
    for number in 1..=FRAMES {
        let frame = frame(alloc, from, to, number)?;
        let stamp = number;
        pass(&mut shim, &mut numbers, Parcel::Frame { stamp, frame })?;
    }
    pass(&mut shim, &mut numbers, Parcel::End)?;
    Ok(numbers)
}

// Passes a parcel, and adds the numbers of what comes out.
fn pass(shim: &mut Shim, numbers: &mut Vec<u64>, parcel: Parcel) -> Result<(), AllocError> {
    let Ok(given) = shim.pass(parcel) else {
        return Err(AllocError);
    };
    for parcel in &given {
        let pushed = match parcel {
            Parcel::Frame { stamp, .. } => numbers.push(*stamp),
            Parcel::End => numbers.push(0),
        };
        if pushed.is_err() {
            return Err(AllocError);
        }
    }
    Ok(())
}

// A frame with a number.
fn frame(alloc: Global, from: SpaceId, to: SpaceId, seq: u64) -> Result<Frame, AllocError> {
    Ok(Frame {
        kind: FrameKind::Data,
        from,
        to,
        session: 1,
        seq,
        ack: 1,
        payload: Bytes::from_slice(alloc, b"item")?,
    })
}

// The digest of numbers: each changes bits of the one so far, which is multiplied then.
fn digest_of(numbers: &[u64]) -> u64 {
    numbers.iter().fold(
        BASIS,
        |digest, number| (digest ^ number).wrapping_mul(PRIME),
    )
}
