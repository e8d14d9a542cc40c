//! The program `test_strangers`: what peers outside the runtime can send. Streams of bytes are
//! given to a Feed, which must answer what `decode` says at each place; and frames, good ones and
//! altered ones, come to a space, whose every answer must be the right one by the definitions. Then
//! what two ends of a session hold while items go from one to the other.
#![tactic(auto)]

mod frames;
mod held;
mod lives;
mod seen;
mod streams;

use crate::held::try_held;
use crate::lives::{Life, new_space};
use crate::seen::Happenings;
use crate::streams::{changed_frames, frames_of, no_frames, try_stream};
use nob_frame::FrameFault;
use nob_ids::{Limits, SpaceId};
use nob_rounds::Words;
use nob_space::Space;
use std::alloc::{AllocError, Global};
use std::io;
use std::process::ExitCode;

// The length of a long stream, in bytes.
const LONG: usize = 100_000;

// The length of a stream in which one byte is changed, and the number of such streams.
const SHORT: usize = 1_000;

const CHANGED: u64 = 10_000;

// The number of frames that come to one space.
const FRAMES_OF_A_LIFE: u64 = 25;

fn main(rt: HostRuntime) -> ExitCode {
    match run(&rt) {
        Ok(()) => ExitCode::from(0),
        Err(_) => ExitCode::from(1),
    }
}

// Tries all, and writes what is said of it. How many frames come to spaces is read from standard
// input.
fn run(rt: &HostRuntime) -> io::Result<()> {
    let mut words = Words::new(1);
    try_long(rt, &mut words)?;
    try_changed(rt, &mut words)?;
    let mut frames = 0;
    for line in rt.lines(rt.alloc()) {
        frames = line?.as_str().parse::<u64>().unwrap_or(0);
    }
    try_lives(rt, frames)?;
    try_held(rt)
}

// Lets so many frames come to spaces, and writes what is said of it.
fn try_lives(rt: &HostRuntime, frames: u64) -> io::Result<()> {
    let alloc = rt.alloc();
    let mut seen = Happenings::new(alloc);
    let mut right: u64 = 0;
    for life in 0..frames / FRAMES_OF_A_LIFE {
        match life_of(alloc, life, &mut seen) {
            Ok(count) => right = right.saturating_add(count),
            Err(AllocError) => return rt.println("memory"),
        }
    }
    println!(rt; "{right} of {frames} frames: every answer the right one")?;
    let faults = seen.faults.count();
    let reasons = seen.reasons.count();
    let answers = seen.answers.count();
    println!(rt; "{faults} of 12 faults, {reasons} of 6 reasons, {answers} of 16 kinds of answer")
}

// Tries a long stream of frames, and one of bytes of no meaning.
fn try_long(rt: &HostRuntime, words: &mut Words) -> io::Result<()> {
    let alloc = rt.alloc();
    let bytes = frames_of(alloc, words, LONG)?;
    let found = try_stream(alloc, bytes.as_slice(), words)?;
    let is_whole = found.agrees && found.fault.is_none() && found.frames > 500;
    rt.println(if is_whole {
        "100000 bytes of frames: what decode says at each place"
    } else {
        "100000 bytes of frames: not what decode says"
    })?;
    let bytes = no_frames(alloc, words, LONG)?;
    let found = try_stream(alloc, bytes.as_slice(), words)?;
    let is_refused = found.agrees && matches!(found.fault, Some(FrameFault::Magic));
    rt.println(if is_refused {
        "100000 bytes of no meaning: F2, as decode says"
    } else {
        "100000 bytes of no meaning: not what decode says"
    })
}

// Tries streams of frames in which one byte is changed.
fn try_changed(rt: &HostRuntime, words: &mut Words) -> io::Result<()> {
    let alloc = rt.alloc();
    let mut right: u64 = 0;
    let mut seen = Happenings::new(alloc);
    for _ in 0..CHANGED {
        let bytes = changed_frames(alloc, words, SHORT)?;
        let found = try_stream(alloc, bytes.as_slice(), words)?;
        if found.agrees {
            right = right.saturating_add(1);
        }
        if let Some(fault) = found.fault {
            seen.note_fault(fault)?;
        }
    }
    let faults = seen.faults.count();
    println!(rt;
        "{right} of {CHANGED} streams with a changed byte: what decode says, {faults} of 10 faults"
    )
}

// Lets frames come to a new space, between which it does something: how many came whose answers,
// and those between them, were right.
fn life_of(alloc: Global, seed: u64, seen: &mut Happenings) -> Result<u64, AllocError> {
    let Some(id) = SpaceId::new(1) else {
        return Ok(0);
    };
    let Some(limits) = Limits::new(4, 3) else {
        return Ok(0);
    };
    let mut space = new_space(alloc, id, limits)?;
    let mut life = Life::new(alloc, id, limits, seed % 4 == 0);
    let right = frames_come(&mut space, &mut life, seed, seen);
    space.shut();
    right
}

// The same with a new space and its life.
fn frames_come(
    space: &mut Space,
    life: &mut Life,
    seed: u64,
    seen: &mut Happenings,
) -> Result<u64, AllocError> {
    let mut words = Words::new(seed);
    let mut right: u64 = 0;
    for _ in 0..FRAMES_OF_A_LIFE {
        let comes = life.frame_comes(space, &mut words, seen)?;
        let does = life.does_some(space, &mut words, seen)?;
        if comes && does {
            right = right.saturating_add(1);
        }
    }
    Ok(right)
}
