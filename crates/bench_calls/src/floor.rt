//! The floor: frames that go to and fro between threads, over links alone.

use crate::saying::{BEGIN, END, say};
use nob_bytes::Bytes;
use nob_frame::{Frame, FrameKind};
use nob_ids::SpaceId;
use nob_link::{Parcel, PutEnd, TakeEnd, link};
use std::alloc::Global;
use std::sync::Wait;
use std::thread::{self, Threads};

/// How many parcels a link holds.
const LINK: usize = 16;

/// A thread that puts parcels and takes them back, with how often that went well.
#[derive(Drop)]
struct Player {
    put: PutEnd,
    take: TakeEnd,
    frame: Option<Frame>,
    rounds: u64,
    answered: u64,
}

/// A thread that puts back what it takes.
#[derive(Drop)]
struct Wall {
    put: PutEnd,
    take: TakeEnd,
}

impl Player {
    // Puts its frame and takes it back, so many times; then it puts the end.
    fn play<R: Wait>(&mut self, rt: &R) {
        let Some(frame) = self.frame.take() else {
            return;
        };
        let mut parcel = Parcel::Frame { stamp: 1, frame };
        for _ in 0..self.rounds {
            if self.put.put_as(rt, parcel).is_err() {
                return;
            }
            let Some(back) = self.take.take_as(rt) else {
                return;
            };
            parcel = back;
            self.answered = self.answered.saturating_add(1);
        }
        let _ = self.put.put_as(rt, Parcel::End);
    }
}

impl Wall {
    // Puts back what it takes, until the end comes.
    fn play<R: Wait>(&mut self, rt: &R) {
        for _ in rt.forever() {
            let Some(parcel) = self.take.take_as(rt) else {
                return;
            };
            match parcel {
                Parcel::End => return,
                Parcel::Frame { stamp, frame } => {
                    let back = Parcel::Frame { stamp, frame };
                    if self.put.put_as(rt, back).is_err() {
                        return;
                    }
                }
            }
        }
    }
}

// Pairs of threads send a frame to and fro, each pair as often: how often it came back.
// `None` where memory is wanted.
pub(crate) fn run_floor<R: Threads + Wait + Sync + Print>(
    rt: &R,
    alloc: Global,
    pairs: u16,
    rounds: u64,
) -> Option<u64> {
    let mut players = Vec::new(alloc);
    let mut walls = Vec::new(alloc);
    for _ in 0..pairs {
        let (put_there, take_there) = link(alloc, LINK).ok()?;
        let (put_back, take_back) = link(alloc, LINK).ok()?;
        players
            .push(Player {
                put: put_there,
                take: take_back,
                frame: Some(frame(alloc)?),
                rounds,
                answered: 0,
            })
            .ok()?;
        walls
            .push(Wall {
                put: put_back,
                take: take_there,
            })
            .ok()?;
    }
    say(rt, BEGIN);
    play_all(rt, players.as_mut_slice(), walls.as_mut_slice());
    say(rt, END);
    let mut answered: u64 = 0;
    for player in &players {
        answered = answered.saturating_add(player.answered);
    }
    Some(answered)
}

// Runs all, a thread each.
fn play_all<R: Threads + Wait + Sync>(rt: &R, players: &mut [Player], walls: &mut [Wall]) {
    thread::scope(thread::scope_env(), rt, |scope| {
        for wall in walls {
            let _ = scope.spawn(move || wall.play(rt));
        }
        for player in players {
            let _ = scope.spawn(move || player.play(rt));
        }
    });
}

// A frame with an item of a few bytes.
fn frame(alloc: Global) -> Option<Frame> {
    Some(Frame {
        kind: FrameKind::Data,
        from: SpaceId::new(1)?,
        to: SpaceId::new(2)?,
        session: 1,
        seq: 1,
        ack: 1,
        payload: Bytes::from_slice(alloc, &[7, 0, 0, 0, 0, 0, 0, 0, 5]).ok()?,
    })
}
