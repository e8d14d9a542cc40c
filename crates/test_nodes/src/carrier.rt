//! Who has ends of links beside the nodes.

use crate::shared::Shared;
use nob_frame::FrameKind;
use nob_link::{Parcel, PutEnd, TakeEnd};
use nob_nodes::{Beside, Meeting};
use std::sync::Wait;
use std::{mem, thread};

/// The way of parcels from one node to another, over two links.
#[derive(Drop)]
pub(crate) struct Way {
    take: TakeEnd,
    put: PutEnd,
    // Whether the next Close is lost.
    loses: bool,
}

impl Way {
    /// The way from the end of one link to that of another.
    pub(crate) fn new(take: TakeEnd, put: PutEnd) -> Way {
        Way {
            take,
            put,
            loses: false,
        }
    }

    /// The same, on which the first Close is lost.
    pub(crate) fn losing(take: TakeEnd, put: PutEnd) -> Way {
        Way {
            take,
            put,
            loses: true,
        }
    }

    // Carries a parcel on, if there is one and it isn't lost.
    fn carry<R: Wait>(&mut self, rt: &R) {
        let Ok(parcel) = self.take.try_take_as(rt) else {
            return;
        };
        if self.loses && is_close(&parcel) {
            self.loses = false;
            return;
        }
        let _ = self.put.put_as(rt, parcel);
    }
}

/// The ends of links that nobody at a node has.
#[derive(Drop)]
pub(crate) enum Loose {
    /// None.
    Nothing,
    /// Those over which one parcel is taken.
    One(PutEnd, TakeEnd),
    /// Those over which parcels are carried there and back until a method is held up.
    Both(Way, Way),
    /// Those over which parcels are carried there and back as long as an application is there.
    All(Way, Way),
}

/// Who carries parcels beside the nodes, and then lets the ends of the links go.
#[derive(Drop)]
pub(crate) struct Carrier<'m> {
    shared: &'m Shared,
    loose: Loose,
}

impl<'m> Carrier<'m> {
    pub(crate) fn new(shared: &'m Shared, loose: Loose) -> Carrier<'m> {
        Carrier { shared, loose }
    }
}

impl<'m> Beside for Carrier<'m> {
    fn run<R: Wait>(&mut self, rt: &R, meeting: &Meeting) {
        match mem::replace(&mut self.loose, Loose::Nothing) {
            Loose::Nothing => {}
            Loose::One(_put, take) => take_one(rt, take),
            Loose::Both(there, back) => carry_until_held(rt, self.shared, there, back),
            Loose::All(there, back) => carry_all(rt, meeting, there, back),
        }
    }
}

// Takes one parcel.
fn take_one<R: Wait>(rt: &R, mut take: TakeEnd) {
    let _ = take.take_as(rt);
}

// Carries parcels there and back until a method is held up, or none will be.
fn carry_until_held<R: Wait>(rt: &R, shared: &Shared, mut there: Way, mut back: Way) {
    for _ in rt.forever() {
        if shared.is_held() {
            return;
        }
        there.carry(rt);
        back.carry(rt);
        thread::yield_now();
    }
}

// Carries parcels there and back as long as an application is there.
fn carry_all<R: Wait>(rt: &R, meeting: &Meeting, mut there: Way, mut back: Way) {
    for _ in rt.forever() {
        if meeting.is_over(rt) {
            return;
        }
        there.carry(rt);
        back.carry(rt);
        thread::yield_now();
    }
}

// Whether a parcel is a frame that closes a session.
fn is_close(parcel: &Parcel) -> bool {
    match parcel {
        Parcel::Frame { frame, .. } => frame.kind == FrameKind::Close,
        Parcel::End => false,
    }
}
