//! What each player says of what it does: for who watches.

use crate::ends::{Ends, Pair, pair_of};
use std::alloc::Global;
use std::sync::atomic::{AtomicBool, Ordering};
use std::sync::{Mutex, Wait};

/// What a player does, and with which space.
#[derive(Clone, Copy, Debug)]
pub(crate) enum Doing {
    /// It hasn't begun.
    Begins,
    /// It waits for the others.
    Meets,
    /// It makes an object, or has a name stand for one.
    Makes,
    /// It looks a name up.
    LooksUp(u16),
    /// It calls an object.
    Calls(u16),
    /// It gives something back.
    GivesBack,
    /// It closes a session, or opens it.
    Closes(u16),
    Opens(u16),
    /// It has what others keep given back.
    Clears(u16),
    /// It waits until nothing is held.
    Rests,
    /// It waits until its sessions stand as those of the others.
    Settles,
    /// It waits until no allocation is refused any more.
    Leaves,
    /// It has returned.
    Left,
}

/// What a player does now, how much it has done, and how its sessions stood when it looked last.
#[derive(Clone, Copy)]
struct Said {
    doing: Doing,
    count: u64,
    ends: Ends,
}

/// Where a player says what it does.
#[derive(Drop)]
struct Desk {
    said: Mutex<Said>,
}

impl Desk {
    // Nothing was said.
    fn new() -> Desk {
        Desk {
            said: Mutex::new(Said {
                doing: Doing::Begins,
                count: 0,
                ends: Ends::unknown(),
            }),
        }
    }

    // What was said last.
    fn said<R: Wait>(&self, rt: &R) -> Said {
        let said = self.said.lock(rt);
        *said
    }
}

/// Where the players of a round say what they do.
#[derive(Drop)]
pub(crate) struct Desks {
    desks: Vec<Desk>,
    // Whether the nodes may end: no allocation is refused any more.
    has_ended: AtomicBool,
}

impl Desks {
    // Nothing was said by any of so many. Only memory fails it.
    pub(crate) fn new(alloc: Global, players: u16) -> Option<Desks> {
        let mut desks = Vec::new(alloc);
        for _ in 0..players {
            desks.push(Desk::new()).ok()?;
        }
        Some(Desks {
            desks,
            has_ended: AtomicBool::new(false),
        })
    }

    // Says that no allocation is refused any more.
    pub(crate) fn end(&self) {
        self.has_ended.store(true, Ordering::SeqCst);
    }

    // Whether no allocation is refused any more.
    pub(crate) fn has_ended(&self) -> bool {
        self.has_ended.load(Ordering::SeqCst)
    }

    // Whether a player has done all, and each other one too, or never began.
    pub(crate) fn are_done<R: Wait>(&self, rt: &R) -> bool {
        let mut is_one_done = false;
        for desk in self.desks.iter() {
            match desk.said(rt).doing {
                Doing::Begins => {}
                Doing::Leaves | Doing::Left => is_one_done = true,
                _ => return false,
            }
        }
        is_one_done
    }

    // Says what the player of the space of a number does from now on.
    pub(crate) fn say<R: Wait>(&self, rt: &R, space: u16, doing: Doing) {
        if let Some(desk) = self.desks.get(place_of(space)) {
            let mut said = desk.said.lock(rt);
            said.doing = doing;
            said.count = said.count.saturating_add(1);
        }
    }

    // Says how the sessions of the player of the space of a number stand.
    pub(crate) fn post<R: Wait>(&self, rt: &R, space: u16, ends: Ends) {
        if let Some(desk) = self.desks.get(place_of(space)) {
            let mut said = desk.said.lock(rt);
            said.ends = ends;
        }
    }

    // How many sessions stand so, as their two players said last.
    pub(crate) fn pairs<R: Wait>(&self, rt: &R, wanted: Pair) -> u64 {
        let mut count: u64 = 0;
        for (first, one) in self.desks.iter().enumerate() {
            let ours = one.said(rt).ends;
            for (second, other) in self.desks.iter().enumerate() {
                let theirs = other.said(rt).ends;
                if first < second && stands(&ours, &theirs, first, second, wanted) {
                    count = count.saturating_add(1);
                }
            }
        }
        count
    }

    // How often something was said.
    pub(crate) fn count<R: Wait>(&self, rt: &R) -> u64 {
        let mut count: u64 = 0;
        for desk in self.desks.iter() {
            count = count.saturating_add(desk.said(rt).count);
        }
        count
    }

    // Says on standard error what each player said last, and how its sessions stood when it looked.
    pub(crate) fn tell<R: Wait, P: Eprint>(&self, rt: &R, out: &P) {
        for (place, desk) in self.desks.iter().enumerate() {
            let said = desk.said(rt);
            let doing = said.doing;
            let count = said.count;
            let ends = said.ends;
            let _ = eprintln!(out; "player {place} {doing:?}, {count} said, {ends:?}");
        }
    }
}

// The place of the desk of the player of the space of a number.
fn place_of(space: u16) -> usize {
    usize::from(space).saturating_sub(1)
}

// Whether the session between the players of two places stands so, as these said.
fn stands(ours: &Ends, theirs: &Ends, first: usize, second: usize, wanted: Pair) -> bool {
    match (ours.tally(second), theirs.tally(first)) {
        (Some(one), Some(other)) => pair_of(&one, &other) == wanted,
        _ => false,
    }
}
