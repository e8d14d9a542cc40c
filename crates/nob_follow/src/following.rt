//! Files that are followed side by side.

use crate::outcome::Followed;
use crate::source::{Next, Tracked};
use nob_chain::ChainFault;
use nob_ids::{Limits, SpaceId};
use nob_recall::{WatchError, WatchFault};
use nob_watch::Watch;
use std::alloc::{AllocError, Global};

/// After how many frames a turn comes.
const SPAN: usize = 1024;

/// What comes of these files, of each of which the first line was read.
pub fn follow(alloc: Global, sources: &mut Vec<Tracked>, cut: bool) -> Followed {
    let limits = match limits_of(alloc, sources.as_slice()) {
        Ok(Some(limits)) => limits,
        Ok(None) => return Followed::NotOneEach,
        Err(_) => return Followed::OutOfMemory,
    };
    if limits.is_empty() || limits.len() > 32 {
        return Followed::NotOneEach;
    }
    let mut watch = match Watch::new(alloc, SPAN, limits) {
        Ok(watch) => watch,
        Err(_) => return Followed::OutOfMemory,
    };
    let outcome = go_through(alloc, &mut watch, sources, cut);
    watch.shut();
    outcome
}

// The limits of each space, the first first; nothing where the files aren't one of each space, each
// of as many as there are.
fn limits_of(alloc: Global, sources: &[Tracked]) -> Result<Option<Vec<Limits>>, AllocError> {
    let mut limits = Vec::new(alloc);
    for place in 0..sources.len() {
        match limits_at(sources, place) {
            Some(own) => limits.push(own)?,
            None => return Ok(None),
        }
    }
    Ok(Some(limits))
}

// The limits of the space at this place, where a file is that space's, of as many spaces as there are
// files.
fn limits_at(sources: &[Tracked], place: usize) -> Option<Limits> {
    for source in sources {
        let lines = &source.lines;
        if lines.space().place() == place && usize::from(lines.n().get()) == sources.len() {
            return Some(lines.limits());
        }
    }
    None
}

// Tells and passes all.
fn go_through(alloc: Global, watch: &mut Watch, sources: &mut Vec<Tracked>, cut: bool) -> Followed {
    let mut line: Vec<u8> = Vec::new(alloc);
    for _ in 0..u64::MAX {
        match tell_all(alloc, watch, sources, cut, &mut line) {
            Ok(()) => {}
            Err(outcome) => return outcome,
        }
        match watch.go_on() {
            Ok(true) => {}
            Ok(false) => return passed(watch, sources.as_slice()),
            Err(WatchError::Fault(fault)) => return wrong(sources.as_slice(), fault),
            Err(WatchError::OutOfMemory) => return Followed::OutOfMemory,
        }
    }
    Followed::OutOfMemory
}

// Nothing more can be passed.
fn passed(watch: &Watch, sources: &[Tracked]) -> Followed {
    for source in sources {
        if watch.wants(source.lines.space()) {
            return Followed::Cut(watch.len());
        }
    }
    Followed::Accepted(watch.len())
}

// Tells the next entry of each file of which none is told, or that it has no more.
fn tell_all(
    alloc: Global,
    watch: &mut Watch,
    sources: &mut Vec<Tracked>,
    cut: bool,
    line: &mut Vec<u8>,
) -> Result<(), Followed> {
    for source in sources.iter_mut() {
        if watch.wants(source.lines.space()) {
            match source.next(alloc, line) {
                Ok(next) => match tell(watch, source, next, cut) {
                    Ok(()) => {}
                    Err(outcome) => return Err(outcome),
                },
                Err(outcome) => return Err(outcome),
            }
        }
    }
    Ok(())
}

// Tells what comes next in a file.
fn tell(watch: &mut Watch, source: &Tracked, next: Next, cut: bool) -> Result<(), Followed> {
    match next {
        Next::Entry(dated) => match watch.tell(dated) {
            Ok(()) => Ok(()),
            Err(_) => Err(source.refused(ChainFault::Stamp)),
        },
        Next::Whole => {
            watch.end(source.lines.space());
            Ok(())
        }
        Next::Broken => {
            if cut {
                return Ok(());
            }
            Err(source.refused(ChainFault::Short))
        }
    }
}

// What is wrong with the entry that is due, at its line.
fn wrong(sources: &[Tracked], fault: WatchFault) -> Followed {
    let Some(space) = space_of(&fault) else {
        return Followed::NotOneEach;
    };
    for source in sources {
        if source.lines.space() == space {
            return source.wrong(&fault);
        }
    }
    Followed::NotOneEach
}

// The space of a fault.
fn space_of(fault: &WatchFault) -> Option<SpaceId> {
    match fault {
        WatchFault::Set => None,
        WatchFault::NotARun(space, _) => Some(*space),
        WatchFault::NoOrigin(space, _) => Some(*space),
        WatchFault::Late(space, _) => Some(*space),
        WatchFault::Seal(space, _) => Some(*space),
    }
}
