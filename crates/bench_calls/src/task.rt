//! What is measured.

use nob_ids::Limits;
use nob_nodes::Keep;
use std::{env, io};

/// What each call is for.
#[derive(Clone, Copy, Debug, PartialEq, Eq)]
pub(crate) enum Kind {
    /// No space is called: a frame goes to and fro.
    Floor,
    /// Nobody is called: each caller holds a reference, for so many milliseconds.
    Idle,
    /// Nothing is passed.
    Null,
    /// As `Null`, and it is said for how long calls were waited for.
    Timed,
    /// As `Null`, and each caller calls an object of its own.
    Apart,
    /// A reference to a new object is passed, and given back by the one who called.
    Fresh,
    /// As `Fresh`, and the object is waited for until it is withdrawn.
    Life,
    /// A reference to a new object is passed on to a third space.
    Handoff,
}

/// What is measured: so many callers, each of which makes so many calls, over links that lose about
/// so many frames of ten, of nodes that keep all of their entries, or nothing. Where a window is
/// named, it is that of all sessions, and the frames are counted that the nodes give.
#[derive(Clone, Copy, Debug)]
pub(crate) struct Task {
    pub(crate) kind: Kind,
    pub(crate) callers: u16,
    pub(crate) calls: u64,
    pub(crate) loss: u64,
    pub(crate) keep: Keep,
    pub(crate) window: Option<u64>,
}

impl Task {
    // How many calls each caller times.
    pub(crate) fn timed(self) -> usize {
        if self.kind != Kind::Timed {
            return 0;
        }
        usize::try_from(self.calls).unwrap_or(0)
    }

    // The limits of all sessions. `None` where a window is named that is out of range.
    pub(crate) fn limits(self) -> Option<Limits> {
        let limits = Limits::default();
        match self.window {
            Some(window) => Limits::new(window, limits.retry),
            None => Some(limits),
        }
    }
}

/// The task of the command line: `None` where it has too few words. Nodes keep all where the fifth
/// word isn't `nothing`.
pub(crate) fn read_task(rt: &HostRuntime) -> io::Result<Option<Task>> {
    let mut words = env::args(rt)?;
    let _program = words.next();
    let Some(kind) = words.next() else {
        return Ok(None);
    };
    let Some(callers) = words.next() else {
        return Ok(None);
    };
    let Some(calls) = words.next() else {
        return Ok(None);
    };
    let Some(loss) = words.next() else {
        return Ok(None);
    };
    let keep = match words.next() {
        Some(word) => keep_of(word.as_str()),
        None => Keep::All,
    };
    let window = match words.next() {
        Some(word) => word.as_str().parse::<u64>().ok(),
        None => None,
    };
    Ok(Some(Task {
        kind: kind_of(kind.as_str()),
        callers: callers.as_str().parse::<u16>().unwrap_or(1).clamp(1, 16),
        calls: calls.as_str().parse::<u64>().unwrap_or(1),
        loss: loss.as_str().parse::<u64>().unwrap_or(0),
        keep,
        window,
    }))
}

// What a word has the nodes keep.
fn keep_of(word: &str) -> Keep {
    match word {
        "nothing" => Keep::Nothing,
        _ => Keep::All,
    }
}

// The kind of a word.
fn kind_of(word: &str) -> Kind {
    match word {
        "floor" => Kind::Floor,
        "timed" => Kind::Timed,
        "idle" => Kind::Idle,
        "fresh" => Kind::Fresh,
        "life" => Kind::Life,
        "handoff" => Kind::Handoff,
        "apart" => Kind::Apart,
        _ => Kind::Null,
    }
}
