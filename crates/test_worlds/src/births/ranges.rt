//! Births of space 1 among three, and what is said of each.

use nob_ids::{Limits, SpaceId};
use nob_space::{Birth, Space};
use std::io;

// A birth that is in range: of a later life, behind one index.
fn later() -> Birth {
    Birth {
        indexes: 1,
        calls: 0,
        jobs: 0,
        sessions: [3; 32],
    }
}

/// The greatest number of an index, a call or a job.
const LAST: u64 = 281_474_976_710_656;

/// The maximum number of calls and jobs in a session.
const MOST_A_SESSION: u64 = 1_099_511_627_776;

// Writes what is said of births that are in range only just, or only just not.
pub fn say_births(rt: &HostRuntime) -> io::Result<()> {
    say_birth(rt, "a new space's", Birth::default())?;
    say_birth(rt, "a later one's", later())?;
    say_bounds(rt)?;
    say_sessions(rt)
}

// Those whose indexes, calls or jobs are the last, or one more.
fn say_bounds(rt: &HostRuntime) -> io::Result<()> {
    let last_index = Birth {
        indexes: LAST,
        ..later()
    };
    let index_more = Birth {
        indexes: LAST + 1,
        ..later()
    };
    let call_more = Birth {
        calls: LAST + 1,
        ..later()
    };
    let job_more = Birth {
        jobs: LAST + 1,
        ..later()
    };
    say_birth(rt, "the last index", last_index)?;
    say_birth(rt, "one index more", index_more)?;
    say_birth(rt, "one call too many", call_more)?;
    say_birth(rt, "one job too many", job_more)
}

// Those of whose sessions there are too few, or just enough, for the calls and jobs.
fn say_sessions(rt: &HostRuntime) -> io::Result<()> {
    let old_sessions = Birth {
        sessions: [1; 32],
        ..later()
    };
    let all_calls = Birth {
        calls: MOST_A_SESSION + MOST_A_SESSION,
        ..later()
    };
    let job_beside = Birth {
        calls: MOST_A_SESSION + MOST_A_SESSION,
        jobs: 1,
        ..later()
    };
    say_birth(rt, "the old sessions", old_sessions)?;
    say_birth(rt, "all calls of two sessions", all_calls)?;
    say_birth(rt, "and a job", job_beside)
}

// Writes what is said of a birth.
fn say_birth(rt: &HostRuntime, name: &str, birth: Birth) -> io::Result<()> {
    let Some(id) = SpaceId::new(1) else {
        return Ok(());
    };
    match Space::begin_at(rt.alloc(), id, 3, Limits::default(), &birth) {
        Ok(space) => {
            space.shut();
            println!(rt; "{name}: begins")
        }
        Err(error) => { println!(rt; "{name}: {error}") }
    }
}
