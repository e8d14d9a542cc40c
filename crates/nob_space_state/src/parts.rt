//! The parts of a space's state.

ghost use Rattle.std.specs.Prelude.{◌≡◌, ◌≤◌, ℕ, true, List, [], length, IfOk};
ghost use Rattle.nob_ids.specs.Names.{most_spaces};
ghost use Rattle.nob_model_types.specs.declared.entry.Entry.{Entry};
ghost use Rattle.nob_model_types.specs.Deeds.{deeds};
ghost use Rattle.nob_model_types.specs.Sessions.{is_peer};
ghost use Rattle.nob_model_lives.specs.Births.{IsBorn, IsInRange};
ghost use Rattle.nob_space_state.specs.Births.{life_of};
ghost use Rattle.nob_space_state.specs.Stands.{StandFor, AreBegun};

use crate::birth::Birth;
use nob_dirty::DirtySets;
use nob_ids::{Limits, SpaceId};
use nob_model::Here;
use nob_pins::PinTable;
use nob_session::Session;
use nob_space_calls::Calls;
use nob_space_messages::Messages;
use nob_table::ObjectTable;
use std::alloc::{AllocError, Global};

/// What a space keeps, and which it is. It holds pins, so it can't be let go: the sessions are closed first, which
/// ends the pins.
pub struct Parts {
    /// Which space it is, among how many.
    pub here: Here,
    /// The ends of the sessions: at place p - 1 the one with space p. The space's own place is
    /// never used.
    pub sessions: Vec<Session>,
    /// The objects of the space, and its surrogates of others.
    pub table: ObjectTable,
    /// Who is listed for the objects.
    pub dirty: DirtySets,
    /// The pins of what was sent.
    pub pins: PinTable,
    /// The messages that wait for their references, in order of acting, the ready jobs, in order of
    /// becoming ready, and the jobs that run.
    pub messages: Messages,
    /// The calls whose replies aren't taken, and the ready replies.
    pub calls: Calls,
    /// How many calls were made.
    pub calls_made: u64,
    /// How many jobs were given out.
    pub jobs_made: u64,
}

impl Parts {
    /// The state of a space that has done nothing: its sessions with all others are open. Only
    /// memory fails it. The caller's condition: there are 32 spaces at most.
    pub fn new(alloc: Global, here: Here, limits: Limits) -> Result<Parts, AllocError>
        requires { here.n ≤ most_spaces }
        ensures stands { IfOk result (λ parts. StandFor limits parts []) }
        ensures here { IfOk result (λ parts. parts.here ≡ here) }
    {
        let parts = Parts::begin_at(alloc, here, limits, &Birth::default())?;
        Ok(parts)
    }

    /// The state of a space whose life begins so: it has nothing, and its sessions with all others
    /// are open, in the numbers of the birth. It stands for every list of entries after which the
    /// space is born so. Only memory fails it. The caller's conditions: there are 32 spaces at most,
    /// and the birth is in range.
    pub fn begin_at(
        alloc: Global,
        here: Here,
        limits: Limits,
        birth: &Birth,
    ) -> Result<Parts, AllocError>
        requires few { here.n ≤ most_spaces }
        requires in_range { IsInRange here.space here.n (life_of birth.now) }
        ensures stands { IfOk result (λ parts. (L : List Entry)
            → IsBorn here.space here.n limits (life_of birth.now) L
            → StandFor limits parts (deeds L)) }
        ensures here { IfOk result (λ parts. parts.here ≡ here) }
    {
        let sessions = open_all(alloc, here.space, here.n, limits, birth)?;
        Ok(Parts {
            here,
            sessions,
            table: ObjectTable::begin_at(alloc, here.space, birth.indexes),
            dirty: DirtySets::new(alloc),
            pins: PinTable::new(alloc),
            messages: Messages::new(alloc),
            calls: Calls::new(alloc),
            calls_made: birth.calls,
            jobs_made: birth.jobs,
        })
    }
}

// The ends with the spaces from 1 to n.
fn open_all(
    alloc: Global,
    me: SpaceId,
    n: u16,
    limits: Limits,
    birth: &Birth,
) -> Result<Vec<Session>, AllocError>
    requires few { n ≤ most_spaces }
    requires numbers { (p : ℕ) → is_peer me n p ≡ true → 1 ≤ (life_of birth.now).session p }
    ensures each { IfOk result (λ sessions. length sessions.items ≡ n) }
    ensures begun { IfOk result
        (λ sessions. AreBegun me (life_of birth.now).session 1 limits sessions.items) }
{
    let mut sessions = Vec::new(alloc);
    let mut p = 1;
    while p <= n {
        let Some(peer) = SpaceId::new(p) else {
            unreachable!();
        };
        sessions.push(Session::open_at(alloc, me, peer, limits, birth.number(me, peer))?)?;
        p += 1;
    }
    Ok(sessions)
}
