//! A space that begins at a birth.

ghost use Rattle.std.specs.Prelude.{◌≡◌, ◌≤◌, List, [], length, None, Err, IfOk, IfErr};
ghost use Rattle.nob_model_types.specs.declared.entry.Entry.{Entry};
ghost use Rattle.nob_model_lives.specs.Births.{IsBorn, IsInRange};
ghost use Rattle.nob_space.specs.Spaces.{StandsFor};
ghost use Rattle.nob_space_state.specs.Births.{life_of};
ghost use Rattle.nob_host_space.specs.Asked.{AreNumbers};
ghost use Rattle.nob_host_space.specs.Births.{IsBegun, RefusesBirth, birth_with};
ghost use Rattle.nob_host_space.specs.Feeds.{fresh_feeds};

use crate::feeds::Feeds;
use crate::host::Host;
use crate::numbers::{OUT_OF_RANGE, birth_error_number};
use crate::waiting::Waiting;
use nob_ids::{Limits, SpaceId};
use nob_model::Here;
use nob_pickle::Bytes;
use nob_space::{Birth, BirthError, Space};
use std::alloc::Global;

/// The birth behind so many indexes, calls and jobs, with these numbers of the sessions: that with
/// space p at place p - 1, and 0 where there is none. The caller's condition: there are 32 at most.
pub fn birth_of(indexes: u64, calls: u64, jobs: u64, sessions: &[u32]) -> Birth
    requires { length sessions.now ≤ 32 }
    ensures { life_of result ≡ birth_with indexes calls jobs sessions.now }
{
    let mut all = [0; 32];
    let mut place = 0;
    while place < sessions.len() {
        all[place] = sessions[place];
        place += 1;
    }
    Birth {
        indexes,
        calls,
        jobs,
        sessions: all,
    }
}

impl Host {
    // A host of a space that begins so.
    fn born(alloc: Global, here: &Here, limits: Limits, birth: &Birth) -> Result<Host, u32>
        requires { here.now.n ≤ 32 }
        ensures id { IfOk result (λ host. host.space.id ≡ here.now.space) }
        ensures n { IfOk result (λ host. host.space.n ≡ here.now.n) }
        ensures limits { IfOk result (λ host. host.space.limits ≡ limits) }
        ensures stands { IfOk result (λ host. (L : List Entry)
            → IsBorn here.now.space here.now.n limits (life_of birth.now) L
            → StandsFor host.space L) }
        ensures in_range { IfOk result
            (λ host. IsInRange here.now.space here.now.n (life_of birth.now)) }
        ensures value { IfOk result (λ host. host.value ≡ None) }
        ensures answer { IfOk result (λ host. host.answer ≡ []) }
        ensures waiting { IfOk result (λ host. host.waiting ≡ []) }
        ensures feeds { IfOk result (λ host. host.feeds ≡ fresh_feeds) }
        ensures err { IfErr result
            (λ status. RefusesBirth here.now.space here.now.n (life_of birth.now) status) }
    {
        let space = match Space::begin_at(alloc, here.space, here.n, limits, birth) {
            Ok(space) => space,
            Err(error) => return Err(birth_error_number(error)),
        };
        let Ok(feeds) = Feeds::new(alloc) else {
            space.shut();
            return Err(birth_error_number(BirthError::OutOfMemory));
        };
        Ok(Host {
            space,
            value: None,
            answer: Bytes::from_vec(Vec::new(alloc)),
            waiting: Waiting::of(Vec::new(alloc)),
            feeds,
        })
    }

    /// A host of a space that begins at a birth: as `new`, but behind what was before. Else why
    /// there is none: 60 where a number is outside its range, 71 to 75 for the birth's first fault,
    /// 14 for want of memory.
    pub fn begin_at(
        alloc: Global,
        id: u16,
        n: u16,
        window: u64,
        retry: u64,
        birth: &Birth,
    ) -> Result<Host, u32>
        ensures made { IfOk result (λ host. IsBegun host id n window retry (life_of birth.now)) }
        ensures err { AreNumbers id n window retry → IfErr result
            (λ status. RefusesBirth id n (life_of birth.now) status) }
        ensures range { (AreNumbers id n window retry → ⊥) → result ≡ Err 60 }
    {
        let Some(space) = SpaceId::new(id) else {
            return Err(OUT_OF_RANGE);
        };
        let Some(limits) = Limits::new(window, retry) else {
            return Err(OUT_OF_RANGE);
        };
        if n > SpaceId::MOST {
            return Err(OUT_OF_RANGE);
        }
        let here = Here { space, n };
        Host::born(alloc, &here, limits, birth)
    }
}
