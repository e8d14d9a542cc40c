//! A space with what it keeps for a program in another language.

ghost use Rattle.std.specs.Prelude.{◌≡◌, ◌≤◌, [], None, Err, IfOk, IfErr};
ghost use Rattle.nob_host_space.specs.Feeds.{fresh_feeds};
ghost use Rattle.nob_space.specs.Spaces.{StandsFor};
ghost use Rattle.nob_host_space.specs.Asked.{AreNumbers, HostAsked, IsNew, value_with};

use crate::feeds::Feeds;
use crate::numbers::{DONE, OUT_OF_RANGE, WANTED, error_number};
use crate::told::Told;
use crate::waiting::Waiting;
use nob_ids::{Limits, SpaceId};
use nob_model::{Answer, Event};
use nob_pickle::{Bytes, Value};
use nob_space::Space;
use std::alloc::Global;
use std::mem;

/// A space with what it keeps for a program in another language.
pub struct Host {
    /// The space.
    pub space: Space,
    /// The value of the last reply or job.
    pub value: Option<Value>,
    /// What was answered in bytes.
    pub answer: Bytes,
    /// Frames that came on a stream and wait.
    pub waiting: Waiting,
    /// The streams from the peers.
    pub feeds: Feeds,
}

impl Drop for Host {
    fn drop(self) {
        let Host {
            space,
            value: _,
            answer: _,
            waiting: _,
            feeds: _,
        } = self;
        space.shut();
    }
}

// The value that an answer brings, or the one before.
fn value_of(answer: Answer, before: Option<Value>) -> Option<Value>
    ensures { result ≡ value_with answer before }
{
    let mut answer = answer;
    match &mut answer {
        Answer::Replied(_, value) => Some(mem::replace(value, Value::Unit)),
        Answer::Job(job) => Some(mem::replace(&mut job.value, Value::Unit)),
        _ => before,
    }
}

impl Host {
    // A host of a space that has done nothing.
    fn of(alloc: Global, id: SpaceId, n: u16, limits: Limits) -> Result<Host, u32>
        requires { n ≤ 32 }
        ensures id { IfOk result (λ host. host.space.id ≡ id) }
        ensures n { IfOk result (λ host. host.space.n ≡ n) }
        ensures limits { IfOk result (λ host. host.space.limits ≡ limits) }
        ensures stands { IfOk result (λ host. StandsFor host.space []) }
        ensures value { IfOk result (λ host. host.value ≡ None) }
        ensures answer { IfOk result (λ host. host.answer ≡ []) }
        ensures waiting { IfOk result (λ host. host.waiting ≡ []) }
        ensures feeds { IfOk result (λ host. host.feeds ≡ fresh_feeds) }
        ensures err { IfErr result (λ status. status ≡ 14) }
    {
        let Ok(feeds) = Feeds::new(alloc) else {
            return Err(WANTED);
        };
        let Ok(space) = Space::new(alloc, id, n, limits) else {
            return Err(WANTED);
        };
        Ok(Host {
            space,
            value: None,
            answer: Bytes::from_vec(Vec::new(alloc)),
            waiting: Waiting::of(Vec::new(alloc)),
            feeds,
        })
    }

    /// A host of a space that has done nothing: its number, how many spaces there are, and the
    /// limits of its sessions. Else why there is none: 60 where a number is outside its range, 14
    /// for want of memory.
    pub fn new(alloc: Global, id: u16, n: u16, window: u64, retry: u64) -> Result<Host, u32>
        ensures made { IfOk result (λ host. IsNew host id n window retry) }
        ensures memory { AreNumbers id n window retry → IfErr result (λ status. status ≡ 14) }
        ensures range { (AreNumbers id n window retry → ⊥) → result ≡ Err 60 }
    {
        let Some(id) = SpaceId::new(id) else {
            return Err(OUT_OF_RANGE);
        };
        let Some(limits) = Limits::new(window, retry) else {
            return Err(OUT_OF_RANGE);
        };
        if n > SpaceId::MOST {
            return Err(OUT_OF_RANGE);
        }
        Host::of(alloc, id, n, limits)
    }

    /// The space is asked for an event: the status, and what is told of its answer. It costs what
    /// the event costs.
    pub fn ask(&mut self, event: &Event, told: &mut Told) -> u32
        ensures asked { HostAsked self.old event.now self.new told.new result }
        ensures answer { self.new.answer ≡ self.old.answer }
    {
        match self.space.step(event) {
            Ok(answer) => {
                *told = Told::of(&answer);
                let before = self.value.take();
                self.value = value_of(answer, before);
                DONE
            }
            Err(error) => {
                *told = Told::nothing();
                error_number(error)
            }
        }
    }
}
