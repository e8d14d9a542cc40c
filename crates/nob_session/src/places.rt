//! Places for the items that come early.

ghost use Rattle.std.specs.Prelude.{◌≡◌, ◌≢◌, ◌+◌, ◌<◌, ◌≤◌, List, ℕ, Option, Some, None, Bool, true, false, IfOk, OnErr, length, drop, take, replicate, ◌++◌, [], option_to_list};
ghost use Rattle.std.specs.List.{slice_get};
ghost use Rattle.std.specs.VecDeque.{deque_len, deque_capacity};
ghost use Rattle.nob_model_session.specs.End.{filled, reach};
ghost use Rattle.nob_model_session.specs.Right.{in_a_row};
ghost use Rattle.nob_session.specs.Keeping.{put_at, first_filled, moved_up};

use nob_bytes::Bytes;
use nob_model_session::end::REACH;
use std::alloc::{AllocError, Global};
use std::collections::VecDeque;
use std::marker::Model;

/// Places in a ring, each empty or with a payload.
#[derive(Debug, Drop)]
pub struct Places {
    ring: VecDeque<Option<Bytes>>,
}

impl Model for Places {
    ghost use Rattle.std.specs.Prelude.{◌≤◌, List, ℕ, Option};
    ghost use Rattle.std.specs.VecDeque.{deque_capacity};
    ghost use Rattle.nob_model_session.specs.End.{reach};

    ghost Value = { List (Option (List ℕ)) };

    ghost view = { λ places. places.ring.items };

    // Once there were as many.
    ghost invariant = { λ places. reach ≤ deque_capacity places.ring };
}

impl Places {
    /// 64 empty places, one for each number in reach. Only memory fails it.
    pub fn empty(alloc: Global) -> Result<Places, AllocError>
        ensures { IfOk result (λ places. places ≡ replicate reach None) }
    {
        let mut ring = VecDeque::with_capacity(alloc, REACH)?;
        fill(&mut ring);
        Ok(Places { ring })
    }

    /// Makes 64 empty places anew. It takes no memory.
    pub fn refill(&mut self)
        ensures { self.new ≡ replicate reach None }
    {
        fill(&mut self.ring);
    }

    /// Whether the place behind the first `at` is empty; not where there is none.
    pub fn is_empty_at(&self, at: usize) -> bool
        ensures yes { result ≡ true → slice_get self.now at ≡ Some None }
        ensures no { result ≡ false → slice_get self.now at ≢ Some None }
    {
        match self.ring.get(at) {
            Some(place) => place.is_none(),
            None => false,
        }
    }

    /// Puts a payload into the empty place behind the first `at`.
    pub fn put(&mut self, at: usize, payload: Bytes)
        requires { slice_get self.old at ≡ Some None }
        ensures { self.new ≡ put_at at payload self.old }
    {
        self.ring[at] = Some(payload);
    }

    /// Moves what stands in a row, from the first place on and at most so many, to the queue of
    /// those that wait: how many there were.
    pub fn accept(&mut self, waiting: &mut VecDeque<Bytes>, most: usize) -> usize
        requires { deque_len waiting.old + most ≤ deque_capacity waiting.old }
        ensures count { result ≡ in_a_row most self.old }
        ensures waiting { waiting.new.items ≡ waiting.old.items ++ filled (take result self.old) }
        ensures moved { self.new ≡ moved_up result self.old }
        ensures len { deque_len waiting.new ≡ deque_len waiting.old + result }
        ensures capacity { deque_capacity waiting.new ≡ deque_capacity waiting.old }
    {
        for taken in 0..most {
            let Some(payload) = self.take_first() else {
                return taken;
            };
            waiting.push_back_reserved(payload);
        }
        most
    }

    // The payload in the first place, if it is filled: the others move up then, and an empty place
    // stands behind them.
    fn take_first(&mut self) -> Option<Bytes>
        ensures first { result ≡ first_filled self.old }
        ensures rest { self.new ≡ moved_up (length (option_to_list result)) self.old }
    {
        let Some(Some(_)) = self.ring.front() else {
            return None;
        };
        let first = self.ring.pop_front()?;
        self.ring.push_back_reserved(None);
        first
    }

    /// Gives up all places.
    pub fn clear(&mut self)
        ensures { self.new ≡ [] }
    {
        self.ring.clear();
    }
}

// Puts 64 empty places into a ring, and nothing else.
fn fill(ring: &mut VecDeque<Option<Bytes>>)
    requires { reach ≤ deque_capacity ring.old }
    ensures places { ring.new.items ≡ replicate reach None }
    ensures capacity { deque_capacity ring.new ≡ deque_capacity ring.old }
{
    ring.clear();
    for _ in 0..REACH {
        ring.push_back_reserved(None);
    }
}
