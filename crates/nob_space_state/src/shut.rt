//! The end of a space.

ghost use Rattle.std.specs.Prelude.{◌≡◌, ◌≤◌, ◌+◌};
ghost use Rattle.nob_space_state.specs.Closing.{IsShutBelow};
ghost use Rattle.nob_space_state.specs.Stands.{IsState};

use crate::parts::Parts;
use nob_ids::{Reason, SpaceId};

impl Parts {
    // Closes the session with a space, if that is a peer and the session is open.
    fn close_if_open(&mut self, peer: SpaceId)
        requires { IsState self.old }
        ensures shut { IsShutBelow peer self.old → IsShutBelow (peer + 1) self.new }
        ensures here { self.new.here ≡ self.old.here }
    {
        if !self.here.is_peer(peer) {
            return;
        }
        if self.has_closed(peer) {
            return;
        }
        self.close_for(peer, Reason::Asked);
    }

    // Closes the sessions that are open.
    fn close_all(&mut self)
        requires few { self.old.here.n ≤ 32 }
        requires state { IsState self.old }
        ensures { IsShutBelow (self.new.here.n + 1) self.new }
    {
        let n = self.here.n;
        let mut p = 1;
        while p <= n {
            let Some(peer) = SpaceId::new(p) else {
                unreachable!();
            };
            self.close_if_open(peer);
            p += 1;
        }
    }

    /// Closes each session that is open, as if it was asked to close, and ends what the space
    /// keeps: each of its pins is given up. It takes no memory, and tells no peer. The caller's
    /// condition: there are 32 spaces at most.
    pub fn shut(self)
        requires few { self.here.n ≤ 32 }
        requires state { IsState self }
    {
        let mut parts = self;
        parts.close_all();
        let Parts {
            here: _,
            sessions: _sessions,
            table: _table,
            dirty: _dirty,
            pins,
            messages: _messages,
            calls: _calls,
            calls_made: _,
            jobs_made: _,
        } = parts;
        pins.end();
    }
}
