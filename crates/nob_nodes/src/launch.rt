//! A node to be run.

ghost use Rattle.std.specs.Prelude.{◌≡◌};

use crate::meeting::{Company, Meeting};
use crate::player::{Played, Player, Playing, skip_absent};
use nob_dispatch_objects::Object;
use nob_ids::SpaceId;
use nob_node::{Config, Ends, Gate, KeeperError, NodeError, run};
use std::alloc::Global;
use std::sync::Wait;
use std::thread::Threads;

/// A node to be run, one of several, with its ends of links.
#[derive(Drop)]
pub(crate) struct Launch {
    alloc: Global,
    space: SpaceId,
    // How many spaces there are.
    spaces: u16,
    config: Config,
    ends: Vec<Ends>,
}

impl Launch {
    // The node of a space, one of so many, without links.
    pub(crate) fn new(alloc: Global, space: SpaceId, spaces: u16, config: Config) -> Launch
        ensures { result.config ≡ config }
    {
        Launch {
            alloc,
            space,
            spaces,
            config,
            ends: Vec::new(alloc),
        }
    }

    // Has ends of links to one peer more. Only memory fails it.
    pub(crate) fn add(&mut self, ends: Ends) -> Option<()>
        ensures { self.new.config ≡ self.old.config }
    {
        self.ends.push(ends).ok()
    }

    // Runs the node in this thread, with a player who meets the others there, until all have
    // returned: the player, with what the node leaves. Whoever returns, or can't come, leaves the
    // meeting; the last that does wakes those that have returned.
    pub(crate) fn play<
        O: Object + Send,
        R: Threads + Wait + Sync,
        G: Gate + Sync,
        A: Player<O> + Drop,
    >(self, rt: &R, meeting: &Meeting, gate: &G, player: A) -> Played<O, A>
        ensures { result.config ≡ self.config }
    {
        let Launch {
            alloc,
            space,
            spaces,
            config,
            ends,
        } = self;
        let company = Company::new(meeting, space, spaces);
        let mut playing = Playing {
            player,
            company,
            has_come: false,
        };
        let own = config;
        let left = run(rt, alloc, config, ends, gate, &mut playing);
        skip_absent::<O, R, A>(rt, &mut playing);
        let Playing {
            player,
            company: _,
            has_come: _,
        } = playing;
        Played {
            config: own,
            player,
            left,
        }
    }

    // Doesn't run the node, for want of a thread: the ends of its links go, so no peer waits for
    // it, and its player is skipped and leaves the meeting.
    pub(crate) fn skip<O: Object, R: Wait, A: Player<O> + Drop>(
        self,
        rt: &R,
        meeting: &Meeting,
        mut player: A,
    ) -> Played<O, A>
        ensures { result.config ≡ self.config }
    {
        let Launch {
            alloc,
            config,
            ends,
            ..
        } = self;
        drop(ends);
        player.skip(rt);
        meeting.leave(rt);
        let error = NodeError::Keeper(KeeperError::OutOfMemory);
        Played {
            config,
            player,
            left: Err((error, Vec::new(alloc))),
        }
    }
}
