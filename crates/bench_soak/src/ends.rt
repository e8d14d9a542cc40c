//! How sessions stand in the end.

use crate::thing::Thing;
use nob_ids::SpaceId;
use nob_model_types::Tally;
use nob_nodes::Node;
use std::sync::Wait;

/// How many spaces there are at most.
const MAX_SPACES: usize = 8;

/// How a player's sessions stood, by the place of the peer, and how many objects of its node were
/// live.
#[derive(Clone, Copy, Debug)]
pub(crate) struct Ends {
    tallies: [Option<Tally>; MAX_SPACES],
    pub(crate) live: u64,
}

impl Ends {
    // Nobody has looked.
    pub(crate) fn unknown() -> Ends {
        Ends {
            tallies: [None; MAX_SPACES],
            live: 0,
        }
    }

    // How they stand now, where there are so many spaces.
    pub(crate) fn of<R: Wait>(rt: &R, node: &mut Node<Thing>, spaces: u16) -> Ends {
        let mut ends = Ends::unknown();
        ends.live = node.live(rt);
        for number in 1..=spaces {
            if let Some(peer) = SpaceId::new(number)
                && let Some(tally) = ends.tallies.get_mut(peer.place())
            {
                *tally = node.tally(rt, peer);
            }
        }
        ends
    }

    // How the session with the peer at a place stood, if there is such a peer.
    pub(crate) fn tally(&self, place: usize) -> Option<Tally> {
        self.tallies.get(place).copied().flatten()
    }
}

/// How the two ends of a session stand to each other.
#[derive(Clone, Copy, PartialEq, Eq)]
pub(crate) enum Pair {
    /// Both are closed.
    Closed,
    /// Both are open, and each has acted on all that the other handed to it.
    Even,
    /// They aren't open in the same session, but over neither that is open something went.
    Apart,
    /// None of these: something is still to come, or an end waits for what never comes.
    Unsettled,
}

// How two ends stand to each other. An end that is closed, or in another session, is not heard of
// by one over which nothing went: nobody waits there.
pub(crate) fn pair_of(ours: &Tally, theirs: &Tally) -> Pair {
    match (ours.closed.is_some(), theirs.closed.is_some()) {
        (true, true) => Pair::Closed,
        (true, false) => apart_if(is_unused(theirs)),
        (false, true) => apart_if(is_unused(ours)),
        (false, false) if ours.session != theirs.session => {
            apart_if(is_unused(ours) && is_unused(theirs))
        }
        (false, false) if ours.sent == theirs.acted && theirs.sent == ours.acted => Pair::Even,
        (false, false) => Pair::Unsettled,
    }
}

// Whether nothing went over a session.
fn is_unused(tally: &Tally) -> bool {
    tally.sent == 0 && tally.acted == 0
}

// Ends that are in no session together, where that may be or not.
fn apart_if(may_be: bool) -> Pair {
    if may_be { Pair::Apart } else { Pair::Unsettled }
}
