//! How a player brings what it has to rest.

use crate::calling::call_plain;
use crate::desk::Doing;
use crate::kind::Kind;
use crate::mending::is_closed;
use crate::player::{Soaker, name_of};
use crate::pocket::give_back;
use crate::steps::found;
use crate::thing::Thing;
use nob_ids::SpaceId;
use nob_nodes::Node;
use std::sync::Wait;
use std::sync::atomic::AtomicU64;
use std::time::Duration;

/// How often it looks whether nothing is held any more, before it gives up.
const LOOKS: u32 = 60_000;

/// How often it tries to have a table give back what it keeps.
const TRIES: u32 = 100;

// Leaves the processor to others for so many microseconds.
pub(crate) fn doze<R: Wait>(rt: &R, micros: u64) {
    let nothing = AtomicU64::new(0);
    nothing.park_timeout(rt, 0, Duration::from_micros(micros));
}

// Has the table of each peer that can be reached give back what it keeps.
pub(crate) fn clear_others<R: Wait>(soaker: &mut Soaker, rt: &R, node: &mut Node<Thing>) {
    for number in 1..=soaker.plan.spaces {
        if number != soaker.space
            && let Some(peer) = SpaceId::new(number)
        {
            clear_at(soaker, rt, node, peer);
        }
    }
}

// Has the table of a peer give back what it keeps, unless the session closes.
fn clear_at<R: Wait>(soaker: &mut Soaker, rt: &R, node: &mut Node<Thing>, peer: SpaceId) {
    for _ in 0..TRIES {
        if is_closed(rt, node, peer) {
            return;
        }
        let Some(hold) = found(soaker, rt, node, peer, &name_of(Kind::Table, 0)) else {
            continue;
        };
        soaker.say(rt, Doing::Clears(peer.get()));
        let is_clear = call_plain(soaker, rt, node, &hold, 3);
        give_back(rt, node, hold);
        if is_clear {
            return;
        }
    }
}

// Has each peer say that it is there, if it can be reached: so a session is closed here that is
// closed there, and all that went there before has come.
pub(crate) fn hear_others<R: Wait>(soaker: &mut Soaker, rt: &R, node: &mut Node<Thing>) {
    for number in 1..=soaker.plan.spaces {
        if number != soaker.space
            && let Some(peer) = SpaceId::new(number)
        {
            hear(soaker, rt, node, peer);
        }
    }
}

// Asks a peer for a name that it hasn't, until it answers, or the session is closed.
pub(crate) fn hear<R: Wait>(soaker: &mut Soaker, rt: &R, node: &mut Node<Thing>, peer: SpaceId) {
    for _ in 0..TRIES {
        if is_closed(rt, node, peer) {
            return;
        }
        soaker.say(rt, Doing::LooksUp(peer.get()));
        match node.lookup(rt, peer, b"nothing") {
            Ok(returned) => {
                soaker.figures.count_returned(&returned);
                returned.forget();
                return;
            }
            Err(error) => soaker.figures.count_error(error),
        }
    }
}

// Waits until none of its objects is live, and nothing is left to do: whether it came to that.
pub(crate) fn rest<R: Wait>(soaker: &mut Soaker, rt: &R, node: &mut Node<Thing>) -> bool {
    for _ in 0..LOOKS {
        if is_at_rest(rt, node) {
            return true;
        }
        soaker.say(rt, Doing::Rests);
        doze(rt, 1_000);
    }
    is_at_rest(rt, node)
}

// Whether none of its objects is live, and nothing is left to do.
fn is_at_rest<R: Wait>(rt: &R, node: &mut Node<Thing>) -> bool {
    let backlog = node.backlog(rt);
    let is_idle = backlog.calls == 0 && backlog.ready == 0 && backlog.running == 0;
    is_idle && node.live(rt) == 0
}
