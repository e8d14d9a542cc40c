//! The steps that a player takes by chance.

use crate::calling::call_any;
use crate::desk::Doing;
use crate::figures::add;
use crate::kind::{KINDS, Kind};
use crate::mending::{close, open_anew};
use crate::player::{LAST_NAME, Soaker, name_of};
use crate::pocket::{Held, Pocket};
use crate::thing::Thing;
use nob_ids::SpaceId;
use nob_nodes::{Hold, Node};
use std::sync::Wait;

/// How many references a player holds at most, before it gives one back.
const MAX_HELD: usize = 24;

// One step.
pub(crate) fn step<R: Wait>(
    soaker: &mut Soaker,
    rt: &R,
    node: &mut Node<Thing>,
    pocket: &mut Pocket,
) {
    if pocket.len() > MAX_HELD {
        pocket.give_one_back(rt, node, &mut soaker.chance);
    }
    if soaker.chance.below(1_000) < soaker.plan.closes {
        close_any(soaker, rt, node);
    }
    match soaker.chance.below(100) {
        0..10 => make(soaker, rt, node, pocket),
        10..28 => look_up(soaker, rt, node, pocket),
        28..74 => call_any(soaker, rt, node, pocket),
        74..84 => give_back_any(soaker, rt, node, pocket),
        84..88 => dup(soaker, rt, node, pocket),
        88..93 => bind(soaker, rt, node, pocket),
        93..96 => unbind(soaker, rt, node),
        _ => open_any(soaker, rt, node, pocket),
    }
}

// A kind by chance, but no table: of these each space has one, which others empty in the end.
fn any_kind(soaker: &mut Soaker) -> Kind {
    match soaker.chance.below(8) {
        0 => Kind::Slow,
        1 => Kind::Faulty,
        2 | 3 => Kind::Caller,
        _ => Kind::Counter,
    }
}

// A new object of a kind by chance.
pub(crate) fn made<R: Wait>(soaker: &mut Soaker, rt: &R, node: &mut Node<Thing>) -> Option<Held> {
    soaker.say(rt, Doing::Makes);
    let kind = any_kind(soaker);
    match node.export(rt, Thing::new(soaker.alloc, kind, soaker.space)) {
        Ok(hold) => {
            add(&mut soaker.figures.exports);
            Some(Held { hold, kind })
        }
        Err((error, _thing)) => {
            soaker.figures.count_error(error);
            None
        }
    }
}

// A new object, which is held.
fn make<R: Wait>(soaker: &mut Soaker, rt: &R, node: &mut Node<Thing>, pocket: &mut Pocket) {
    if let Some(held) = made(soaker, rt, node) {
        pocket.put(rt, node, held);
    }
}

// Looks a name up by chance.
fn look_up<R: Wait>(soaker: &mut Soaker, rt: &R, node: &mut Node<Thing>, pocket: &mut Pocket) {
    let Some(peer) = soaker.any_peer() else {
        return;
    };
    let kind = named_kind(soaker);
    let place = soaker.chance.small_between(0, LAST_NAME);
    if let Some(hold) = found(soaker, rt, node, peer, &name_of(kind, place)) {
        pocket.put(rt, node, Held { hold, kind });
    }
}

// A kind by chance.
fn named_kind(soaker: &mut Soaker) -> Kind {
    let place = soaker.chance.place_in(KINDS.len());
    KINDS.get(place).copied().unwrap_or(Kind::Counter)
}

// What a name of a peer stands for.
pub(crate) fn found<R: Wait>(
    soaker: &mut Soaker,
    rt: &R,
    node: &mut Node<Thing>,
    peer: SpaceId,
    name: &[u8],
) -> Option<Hold> {
    soaker.say(rt, Doing::LooksUp(peer.get()));
    match node.lookup(rt, peer, name) {
        Ok(returned) => {
            soaker.figures.count_returned(&returned);
            match returned.into_hold() {
                Ok(hold) => Some(hold),
                Err(returned) => {
                    returned.forget();
                    None
                }
            }
        }
        Err(error) => {
            soaker.figures.count_error(error);
            None
        }
    }
}

// Gives one back.
fn give_back_any<R: Wait>(
    soaker: &mut Soaker,
    rt: &R,
    node: &mut Node<Thing>,
    pocket: &mut Pocket,
) {
    soaker.say(rt, Doing::GivesBack);
    pocket.give_one_back(rt, node, &mut soaker.chance);
}

// One hold more on a reference.
fn dup<R: Wait>(soaker: &mut Soaker, rt: &R, node: &mut Node<Thing>, pocket: &mut Pocket) {
    let Some(held) = pocket.any(&mut soaker.chance) else {
        return;
    };
    let kind = held.kind;
    match node.dup(rt, &held.hold) {
        Ok(hold) => pocket.put(rt, node, Held { hold, kind }),
        Err(error) => soaker.figures.count_error(error),
    }
}

// Has a name stand for a reference. The first of each kind goes on standing for what it does.
fn bind<R: Wait>(soaker: &mut Soaker, rt: &R, node: &mut Node<Thing>, pocket: &mut Pocket) {
    let place = any_place(soaker);
    let Some(held) = pocket.any(&mut soaker.chance) else {
        return;
    };
    soaker.say(rt, Doing::Makes);
    if let Err(error) = node.bind(rt, &name_of(held.kind, place), &held.hold) {
        soaker.figures.count_error(error);
    }
}

// Removes a name.
fn unbind<R: Wait>(soaker: &mut Soaker, rt: &R, node: &mut Node<Thing>) {
    let place = any_place(soaker);
    let kind = named_kind(soaker);
    soaker.say(rt, Doing::Makes);
    if let Err(error) = node.unbind(rt, &name_of(kind, place)) {
        soaker.figures.count_error(error);
    }
}

// A place of names by chance, but not the first.
fn any_place(soaker: &mut Soaker) -> u8 {
    soaker.chance.small_between(1, LAST_NAME)
}

// Closes the session with a peer by chance.
fn close_any<R: Wait>(soaker: &mut Soaker, rt: &R, node: &mut Node<Thing>) {
    if let Some(peer) = soaker.any_peer() {
        close(soaker, rt, node, peer);
    }
}

// Opens the session with a peer anew, if it is closed, once nothing of the peer's is held; and
// looks at its own node.
fn open_any<R: Wait>(soaker: &mut Soaker, rt: &R, node: &mut Node<Thing>, pocket: &mut Pocket) {
    let Some(peer) = soaker.any_peer() else {
        return;
    };
    let _live = node.live(rt);
    let _receipts = node.receipts().len();
    match node.tally(rt, peer) {
        Some(tally) if tally.closed.is_some() => {
            pocket.give_back_of(rt, node, peer);
            open_anew(soaker, rt, node, peer);
        }
        _ => {}
    }
}
