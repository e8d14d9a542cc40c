//! The references that a player holds.

use crate::chance::Chance;
use crate::kind::{Kind, Reference};
use crate::thing::Thing;
use nob_ids::{SpaceId, WireRep};
use nob_nodes::{Hold, KeeperError, Node, NodeError};
use std::alloc::Global;
use std::sync::Wait;
use std::thread;

/// A hold on an object of a kind.
pub(crate) struct Held {
    pub(crate) hold: Hold,
    pub(crate) kind: Kind,
}

impl Held {
    // The reference that it is a hold on.
    pub(crate) fn reference(&self) -> Reference {
        Reference {
            rep: self.hold.rep(),
            kind: self.kind,
        }
    }
}

/// The references that a player holds.
pub(crate) struct Pocket {
    held: Vec<Held>,
}

impl Pocket {
    // None.
    pub(crate) fn new(alloc: Global) -> Pocket {
        Pocket {
            held: Vec::new(alloc),
        }
    }

    // How many there are.
    pub(crate) fn len(&self) -> usize {
        self.held.len()
    }

    // One by chance.
    pub(crate) fn any(&self, chance: &mut Chance) -> Option<&Held> {
        self.held.get(chance.place_in(self.held.len()))
    }

    // One by chance that isn't of the space of a number, if one is found soon.
    pub(crate) fn any_of_others(&self, chance: &mut Chance, own: u16) -> Option<&Held> {
        for _ in 0..8 {
            if let Some(held) = self.any(chance)
                && held.hold.rep().owner.get() != own
            {
                return Some(held);
            }
        }
        None
    }

    // One by chance that a caller of a space may call, if one is found soon.
    pub(crate) fn any_above(&self, chance: &mut Chance, space: SpaceId) -> Option<&Held> {
        for _ in 0..8 {
            if let Some(held) = self.any(chance)
                && held.kind.is_leaf()
                && held.hold.rep().owner.get() > space.get()
            {
                return Some(held);
            }
        }
        None
    }

    // The one on a reference.
    pub(crate) fn of(&self, rep: WireRep) -> Option<&Held> {
        self.held.iter().find(|held| held.hold.rep() == rep)
    }

    // One more. Where there is no memory for it, it is given back.
    pub(crate) fn put<R: Wait>(&mut self, rt: &R, node: &mut Node<Thing>, held: Held) {
        if let Err(failed) = self.held.push(held) {
            let Held { hold, kind: _ } = failed.value;
            give_back(rt, node, hold);
        }
    }

    // Gives one back by chance.
    pub(crate) fn give_one_back<R: Wait>(
        &mut self,
        rt: &R,
        node: &mut Node<Thing>,
        chance: &mut Chance,
    ) {
        let place = chance.place_in(self.held.len());
        if place < self.held.len() {
            let Held { hold, kind: _ } = self.held.swap_remove(place);
            give_back(rt, node, hold);
        }
    }

    // Gives back those of a space.
    pub(crate) fn give_back_of<R: Wait>(&mut self, rt: &R, node: &mut Node<Thing>, owner: SpaceId) {
        for _ in 0..self.held.len() {
            let Some(place) = place_of(self.held.as_slice(), owner) else {
                return;
            };
            if place < self.held.len() {
                let Held { hold, kind: _ } = self.held.swap_remove(place);
                give_back(rt, node, hold);
            }
        }
    }

    // Gives all back.
    pub(crate) fn give_all_back<R: Wait>(&mut self, rt: &R, node: &mut Node<Thing>) {
        while let Some(held) = self.held.pop() {
            let Held { hold, kind: _ } = held;
            give_back(rt, node, hold);
        }
    }

    // Gives all back, and ends.
    pub(crate) fn end<R: Wait>(self, rt: &R, node: &mut Node<Thing>) {
        let Pocket { mut held } = self;
        while let Some(last) = held.pop() {
            let Held { hold, kind: _ } = last;
            give_back(rt, node, hold);
        }
        held.destroy_empty();
    }
}

// The place of the first hold on an object of a space.
fn place_of(held: &[Held], owner: SpaceId) -> Option<usize> {
    held.iter().position(|held| held.hold.rep().owner == owner)
}

// Gives a hold back. Where memory is wanted it waits for some; else, where it is refused, it is
// forgotten.
pub(crate) fn give_back<R: Wait>(rt: &R, node: &mut Node<Thing>, hold: Hold) {
    let mut held = hold;
    for _ in rt.forever() {
        match node.release(rt, held) {
            Ok(()) => return,
            Err((NodeError::Keeper(KeeperError::OutOfMemory), back)) => held = back,
            Err((_error, back)) => {
                back.forget();
                return;
            }
        }
        thread::yield_now();
    }
    unreachable!()
}
