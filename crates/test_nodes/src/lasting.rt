//! Two nodes that keep nothing of their entries, and what these come to.

use crate::calling::{Refusals, Said, found, give_back, offer, said_by};
use crate::thing::Thing;
use nob_nodes::{Company, Hold, Node, Played, Player, Record, partner_of, run_two};
use nob_pickle::Value;
use std::alloc::Global;
use std::sync::Wait;
use std::thread::Threads;

/// How many calls are made.
const CALLS: u64 = 20_000;

/// Each node makes more entries than this: five for each call.
const ENTRIES: u64 = 60_000;

/// The name of the object that is called.
const NAME: &[u8] = b"one";

/// What both nodes come to, whatever their schedule.
#[derive(Clone, Copy, Debug)]
pub(crate) struct Lasted {
    /// How many calls were answered.
    pub(crate) answered: u64,
    /// What the last one answered.
    pub(crate) last: i64,
    /// Whether each made more than three entries for each call.
    pub(crate) is_beyond: bool,
    /// Whether each has acted on all that the other handed to it.
    pub(crate) is_even: bool,
    /// How many objects are live.
    pub(crate) live: u64,
    /// Whether the session is open at both.
    pub(crate) is_open: bool,
    /// How many calls the nodes refused.
    pub(crate) refused: u64,
}

/// The application that has the object.
#[derive(Drop)]
struct Owner {
    refusals: Refusals,
}

impl Player<Thing> for Owner {
    // Has the object until it was called, and waits until it is withdrawn.
    fn run<R: Wait>(&mut self, rt: &R, node: &mut Node<Thing>, company: &Company) {
        let hold = offer(rt, node, &mut self.refusals, NAME, Thing::Counter(0));
        company.meet(rt);
        company.meet(rt);
        let Some(hold) = hold else {
            return;
        };
        let index = hold.rep().index;
        let unbound = self.refusals.answered(node.unbind(rt, NAME));
        give_back(rt, node, &mut self.refusals, Some(hold));
        if unbound.is_some() {
            node.wait_withdrawn(rt, index);
        }
    }
}

/// The application that calls it.
#[derive(Drop)]
struct Caller {
    refusals: Refusals,
    // How many calls were answered, and what the last one answered.
    answered: u64,
    last: i64,
}

impl Caller {
    // Makes its calls.
    fn call_each<R: Wait>(&mut self, rt: &R, node: &mut Node<Thing>, hold: &Option<Hold>) {
        for _ in 0..CALLS {
            let said = said_by(rt, node, &mut self.refusals, hold, 0, Value::Unit);
            let Said::Number(number) = said else {
                return;
            };
            self.answered = self.answered.saturating_add(1);
            self.last = number;
        }
    }
}

impl Player<Thing> for Caller {
    // Looks the object up, calls it so often, and gives it back.
    fn run<R: Wait>(&mut self, rt: &R, node: &mut Node<Thing>, company: &Company) {
        company.meet(rt);
        let hold = found(rt, node, &mut self.refusals, partner_of(company), NAME).ok();
        self.call_each(rt, node, &hold);
        give_back(rt, node, &mut self.refusals, hold);
        company.meet(rt);
    }
}

/// What is left of a node, in numbers.
#[derive(Clone, Copy, Debug)]
struct Numbers {
    entries: u64,
    live: u64,
    // What it handed to the other, and of that one's what it acted on.
    sent: u64,
    acted: u64,
    is_open: bool,
}

// What is left of a node that kept nothing, one of two.
fn numbers_of<A: Drop>(played: &Played<Thing, A>) -> Option<Numbers> {
    let Ok(report) = &played.left else {
        return None;
    };
    let Record::Summary(summary) = &report.record else {
        return None;
    };
    let [session] = summary.peers.as_slice() else {
        return None;
    };
    Some(Numbers {
        entries: summary.entries,
        live: summary.live,
        sent: session.tally.sent,
        acted: session.tally.acted,
        is_open: session.tally.closed.is_none(),
    })
}

/// Plays the scene. `None` where memory is wanted, or a thread can't be made.
pub(crate) fn play_lasting<R: Threads + Wait + Sync>(rt: &R, alloc: Global) -> Option<Lasted> {
    let owner = Owner {
        refusals: Refusals::new(),
    };
    let caller = Caller {
        refusals: Refusals::new(),
        answered: 0,
        last: 0,
    };
    let (there, here) = run_two(rt, alloc, owner, caller)?;
    let owned = numbers_of(&there)?;
    let called = numbers_of(&here)?;
    Some(Lasted {
        answered: here.player.answered,
        last: here.player.last,
        is_beyond: owned.entries > ENTRIES && called.entries > ENTRIES,
        is_even: owned.sent == called.acted && called.sent == owned.acted,
        live: owned.live.saturating_add(called.live),
        is_open: owned.is_open && called.is_open,
        refused: there.player.refusals.with(here.player.refusals).count(),
    })
}
