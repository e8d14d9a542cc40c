//! Two nodes with objects of three kinds, of which one has a name that is removed while the other node
//! holds it.

use crate::calling::{Refusals, Said, found, give_back, offer, said_by};
use crate::thing::{Doubler, Mixed, Thing};
use crate::verdict::{Outcome, outcome_of_two};
use nob_bytes::Bytes;
use nob_dispatch_objects::{Agent, Object};
use nob_nodes::{
    Company, Hold, Keep, Node, Played, Player, Report, partner_of, retire, run_two_keeping,
};
use nob_pickle::Value;
use std::alloc::Global;
use std::sync::Wait;
use std::thread::Threads;

const COUNTER: &[u8] = b"counter";

const DOUBLER: &[u8] = b"doubler";

const NAMES: &[u8] = b"names";

/// What the owner's node said of itself.
#[derive(Clone, Copy, Debug)]
pub(crate) struct Seen {
    /// How many objects were live while the caller held one whose name and hold were gone, and how
    /// many once that one was withdrawn.
    pub(crate) while_held: u64,
    pub(crate) once_withdrawn: u64,
    /// Whether the session with the caller was open.
    pub(crate) is_open: bool,
}

/// What the caller's calls came to.
#[derive(Clone, Copy, Debug)]
pub(crate) struct Heard {
    /// A call of the counter, of the doubler, and of the table of names for one that isn't there.
    pub(crate) counter: Said,
    pub(crate) doubler: Said,
    pub(crate) names: Said,
    /// A lookup of the counter's name once that was removed, and a call of the counter then.
    pub(crate) unbound: Said,
    pub(crate) still_held: Said,
    /// How many receipts its node had in the end.
    pub(crate) receipts: usize,
}

/// The objects of the owner.
#[derive(Drop)]
struct Objects<B: Object> {
    counter: B,
    doubler: B,
    names: B,
}

/// The application that has the objects.
#[derive(Drop)]
struct Owner<B: Object> {
    objects: Option<Objects<B>>,
    seen: Seen,
    refusals: Refusals,
}

impl<B: Object> Owner<B> {
    // Removes the name of the counter and gives the hold on it back, and waits until the caller has
    // given its own back, too.
    fn unbind<R: Wait>(
        &mut self,
        rt: &R,
        node: &mut Node<B>,
        company: &Company,
        hold: Option<Hold>,
    ) {
        let Some(hold) = hold else {
            return;
        };
        let index = hold.rep().index;
        let unbound = self.refusals.answered(node.unbind(rt, COUNTER));
        company.meet(rt);
        company.meet(rt);
        give_back(rt, node, &mut self.refusals, Some(hold));
        self.seen.while_held = node.live(rt);
        if let Some(tally) = node.tally(rt, partner_of(company)) {
            self.seen.is_open = tally.closed.is_none();
        }
        company.meet(rt);
        if unbound.is_some() {
            node.wait_withdrawn(rt, index);
        }
        self.seen.once_withdrawn = node.live(rt);
    }
}

impl<B: Object> Player<B> for Owner<B> {
    fn run<R: Wait>(&mut self, rt: &R, node: &mut Node<B>, company: &Company) {
        let Some(objects) = self.objects.take() else {
            return;
        };
        let refusals = &mut self.refusals;
        let counter = offer(rt, node, refusals, COUNTER, objects.counter);
        let doubler = offer(rt, node, refusals, DOUBLER, objects.doubler);
        let names = offer(rt, node, refusals, NAMES, objects.names);
        company.meet(rt);
        company.meet(rt);
        self.unbind(rt, node, company, counter);
        if let Some(doubler) = doubler {
            retire(rt, node, DOUBLER, doubler);
        }
        if let Some(names) = names {
            retire(rt, node, NAMES, names);
        }
    }
}

/// The application that calls the objects.
#[derive(Drop)]
struct Caller {
    alloc: Global,
    heard: Heard,
    refusals: Refusals,
}

impl Caller {
    // What a call of an object comes to, which is looked up and given back.
    fn said_once<B: Object, R: Wait>(
        &mut self,
        rt: &R,
        node: &mut Node<B>,
        company: &Company,
        name: &[u8],
        method: u16,
        value: Value,
    ) -> Said {
        let refusals = &mut self.refusals;
        let hold = found(rt, node, refusals, partner_of(company), name).ok();
        let said = said_by(rt, node, refusals, &hold, method, value);
        give_back(rt, node, refusals, hold);
        said
    }

    // Calls the counter, and the two others, which it looks up and gives back.
    fn call_all<B: Object, R: Wait>(
        &mut self,
        rt: &R,
        node: &mut Node<B>,
        company: &Company,
        counter: &Option<Hold>,
    ) {
        self.heard.counter = said_by(rt, node, &mut self.refusals, counter, 0, Value::Unit);
        self.heard.doubler = self.said_once(rt, node, company, DOUBLER, 0, Value::Int(14));
        if let Ok(name) = Bytes::from_slice(self.alloc, COUNTER) {
            let name = Value::Bytes(name);
            self.heard.names = self.said_once(rt, node, company, NAMES, 1, name);
        }
    }

    // Looks the counter up by its name, which was removed, and calls it by the hold that is left.
    fn look_again<B: Object, R: Wait>(
        &mut self,
        rt: &R,
        node: &mut Node<B>,
        company: &Company,
        counter: &Option<Hold>,
    ) {
        let refusals = &mut self.refusals;
        match found(rt, node, refusals, partner_of(company), COUNTER) {
            Ok(hold) => give_back(rt, node, refusals, Some(hold)),
            Err(said) => self.heard.unbound = said,
        }
        self.heard.still_held = said_by(rt, node, &mut self.refusals, counter, 0, Value::Unit);
    }
}

impl<B: Object> Player<B> for Caller {
    fn run<R: Wait>(&mut self, rt: &R, node: &mut Node<B>, company: &Company) {
        company.meet(rt);
        let counter = found(rt, node, &mut self.refusals, partner_of(company), COUNTER).ok();
        self.call_all(rt, node, company, &counter);
        company.meet(rt);
        company.meet(rt);
        self.look_again(rt, node, company, &counter);
        company.meet(rt);
        company.meet(rt);
        give_back(rt, node, &mut self.refusals, counter);
        self.heard.receipts = node.receipts().len();
    }
}

/// What the scene comes to.
#[derive(Clone, Copy, Debug)]
pub(crate) struct Unbound {
    /// What the owner's node said of itself.
    pub(crate) seen: Seen,
    /// What the caller's calls came to.
    pub(crate) heard: Heard,
    /// How many objects were left in the end.
    pub(crate) left: usize,
    /// What is said of the scene.
    pub(crate) outcome: Outcome,
}

/// Plays the scene. `None` where memory is wanted, or a thread can't be made.
pub(crate) fn play_unbinding<R: Threads + Wait + Sync>(rt: &R, alloc: Global) -> Option<Unbound> {
    let owner = Owner {
        objects: Some(Objects {
            counter: Mixed::Thing(Thing::Counter(0)),
            doubler: Mixed::Doubler(Doubler),
            names: Mixed::Names(Agent::new(alloc)),
        }),
        seen: Seen {
            while_held: 0,
            once_withdrawn: 0,
            is_open: false,
        },
        refusals: Refusals::new(),
    };
    let caller = Caller {
        alloc,
        heard: Heard {
            counter: Said::Other,
            doubler: Said::Other,
            names: Said::Other,
            unbound: Said::Other,
            still_held: Said::Other,
            receipts: 0,
        },
        refusals: Refusals::new(),
    };
    let (there, here) = run_two_keeping(rt, alloc, Keep::All, owner, caller)?;
    unbound_of(alloc, there, here)
}

// What the scene comes to by what both nodes left. Only memory fails it.
fn unbound_of<B: Object>(
    alloc: Global,
    there: Played<B, Owner<B>>,
    here: Played<B, Caller>,
) -> Option<Unbound> {
    let Report {
        record: first,
        objects,
    } = there.left.ok()?;
    let Report {
        record: second,
        objects: _,
    } = here.left.ok()?;
    let owner = there.player;
    let caller = here.player;
    let refusals = owner.refusals.with(caller.refusals);
    Some(Unbound {
        seen: owner.seen,
        heard: caller.heard,
        left: objects.len(),
        outcome: outcome_of_two(alloc, refusals, first, second)?,
    })
}
