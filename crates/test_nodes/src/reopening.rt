//! Two nodes that close their session and open it anew.

use crate::calling::{Refusals, Said, found, give_back, offer, said_by};
use crate::thing::Thing;
use crate::verdict::{Outcome, outcome_of_two};
use nob_ids::SpaceId;
use nob_model_types::Refusal;
use nob_nodes::{
    Company, Keep, Node, NodeError, Played, Player, Report, partner_of, run_two_keeping,
};
use nob_pickle::Value;
use std::alloc::Global;
use std::sync::Wait;
use std::thread::Threads;

/// The name of the object that is called.
const NAME: &[u8] = b"one";

/// What closing and opening the session comes to at one node.
#[derive(Clone, Copy, Debug)]
pub(crate) struct Reopened {
    /// Whether an Open before the close was refused with S15.
    pub(crate) was_open: bool,
    /// Whether the session was closed by this node, or had been by the other.
    pub(crate) is_closed: bool,
    /// The number under which it was opened.
    pub(crate) number: Option<u32>,
    // What was refused beside that.
    refusals: Refusals,
}

impl Reopened {
    // Before anything was done.
    fn new() -> Reopened {
        Reopened {
            was_open: false,
            is_closed: false,
            number: None,
            refusals: Refusals::new(),
        }
    }

    // Closes the session, and opens it once both have.
    fn reopen<R: Wait>(&mut self, rt: &R, node: &mut Node<Thing>, company: &Company) {
        let peer = partner_of(company);
        self.was_open = is_refused(node.open(rt, peer), Refusal::StillOpen);
        company.meet(rt);
        self.is_closed = match node.close(rt, peer) {
            Ok(()) => true,
            Err(error) => error == NodeError::Refused(Refusal::Closed),
        };
        company.meet(rt);
        self.number = self.refusals.answered(node.open(rt, peer));
        company.meet(rt);
    }
}

// Whether an Open was refused so.
fn is_refused(opened: Result<u32, NodeError>, refusal: Refusal) -> bool {
    match opened {
        Ok(_) => false,
        Err(error) => error == NodeError::Refused(refusal),
    }
}

/// The application that has the object.
#[derive(Drop)]
struct Owner {
    reopened: Reopened,
}

impl Player<Thing> for Owner {
    // Has the object in both sessions.
    fn run<R: Wait>(&mut self, rt: &R, node: &mut Node<Thing>, company: &Company) {
        let thing = Thing::Counter(0);
        let hold = offer(rt, node, &mut self.reopened.refusals, NAME, thing);
        company.meet(rt);
        self.reopened.reopen(rt, node, company);
        company.meet(rt);
        let refusals = &mut self.reopened.refusals;
        let _ = refusals.answered(node.unbind(rt, NAME));
        give_back(rt, node, refusals, hold);
    }
}

/// The application that calls it.
#[derive(Drop)]
struct Caller {
    reopened: Reopened,
    // What a call came to before the close, and one in the new session.
    before: Said,
    after: Said,
}

impl Player<Thing> for Caller {
    // Looks the object up in each session, calls it, and gives it back.
    fn run<R: Wait>(&mut self, rt: &R, node: &mut Node<Thing>, company: &Company) {
        company.meet(rt);
        let owner = partner_of(company);
        self.before = said_once(rt, node, &mut self.reopened.refusals, owner);
        self.reopened.reopen(rt, node, company);
        self.after = said_once(rt, node, &mut self.reopened.refusals, owner);
        company.meet(rt);
    }
}

// What a call of the object comes to, which is looked up and given back.
fn said_once<R: Wait>(
    rt: &R,
    node: &mut Node<Thing>,
    refusals: &mut Refusals,
    space: SpaceId,
) -> Said {
    let hold = found(rt, node, refusals, space, NAME).ok();
    let said = said_by(rt, node, refusals, &hold, 0, Value::Unit);
    give_back(rt, node, refusals, hold);
    said
}

/// What the scene comes to.
#[derive(Clone, Copy, Debug)]
pub(crate) struct Twice {
    /// What the owner saw, and what the caller did.
    pub(crate) owner: Reopened,
    pub(crate) caller: Reopened,
    /// What a call came to before the close, and one in the new session.
    pub(crate) before: Said,
    pub(crate) after: Said,
    /// What is said of the scene.
    pub(crate) outcome: Outcome,
}

/// Plays the scene. `None` where memory is wanted, or a thread can't be made.
pub(crate) fn play_reopening<R: Threads + Wait + Sync>(rt: &R, alloc: Global) -> Option<Twice> {
    let owner = Owner {
        reopened: Reopened::new(),
    };
    let caller = Caller {
        reopened: Reopened::new(),
        before: Said::Other,
        after: Said::Other,
    };
    let (there, here) = run_two_keeping(rt, alloc, Keep::All, owner, caller)?;
    twice_of(alloc, there, here)
}

// What the scene comes to by what both nodes left. Only memory fails it.
fn twice_of(
    alloc: Global,
    there: Played<Thing, Owner>,
    here: Played<Thing, Caller>,
) -> Option<Twice> {
    let Report {
        record: first,
        objects: _,
    } = there.left.ok()?;
    let Report {
        record: second,
        objects: _,
    } = here.left.ok()?;
    let owner = there.player.reopened;
    let player = here.player;
    let caller = player.reopened;
    let refusals = owner.refusals.with(caller.refusals);
    Some(Twice {
        owner,
        caller,
        before: player.before,
        after: player.after,
        outcome: outcome_of_two(alloc, refusals, first, second)?,
    })
}
