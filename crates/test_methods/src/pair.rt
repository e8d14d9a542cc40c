//! Two nodes: one has objects whose methods do what methods can do, and the other calls them.

use crate::asking::{end, told};
use crate::gate::Counts;
use crate::rows::{Row, Said, say};
use crate::tally::{remains_of, say_end, say_made_again};
use crate::thing::{Holder, Odd, Relay, Thing};
use crate::values::{bytes_of, named};
use nob_ids::{SpaceId, WireRep};
use nob_nodes::{
    Company, Hold, Keep, Layout, Nobody, Node, Nodes, Player, look_up, offer, run_nodes,
};
use nob_pickle::Value;
use std::alloc::Global;
use std::sync::Wait;
use std::thread::Threads;

/// The names of the objects.
const COUNTER: &[u8] = b"counter";

const RELAY: &[u8] = b"relay";

const ODD: &[u8] = b"odd";

const HOLDER: &[u8] = b"holder";

/// The name that is put at an agent by a call.
const NAME: &[u8] = b"name";

/// What an application does.
#[derive(Clone, Copy, Debug, PartialEq, Eq)]
enum Part {
    /// It calls the other's objects.
    Calls,
    /// It has objects for the other.
    Owns,
}

/// An application at one of the two nodes.
#[derive(Drop)]
struct Actor {
    alloc: Global,
    part: Part,
    // The spaces of both nodes.
    caller: SpaceId,
    owner: SpaceId,
    rows: Vec<Row>,
}

impl Actor {
    // Has objects for the other until that has called them.
    fn own<R: Wait>(&mut self, rt: &R, node: &mut Node<Thing>, company: &Company) {
        let odd = Odd {
            alloc: self.alloc,
            withdrawn: withdrawn_at(rt, node).unwrap_or(object(self.owner, 0)),
            unknown: object(self.caller, 77),
        };
        let relay = Relay {
            agent: object(self.caller, 0),
            answered: None,
        };
        let counter = offer(rt, node, COUNTER, Thing::Counter(0));
        let relay = offer(rt, node, RELAY, Thing::Relay(relay));
        let odd = offer(rt, node, ODD, Thing::Odd(odd));
        let holder = offer(rt, node, HOLDER, Thing::Holder(Holder { kept: None }));
        let _ = company.meet(rt);
        let _ = company.meet(rt);
        end(rt, node, counter);
        end(rt, node, relay);
        end(rt, node, odd);
        end(rt, node, holder);
    }

    // Calls what the other has.
    fn call<R: Wait>(&mut self, rt: &R, node: &mut Node<Thing>, company: &Company) {
        let _ = company.meet(rt);
        self.ask_agent(rt, node);
        self.ask_odd(rt, node);
        self.ask_holder(rt, node);
        let _ = company.meet(rt);
    }

    // Has the other's relay put a name at the agent of this node, put it again, get and remove it.
    fn ask_agent<R: Wait>(&mut self, rt: &R, node: &mut Node<Thing>) {
        let relay = look_up(rt, node, self.owner, RELAY);
        let counter = look_up(rt, node, self.owner, COUNTER);
        for (row, passed) in [("put", &relay), ("put again", &counter)] {
            let value = match passed {
                Some(passed) => named(self.alloc, NAME, passed.rep()),
                None => None,
            };
            say(&mut self.rows, row, told(rt, node, &relay, 0, value));
        }
        for (row, method) in [
            ("get", 1),
            ("remove", 2),
            ("get where there is no such name", 1),
            ("another method", 3),
        ] {
            let value = bytes_of(self.alloc, NAME);
            say(&mut self.rows, row, told(rt, node, &relay, method, value));
        }
        end(rt, node, relay);
        end(rt, node, counter);
    }

    // Calls methods that end by a fault, and by what can't be sent.
    fn ask_odd<R: Wait>(&mut self, rt: &R, node: &mut Node<Thing>) {
        let odd = look_up(rt, node, self.owner, ODD);
        for (row, method) in [
            ("fault", 0),
            ("answer of a withdrawn object", 1),
            ("answer of a reference that isn't held", 2),
            ("answer that is too big", 3),
            ("no such method", 4),
        ] {
            let said = told(rt, node, &odd, method, Some(Value::Unit));
            say(&mut self.rows, row, said);
        }
        end(rt, node, odd);
    }

    // Has the other's object keep a reference to an object of this node, call it and give it back.
    fn ask_holder<R: Wait>(&mut self, rt: &R, node: &mut Node<Thing>) {
        let holder = look_up(rt, node, self.owner, HOLDER);
        if let Ok(own) = node.export(rt, Thing::Counter(0)) {
            let index = own.rep().index;
            for (row, method) in [
                ("gives back what it doesn't keep", 3),
                ("keeps a reference", 0),
            ] {
                let value = Some(Value::Ref(own.rep()));
                say(&mut self.rows, row, told(rt, node, &holder, method, value));
            }
            end(rt, node, Some(own));
            self.ask_for_kept(rt, node, &holder);
            node.wait_withdrawn(rt, index);
            let is_gone = node.live(rt) == 0;
            say(&mut self.rows, "then it is withdrawn", Said::Is(is_gone));
        }
        end(rt, node, holder);
    }

    // Has the other's object call what it keeps, to which nobody else has a hold, and give it back.
    fn ask_for_kept<R: Wait>(&mut self, rt: &R, node: &mut Node<Thing>, holder: &Option<Hold>) {
        let called = told(rt, node, holder, 1, Some(Value::Unit));
        let is_live = node.live(rt) == 1;
        let given = told(rt, node, holder, 2, Some(Value::Unit));
        say(&mut self.rows, "calls what it keeps", called);
        say(&mut self.rows, "what is kept is live", Said::Is(is_live));
        say(&mut self.rows, "gives it back", given);
    }
}

impl Player<Thing> for Actor {
    fn run<R: Wait>(&mut self, rt: &R, node: &mut Node<Thing>, company: &Company) {
        match self.part {
            Part::Calls => self.call(rt, node, company),
            Part::Owns => self.own(rt, node, company),
        }
    }
}

// An object of a space.
fn object(owner: SpaceId, index: u64) -> WireRep {
    WireRep { owner, index }
}

// An object of this node that was withdrawn.
fn withdrawn_at<R: Wait>(rt: &R, node: &mut Node<Thing>) -> Option<WireRep> {
    let Ok(hold) = node.export(rt, Thing::Counter(0)) else {
        return None;
    };
    let rep = hold.rep();
    end(rt, node, Some(hold));
    node.wait_withdrawn(rt, rep.index);
    Some(rep)
}

/// Plays the scene: what it says. `None` where memory is wanted, or a thread can't be made.
pub(crate) fn play<R: Threads + Wait + Sync>(rt: &R, alloc: Global) -> Option<Vec<Row>> {
    let nodes = Nodes::linked(alloc, Layout::new(Keep::All), 2)?;
    let mut actors = Vec::with_capacity(alloc, 2).ok()?;
    for part in [Part::Calls, Part::Owns] {
        let actor = Actor {
            alloc,
            part,
            caller: SpaceId::new(1)?,
            owner: SpaceId::new(2)?,
            rows: Vec::new(alloc),
        };
        actors.push(actor).ok()?;
    }
    let gate = Counts::new();
    let played = run_nodes(rt, nodes, &gate, actors, &mut Nobody)?;
    let (remains, mut actors) = remains_of(alloc, played, 1)?;
    if actors.is_empty() {
        return None;
    }
    let Actor { mut rows, .. } = actors.remove(0);
    say_made_again(remains.chains.get(1)?, &mut rows);
    say_end(alloc, remains, &gate, &mut rows)?;
    Some(rows)
}
