//! Seventeen nodes: one has sixteen objects, and each of the others calls all of them.

use crate::asking::{end, told};
use crate::gate::Counts;
use crate::rows::{Row, Said, say};
use crate::tally::{counted, remains_of, say_end};
use crate::thing::Thing;
use nob_ids::SpaceId;
use nob_nodes::{
    Company, Hold, Keep, Layout, Nobody, Node, Nodes, Player, give_back, look_up, offer, run_nodes,
};
use nob_pickle::Value;
use std::alloc::Global;
use std::sync::Wait;
use std::thread::Threads;

/// How many objects are called, each by as many callers.
const COUNTERS: u16 = 16;

/// How many calls each caller makes.
const CALLS: usize = 625;

/// An application: that of space 1 has the objects.
#[derive(Drop)]
struct Member {
    alloc: Global,
    owner: SpaceId,
    // How many of its calls were answered.
    answered: u64,
}

impl Member {
    // Has the objects until all have called them. They stay as long as their names stand for them.
    fn own<R: Wait>(&mut self, rt: &R, node: &mut Node<Thing>, company: &Company) {
        for number in 0..COUNTERS {
            if let Some(hold) = offer(rt, node, &number.to_be_bytes(), Thing::Counter(0)) {
                let _ = give_back(rt, node, hold);
            }
        }
        let _ = company.meet(rt);
        let _ = company.meet(rt);
    }

    // Calls one object after the other, together with all other callers, each of which begins with
    // another one.
    fn call<R: Wait>(&mut self, rt: &R, node: &mut Node<Thing>, company: &Company) {
        let first = usize::from(company.space().get());
        let _ = company.meet(rt);
        let mut holds = Vec::new(self.alloc);
        for number in 0..COUNTERS {
            let found = look_up(rt, node, self.owner, &number.to_be_bytes());
            if let Err(failed) = holds.push(found) {
                end(rt, node, failed.value);
            }
        }
        for turn in 0..CALLS {
            if let Some(hold) = holds.get((first + turn) % usize::from(COUNTERS)) {
                if let Said::Number(0, _) = told(rt, node, hold, 0, Some(Value::Unit)) {
                    self.answered = self.answered.saturating_add(1);
                }
            }
        }
        while let Some(hold) = holds.pop() {
            end(rt, node, hold);
        }
        holds.destroy_empty();
        let _ = company.meet(rt);
    }
}

impl Player<Thing> for Member {
    fn run<R: Wait>(&mut self, rt: &R, node: &mut Node<Thing>, company: &Company) {
        if company.space() == self.owner {
            self.own(rt, node, company);
        } else {
            self.call(rt, node, company);
        }
    }
}

/// Plays the scene: what it says. `None` where memory is wanted, or a thread can't be made.
pub(crate) fn play<R: Threads + Wait + Sync>(rt: &R, alloc: Global) -> Option<Vec<Row>> {
    let owner = SpaceId::new(1)?;
    let mut layout = Layout::new(Keep::All);
    layout.workers = 4;
    let mut nodes = Nodes::new(alloc, layout, COUNTERS + 1)?;
    let mut members = Vec::new(alloc);
    for number in 1..=COUNTERS + 1 {
        if number > 1 {
            nodes.link(owner, SpaceId::new(number)?)?;
        }
        let member = Member {
            alloc,
            owner,
            answered: 0,
        };
        members.push(member).ok()?;
    }
    let gate = Counts::new();
    let played = run_nodes(rt, nodes, &gate, members, &mut Nobody)?;
    let (remains, members) = remains_of(alloc, played, owner.place())?;
    let mut rows = Vec::new(alloc);
    let mut answered: u64 = 0;
    for member in members.iter() {
        answered = answered.saturating_add(member.answered);
    }
    let count = counted(remains.objects.as_slice());
    for (name, said) in [
        (
            "calls of sixteen objects that are answered",
            Said::Count(answered),
        ),
        ("calls that the counters counted", Said::Count(count)),
    ] {
        say(&mut rows, name, said);
    }
    say_end(alloc, remains, &gate, &mut rows)?;
    Some(rows)
}
