//! The nodes, a thread each.

use crate::player::{Part, Player};
use crate::saying::{BEGIN, END, say};
use crate::task::{Kind, Task};
use crate::thing::Thing;
use crate::timer::Waited;
use nob_ids::SpaceId;
use nob_model_types::Answer;
use nob_nodes::{Beside, Layout, Meeting, Nodes, OpenGate, Played, Record, run_nodes};
use std::alloc::Global;
use std::sync::Wait;
use std::sync::atomic::AtomicU64;
use std::thread::Threads;
use std::time::Clock;

/// What came of a task: how many calls were answered, how many frames the nodes gave, as far as they
/// kept what they did, and how each call that was timed was waited for.
#[derive(Drop)]
pub(crate) struct Outcome {
    pub(crate) answered: u64,
    pub(crate) frames: u64,
    pub(crate) waits: Vec<Waited>,
}

/// Who says when all are there to call or to be called, and when all calls are answered: so who
/// measures can leave out how the nodes begin and end.
#[derive(Clone, Copy)]
struct Teller<'p, P: Print> {
    out: &'p P,
}

impl<'p, P: Print> Beside for Teller<'p, P> {
    fn run<R: Wait>(&mut self, rt: &R, meeting: &Meeting) {
        meeting.wait_for(rt, 1);
        say(self.out, BEGIN);
        meeting.wait_for(rt, 2);
        say(self.out, END);
    }
}

// How many frames a node gave, as far as it kept what it did.
fn frames_in(record: &Record) -> u64 {
    let Record::Chain(chain) = record else {
        return 0;
    };
    let mut count: u64 = 0;
    for segment in chain.parts().segments.as_slice() {
        for entry in segment.entries.as_slice() {
            if let Ok(Answer::Frames(frames)) = &entry.result {
                count = count.saturating_add(frames.as_slice().len() as u64);
            }
        }
    }
    count
}

// Runs a task, and says what came of it. `None` where memory is wanted, or a thread can't be
// made.
pub(crate) fn run_all<R: Threads + Wait + Sync + Print + Clock>(
    rt: &R,
    alloc: Global,
    task: Task,
) -> Option<Outcome> {
    let served = AtomicU64::new(0);
    let players = players_of(rt, &served, alloc, task)?;
    let count = u16::try_from(players.len()).ok()?;
    let nodes = Nodes::linked(alloc, layout_of(task)?, count)?;
    let mut teller = Teller { out: rt };
    let played = run_nodes(rt, nodes, &OpenGate, players, &mut teller)?;
    outcome_of(alloc, played)
}

// How the nodes of a task run: with links of 1,024 parcels and four workers.
fn layout_of(task: Task) -> Option<Layout> {
    let mut layout = Layout::new(task.keep);
    layout.limits = task.limits()?;
    layout.workers = 4;
    layout.pause = 4;
    layout.capacity = 1024;
    layout.loss = task.loss;
    Some(layout)
}

// The applications of all spaces. Only memory fails it.
fn players_of<'c, 's, C: Clock>(
    clock: &'c C,
    served: &'s AtomicU64,
    alloc: Global,
    task: Task,
) -> Option<Vec<Player<'c, 's, C>>> {
    let offers = if task.kind == Kind::Handoff { 2 } else { 1 };
    let server = SpaceId::new(1)?;
    let relay = SpaceId::new(offers)?;
    let mut players = Vec::new(alloc);
    for number in 1..=task.callers.saturating_add(offers) {
        let part = part_of(task, number);
        let player = Player::new(alloc, clock, served, part, task, server, relay)?;
        players.push(player).ok()?;
    }
    Some(players)
}

// What the application of a space is there for.
fn part_of(task: Task, number: u16) -> Part {
    if number == 1 {
        return Part::Offers(Thing::Answers);
    }
    if task.kind == Kind::Handoff && number == 2 {
        return Part::Offers(Thing::PassesOn);
    }
    Part::Calls
}

// What came of a task, by what its applications counted and their nodes left.
fn outcome_of<C: Clock>(alloc: Global, played: Vec<Played<Thing, Player<C>>>) -> Option<Outcome> {
    let mut outcome = Outcome {
        answered: 0,
        frames: 0,
        waits: Vec::new(alloc),
    };
    for one in played {
        let Played { player, left, .. } = one;
        let Ok(report) = left else {
            return None;
        };
        outcome.answered = outcome.answered.saturating_add(player.answered);
        outcome.frames = outcome.frames.saturating_add(frames_in(&report.record));
        outcome
            .waits
            .extend_from_slice(player.waits.as_slice())
            .ok()?;
    }
    Some(outcome)
}
