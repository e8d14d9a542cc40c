//! How a round runs.

use crate::carriers::{Carrier, Way};
use crate::desk::Desks;
use crate::judging::{Outcome, outcome_of};
use crate::player::Soaker;
use crate::round::{Plan, Round};
use crate::watch::Watch;
use nob_ids::SpaceId;
use nob_nodes::{Nodes, OpenGate, run_nodes};
use std::alloc::Global;
use std::sync::Wait;
use std::thread::Threads;

// Runs a round: what it came to. `None` where there is no memory for its parts, or a node's thread
// can't be made.
pub(crate) fn run_round<R: Threads + Wait + Sync + Print + Eprint>(
    rt: &R,
    alloc: Global,
    round: Round,
) -> Option<Outcome> {
    let (nodes, carriers) = nodes_of(alloc, round)?;
    let desks = Desks::new(alloc, round.spaces)?;
    let players = players_of(alloc, round.plan(), &desks)?;
    let mut watch = Watch::new(rt, &desks, carriers);
    let played = run_nodes(rt, nodes, &OpenGate, players, &mut watch)?;
    let outcome = outcome_of(rt, alloc, &desks, played);
    if !outcome.is_right() {
        desks.tell(rt, rt);
    }
    Some(outcome)
}

// The players, who say at these desks what they do. Only memory fails it.
fn players_of<'s>(alloc: Global, plan: Plan, desks: &'s Desks) -> Option<Vec<Soaker<'s>>> {
    let mut players = Vec::new(alloc);
    for number in 1..=plan.spaces {
        let player = Soaker::new(alloc, plan, number, desks);
        players.push(player).ok()?;
    }
    Some(players)
}

// The nodes, with links between each two of them, and who carries between those whose links are
// cut. Only memory fails it.
fn nodes_of(alloc: Global, round: Round) -> Option<(Nodes, Vec<Carrier>)> {
    let mut nodes = Nodes::new(alloc, round.layout, round.spaces)?;
    let mut carriers = Vec::new(alloc);
    for second in 2..=round.spaces {
        for first in 1..second {
            let one = SpaceId::new(first)?;
            let other = SpaceId::new(second)?;
            match round.cut_between(one, other) {
                Some(left) => carriers
                    .push(carrier_between(&mut nodes, one, other, left)?)
                    .ok()?,
                None => nodes.link(one, other)?,
            }
        }
    }
    Some((nodes, carriers))
}

// Who carries so much between two nodes. Only memory fails it.
fn carrier_between(nodes: &mut Nodes, one: SpaceId, other: SpaceId, left: u64) -> Option<Carrier> {
    let (put_to_one, take_from_one) = nodes.open(one, other)?;
    let (put_to_other, take_from_other) = nodes.open(other, one)?;
    let there = Way::new(take_from_one, put_to_other);
    let back = Way::new(take_from_other, put_to_one);
    Some(Carrier::new(there, back, left))
}
