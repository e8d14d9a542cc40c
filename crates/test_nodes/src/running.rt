//! The nodes of a scene, a thread each.

use crate::calling::{Refusals, Said};
use crate::carrier::{Carrier, Loose, Way};
use crate::player::{Part, Player};
use crate::shared::Shared;
use crate::thing::Thing;
use crate::verdict::{Outcome, outcome_of};
use nob_ids::SpaceId;
use nob_nodes::{Keep, Layout, Nodes, Played, Report, run_nodes};
use std::alloc::Global;
use std::sync::Wait;
use std::thread::Threads;

/// What a scene came to.
#[derive(Drop)]
pub(crate) struct Scene {
    /// What the calls of each application came to.
    pub(crate) said: Vec<Said>,
    /// What is said of the scene.
    pub(crate) outcome: Outcome,
}

/// Plays a scene of these applications, the first of space 1, with a link each way between each two
/// nodes. `None` where memory is wanted, or a thread can't be made.
pub(crate) fn play<R: Threads + Wait + Sync>(
    rt: &R,
    alloc: Global,
    parts: &[Part],
) -> Option<Scene> {
    let count = u16::try_from(parts.len()).ok()?;
    let nodes = Nodes::linked(alloc, Layout::new(Keep::All), count)?;
    play_all(rt, alloc, nodes, parts, Loose::Nothing)
}

/// Plays the scene of an application that calls a space to which nobody carries what is sent: the
/// other ends of its links are let go.
pub(crate) fn play_alone<R: Threads + Wait + Sync>(rt: &R, alloc: Global) -> Option<Scene> {
    let mut nodes = Nodes::new(alloc, Layout::new(Keep::All), 2)?;
    let (put, take) = nodes.open(SpaceId::new(2)?, SpaceId::new(1)?)?;
    let parts = [Part::Idles, Part::CallsNobody];
    play_all(rt, alloc, nodes, &parts, Loose::One(put, take))
}

/// Plays the scene of two applications between whose nodes parcels are carried until a method of
/// the first is held up, which the second has called: then the ends of the links are let go.
pub(crate) fn play_cut<R: Threads + Wait + Sync>(rt: &R, alloc: Global) -> Option<Scene> {
    let mut nodes = Nodes::new(alloc, Layout::new(Keep::All), 2)?;
    let first = SpaceId::new(1)?;
    let second = SpaceId::new(2)?;
    let (put, take) = nodes.open(first, second)?;
    let (put_there, take_there) = nodes.open(second, first)?;
    let there = Way::new(take, put_there);
    let back = Way::new(take_there, put);
    let parts = [Part::Owns, Part::CallsHeld];
    play_all(rt, alloc, nodes, &parts, Loose::Both(there, back))
}

/// Plays the scene of two applications of which one closes the session: the first Close that comes
/// each way is lost. The sessions' time ticks.
pub(crate) fn play_closing<R: Threads + Wait + Sync>(
    rt: &R,
    alloc: Global,
    parts: [Part; 2],
) -> Option<Scene> {
    let mut layout = Layout::new(Keep::All);
    layout.tick_every = 500;
    let mut nodes = Nodes::new(alloc, layout, 2)?;
    let first = SpaceId::new(1)?;
    let second = SpaceId::new(2)?;
    let (put, take) = nodes.open(first, second)?;
    let (put_there, take_there) = nodes.open(second, first)?;
    let there = Way::losing(take, put_there);
    let back = Way::losing(take_there, put);
    play_all(rt, alloc, nodes, &parts, Loose::All(there, back))
}

// Runs all nodes, a thread each, and who carries parcels beside them: what the scene came to.
fn play_all<R: Threads + Wait + Sync>(
    rt: &R,
    alloc: Global,
    nodes: Nodes,
    parts: &[Part],
    loose: Loose,
) -> Option<Scene> {
    let shared = Shared::new();
    let mut players = Vec::with_capacity(alloc, parts.len()).ok()?;
    for part in parts {
        players.push(Player::new(&shared, *part)).ok()?;
    }
    let mut carrier = Carrier::new(&shared, loose);
    let played = run_nodes(rt, nodes, &shared, players, &mut carrier)?;
    scene_of(alloc, played)
}

// What a scene came to, by what its players and nodes left.
fn scene_of(alloc: Global, played: Vec<Played<Thing, Player>>) -> Option<Scene> {
    let mut said = Vec::with_capacity(alloc, played.len()).ok()?;
    let mut records = Vec::with_capacity(alloc, played.len()).ok()?;
    let mut refusals = Refusals::new();
    for one in played {
        let Played { player, left, .. } = one;
        let Ok(Report { record, objects: _ }) = left else {
            return None;
        };
        said.push(player.said).ok()?;
        records.push(record).ok()?;
        refusals = refusals.with(player.refusals);
    }
    Some(Scene {
        said,
        outcome: outcome_of(alloc, refusals, records),
    })
}
