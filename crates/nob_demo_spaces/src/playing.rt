//! The scene.

ghost use Rattle.std.specs.Prelude.{◌≡◌, ◌+◌, ◌++◌, ℕ, suc, true, [], length, OnOk, IfSome};
ghost use Rattle.nob_demo_spaces.specs.Lines.{last_line};
ghost use Rattle.nob_demo_spaces.specs.Endings.{Plays, AreOfEach, AreChainsOf, AreSummariesOf, HaveLeft};

use crate::player::{ScenePlayer, players_of, stop_by};
use crate::scene::Scene;
use crate::{Counter, SceneEnding, Score, Stop, graver, say};
use nob_chain::Chain;
use nob_nodes::{
    Keep, Layout, LeftObject, Nobody, NodeError, Nodes, OpenGate, Played, Record, Report, Summary,
    run_nodes,
};
use std::alloc::Global;
use std::sync::Wait;
use std::thread::Threads;

/// Plays a scene, and writes onto an empty text what came of it: the three lines, or the chains, or
/// the summaries behind the lines; and how it ended, whose last line is still to follow. It makes a
/// thread for each space, and each of these makes those of its node.
pub fn play<R: Threads + Wait + Sync>(
    rt: &R,
    alloc: Global,
    scene: Scene,
    text: &mut Vec<u8>,
) -> SceneEnding
    requires { text.old.items ≡ [] }
    ensures { Plays scene (text.new.items ++ last_line result) result }
{
    let Some(all) = run_all(rt, alloc, scene) else {
        return SceneEnding::OutOfMemory;
    };
    say_of(alloc, scene, all, text)
}

// Runs all nodes, a thread each, with a link each way between each two of them: what each leaves,
// and who played there. Only memory fails it.
fn run_all<R: Threads + Wait + Sync>(
    rt: &R,
    alloc: Global,
    scene: Scene,
) -> Option<Vec<Played<Counter, ScenePlayer>>>
    ensures { IfSome result (λ all. length all.items ≡ scene.spaces) }
{
    let nodes = Nodes::linked(alloc, layout_of(scene), u16::from(scene.spaces()))?;
    let players = players_of(alloc, scene)?;
    run_nodes(rt, nodes, &OpenGate, players, &mut Nobody)
}

// How the nodes of a scene run, and what the links between them do.
fn layout_of(scene: Scene) -> Layout {
    let mut layout = Layout::new(scene.keep());
    layout.workers = usize::from(scene.workers());
    layout.loss = u64::from(scene.loss());
    layout.seed = scene.seed();
    layout
}

/// What spaces left: chains, where all was kept, or else summaries.
#[derive(Drop)]
struct Records {
    chains: Vec<Chain>,
    summaries: Vec<Summary>,
}

// Writes what is said of nodes that have ended.
fn say_of(
    alloc: Global,
    scene: Scene,
    all: Vec<Played<Counter, ScenePlayer>>,
    text: &mut Vec<u8>,
) -> SceneEnding
    requires all { length all.items ≡ scene.spaces }
    requires text { text.old.items ≡ [] }
    ensures { Plays scene (text.new.items ++ last_line result) result }
{
    let mut records = Records {
        chains: Vec::new(alloc),
        summaries: Vec::new(alloc),
    };
    let (stop, score) = summed(scene.keep(), all, &mut records);
    let Records { chains, summaries } = records;
    let summaries = summaries.as_slice();
    say(alloc, scene, stop, score, chains, summaries, text)
}

// Why the scene stops, if a space stopped or there is no memory for what they left, and what callers
// counted. Else each of these spaces left its record, which stands behind those of the spaces before.
fn summed(
    keep: Keep,
    mut all: Vec<Played<Counter, ScenePlayer>>,
    records: &mut Records,
) -> (Option<Stop>, Score)
    ensures { (before : ℕ)
        → AreOfEach keep before records.old.chains.items records.old.summaries.items
        → HaveLeft keep (before + length all.items) result.0 records.new.chains.items
        records.new.summaries.items }
{
    if all.is_empty() {
        return (None, Score::new());
    }
    let first = all.remove(0);
    let counted = kept(keep, first, records);
    let (stop, score) = summed(keep, all, records);
    match counted {
        Ok(counted) => (stop, score.with_score(counted)),
        Err(reason) => (Some(graver(reason, stop)), score),
    }
}

// What the callers of a space counted, whose record is put behind those of the spaces before. It is
// looked at once more: that it is this space's. It always is, since no other node left it.
fn kept(
    keep: Keep,
    played: Played<Counter, ScenePlayer>,
    records: &mut Records,
) -> Result<Score, Stop>
    ensures { (before : ℕ)
        → AreOfEach keep before records.old.chains.items records.old.summaries.items
        → OnOk result (AreOfEach keep (suc before) records.new.chains.items
        records.new.summaries.items) }
{
    let Played { player, left, .. } = played;
    let score = player.into_score()?;
    let record = record_in(left)?;
    if keep_record(keep, record, records) {
        return Ok(score);
    }
    Err(Stop::OutOfMemory)
}

// The record that a node left, or why it couldn't go on.
fn record_in(
    left: Result<Report<Counter>, (NodeError, Vec<LeftObject<Counter>>)>,
) -> Result<Record, Stop> {
    match left {
        Ok(report) => {
            let Report { record, objects: _ } = report;
            Ok(record)
        }
        Err((error, _objects)) => Err(stop_by(error)),
    }
}

// Whether what a space left is kept: what is wanted of it, of the next space, and there is memory.
fn keep_record(keep: Keep, record: Record, records: &mut Records) -> bool
    ensures { (before : ℕ)
        → AreOfEach keep before records.old.chains.items records.old.summaries.items
        → result ≡ true
        → AreOfEach keep (suc before) records.new.chains.items records.new.summaries.items }
{
    match record {
        Record::Chain(chain) => match keep {
            Keep::All => keep_chain(chain, &mut records.chains),
            Keep::Nothing => false,
        },
        Record::Summary(summary) => match keep {
            Keep::All => false,
            Keep::Nothing => keep_summary(summary, &mut records.summaries),
        },
    }
}

// Whether a chain is kept: it is the next space's, and there is memory.
#[tactic(auto, using(crate::proofs::Each::chain_more))]
fn keep_chain(chain: Chain, chains: &mut Vec<Chain>) -> bool
    ensures { (before : ℕ) → AreChainsOf before chains.old.items
        → result ≡ true → AreChainsOf (suc before) chains.new.items }
{
    let space = usize::from(chain.parts().space.get());
    if space != chains.len() + 1 {
        return false;
    }
    match chains.push(chain) {
        Ok(()) => true,
        Err(_) => false,
    }
}

// Whether a summary is kept: it is the next space's, and there is memory.
#[tactic(auto, using(crate::proofs::Each::summary_more))]
fn keep_summary(summary: Summary, summaries: &mut Vec<Summary>) -> bool
    ensures { (before : ℕ) → AreSummariesOf before summaries.old.items
        → result ≡ true → AreSummariesOf (suc before) summaries.new.items }
{
    let space = usize::from(summary.space.get());
    if space != summaries.len() + 1 {
        return false;
    }
    match summaries.push(summary) {
        Ok(()) => true,
        Err(_) => false,
    }
}
