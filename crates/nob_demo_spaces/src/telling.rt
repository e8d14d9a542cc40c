//! What is written of a scene whose nodes have ended.

ghost use Rattle.std.specs.Prelude.{◌≡◌, ◌++◌, [], None, IfOk};
ghost use Rattle.nob_demo_spaces.specs.Endings as spec;
ghost use Rattle.nob_demo_spaces.specs.Lines.{last_line};

use crate::ending::{SceneEnding, Stop};
use crate::scene::Scene;
use crate::score::{Score, score_in};
use crate::summaries::unchecked_lines;
use crate::texts::lines;
use nob_chain::{Chain, ChainError, encode, refusal_line};
use nob_chain_check::{Merged, SetError, check};
use nob_nodes::{Keep, Summary};
use std::alloc::{AllocError, Global};

/// Writes what is said of a scene onto an empty text, and says how it ends, whose last line is still
/// to follow. Where a space stopped nothing is written. Else it is, of what the callers counted and
/// the chains that the spaces left: the chains one after the other, where the scene wants them, or
/// how many calls were answered, the greatest total, and whether the chains are together a run of a
/// world, their seals right, and those numbers what the chains say. Where the spaces kept nothing the third line says that nothing was
/// checked, and the summaries that they left stand behind it. It costs what the check of the chains
/// costs, or their text.
pub fn say(
    alloc: Global,
    scene: Scene,
    stop: Option<Stop>,
    score: Score,
    chains: Vec<Chain>,
    summaries: &[Summary],
    text: &mut Vec<u8>,
) -> SceneEnding
    requires { text.old.items ≡ [] }
    ensures { spec.Says scene stop score chains.items summaries.now
        (text.new.items ++ last_line result) result }
{
    match stop {
        Some(stop) => stop.ending(),
        None => say_all(alloc, scene, score, chains, summaries, text),
    }
}

// The same where no space stopped.
fn say_all(
    alloc: Global,
    scene: Scene,
    score: Score,
    chains: Vec<Chain>,
    summaries: &[Summary],
    text: &mut Vec<u8>,
) -> SceneEnding
    requires { text.old.items ≡ [] }
    ensures { spec.Ends scene score chains.items summaries.now
        (text.new.items ++ last_line result) result }
{
    let Ok((told, ending)) = tell(alloc, scene, score, chains, summaries) else {
        return SceneEnding::OutOfMemory;
    };
    match text.extend_from_slice(told.as_slice()) {
        Ok(()) => ending,
        Err(_) => SceneEnding::OutOfMemory,
    }
}

// What is told of a scene of which no space stopped, and how it ends. Only memory fails it.
fn tell(
    alloc: Global,
    scene: Scene,
    score: Score,
    chains: Vec<Chain>,
    summaries: &[Summary],
) -> Result<(Vec<u8>, SceneEnding), AllocError>
    ensures { IfOk result (λ told.
        spec.Tells scene score chains.items summaries.now told.0.items told.1) }
{
    match scene.keep() {
        Keep::All => tell_chains(alloc, scene.traces(), score, chains),
        Keep::Nothing => Ok((
            unchecked_lines(alloc, score, summaries)?,
            SceneEnding::Unchecked,
        )),
    }
}

// What is told of chains: they, where they are wanted, else what is said of them. Only memory fails
// it.
fn tell_chains(
    alloc: Global,
    prints: bool,
    score: Score,
    chains: Vec<Chain>,
) -> Result<(Vec<u8>, SceneEnding), AllocError>
    ensures { IfOk result (λ told.
        spec.TellsChains prints score chains.items told.0.items told.1) }
{
    if prints {
        return print(alloc, chains.as_slice());
    }
    match check(alloc, chains) {
        Ok(merged) => tell_accepted(alloc, score, &merged),
        Err(SetError::Fault(_)) => Ok((lines(alloc, score, false)?, SceneEnding::Refused)),
        Err(SetError::OutOfMemory) => Err(AllocError),
    }
}

// What is told of accepted chains, by what their entries say that was answered. Only memory fails it.
fn tell_accepted(
    alloc: Global,
    score: Score,
    merged: &Merged,
) -> Result<(Vec<u8>, SceneEnding), AllocError>
    ensures { IfOk result (λ told. spec.Counts score merged.now told.0.items told.1) }
{
    if score == score_in(merged.entries()) {
        return Ok((lines(alloc, score, true)?, SceneEnding::Accepted));
    }
    Ok((lines(alloc, score, false)?, SceneEnding::Refused))
}

// Chains, one after the other, or the line of one that has no text.
fn print(alloc: Global, chains: &[Chain]) -> Result<(Vec<u8>, SceneEnding), AllocError>
    ensures { IfOk result (λ told. spec.Prints chains.now told.0.items told.1) }
{
    let mut text = Vec::new(alloc);
    for chain in chains {
        match encode(alloc, chain) {
            Ok(said) => text.extend_from_slice(said.as_bytes())?,
            Err(ChainError::Fault(fault)) => {
                let line = refusal_line(ChainError::Fault(fault)).to_vec(alloc)?;
                return Ok((line, SceneEnding::Refused));
            }
            Err(ChainError::OutOfMemory) => return Err(AllocError),
        }
    }
    Ok((text, SceneEnding::Printed))
}
