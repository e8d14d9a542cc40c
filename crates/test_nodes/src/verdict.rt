//! What the chains of a scene's nodes come to.

use crate::calling::Refusals;
use nob_chain::Chain;
use nob_chain_check::{SetError, check};
use nob_nodes::Record;
use std::alloc::Global;

/// What is said of the chains of a scene.
#[derive(Clone, Copy, Debug, PartialEq, Eq)]
pub(crate) enum Verdict {
    /// As many chains are together a run of a world, and each seal in them is right.
    Accepted(usize),
    /// As many chains aren't, or a seal isn't.
    Refused(usize),
    /// A node left no chain, or there was no memory.
    Unchecked,
}

/// What is said of a scene whose nodes have ended.
#[derive(Clone, Copy, Debug)]
pub(crate) struct Outcome {
    /// How many calls its nodes refused.
    pub(crate) refused: u64,
    /// What its chains come to.
    pub(crate) verdict: Verdict,
}

/// What is said of a scene by what its applications were refused, and by what all its nodes left.
pub(crate) fn outcome_of(alloc: Global, refusals: Refusals, records: Vec<Record>) -> Outcome {
    let verdict = match chains_in(alloc, records) {
        Some(chains) => judge(alloc, chains),
        None => Verdict::Unchecked,
    };
    Outcome {
        refused: refusals.count(),
        verdict,
    }
}

/// The same of two nodes.
pub(crate) fn outcome_of_two(
    alloc: Global,
    refusals: Refusals,
    first: Record,
    second: Record,
) -> Option<Outcome> {
    let mut records = Vec::new(alloc);
    records.push(first).ok()?;
    records.push(second).ok()?;
    Some(outcome_of(alloc, refusals, records))
}

// The chains that nodes left. `None` where one left none, or memory is wanted.
fn chains_in(alloc: Global, records: Vec<Record>) -> Option<Vec<Chain>> {
    let mut chains = Vec::new(alloc);
    for record in records {
        chains.push(record.into_chain()?).ok()?;
    }
    Some(chains)
}

// Checks chains.
fn judge(alloc: Global, chains: Vec<Chain>) -> Verdict {
    let count = chains.len();
    match check(alloc, chains) {
        Ok(_) => Verdict::Accepted(count),
        Err(SetError::Fault(_)) => Verdict::Refused(count),
        Err(SetError::OutOfMemory) => Verdict::Unchecked,
    }
}
