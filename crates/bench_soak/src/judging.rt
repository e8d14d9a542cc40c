//! What a round came to.

use crate::desk::Desks;
use crate::ends::Pair;
use crate::figures::Figures;
use crate::player::Soaker;
use crate::thing::Thing;
use nob_chain::Chain;
use nob_chain_check::{SetError, check};
use nob_nodes::{Played, Record, Report};
use std::alloc::Global;
use std::sync::Wait;

/// What is said of the chains of a round.
#[derive(Clone, Copy, Debug, PartialEq, Eq)]
pub(crate) enum Verdict {
    /// They are together a run of a world, and each seal in them is right.
    Accepted,
    /// They aren't, or a seal isn't.
    Refused,
    /// There was no memory to check them.
    NoMemory,
    /// Nothing was kept.
    Unkept,
}

/// What a round came to.
#[derive(Clone, Copy)]
pub(crate) struct Outcome {
    /// How often what happened.
    pub(crate) figures: Figures,
    /// How many nodes failed.
    pub(crate) failed: u64,
    /// How many players saw that something was still held, or to be done.
    pub(crate) unrested: u64,
    /// How many objects were live in the end, and how many were left.
    pub(crate) live: u64,
    pub(crate) left: u64,
    /// How many sessions stood so in the end.
    pub(crate) unsettled: u64,
    pub(crate) even: u64,
    pub(crate) closed: u64,
    pub(crate) apart: u64,
    /// How many entries were made.
    pub(crate) entries: u64,
    /// What is said of the chains.
    pub(crate) verdict: Verdict,
}

impl Outcome {
    // Nothing yet.
    fn new() -> Outcome {
        Outcome {
            figures: Figures::new(),
            failed: 0,
            unrested: 0,
            live: 0,
            left: 0,
            unsettled: 0,
            even: 0,
            closed: 0,
            apart: 0,
            entries: 0,
            verdict: Verdict::Unkept,
        }
    }

    // Whether all came to its end as it must.
    pub(crate) fn is_right(&self) -> bool {
        let is_at_rest = self.failed == 0 && self.unrested == 0 && self.live == 0;
        let is_all_gone = self.left == 0 && self.unsettled == 0;
        let is_checked = self.verdict == Verdict::Accepted || self.verdict == Verdict::Unkept;
        is_at_rest && is_all_gone && is_checked
    }

    // What a player saw.
    fn add_player(&mut self, player: &Soaker) {
        self.figures = self.figures.with(player.figures);
        self.live = self.live.saturating_add(player.ends.live);
        if !player.has_rested {
            self.unrested = self.unrested.saturating_add(1);
        }
    }

    // How the sessions stood in the end, as the players said.
    fn add_sessions<R: Wait>(&mut self, rt: &R, desks: &Desks) {
        self.unsettled = desks.pairs(rt, Pair::Unsettled);
        self.even = desks.pairs(rt, Pair::Even);
        self.closed = desks.pairs(rt, Pair::Closed);
        self.apart = desks.pairs(rt, Pair::Apart);
    }

    // What a node left: its chain, if it kept one.
    fn add_report(&mut self, report: Report<Thing>) -> Option<Chain> {
        let Report { record, objects } = report;
        self.left = self.left.saturating_add(counted(objects.len()));
        match record {
            Record::Chain(chain) => {
                self.entries = self.entries.saturating_add(entries_in(&chain));
                Some(chain)
            }
            Record::Summary(summary) => {
                self.entries = self.entries.saturating_add(summary.entries);
                self.live = self.live.saturating_add(summary.live);
                None
            }
        }
    }
}

// How many entries a chain has.
fn entries_in(chain: &Chain) -> u64 {
    let mut count: u64 = 0;
    for segment in chain.parts().segments.as_slice() {
        count = count.saturating_add(counted(segment.entries.as_slice().len()));
    }
    count
}

// How many a length is.
fn counted(length: usize) -> u64 {
    u64::try_from(length).unwrap_or(u64::MAX)
}

// What a round came to, by what its players and nodes left.
pub(crate) fn outcome_of<R: Wait>(
    rt: &R,
    alloc: Global,
    desks: &Desks,
    played: Vec<Played<Thing, Soaker>>,
) -> Outcome {
    let mut outcome = Outcome::new();
    outcome.add_sessions(rt, desks);
    let mut chains = Vec::new(alloc);
    let mut is_whole = true;
    for one in played {
        let Played { player, left, .. } = one;
        outcome.add_player(&player);
        match left {
            Ok(report) => {
                if let Some(chain) = outcome.add_report(report) {
                    is_whole = chains.push(chain).is_ok() && is_whole;
                }
            }
            Err(_) => outcome.failed = outcome.failed.saturating_add(1),
        }
    }
    outcome.verdict = verdict_of(alloc, chains, is_whole);
    outcome
}

// What is said of chains, if there are some.
fn verdict_of(alloc: Global, chains: Vec<Chain>, is_whole: bool) -> Verdict {
    if !is_whole {
        return Verdict::NoMemory;
    }
    if chains.is_empty() {
        return Verdict::Unkept;
    }
    match check(alloc, chains) {
        Ok(_) => Verdict::Accepted,
        Err(SetError::Fault(_)) => Verdict::Refused,
        Err(SetError::OutOfMemory) => Verdict::NoMemory,
    }
}
