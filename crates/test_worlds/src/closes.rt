//! A script of a world, and at each of its places, between each two spaces, a close that the script
//! knows nothing of; and once more with the session opened anew behind it. And lists of random
//! steps in worlds.

mod course;
mod cuts;
mod lists;
mod openings;
mod verdicts;

use crate::closes::course::{Course, SessionCut};
use crate::closes::cuts::cuts_of;
use crate::closes::openings::try_openings;
use crate::closes::verdicts::verdict_text;
use crate::script::{Script, script_of};
pub use lists::try_lists;
use nob_check::judge;
use nob_model::{Answer, Entry};
use nob_model_journal::Verdict;
use nob_rounds::round;
use nob_world::World;
use std::alloc::{AllocError, Global};
use std::io;

// The number of rounds behind a script.
const ROUNDS: u32 = 10;

// What is said of a run.
#[derive(Clone, Copy)]
struct ClosedRun {
    // How many steps of the script were made.
    steps: usize,
    // Whether the session was open before the close.
    is_cut: bool,
    // The verdict on all that happened.
    verdict: Verdict,
    // Whether nothing was accepted, acted on, settled or given up in the last round.
    is_quiet: bool,
}

// What is said of all runs of a script with a close.
#[derive(Clone, Copy)]
struct ClosedRuns {
    // How many are as they should be.
    right: u64,
    // In how many the session was open before the close.
    cut: u64,
}

/// Makes the runs of the script that an input is, and writes which aren't as they should be, and
/// how many are.
pub fn try_closes(rt: &HostRuntime, input: &[u8]) -> io::Result<()> {
    let alloc = rt.alloc();
    let script = match script_of(alloc, input) {
        Ok(Some(script)) => script,
        Ok(None) => return rt.println("no script"),
        Err(_) => return rt.println("memory"),
    };
    let Ok(whole) = outcome_of(alloc, &script, None) else {
        return rt.println("memory");
    };
    let steps = whole.steps;
    println!(rt; "{steps} steps")?;
    let cuts = cuts_of(alloc, script.n, steps)?;
    try_cuts(rt, &script, cuts.as_slice())?;
    try_openings(rt, &script, cuts.as_slice())
}

// Makes the runs of a script with each of these closes, and writes which aren't as they should be,
// and how many are.
fn try_cuts(rt: &HostRuntime, script: &Script, cuts: &[SessionCut]) -> io::Result<()> {
    let mut tally = ClosedRuns { right: 0, cut: 0 };
    for cut in cuts {
        try_cut(rt, script, cut, &mut tally)?;
    }
    let runs = cuts.len();
    let right = tally.right;
    let cut = tally.cut;
    println!(rt;
        "{right} of {runs} closes: verdict yes, quiet after {ROUNDS} rounds, each space shut"
    )?;
    println!(rt; "{cut} of them closed a session that was open")
}

// Makes a script with a close, counts it, and writes what isn't as it should be.
fn try_cut(
    rt: &HostRuntime,
    script: &Script,
    cut: &SessionCut,
    tally: &mut ClosedRuns,
) -> io::Result<()> {
    let Ok(outcome) = outcome_of(rt.alloc(), script, Some(*cut)) else {
        return rt.println("memory");
    };
    if outcome.is_cut {
        tally.cut = tally.cut.saturating_add(1);
    }
    if outcome.verdict == Verdict::Yes && outcome.is_quiet {
        tally.right = tally.right.saturating_add(1);
        return Ok(());
    }
    say_wrong(rt, cut, &outcome)
}

// Writes what is wrong with a script with a close.
fn say_wrong(rt: &HostRuntime, cut: &SessionCut, outcome: &ClosedRun) -> io::Result<()> {
    let verdict = verdict_text(outcome.verdict);
    let place = cut.place;
    let space = cut.space.get();
    let peer = cut.peer.get();
    let quiet = if outcome.is_quiet { "" } else { ", not quiet" };
    println!(rt; "{space} closes with {peer} after {place} steps: verdict {verdict}{quiet}")
}

// Makes a script with a close, if there is one, in a new world, and then the rounds.
fn outcome_of(
    alloc: Global,
    script: &Script,
    cut: Option<SessionCut>,
) -> Result<ClosedRun, AllocError> {
    let mut world = World::new(alloc, script.n.get(), script.limits)?;
    let outcome = outcome_in(alloc, &mut world, script, cut);
    world.shut();
    outcome
}

// The same in a world that is new.
fn outcome_in(
    alloc: Global,
    world: &mut World,
    script: &Script,
    cut: Option<SessionCut>,
) -> Result<ClosedRun, AllocError> {
    let mut course = Course::new(cut, false);
    course.run(world, script.moves.as_slice())?;
    let mut before = 0;
    for _ in 0..ROUNDS {
        before = world.entries().len();
        round(world)?;
    }
    Ok(ClosedRun {
        steps: course.made,
        is_cut: course.is_cut,
        verdict: judge(alloc, world.entries())?,
        is_quiet: !world
            .entries()
            .iter()
            .skip(before)
            .any(|entry| is_news(entry)),
    })
}

// Whether something was accepted, acted on, settled or given up, or a session closed.
fn is_news(entry: &Entry) -> bool {
    match &entry.result {
        Ok(Answer::Took(count)) => *count > 0,
        Ok(Answer::Acted(_)) => true,
        Ok(Answer::Settled(_, _)) => true,
        Ok(Answer::Cleaned(_)) => true,
        Ok(Answer::Closed(_)) => true,
        Ok(_) => false,
        Err(_) => false,
    }
}
