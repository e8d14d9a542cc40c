//! A script with a close at one place, behind which both ends are asked after each further step to
//! open the session anew, each until it does. Then what began is ended, and each object must have
//! been withdrawn.

use crate::closes::course::{Course, Opened, SessionCut};
use crate::closes::verdicts::verdict_text;
use crate::script::Script;
use nob_check::judge;
use nob_model_journal::Verdict;
use nob_rounds::{end, facts_of};
use nob_world::World;
use std::alloc::{AllocError, Global};
use std::io;

// What is said of a run.
#[derive(Clone, Copy)]
struct ReopenedRun {
    // Where the session was opened anew.
    opened: Opened,
    // The verdict on all that happened.
    verdict: Verdict,
    // How many objects can't be withdrawn at the end.
    kept: usize,
}

// What is said of all runs of a script.
#[derive(Clone, Copy)]
struct ReopenedRuns {
    // How many are as they should be.
    right: u64,
    // In how many the end that was closed opened the session anew.
    here: u64,
    // In how many the other one did.
    there: u64,
}

/// Makes the runs of a script with each of these closes, and writes which aren't as they should be,
/// how many are, and in how many the session was opened anew.
pub fn try_openings(rt: &HostRuntime, script: &Script, cuts: &[SessionCut]) -> io::Result<()> {
    let mut tally = ReopenedRuns {
        right: 0,
        here: 0,
        there: 0,
    };
    for cut in cuts {
        try_opening(rt, script, cut, &mut tally)?;
    }
    let runs = cuts.len();
    let right = tally.right;
    let here = tally.here;
    let there = tally.there;
    println!(rt; "{right} of {runs} closes and opens: verdict yes, and each object withdrawn")?;
    println!(rt;
        "{here} of them opened the session anew where it was closed, {there} at the other end"
    )
}

// Makes a run, counts it, and writes what isn't as it should be.
fn try_opening(
    rt: &HostRuntime,
    script: &Script,
    cut: &SessionCut,
    tally: &mut ReopenedRuns,
) -> io::Result<()> {
    let Ok(reopening) = reopening_of(rt.alloc(), script, cut) else {
        return rt.println("memory");
    };
    if reopening.opened.here {
        tally.here = tally.here.saturating_add(1);
    }
    if reopening.opened.there {
        tally.there = tally.there.saturating_add(1);
    }
    if reopening.verdict == Verdict::Yes && reopening.kept == 0 {
        tally.right = tally.right.saturating_add(1);
        return Ok(());
    }
    say_wrong(rt, cut, &reopening)
}

// Writes what is wrong with a run.
fn say_wrong(rt: &HostRuntime, cut: &SessionCut, reopening: &ReopenedRun) -> io::Result<()> {
    let verdict = verdict_text(reopening.verdict);
    let kept = reopening.kept;
    let place = cut.place;
    let space = cut.space.get();
    let peer = cut.peer.get();
    println!(rt;
        "{space} closes with {peer} after {place} steps, opens: verdict {verdict}, objects kept {kept}"
    )
}

// Makes a script with a close and opens in a new world, and ends what began.
fn reopening_of(
    alloc: Global,
    script: &Script,
    cut: &SessionCut,
) -> Result<ReopenedRun, AllocError> {
    let mut world = World::new(alloc, script.n.get(), script.limits)?;
    let reopening = reopening_in(alloc, &mut world, script, cut);
    world.shut();
    reopening
}

// The same in a world that is new.
fn reopening_in(
    alloc: Global,
    world: &mut World,
    script: &Script,
    cut: &SessionCut,
) -> Result<ReopenedRun, AllocError> {
    let mut course = Course::new(Some(*cut), true);
    course.run(world, script.moves.as_slice())?;
    end(alloc, world)?;
    Ok(ReopenedRun {
        opened: course.opened,
        verdict: judge(alloc, world.entries())?,
        kept: facts_of(world.entries()).kept(),
    })
}
