//! Lists of random steps in worlds of three and four spaces. What happened is judged; and once what
//! is closed, called and held has been ended, and all is quiet, each object must have been
//! withdrawn.

use crate::asking::answer_of;
use crate::closes::verdicts::verdict_text;
use nob_check::judge;
use nob_ids::Limits;
use nob_model_journal::Verdict;
use nob_rounds::{Words, end, facts_of, known_of, random_step};
use nob_world::World;
use std::alloc::{AllocError, Global};
use std::io;

// The number of lists that are tried.
const LISTS: u64 = 200;

// The number of steps in a list.
const STEPS: u64 = 400;

// What is said of a list.
#[derive(Clone, Copy)]
struct Trial {
    verdict: Verdict,
    // How many objects can't be withdrawn at the end.
    kept: usize,
    // Whether replies, settlements, cleanings, withdrawals and openings have all come in it.
    is_busy: bool,
}

/// Tries all lists, and writes what is wrong with one, and how many are as they should be.
pub fn try_lists(rt: &HostRuntime) -> io::Result<()> {
    let mut right: u64 = 0;
    let mut busy: u64 = 0;
    for place in 0..LISTS {
        let seed = place + 1;
        let Ok(trial) = trial_of(rt.alloc(), seed) else {
            return rt.println("memory");
        };
        if trial.is_busy {
            busy = busy.saturating_add(1);
        }
        if trial.verdict == Verdict::Yes && trial.kept == 0 {
            right = right.saturating_add(1);
        } else {
            say_wrong(rt, seed, &trial)?;
        }
    }
    println!(rt;
        "{right} of {LISTS} lists of {STEPS} steps: verdict yes, and each object withdrawn"
    )?;
    rt.println(if busy > LISTS / 2 {
        "calls, replies, settlements, cleanings, withdrawals and opened sessions in most of them"
    } else {
        "too little happens in them"
    })
}

// Writes what is wrong with a list.
fn say_wrong(rt: &HostRuntime, seed: u64, trial: &Trial) -> io::Result<()> {
    let verdict = verdict_text(trial.verdict);
    let kept = trial.kept;
    println!(rt; "seed {seed}: verdict {verdict}, objects kept {kept}")
}

// Tries the list of a seed, in a new world of three or four spaces.
fn trial_of(alloc: Global, seed: u64) -> Result<Trial, AllocError> {
    let n = if seed % 2 == 0 { 4 } else { 3 };
    let mut world = World::new(alloc, n, Limits::default())?;
    let trial = trial_in(alloc, &mut world, seed);
    world.shut();
    trial
}

// Tries the list of a seed in a new world.
fn trial_in(alloc: Global, world: &mut World, seed: u64) -> Result<Trial, AllocError> {
    let mut words = Words::new(seed);
    for _ in 0..STEPS {
        let known = known_of(alloc, world.n(), world.entries())?;
        let frames = world.frames().len() as u64;
        let step = random_step(alloc, &mut words, &known, frames)?;
        answer_of(world, &step)?;
    }
    end(alloc, world)?;
    let facts = facts_of(world.entries());
    Ok(Trial {
        verdict: judge(alloc, world.entries())?,
        kept: facts.kept(),
        is_busy: facts.is_busy(),
    })
}
