//! What an event costs at spaces that hold much. `bench/costs` measures it.

mod holding;
mod rounds;
mod task;

use crate::costs::holding::{hold, rep_of};
use crate::costs::rounds::make_round;
use crate::costs::task::{CostTask, Round, task_of};
use nob_exchange::with_three;
use nob_ids::Limits;
use nob_space::{Space, SpaceError};
use std::alloc::Global;
use std::io;

/// Carries out a task, and says that it is done, or what failed.
pub(crate) fn measure<R: Print>(rt: &R, alloc: Global, text: &str) -> io::Result<()> {
    let Some(task) = task_of(text) else {
        return rt.println("KEPT ROUND HELD ROUNDS");
    };
    match carry_out(alloc, task) {
        Ok(()) => println!(rt; "{text}: done"),
        Err(error) => println!(rt; "{text}: {error}"),
    }
}

// A task at three new spaces.
fn carry_out(alloc: Global, task: CostTask) -> Result<(), SpaceError> {
    let limits = limits_of(task.round);
    with_three(alloc, limits, |one, two, three| {
        play(alloc, one, two, three, task)
    })
}

// Much is held, and then the rounds.
fn play(
    alloc: Global,
    one: &mut Space,
    two: &mut Space,
    three: &mut Space,
    task: CostTask,
) -> Result<(), SpaceError> {
    let held = hold(alloc, one, two, three, task)?;
    for number in 0..task.rounds {
        make_round(one, two, task.round, rep_of(held.as_slice(), task, number))?;
    }
    Ok(())
}

// The limits of the sessions: the widest window, where it is transmitted.
fn limits_of(round: Round) -> Limits {
    match round {
        Round::Transmit => Limits::new(64, 16).unwrap_or_default(),
        _ => Limits::default(),
    }
}
