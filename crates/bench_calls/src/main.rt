//! The program `bench_calls`: nodes in threads of one process, some of which call an object of the
//! first. `bench/calls` measures it.
#![tactic(auto)]

mod caller;
mod floor;
mod owner;
mod player;
mod running;
mod saying;
mod task;
mod thing;
mod timer;

use crate::floor::run_floor;
use crate::running::run_all;
use crate::saying::say_waits;
use crate::task::{Kind, Task, read_task};
use std::alloc::Global;
use std::io;
use std::process::ExitCode;
use std::sync::Wait;
use std::thread::Threads;
use std::time::Clock;

fn main(rt: HostRuntime) -> ExitCode {
    let done = match read_task(&rt) {
        Ok(Some(task)) => run(&rt, rt.alloc(), task),
        Ok(None) => rt.println(
            "bench_calls floor|idle|null|timed|apart|fresh|life|handoff CALLERS CALLS LOSS [all|nothing [WINDOW]]",
        ),
        Err(error) => Err(error),
    };
    match done {
        Ok(()) => ExitCode::from(0),
        Err(_) => ExitCode::from(1),
    }
}

// Runs a task, and says how many calls were answered.
fn run<R: Threads + Wait + Sync + Print + Clock>(
    rt: &R,
    alloc: Global,
    task: Task,
) -> io::Result<()> {
    if task.kind == Kind::Floor {
        return say_answered(rt, run_floor(rt, alloc, task.callers, task.calls));
    }
    let Some(outcome) = run_all(rt, alloc, task) else {
        return say_answered(rt, None);
    };
    if task.window.is_some() {
        let frames = outcome.frames;
        println!(rt; "{frames} frames")?;
    }
    say_answered(rt, Some(outcome.answered))?;
    if task.kind == Kind::Timed {
        return say_waits(rt, outcome.waits);
    }
    Ok(())
}

// Says how many calls were answered.
fn say_answered<R: Print>(rt: &R, answered: Option<u64>) -> io::Result<()> {
    match answered {
        Some(answered) => println!(rt; "{answered} calls answered"),
        None => println!(rt; "it failed"),
    }
}
