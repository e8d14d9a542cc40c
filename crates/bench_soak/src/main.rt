//! The program `bench_soak`: rounds of nodes in threads, whose players do by chance what nodes can
//! do, over links that lose, repeat and hold back, and whose ends are let go. After each all is
//! brought to rest, and it is looked whether something is left. `bench/soak` runs it for hours.
#![tactic(auto)]

mod caller;
mod calling;
mod carriers;
mod chance;
mod desk;
mod ends;
mod figures;
mod judging;
mod kind;
mod mending;
mod player;
mod pocket;
mod resting;
mod round;
mod running;
mod saying;
mod steps;
mod table;
mod thing;
mod watch;
mod words;

use crate::round::{Round, Wish};
use crate::running::run_round;
use crate::saying::{say, say_round};
use crate::words::read_wish;
use std::alloc::Global;
use std::io;
use std::process::ExitCode;
use std::sync::Wait;
use std::thread::Threads;
use std::time::{Clock, Instant};

fn main(rt: HostRuntime) -> ExitCode {
    let done = match read_wish(&rt) {
        Ok(Some(wish)) => run(&rt, rt.alloc(), wish),
        Ok(None) => say_usage(&rt),
        Err(error) => Err(error),
    };
    match done {
        Ok(true) => ExitCode::from(0),
        _ => ExitCode::from(1),
    }
}

// Says which words are wanted.
fn say_usage<R: Print>(rt: &R) -> io::Result<bool> {
    println!(rt; "bench_soak SEED ROUNDS STEPS [SPACES [WORKERS [SECONDS]]]")?;
    Ok(false)
}

// Runs the rounds: whether each came to its end as it must.
fn run<R: Threads + Wait + Sync + Print + Eprint + Clock>(
    rt: &R,
    alloc: Global,
    wish: Wish,
) -> io::Result<bool> {
    let began = Instant::now(rt)?;
    let mut is_right = true;
    for number in 0..wish.rounds {
        if wish.seconds > 0 && began.elapsed(rt)?.as_secs() >= wish.seconds {
            break;
        }
        let round = Round::of(wish, number);
        say_round(rt, round)?;
        let outcome = run_round(rt, alloc, round);
        is_right = is_right
            && match &outcome {
                Some(outcome) => outcome.is_right(),
                None => false,
            };
        say(rt, outcome)?;
    }
    Ok(is_right)
}
