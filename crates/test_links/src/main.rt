//! The program `test_links`: what links, shims, offers and bells do when they run, and what no clause
//! says: that a call succeeds, that threads get on, that an end which is gone is heard, that what two
//! threads hand is seen once both rest, and that a sleeper hears of what is put.
#![tactic(auto)]

mod bells;
mod carrying;
mod digests;
mod meeting;
mod offers;
mod parcels;
mod rows;
mod threads;
mod turns;

use std::alloc::Global;
use std::process::ExitCode;
use std::sync::Wait;
use std::thread::Threads;
use std::{env, io};

fn main(rt: HostRuntime) -> ExitCode {
    let done = match is_short(&rt) {
        Ok(is_short) => run(&rt, rt.alloc(), is_short),
        Err(error) => Err(error),
    };
    match done {
        Ok(()) => ExitCode::from(0),
        Err(_) => ExitCode::from(1),
    }
}

// Whether the command line has a word: then only what one thread does in a moment is run.
fn is_short(rt: &HostRuntime) -> io::Result<bool> {
    let mut words = env::args(rt)?;
    let _program = words.next();
    Ok(words.next().is_some())
}

// Runs all, or what one thread does in a moment.
fn run<R: Threads + Wait + Sync + Print>(rt: &R, alloc: Global, is_short: bool) -> io::Result<()> {
    rows::print(rt, alloc)?;
    if is_short {
        return Ok(());
    }
    digests::print(rt, alloc)?;
    threads::print(rt, alloc)?;
    turns::print(rt)
}
