//! The program `bench_parts`: parts of the runtime, each to be measured by scripts in `bench/`. Links
//! between threads, frames of strangers, events at spaces that hold much, whole lives of references,
//! and threads that call one keeper.
#![tactic(auto)]

mod bringing;
mod costs;
mod keeper;
mod links;
mod lives;
mod reading;
mod strangers;

use crate::reading::{first_word, words_of};
use std::alloc::Global;
use std::io;
use std::process::ExitCode;
use std::sync::Wait;
use std::thread::Threads;

fn main(rt: HostRuntime) -> ExitCode {
    let done = match words_of(&rt, rt.alloc()) {
        Ok(words) => run(&rt, rt.alloc(), words.as_str()),
        Err(error) => Err(error),
    };
    match done {
        Ok(()) => ExitCode::from(0),
        Err(_) => ExitCode::from(1),
    }
}

// Carries out the task of the command line. Where it has none, those of standard input, one a line,
// each of the bench that the command line names, or else of the one that its own first word names.
fn run<R: Threads + Wait + Sync + Input + Print>(
    rt: &R,
    alloc: Global,
    words: &str,
) -> io::Result<()> {
    let (bench, task) = first_word(words);
    if !task.is_empty() {
        return measure(rt, alloc, bench, task);
    }
    for line in rt.lines(alloc) {
        let line = line?;
        if bench.is_empty() {
            let (bench, task) = first_word(line.as_str());
            measure(rt, alloc, bench, task)?;
        } else {
            measure(rt, alloc, bench, line.as_str())?;
        }
    }
    Ok(())
}

// Carries out a task of a bench, and says what came of it.
fn measure<R: Threads + Wait + Sync + Print>(
    rt: &R,
    alloc: Global,
    bench: &str,
    task: &str,
) -> io::Result<()> {
    match bench {
        "links" => links::measure(rt, alloc, task),
        "strangers" => strangers::measure(rt, alloc, task),
        "costs" => costs::measure(rt, alloc, task),
        "lives" => lives::measure(rt, alloc, task),
        "keeper" => keeper::measure(rt, alloc, task),
        _ => rt.println("links|strangers|costs|lives|keeper TASK"),
    }
}
