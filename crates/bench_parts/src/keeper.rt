//! Threads that call one keeper. `bench/keeper` measures it.

mod calls;

use crate::keeper::calls::run_on;
use crate::reading::number_of;
use std::alloc::Global;
use std::io;
use std::sync::Wait;
use std::thread::Threads;

// What is measured: so many threads, each of which makes so many pairs of calls.
#[derive(Clone, Copy)]
struct KeeperTask {
    threads: u64,
    pairs: u64,
}

/// Makes all calls of a task, and says how many were answered.
pub(crate) fn measure<R: Threads + Wait + Sync + Print>(
    rt: &R,
    alloc: Global,
    text: &str,
) -> io::Result<()> {
    let Some(task) = task_of(text) else {
        return rt.println("1|2|4 PAIRS");
    };
    match run_on(rt, alloc, task.threads, task.pairs) {
        Some(count) => println!(rt; "{count} calls"),
        None => rt.println("failed"),
    }
}

// The task of a line: `None` where it has other words.
fn task_of(line: &str) -> Option<KeeperTask> {
    let mut words = line.split_whitespace();
    Some(KeeperTask {
        threads: number_of(words.next())?,
        pairs: number_of(words.next())?,
    })
}
