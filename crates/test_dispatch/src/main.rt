//! The program `test_dispatch`: the dispatchers and workers of two spaces, in one thread, and then a pool
//! that ends, of which what it left is gathered. No clause says that jobs are carried out: this run shows
//! it.
#![tactic(auto)]

mod node;
mod objects;
mod pool;
mod rows;

use crate::rows::Laters;
use std::alloc::Global;
use std::io;
use std::process::ExitCode;
use std::sync::Wait;

fn main(rt: HostRuntime) -> ExitCode {
    match run(&rt, rt.alloc()) {
        Ok(()) => ExitCode::from(0),
        Err(_) => ExitCode::from(1),
    }
}

// Runs the dispatchers and workers, and then the pool.
fn run<R: Wait + Print>(rt: &R, alloc: Global) -> io::Result<()> {
    print_jobs(rt, alloc)?;
    print_pool(rt, alloc)
}

// Runs the rows, and prints what was told.
fn print_jobs<R: Wait + Print>(rt: &R, alloc: Global) -> io::Result<()> {
    let Some(ran) = rows::run(rt, alloc) else {
        return println!(rt; "failed");
    };
    for told in ran.told.iter() {
        match told.number {
            Some(number) => println!(rt; "{}: status {}, {number}", told.row, told.status)?,
            None => println!(rt; "{}: status {}", told.row, told.status)?,
        }
    }
    let Laters {
        full,
        free,
        has_ended,
    } = ran.laters;
    println!(rt; "turns that found no room to end a job: {full}")?;
    println!(rt;
        "once there is room: {free}, and it has ended: {}",
        said(has_ended)
    )?;
    println!(rt; "each entry has its receipt: {}", said(ran.is_whole))
}

// Runs a pool that ends when an errand is in its lane, and prints what was left.
fn print_pool<R: Wait + Print>(rt: &R, alloc: Global) -> io::Result<()> {
    let Some(left) = pool::run(rt, alloc) else {
        return println!(rt; "failed");
    };
    println!(rt; "errands that a pool left in its lane: {}", left.errands)?;
    println!(rt; "objects that were on their way back: {}", left.objects)?;
    println!(rt; "each entry has its receipt: {}", said(left.is_whole))
}

// Yes or no.
fn said(is_so: bool) -> &'static str {
    if is_so { "yes" } else { "no" }
}
