//! The program `test_keeper`: runs of a keeper. Standard input names them, a line each; each is
//! answered by its name and a number.
#![tactic(auto)]

mod checked;
mod short;
mod spaces;
mod threads;

use std::alloc::Global;
use std::io;
use std::process::ExitCode;
use std::sync::Wait;
use std::thread::Threads;

fn main(rt: HostRuntime) -> ExitCode {
    match run(&rt, rt.alloc()) {
        Ok(()) => ExitCode::from(0),
        Err(_) => ExitCode::from(1),
    }
}

// Makes the runs that standard input names.
fn run<R: Threads + Wait + Sync + Input + Print>(rt: &R, alloc: Global) -> io::Result<()> {
    for line in rt.lines(alloc) {
        let line = line?;
        match number_of(rt, alloc, line.as_str()) {
            Some(number) => println!(rt; "{line} {number}")?,
            None => println!(rt; "{line} failed")?,
        }
    }
    Ok(())
}

// What comes of the run of this name: `None` where it failed.
fn number_of<R: Threads + Wait + Sync>(rt: &R, alloc: Global, name: &str) -> Option<usize> {
    match name {
        "pairs" => threads::pairs(rt, alloc),
        "checked" => checked::run(rt, alloc),
        "filled" => short::sealed(rt, alloc, 7),
        "short" => short::run(rt, alloc),
        "sealed" => short::sealed(rt, alloc, 3),
        "woken" => threads::woken(rt, alloc),
        _ => None,
    }
}
