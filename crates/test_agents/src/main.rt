//! The program `test_agents`: the agents of two spaces, in one thread that gives them turns, go on
//! until the object of the example *whole life* is withdrawn; over links that lose nothing, and over
//! links that lose, repeat and keep back. No clause says that agents get on: these runs show it.
#![tactic(auto)]

mod node;
mod rounds;

use crate::rounds::Outcome;
use std::alloc::Global;
use std::io;
use std::process::ExitCode;
use std::sync::Wait;

fn main(rt: HostRuntime) -> ExitCode {
    match run(&rt, rt.alloc()) {
        Ok(()) => ExitCode::from(0),
        Err(_) => ExitCode::from(1),
    }
}

// Runs all, and prints what came of it.
fn run<R: Wait + Print>(rt: &R, alloc: Global) -> io::Result<()> {
    print(rt, "nothing lost", rounds::run(rt, alloc, 0))?;
    print(rt, "much lost", rounds::run(rt, alloc, 5))?;
    match rounds::run_alone(rt, alloc) {
        Some(is_withdrawn) => println!(rt; "left alone: withdrawn {}", said(is_withdrawn)),
        None => println!(rt; "left alone: failed"),
    }
}

// Prints what came of a run.
fn print<R: Print>(rt: &R, name: &str, outcome: Option<Outcome>) -> io::Result<()> {
    let Some(outcome) = outcome else {
        return println!(rt; "{name}: failed");
    };
    println!(rt; "{name}: withdrawn {}", said(outcome.is_withdrawn))?;
    println!(rt;
        "{name}: a Carer idles only where it has no work {}",
        said(outcome.carers_idle_rightly)
    )?;
    println!(rt;
        "{name}: a Sender idles 3 turns at most where there is something to send {}",
        said(outcome.senders_idle_rightly)
    )
}

// Yes or no.
fn said(is_so: bool) -> &'static str {
    if is_so { "yes" } else { "no" }
}
