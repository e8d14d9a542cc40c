//! The program `test_methods`: methods of objects at nodes in threads. No clause says that jobs are
//! carried out: these runs show it.
#![tactic(auto)]

mod asking;
mod crowd;
mod gate;
mod pair;
mod rows;
mod tally;
mod thing;
mod values;

use crate::rows::{Row, Said};
use std::alloc::Global;
use std::io;
use std::sync::Wait;
use std::thread::Threads;

fn main(rt: HostRuntime) -> io::Result<()> {
    run(&rt, rt.alloc())
}

// Plays both scenes, and prints what they say.
fn run<R: Threads + Wait + Sync + Print>(rt: &R, alloc: Global) -> io::Result<()> {
    print_all(rt, pair::play(rt, alloc))?;
    print_all(rt, crowd::play(rt, alloc))
}

// Prints what a scene says.
fn print_all<R: Print>(rt: &R, rows: Option<Vec<Row>>) -> io::Result<()> {
    let Some(rows) = rows else {
        return println!(rt; "the scene failed");
    };
    for row in rows.iter() {
        print(rt, row)?;
    }
    Ok(())
}

// Prints a row.
fn print<R: Print>(rt: &R, row: &Row) -> io::Result<()> {
    let name = row.name;
    match row.said {
        Said::Is(true) => println!(rt; "{name}: yes"),
        Said::Is(false) => println!(rt; "{name}: no"),
        Said::Count(count) => println!(rt; "{name}: {count}"),
        Said::Unit(status) => println!(rt; "{name}: status {status}, unit"),
        Said::Number(status, number) => println!(rt; "{name}: status {status}, {number}"),
        Said::Object(status, owner, index) => println!(rt;
            "{name}: status {status}, object {owner}.{index}"
        ),
        Said::Other(status) => println!(rt; "{name}: status {status}"),
        Said::Nothing => println!(rt; "{name}: nothing"),
    }
}
