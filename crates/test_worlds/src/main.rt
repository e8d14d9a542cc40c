//! The program `test_worlds`: four tests of spaces and worlds. The first word of the command line
//! says which one is run, on standard input. Without a word standard input names tests, and each is
//! run on what stands behind its name.
#![tactic(auto)]

mod asking;
mod births;
mod closes;
mod growths;
mod naming;
mod next;
mod script;

use crate::births::try_births;
use crate::closes::{try_closes, try_lists};
use crate::growths::try_growths;
use crate::naming::{Test, own_input, test_named};
use crate::next::try_next;
use nob_model_text::first_line;
use std::io::Read;
use std::process::ExitCode;
use std::{env, io};

// What the command line asks for.
#[derive(Clone, Copy)]
enum Wanted {
    // Each test that standard input names.
    Each,
    // One test, and whether a word stands behind its name.
    One(Test, bool),
    // A test that there isn't.
    Unknown,
}

fn main(rt: HostRuntime) -> ExitCode {
    match run(&rt) {
        Ok(()) => ExitCode::from(0),
        Err(_) => ExitCode::from(1),
    }
}

// Runs what the command line asks for.
fn run(rt: &HostRuntime) -> io::Result<()> {
    match wanted_of(rt)? {
        Wanted::Each => {
            let input = whole_input(rt)?;
            run_each(rt, input.as_slice())
        }
        Wanted::One(Test::Births, _) => try_births(rt),
        Wanted::One(test, has_more) => {
            let input = whole_input(rt)?;
            run_test(rt, test, has_more, input.as_slice())
        }
        Wanted::Unknown => rt.println("no test of that name"),
    }
}

// What the command line asks for.
fn wanted_of(rt: &HostRuntime) -> io::Result<Wanted> {
    let mut words = env::args(rt)?;
    words.next();
    let Some(word) = words.next() else {
        return Ok(Wanted::Each);
    };
    match test_named(word.as_bytes()) {
        Some(test) => Ok(Wanted::One(test, words.next().is_some())),
        None => Ok(Wanted::Unknown),
    }
}

// All of standard input.
fn whole_input(rt: &HostRuntime) -> io::Result<Vec<u8>> {
    let mut input = Vec::new(rt.alloc());
    rt.stdin().read_to_end(&mut input)?;
    Ok(input)
}

// Runs the tests that lines of an input name, each on what stands behind its name, and with all
// that it can.
fn run_each(rt: &HostRuntime, input: &[u8]) -> io::Result<()> {
    let mut left = input;
    while let Some((line, rest)) = first_line(left) {
        let Some(test) = test_named(line) else {
            return rt.println("no test of that name");
        };
        let (own, behind) = own_input(rest);
        run_test(rt, test, true, own)?;
        left = behind;
    }
    Ok(())
}

// Runs a test on an input, with lists of steps where it has some and they are asked for.
fn run_test(rt: &HostRuntime, test: Test, has_lists: bool, input: &[u8]) -> io::Result<()> {
    match test {
        Test::Closes => {
            try_closes(rt, input)?;
            if has_lists { try_lists(rt) } else { Ok(()) }
        }
        Test::Births => try_births(rt),
        Test::Growths => try_growths(rt, input),
        Test::Next => try_next(rt, input),
    }
}
