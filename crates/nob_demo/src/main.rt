//! The program `nobj`.
#![tactic(auto)]

mod checking;
mod drawing;
mod drawn;
mod judging;
mod place;
mod reading;
mod run;
mod set;
mod streams;
mod texts;

use crate::streams::{CountedReader, Sink};
use std::alloc::Global;
use std::process::ExitCode;
use std::{env, io};

// What is said of a word that is no text.
const NO_TEXT: &[u8] = b"error: invalid UTF-8 was detected in one or more arguments\n";

fn main(rt: HostRuntime) -> ExitCode {
    let alloc = rt.alloc();
    let mut out = Sink::new(rt.stdout());
    let mut err = Sink::new(rt.stderr());
    let words = match words_of(&rt, alloc) {
        Ok(words) => words,
        Err(error) if error.kind() == io::ErrorKind::InvalidData => {
            return ExitCode::from(run::said(&mut err, NO_TEXT, 2));
        }
        Err(_) => return ExitCode::from(run::said(&mut out, b"memory\n", 1)),
    };
    let status = run::run(
        &rt,
        alloc,
        words.as_slice(),
        &mut CountedReader::new(rt.stdin()),
        &mut out,
        &mut err,
    );
    ExitCode::from(status)
}

// The words of the command line. Memory fails it, and a word that is no text.
fn words_of(rt: &HostRuntime, alloc: Global) -> io::Result<Vec<String>> {
    Ok(env::args(rt)?.collect(alloc)?)
}
