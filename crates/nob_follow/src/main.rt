//! The program `nob_follow`: chains and traces from files, one of each space, which are read side by
//! side and checked while they are read.
#![tactic(auto)]

mod following;
mod outcome;
mod saying;
mod source;

use crate::following::follow;
use crate::outcome::Followed;
use crate::saying::{status_of, write_outcome};
use crate::source::{Tracked, open_all};
use std::alloc::Global;
use std::io::Write;
use std::process::ExitCode;
use std::{env, io};

// What is written where no file is named.
const USAGE: &[u8] = b"usage: nob_follow [--cut] FILE ..\n";

fn main(rt: HostRuntime) -> ExitCode {
    match run(&rt) {
        Ok(status) => ExitCode::from(status),
        Err(_) => ExitCode::from(2),
    }
}

// Follows the files that the words name, and writes what is said of them. `--cut` among the words
// says that they may end anywhere: all is judged up to the lowest last stamp.
fn run(rt: &HostRuntime) -> io::Result<u8> {
    let alloc = rt.alloc();
    let mut names: Vec<String> = Vec::new(alloc);
    let mut cut = false;
    for word in env::args(rt)?.skip(1) {
        if word.as_str() == "--cut" {
            cut = true;
        } else {
            names.push(word)?;
        }
    }
    if names.is_empty() {
        rt.stderr().write_all(USAGE)?;
        return Ok(2);
    }
    let outcome = outcome_of(rt, alloc, names.as_slice(), cut);
    let mut text = Vec::new(alloc);
    write_outcome(alloc, names.as_slice(), &outcome, &mut text)?;
    rt.stdout().write_all(text.as_slice())?;
    Ok(status_of(&outcome))
}

// What comes of the files of these names.
fn outcome_of(rt: &HostRuntime, alloc: Global, names: &[String], cut: bool) -> Followed {
    let mut sources: Vec<Tracked> = Vec::new(alloc);
    match open_all(rt, alloc, names, &mut sources) {
        Ok(()) => follow(alloc, &mut sources, cut),
        Err(outcome) => outcome,
    }
}
