//! The program `nob_cases`: answers examples, one a line, that its caller compares with what the
//! specification says.
//!
//! A line of standard input is a case. It is written to standard output with ` = ` and its answer.
//! An empty line and one that begins with `#` are written as they came. README.md has the grammar.
#![tactic(auto)]

mod case;
mod codecs;
mod ends;
mod plain;
mod sets;
mod shims;
mod stage;
mod tables;
mod transit;

use crate::stage::Stage;
use std::io;
use std::process::ExitCode;

fn main(rt: HostRuntime) -> ExitCode {
    match answer_all(&rt) {
        Ok(()) => ExitCode::from(0),
        Err(_) => {
            let _ = rt.println("memory");
            ExitCode::from(1)
        }
    }
}

// Answers each line of standard input. A read or a write that failed ends it, and memory for a line
// or its text.
fn answer_all(rt: &HostRuntime) -> io::Result<()> {
    let alloc = rt.alloc();
    let mut stage = Stage::new(alloc);
    for line in rt.lines(alloc) {
        let line = line?;
        rt.println(stage.answered(line.as_str())?)?;
    }
    Ok(())
}
