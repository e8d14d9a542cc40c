//! The program `test_definitions`: the definitions of a space and of a journal as something one can run.
//! It reads a script of a world, one trace, or the entries of a journal, from standard input; it
//! answers each step by the plain program of nob_model, and says of a journal by that of
//! nob_model_journal which promise isn't kept. It is slow on purpose. With the word `copy` it writes
//! traces again, with `chain` a chain, with `check` it checks both by the definitions, and with `space`
//! it runs a trace on a space.
#![tactic(auto)]

ghost use Rattle.std.specs.Prelude.{◌≡◌, true, false, codes};
ghost use Rattle.nob_trace.specs.Reading.{Answers};
ghost use Rattle.nob_model_text.specs.Lines.{lines_of};
ghost use Rattle.test_definitions.specs.Outputs.{BeginsAsTrace, BeginsWith, IsOutput, IsRefused, has_equals_sign as has_equals_sign_in, has_results as has_results_of};

mod chain;
mod checking;
mod entries;
mod replay;
mod script;
mod trace;

use nob_model_text::first_line;
use nob_trace::{TraceError, refusal_line};
use std::alloc::Global;
use std::io::{Read, Write};
use std::process::ExitCode;
use std::{env, io};

// What is done with an input.
#[derive(Clone, Copy)]
enum Task {
    // It is answered by the definitions.
    Answer,
    // Traces are written as they were read.
    Copy,
    // A chain is written as it was read.
    CopyChain,
    // Chains and traces are checked by the definitions.
    Check,
    // A trace is run on a space.
    Replay,
}

fn main(rt: HostRuntime) -> ExitCode {
    match run(&rt) {
        Ok(()) => ExitCode::from(0),
        Err(_) => ExitCode::from(1),
    }
}

// Reads all of standard input and writes what it gives.
fn run(rt: &HostRuntime) -> io::Result<()> {
    let alloc = rt.alloc();
    let task = task_of(rt)?;
    let mut input = Vec::new(alloc);
    rt.stdin().read_to_end(&mut input)?;
    match written_for(alloc, input.as_slice(), task) {
        Ok(text) => rt.stdout().write_all(text.as_slice()),
        Err(error) => rt.stdout().write_all(refusal_line(error)),
    }
}

// The task that the first word of the command line names, the program's name aside.
fn task_of(rt: &HostRuntime) -> io::Result<Task> {
    let mut words = env::args(rt)?;
    words.next();
    let Some(word) = words.next() else {
        return Ok(Task::Answer);
    };
    Ok(task_named(word.as_str()))
}

// The task that a word names.
fn task_named(word: &str) -> Task {
    match word {
        "chain" => Task::CopyChain,
        "check" => Task::Check,
        "space" => Task::Replay,
        _ => Task::Copy,
    }
}

// What is written for an input, by its task.
fn written_for(alloc: Global, input: &[u8], task: Task) -> Result<Vec<u8>, TraceError> {
    match task {
        Task::Answer => output_of(alloc, input, false),
        Task::Copy => output_of(alloc, input, true),
        Task::CopyChain => chain::output_of(alloc, input),
        Task::Check => checking::output_of(alloc, input),
        Task::Replay => replay::verdict_of(alloc, input),
    }
}

// What is written for an input: a trace is judged or written again, entries are judged, and any
// other input is a script.
fn output_of(alloc: Global, input: &[u8], is_copy: bool) -> Result<Vec<u8>, TraceError>
    ensures { Answers (λ text. IsOutput is_copy input.now text.items)
        (IsRefused is_copy input.now) result }
{
    if is_copy {
        return trace::copy_of(alloc, input);
    }
    if begins_as_trace(input) {
        return trace::verdict_of(alloc, input);
    }
    if has_results(input) {
        return Ok(entries::verdict_of(alloc, input)?);
    }
    Ok(script::answers_of(alloc, input)?)
}

// Whether an input begins as a trace of one of the two versions does.
fn begins_as_trace(input: &[u8]) -> bool
    ensures yes { result ≡ true → BeginsAsTrace input.now }
    ensures no { result ≡ false → BeginsAsTrace input.now → ⊥ }
{
    begins_in_first(input) || begins_in_second(input)
}

// Whether an input begins as a trace of version 1 does.
fn begins_in_first(input: &[u8]) -> bool
    ensures yes { result ≡ true → BeginsWith (codes "trace ") input.now }
    ensures no { result ≡ false → BeginsWith (codes "trace ") input.now → ⊥ }
{
    match input {
        [b't', b'r', b'a', b'c', b'e', b' ', ..] => true,
        _ => false,
    }
}

// Whether an input begins as a trace of version 2 does.
fn begins_in_second(input: &[u8]) -> bool
    ensures yes { result ≡ true → BeginsWith (codes "trace2 ") input.now }
    ensures no { result ≡ false → BeginsWith (codes "trace2 ") input.now → ⊥ }
{
    match input {
        [b't', b'r', b'a', b'c', b'e', b'2', b' ', ..] => true,
        _ => false,
    }
}

// Whether an equals sign stands in the second line of an input: a step has none, and an entry has
// one before its result.
fn has_results(input: &[u8]) -> bool
    ensures { result ≡ has_results_of (lines_of input.now) }
{
    let Some((_, lines)) = first_line(input) else {
        return false;
    };
    let Some((line, _)) = first_line(lines) else {
        return false;
    };
    has_equals_sign(line)
}

// Whether an equals sign stands in a line.
fn has_equals_sign(line: &[u8]) -> bool
    ensures { result ≡ has_equals_sign_in line.now }
{
    line.iter().any(|byte| *byte == b'=')
}
