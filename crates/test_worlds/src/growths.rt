//! A script of a world, run twice, where what wanted memory is made once more. With one allocation
//! refused in one of the runs, their entries must be the same.

mod step_script;
mod worlds;

use crate::growths::step_script::{StepScript, step_script_of};
use crate::growths::worlds::{Stride, entries_of, is_accepted};
use nob_check::judge;
use nob_model::{Entry, same_event, same_result};
use nob_model_journal::Verdict;
use std::alloc::{AllocError, Global};
use std::io;

// What is said of a script.
#[derive(Clone, Copy)]
struct BothRuns {
    // Whether the entries of both runs are the same.
    is_same: bool,
    // The verdict on them.
    verdict: Verdict,
    // Whether `check` accepts them as traces.
    is_accepted: bool,
}

/// Runs the script that an input is, and writes what is said of it.
pub fn try_growths(rt: &HostRuntime, input: &[u8]) -> io::Result<()> {
    let alloc = rt.alloc();
    let Ok(script) = script_in(alloc, input) else {
        return rt.println("memory");
    };
    let Some(script) = script else {
        return rt.println("no script");
    };
    let Ok(said) = said_of(alloc, &script) else {
        return rt.println("memory");
    };
    rt.println(if said.is_same {
        "the entries of both runs are the same"
    } else {
        "the runs differ"
    })?;
    rt.println(if said.verdict == Verdict::Yes {
        "verdict yes"
    } else {
        "verdict no"
    })?;
    rt.println(if said.is_accepted {
        "the traces are accepted"
    } else {
        "the traces are refused"
    })
}

// The script that a text is.
fn script_in(alloc: Global, text: &[u8]) -> Result<Option<StepScript>, AllocError> {
    match step_script_of(alloc, text) {
        Ok(script) => Ok(script),
        Err(_) => step_script_of(alloc, text),
    }
}

// Runs a script twice: step by step, and all steps at once.
fn said_of(alloc: Global, script: &StepScript) -> Result<BothRuns, AllocError> {
    let first = entries_of(alloc, script, Stride::StepByStep)?;
    let second = entries_of(alloc, script, Stride::AllAtOnce)?;
    let entries = first.as_slice();
    Ok(BothRuns {
        is_same: are_same(entries, second.as_slice()),
        verdict: verdict_on(alloc, entries)?,
        is_accepted: accepted(alloc, script, entries)?,
    })
}

// The verdict on entries.
fn verdict_on(alloc: Global, entries: &[Entry]) -> Result<Verdict, AllocError> {
    match judge(alloc, entries) {
        Ok(verdict) => Ok(verdict),
        Err(_) => judge(alloc, entries),
    }
}

// Whether `check` accepts entries.
fn accepted(alloc: Global, script: &StepScript, entries: &[Entry]) -> Result<bool, AllocError> {
    match is_accepted(alloc, script, entries) {
        Ok(is_accepted) => Ok(is_accepted),
        Err(_) => is_accepted(alloc, script, entries),
    }
}

// Whether two lists of entries are the same, and not empty.
fn are_same(entries: &[Entry], others: &[Entry]) -> bool {
    if entries.is_empty() || entries.len() != others.len() {
        return false;
    }
    for (entry, other) in entries.iter().zip(others.iter()) {
        if !is_same(entry, other) {
            return false;
        }
    }
    true
}

// Whether two entries are the same.
fn is_same(entry: &Entry, other: &Entry) -> bool {
    entry.space == other.space
        && same_event(&entry.event, &other.event)
        && same_result(&entry.result, &other.result)
}
