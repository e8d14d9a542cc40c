//! A script of a world, and after each step what the space that was asked could do next, by the
//! definitions, with which all spaces must agree.

mod agreeing;
mod reading;
mod telling;
mod work;

use crate::asking::answer_of;
use crate::next::agreeing::all_agree;
use crate::next::reading::{is_answer_read, is_read_again};
use crate::next::telling::{push_outstanding, push_work};
use crate::next::work::work_of;
use nob_ids::SpaceId;
use nob_model::{Entry, Here, WorldStep};
use nob_model_reading::{opening_of, step_of};
use nob_model_text::{first_line, push_bad_step, push_line};
use nob_plain_answers::journals::history_at;
use nob_script_text::limits_of;
use nob_world::World;
use std::alloc::{AllocError, Global};
use std::io;
use std::io::Write;

/// Writes what the script that an input is gives.
pub fn try_next(rt: &HostRuntime, input: &[u8]) -> io::Result<()> {
    match output_of(rt.alloc(), input) {
        Ok(text) => rt.stdout().write_all(text.as_slice()),
        Err(_) => rt.println("memory"),
    }
}

// What is written for a script: its first line, and each step with what could be done next.
fn output_of(alloc: Global, input: &[u8]) -> Result<Vec<u8>, AllocError> {
    let mut text = Vec::new(alloc);
    let Some((line, steps)) = first_line(input) else {
        push_bad_step(alloc, &mut text, 1)?;
        return Ok(text);
    };
    let Some(opening) = opening_of(alloc, line)? else {
        push_bad_step(alloc, &mut text, 1)?;
        return Ok(text);
    };
    push_line(&mut text, line, b"", b"")?;
    let mut world = World::new(alloc, opening.n.get(), limits_of(opening.limits))?;
    let done = make_all(alloc, &mut world, steps, &mut text);
    world.shut();
    done?;
    Ok(text)
}

// Makes the steps of these lines, and puts each with what could be done next behind a text.
fn make_all(
    alloc: Global,
    world: &mut World,
    lines: &[u8],
    text: &mut Vec<u8>,
) -> Result<(), AllocError> {
    let mut left = lines;
    for place in 0..lines.len() {
        let Some((line, rest)) = first_line(left) else {
            break;
        };
        let Some(step) = step_of(alloc, line)? else {
            return push_bad_step(alloc, text, (place as u64).saturating_add(2));
        };
        let copy = step.copy()?;
        answer_of(world, &copy)?;
        let words = words_after(alloc, world, line, &copy)?;
        push_line(text, line, b" |", words.as_bytes())?;
        left = rest;
    }
    Ok(())
}

// What is written behind a step: what the space that was asked last could do next, and what it has
// outstanding; and what isn't as it should be.
fn words_after(
    alloc: Global,
    world: &World,
    line: &[u8],
    step: &WorldStep,
) -> Result<String, AllocError> {
    let mut words = String::new(alloc);
    let journal = journal_of(alloc, world.entries())?;
    if let [entry, ..] = journal.as_slice() {
        put_words(alloc, world, entry.space, journal.as_slice(), &mut words)?;
        if !is_answer_read(alloc, entry)? {
            words.push_str(" answer read otherwise")?;
        }
    }
    if !all_agree(alloc, world, journal.as_slice())? {
        words.push_str(" a space differs")?;
    }
    if !is_read_again(alloc, line, step)? {
        words.push_str(" step read otherwise")?;
    }
    Ok(words)
}

// Puts what a space could do next, and what it has outstanding, behind words.
fn put_words(
    alloc: Global,
    world: &World,
    space: SpaceId,
    journal: &[Entry],
    words: &mut String,
) -> Result<(), AllocError> {
    let here = Here {
        space,
        n: world.n(),
    };
    let history = history_at(alloc, &here, journal)?;
    let work = work_of(alloc, &here, world.limits().window, &history)?;
    push_work(alloc, words, &work)?;
    push_outstanding(alloc, words, &here, &history)
}

// The entries, the newest of which stands first.
fn journal_of(alloc: Global, entries: &[Entry]) -> Result<Vec<Entry>, AllocError> {
    let mut journal = Vec::new(alloc);
    for entry in entries {
        journal.insert(0, entry.copy()?)?;
    }
    Ok(journal)
}
