//! Of whose lives each row is part.

ghost use Rattle.std.specs.Prelude.{◌≡◌, IfOk, OnOk, []};
ghost use Rattle.nob_drawing_choice.specs.Lives as spec;
ghost use Rattle.nob_drawing_choice.specs.Turns as turns;

use crate::names::Names;
use crate::naming::names_in;
use nob_drawing_plan::{Bar, Mark};
use nob_ids::WireRep;
use nob_model_types::Entry;
use std::alloc::{AllocError, Global};

// The reference that a mark is of.
pub(crate) fn subject_of(mark: Mark) -> WireRep
    ensures { result ≡ spec.subject_of mark }
{
    match mark {
        Mark::Live(rep) => rep,
        Mark::Listed(rep, _) => rep,
        Mark::Pinned(rep, _, _, _) => rep,
    }
}

// What the entries of a journal name, the first first.
fn named(alloc: Global, journal: &[Entry]) -> Result<Vec<Names>, AllocError>
    ensures { IfOk result (λ lives. lives.items ≡ spec.lives_of [] journal.now) }
{
    let mut lives = Vec::new(alloc);
    for passed in 0..journal.len() {
        let names = names_in(alloc, &journal[journal.len() - 1 - passed])?;
        lives.push(Names::from_vec(names))?;
    }
    Ok(lives)
}

// Puts a reference behind those of a row, if there is that row.
fn put_name(lives: &mut Vec<Names>, row: usize, rep: &WireRep) -> Result<(), AllocError>
    ensures { OnOk result (lives.new.items ≡ turns.with_name row rep.now lives.old.items) }
{
    if row == 0 {
        return Ok(());
    }
    if row > lives.len() {
        return Ok(());
    }
    lives[row - 1].push(*rep)?;
    Ok(())
}

// Puts the reference of a bar behind those of the row at which it ends, if it does, and not at the
// one at which it begins.
fn put_end(
    lives: &mut Vec<Names>,
    start: usize,
    end: Option<usize>,
    rep: &WireRep,
) -> Result<(), AllocError>
    ensures { OnOk result (lives.new.items ≡ turns.with_end start end rep.now lives.old.items) }
{
    let Some(end) = end else {
        return Ok(());
    };
    if end == start {
        return Ok(());
    }
    put_name(lives, end, rep)
}

// Puts the reference of a bar behind those of the rows at which it begins and ends.
fn put_turns(lives: &mut Vec<Names>, bar: &Bar) -> Result<(), AllocError>
    ensures { OnOk result (lives.new.items ≡ turns.with_turns bar.now lives.old.items) }
{
    let rep = subject_of(bar.mark);
    put_name(lives, bar.start, &rep)?;
    put_end(lives, bar.start, bar.end, &rep)
}

// The references of whose lives each row of a journal is part, where these are all bars.
pub(crate) fn lives_of(
    alloc: Global,
    bars: &[Bar],
    journal: &[Entry],
) -> Result<Vec<Names>, AllocError>
    ensures { IfOk result (λ lives. lives.items ≡ spec.lives_of bars.now journal.now) }
{
    let mut lives = named(alloc, journal)?;
    for bar in bars {
        put_turns(&mut lives, bar)?;
    }
    Ok(lives)
}

/// The references of whose lives a row is part.
pub fn names_at(lives: &[Names], row: usize) -> &[WireRep]
    ensures { result.now ≡ spec.names_at lives.now row }
{
    match lives.get(row.saturating_sub(1)) {
        Some(names) => names.as_slice(),
        None => &[],
    }
}
