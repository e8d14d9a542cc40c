//! The bars beside the lifelines.

ghost use Rattle.std.specs.Prelude.{◌≡◌, ◌==◌, ◌+◌, ◌<◌, ◌^◌, ℕ, IfOk, map, filter, length, Option};
ghost use Rattle.std.specs.List.{list_any};
ghost use Rattle.nob_drawing_plan.specs.Marks.{same_mark};
ghost use Rattle.nob_drawing_plan.specs.Bars as spec;

use crate::mark::Mark;
use crate::marks::{is_quiet, marks_at};
use crate::passing::passed;
use nob_ids::SpaceId;
use nob_model_types::{Entry, Here};
use std::alloc::{AllocError, Global};

/// What holds at a space from one row to another.
#[derive(Clone, Copy, Debug)]
pub struct Bar {
    /// The space.
    pub space: SpaceId,
    /// What holds.
    pub mark: Mark,
    /// In which lane beside the lifeline, from 0.
    pub lane: usize,
    /// The row after which it holds.
    pub start: usize,
    /// The row after which it holds no more: `None` where it holds to the end.
    pub end: Option<usize>,
}

impl Bar {
    // Whether it is of a space and goes on.
    pub(crate) fn goes_on(&self, space: SpaceId) -> bool
        ensures { result ≡ spec.goes_on space self.now }
    {
        self.space == space && self.end.is_none()
    }

    // Whether it is the one of a mark.
    fn is_bar_of(&self, space: SpaceId, mark: Mark) -> bool
        ensures { result ≡ spec.is_bar_of space mark self.now }
    {
        self.goes_on(space) && self.mark.is_same(mark)
    }

    // The bar after a row of a space, after which these marks hold.
    fn ended(&self, space: SpaceId, row: usize, held: &[Mark]) -> Bar
        ensures { result ≡ spec.ended space row held.now self.now }
    {
        if self.goes_on(space) && !is_held(self.mark, held) {
            return Bar {
                space: self.space,
                mark: self.mark,
                lane: self.lane,
                start: self.start,
                end: Some(row),
            };
        }
        *self
    }
}

// Whether a mark is one of these.
fn is_held(mark: Mark, held: &[Mark]) -> bool
    ensures { result ≡ list_any (same_mark mark) held.now }
{
    held.iter().any(|other| mark.is_same(*other))
}

// Whether a mark of a space has a bar that goes on.
fn has_bar(space: SpaceId, mark: Mark, bars: &[Bar]) -> bool
    ensures { result ≡ spec.has_bar space mark bars.now }
{
    bars.iter().any(|bar| bar.is_bar_of(space, mark))
}

// The lanes of the bars of a space that go on.
fn lanes_of(alloc: Global, space: SpaceId, bars: &[Bar]) -> Result<Vec<usize>, AllocError>
    ensures { IfOk result (λ lanes. lanes.items ≡ spec.lanes_of space bars.now) }
{
    bars.iter()
        .filter(|bar| bar.goes_on(space))
        .map(|bar| bar.lane)
        .collect(alloc)
}

// Whether a lane is one of these.
fn is_taken(lane: usize, lanes: &[usize]) -> bool
    ensures { result ≡ list_any (λ other. other == lane) lanes.now }
{
    lanes.iter().any(|other| *other == lane)
}

// The first lane from this one on that isn't one of these, where so many are looked at.
fn free_lane(lane: usize, tries: usize, lanes: &[usize]) -> usize
    requires { lane + tries < 2 ^ 64 }
    ensures { result ≡ spec.free_lane lane tries lanes.now }
{
    if tries == 0 || !is_taken(lane, lanes) {
        return lane;
    }
    free_lane(lane + 1, tries - 1, lanes)
}

// A bar that begins.
fn new_bar(
    alloc: Global,
    space: SpaceId,
    row: usize,
    mark: Mark,
    bars: &[Bar],
) -> Result<Bar, AllocError>
    ensures { IfOk result (λ bar. bar ≡ spec.new_bar space row mark bars.now) }
{
    let lanes = lanes_of(alloc, space, bars)?;
    let lane = free_lane(0, lanes.len(), lanes.as_slice());
    Ok(Bar {
        space,
        mark,
        lane,
        start: row,
        end: None,
    })
}

// The bars after a row of a space, after which these marks hold, without those that begin.
fn with_ended(
    alloc: Global,
    space: SpaceId,
    row: usize,
    held: &[Mark],
    bars: &[Bar],
) -> Result<Vec<Bar>, AllocError>
    ensures { IfOk result (λ after. after.items ≡ map (spec.ended space row held.now) bars.now) }
{
    bars.iter()
        .map(|bar| bar.ended(space, row, held))
        .collect(alloc)
}

// The bars with those that begin.
pub(crate) fn with_begun(
    alloc: Global,
    space: SpaceId,
    row: usize,
    marks: &[Mark],
    mut bars: Vec<Bar>,
) -> Result<Vec<Bar>, AllocError>
    ensures { IfOk result (λ after. after.items
        ≡ spec.with_begun space row marks.now bars.items) }
{
    match marks {
        [] => Ok(bars),
        [mark, others @ ..] => {
            if has_bar(space, *mark, bars.as_slice()) {
                return with_begun(alloc, space, row, others, bars);
            }
            bars.push(new_bar(alloc, space, row, *mark, bars.as_slice())?)?;
            with_begun(alloc, space, row, others, bars)
        }
    }
}

// The bars of a journal, whatever its spaces exported: at each entry that may change a mark the
// whole of its space's journal before it is read again.
fn bars_read(alloc: Global, n: u16, journal: &[Entry]) -> Result<Vec<Bar>, AllocError>
    ensures { IfOk result (λ bars. bars.items ≡ spec.bars n journal.now) }
{
    match journal {
        [] => Ok(Vec::new(alloc)),
        [entry, older @ ..] => {
            let before = bars_read(alloc, n, older)?;
            if is_quiet(entry)? {
                return Ok(before);
            }
            let space = entry.space;
            let here = Here { space, n };
            let held = marks_at(alloc, &here, journal)?;
            let row = older.len() + 1;
            let left = with_ended(alloc, space, row, held.as_slice(), before.as_slice())?;
            with_begun(alloc, space, row, held.as_slice(), left)
        }
    }
}

/// The bars of a journal of so many spaces, the newest entry of which stands first, in the order in
/// which they begin. It passes the entries once, and each looks up what it touches. Only where a
/// space exported an object under another space's name, as in no run, it reads what was done again
/// and again.
pub fn bars(alloc: Global, n: u16, journal: &[Entry]) -> Result<Vec<Bar>, AllocError>
    ensures { IfOk result (λ bars. bars.items ≡ spec.bars n journal.now) }
{
    let pass = passed(alloc, n, journal)?;
    if pass.own {
        return Ok(pass.bars);
    }
    bars_read(alloc, n, journal)
}
