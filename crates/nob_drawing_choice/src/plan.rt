//! What of the plan of a run is drawn, at its places.

ghost use Rattle.std.specs.Prelude.{◌≡◌, ◌-◌, IfOk, filter, filter_map, slice_get};
ghost use Rattle.nob_drawing_choice.specs.Plans as spec;

use crate::choice::{Choice, is_of_space, is_subject};
use crate::choosing::places;
use crate::lives::{lives_of, subject_of};
use crate::names::Names;
use nob_drawing_plan::{Arrow, Bar, Departure, Stray, bars, flights, lost};
use nob_model_types::Entry;
use std::alloc::{AllocError, Global};

/// What is drawn of a run. The rows of bars, arrows and frames in it are their places among the
/// rows that are drawn.
#[derive(Debug, Drop)]
pub struct Plan {
    /// The references of whose lives each row of the run is part: those that its entry names, and
    /// those whose bars begin or end there.
    pub lives: Vec<Names>,
    /// The place of each row of the run among those that are drawn, from 1; none of a row that
    /// isn't.
    pub places: Vec<Option<usize>>,
    /// The bars of what is asked for.
    pub bars: Vec<Bar>,
    /// The arrows both of whose rows are drawn.
    pub arrows: Vec<Arrow>,
    /// The frames that never arrive.
    pub lost: Vec<Departure>,
    /// The arrivals that have no origin.
    pub strays: Vec<Stray>,
}

/// The place of a row, if it is drawn.
pub fn place_of(all: &[Option<usize>], row: usize) -> Option<usize>
    ensures { result ≡ spec.place_of all.now row }
{
    match all.get(row.saturating_sub(1)) {
        Some(place) => *place,
        None => None,
    }
}

// A departure at its place, if its row is drawn.
fn departure_at(
    departure: &Departure,
    place: Option<usize>,
) -> Result<Option<Departure>, AllocError>
    ensures { IfOk result (λ found. found ≡ spec.departure_at departure.now place) }
{
    let Some(row) = place else {
        return Ok(None);
    };
    Ok(Some(Departure {
        frame: departure.frame.copy()?,
        space: departure.space,
        row,
        place: departure.place,
        again: departure.again,
    }))
}

// The departures whose rows are drawn.
fn departures_drawn(
    alloc: Global,
    all: &[Option<usize>],
    departures: &[Departure],
) -> Result<Vec<Departure>, AllocError>
    ensures { IfOk result (λ found. found.items ≡ spec.departures_drawn all.now departures.now) }
{
    let mut found = Vec::new(alloc);
    for departure in departures {
        if let Some(drawn) = departure_at(departure, place_of(all, departure.row))? {
            found.push(drawn)?;
        }
    }
    Ok(found)
}

// An arrow with both its ends at their places, if both are drawn.
fn arrow_at(all: &[Option<usize>], arrow: &Arrow) -> Result<Option<Arrow>, AllocError>
    ensures { IfOk result (λ found. found ≡ spec.arrow_at all.now arrow.now) }
{
    let Some(row) = place_of(all, arrow.row) else {
        return Ok(None);
    };
    match departure_at(&arrow.departure, place_of(all, arrow.departure.row))? {
        Some(departure) => Ok(Some(Arrow {
            departure,
            to: arrow.to,
            row,
            took_nothing: arrow.took_nothing,
        })),
        None => Ok(None),
    }
}

// The arrows both of whose rows are drawn.
fn arrows_drawn(
    alloc: Global,
    all: &[Option<usize>],
    arrows: &[Arrow],
) -> Result<Vec<Arrow>, AllocError>
    ensures { IfOk result (λ found. found.items ≡ spec.arrows_drawn all.now arrows.now) }
{
    let mut found = Vec::new(alloc);
    for arrow in arrows {
        if let Some(drawn) = arrow_at(all, arrow)? {
            found.push(drawn)?;
        }
    }
    Ok(found)
}

// An arrival without an origin at its place, if it is drawn.
fn stray_at(stray: &Stray, place: Option<usize>) -> Result<Option<Stray>, AllocError>
    ensures { IfOk result (λ found. found ≡ spec.stray_at stray.now place) }
{
    let Some(row) = place else {
        return Ok(None);
    };
    Ok(Some(Stray {
        frame: stray.frame.copy()?,
        to: stray.to,
        row,
    }))
}

// Those whose rows are drawn.
fn strays_drawn(
    alloc: Global,
    all: &[Option<usize>],
    strays: &[Stray],
) -> Result<Vec<Stray>, AllocError>
    ensures { IfOk result (λ found. found.items ≡ spec.strays_drawn all.now strays.now) }
{
    let mut found = Vec::new(alloc);
    for stray in strays {
        if let Some(drawn) = stray_at(stray, place_of(all, stray.row))? {
            found.push(drawn)?;
        }
    }
    Ok(found)
}

// Whether a bar is of a space and a reference that are asked for.
fn is_own(choice: &Choice, bar: &Bar) -> bool
    ensures { result ≡ spec.is_own choice.now bar.now }
{
    is_of_space(choice, bar.space.get()) && is_subject(choice, subject_of(bar.mark))
}

// A bar from one place to another.
fn bar_between(bar: &Bar, start: usize, end: Option<usize>) -> Bar
    ensures { result ≡ spec.bar_between bar.now start end }
{
    Bar {
        space: bar.space,
        mark: bar.mark,
        lane: bar.lane,
        start,
        end,
    }
}

// A bar that begins at a place, if the row is drawn at which it ends.
fn bar_up_to(all: &[Option<usize>], bar: &Bar, start: usize) -> Option<Bar>
    ensures { result ≡ spec.bar_up_to all.now bar.now start bar.now.end }
{
    match bar.end {
        None => Some(bar_between(bar, start, None)),
        Some(row) => {
            let end = place_of(all, row);
            if end.is_none() {
                return None;
            }
            Some(bar_between(bar, start, end))
        }
    }
}

// A bar at its places, if the rows are drawn at which it begins and ends.
fn bar_at(all: &[Option<usize>], bar: &Bar) -> Option<Bar>
    ensures { result ≡ spec.bar_at all.now bar.now }
{
    match place_of(all, bar.start) {
        None => None,
        Some(start) => bar_up_to(all, bar, start),
    }
}

// A bar at its places, if it is asked for and the rows are drawn at which it begins and ends.
fn bar_drawn(choice: &Choice, all: &[Option<usize>], bar: &Bar) -> Option<Bar>
    ensures { result ≡ spec.bar_drawn choice.now all.now bar.now }
{
    if !is_own(choice, bar) {
        return None;
    }
    bar_at(all, bar)
}

// The bars of what is asked for.
fn bars_drawn(
    alloc: Global,
    choice: &Choice,
    all: &[Option<usize>],
    bars: &[Bar],
) -> Result<Vec<Bar>, AllocError>
    ensures { IfOk result (λ found. found.items ≡ spec.bars_drawn choice.now all.now bars.now) }
{
    let mut found = Vec::new(alloc);
    for bar in bars {
        if let Some(drawn) = bar_drawn(choice, all, bar) {
            found.push(drawn)?;
        }
    }
    Ok(found)
}

/// What is drawn of a journal of so many spaces, the newest entry of which stands first, where the
/// entry at a row is wrong. It costs what the plan costs, and then a step for each part of it and
/// for each reference that an entry names.
pub fn plan_of(
    alloc: Global,
    n: u16,
    choice: &Choice,
    fault: Option<usize>,
    journal: &[Entry],
) -> Result<Plan, AllocError>
    ensures lives { IfOk result (λ plan. plan.lives.items ≡ spec.lives_in n journal.now) }
    ensures places { IfOk result (λ plan. plan.places.items
        ≡ spec.places_in n choice.now fault journal.now) }
    ensures bars { IfOk result (λ plan. plan.bars.items
        ≡ spec.bars_in n choice.now fault journal.now) }
    ensures arrows { IfOk result (λ plan. plan.arrows.items
        ≡ spec.arrows_in n choice.now fault journal.now) }
    ensures lost { IfOk result (λ plan. plan.lost.items
        ≡ spec.lost_in n choice.now fault journal.now) }
    ensures strays { IfOk result (λ plan. plan.strays.items
        ≡ spec.strays_in n choice.now fault journal.now) }
{
    let held = bars(alloc, n, journal)?;
    let lives = lives_of(alloc, held.as_slice(), journal)?;
    let places = places(alloc, choice, fault, lives.as_slice(), journal)?;
    let flown = flights(alloc, journal)?;
    let all = places.as_slice();
    let losses = lost(alloc, flown.arrows.as_slice(), flown.departures.as_slice())?;
    let bars = bars_drawn(alloc, choice, all, held.as_slice())?;
    let arrows = arrows_drawn(alloc, all, flown.arrows.as_slice())?;
    let lost = departures_drawn(alloc, all, losses.as_slice())?;
    let strays = strays_drawn(alloc, all, flown.strays.as_slice())?;
    Ok(Plan {
        lives,
        places,
        bars,
        arrows,
        lost,
        strays,
    })
}

/// How many of the first so many rows are drawn.
pub fn count_drawn(number: usize, all: &[Option<usize>]) -> usize
    ensures { result ≡ spec.count_drawn number all.now }
{
    all.iter()
        .take(number)
        .filter(|place| place.is_some())
        .count()
}
