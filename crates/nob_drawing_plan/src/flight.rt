//! The arrows between the lifelines.

ghost use Rattle.std.specs.Prelude.{◌≡◌, ◌+◌, ◌<◌, ◌^◌, ◌++◌, length, IfOk, Some, filter, not};
ghost use Rattle.std.specs.List.{list_any};
ghost use Rattle.std.specs.Option.{option_map};
ghost use Rattle.nob_drawing_plan.specs.Bars.{row_after};
ghost use Rattle.nob_drawing_plan.specs.Flights as spec;

use nob_frame::Frame;
use nob_ids::SpaceId;
use nob_model_types::{Answer, Entry, Event, Refusal};
use nob_plain_traces::origins::frames_of;
use std::alloc::{AllocError, Global};

/// A frame that a Transmit gave.
#[derive(Debug, Drop)]
pub struct Departure {
    /// The frame.
    pub frame: Frame,
    /// The space that gave it.
    pub space: SpaceId,
    /// The row of the Transmit.
    pub row: usize,
    /// Its place among the frames that the Transmit gave, from 0.
    pub place: usize,
    /// Whether its item was given before.
    pub again: bool,
}

impl Departure {
    /// An equal departure. Only memory fails it.
    pub fn copy(&self) -> Result<Departure, AllocError>
        ensures { IfOk result (λ departure. departure ≡ self.now) }
    {
        Ok(Departure {
            frame: self.frame.copy()?,
            space: self.space,
            row: self.row,
            place: self.place,
            again: self.again,
        })
    }

    // Whether it is of this frame.
    fn is_of(&self, frame: &Frame) -> bool
        ensures { result ≡ spec.is_of frame.now self.now }
    {
        same_frame(frame, &self.frame)
    }
}

/// A frame from the Transmit that gave it to an Arrive of it.
#[derive(Debug, Drop)]
pub struct Arrow {
    /// The frame, and where it comes from.
    pub departure: Departure,
    /// The space at which it arrives.
    pub to: SpaceId,
    /// The row of the Arrive.
    pub row: usize,
    /// Whether it is refused, or accepts no item though it is no Ack: what it brings may be kept.
    pub took_nothing: bool,
}

/// An arrival of a frame that no Transmit before it gave.
#[derive(Debug, Drop)]
pub struct Stray {
    /// The frame.
    pub frame: Frame,
    /// The space at which it arrives.
    pub to: SpaceId,
    /// The row of the Arrive.
    pub row: usize,
}

/// The frames of a journal.
#[derive(Debug, Drop)]
pub struct Flown {
    /// Those that Transmits gave.
    pub departures: Vec<Departure>,
    /// An arrow for each that arrives, from the newest Transmit before it that gave it.
    pub arrows: Vec<Arrow>,
    /// Those that arrive and were given by none.
    pub strays: Vec<Stray>,
}

// Whether two frames are the same.
fn same_frame(frame: &Frame, other: &Frame) -> bool
    ensures { result ≡ spec.same_frame frame.now other.now }
{
    frame.kind.number() == other.kind.number()
        && (frame.from == other.from
            && (frame.to == other.to
                && (frame.session == other.session
                    && (frame.seq == other.seq
                        && (frame.ack == other.ack
                            && frame.payload.as_slice() == other.payload.as_slice())))))
}

// Whether a frame carries the item of another.
fn is_twin(frame: &Frame, other: &Frame) -> bool
    ensures { result ≡ spec.is_twin frame.now other.now }
{
    frame.kind.is_data()
        && other.kind.is_data()
        && frame.from == other.from
        && frame.to == other.to
        && frame.session == other.session
        && frame.seq == other.seq
}

// Whether the item of a frame was given before.
fn is_again(frame: &Frame, departures: &[Departure]) -> bool
    ensures { result ≡ spec.is_again frame.now departures.now }
{
    departures
        .iter()
        .any(|departure| is_twin(frame, &departure.frame))
}

// Departures with those of these frames, the first of which is at this place of a Transmit that a
// space does at a row.
fn with_departures(
    space: SpaceId,
    row: usize,
    place: usize,
    frames: &[Frame],
    mut departures: Vec<Departure>,
) -> Result<Vec<Departure>, AllocError>
    requires { place + length frames.now < 2 ^ 64 }
    ensures { IfOk result (λ all. all.items
        ≡ spec.with_departures space row place frames.now departures.items) }
{
    match frames {
        [] => Ok(departures),
        [frame, others @ ..] => {
            let again = is_again(frame, departures.as_slice());
            let frame = frame.copy()?;
            departures.push(Departure {
                frame,
                space,
                row,
                place,
                again,
            })?;
            with_departures(space, row, place + 1, others, departures)
        }
    }
}

// The newest departure of a frame.
fn last_of<'a>(frame: &Frame, departures: &'a [Departure]) -> Option<&'a Departure>
    ensures { option_map (λ departure. departure.now) result
        ≡ spec.last_of frame.now departures.now }
{
    for back in 0..departures.len() {
        let departure = &departures[departures.len() - 1 - back];
        if departure.is_of(frame) {
            return Some(departure);
        }
    }
    None
}

// Whether an arrival takes nothing.
fn takes_nothing(frame: &Frame, answer: &Result<Answer, Refusal>) -> bool
    ensures { result ≡ spec.takes_nothing frame.now answer.now }
{
    match answer {
        Err(_) => true,
        Ok(answer) => match answer {
            Answer::Took(count) => *count == 0 && !frame.kind.is_ack(),
            _ => false,
        },
    }
}

// Arrows, and arrivals without an origin, with that of an entry at a row, if it is an arrival.
fn with_arrival(
    entry: &Entry,
    row: usize,
    departures: &[Departure],
    mut arrows: Vec<Arrow>,
    mut strays: Vec<Stray>,
) -> Result<(Vec<Arrow>, Vec<Stray>), AllocError>
    ensures arrows { IfOk result (λ all. all.0.items ≡ arrows.items
        ++ spec.arrow_of entry.now.space row entry.now.event entry.now.result departures.now) }
    ensures strays { IfOk result (λ all. all.1.items ≡ strays.items
        ++ spec.stray_of entry.now.space row entry.now.event departures.now) }
{
    let Event::Arrive(frame) = &entry.event else {
        return Ok((arrows, strays));
    };
    match last_of(frame, departures) {
        Some(departure) => {
            arrows.push(Arrow {
                departure: departure.copy()?,
                to: entry.space,
                row,
                took_nothing: takes_nothing(frame, &entry.result),
            })?;
            Ok((arrows, strays))
        }
        None => {
            strays.push(Stray {
                frame: frame.copy()?,
                to: entry.space,
                row,
            })?;
            Ok((arrows, strays))
        }
    }
}

/// The frames of a journal: those that its Transmits gave, an arrow for each Arrive from the newest
/// Transmit before it that gave its frame, and the Arrives of which none did. The newest entry
/// stands first, rows count from the oldest. At each arrival all frames that were given are looked
/// through.
pub fn flights(alloc: Global, journal: &[Entry]) -> Result<Flown, AllocError>
    ensures departures { IfOk result (λ found. found.departures.items
        ≡ spec.departures journal.now) }
    ensures arrows { IfOk result (λ found. found.arrows.items ≡ spec.arrows journal.now) }
    ensures strays { IfOk result (λ found. found.strays.items ≡ spec.strays journal.now) }
{
    let mut departures = Vec::new(alloc);
    let mut arrows = Vec::new(alloc);
    let mut strays = Vec::new(alloc);
    for passed in 0..journal.len() {
        let entry = &journal[journal.len() - 1 - passed];
        let row = passed + 1;
        let (more, others) = with_arrival(entry, row, departures.as_slice(), arrows, strays)?;
        arrows = more;
        strays = others;
        departures = with_departures(entry.space, row, 0, frames_of(entry), departures)?;
    }
    Ok(Flown {
        departures,
        arrows,
        strays,
    })
}

// Whether an arrow is of a departure.
fn comes_from(departure: &Departure, arrow: &Arrow) -> bool
    ensures { result ≡ spec.comes_from departure.now arrow.now }
{
    departure.row == arrow.departure.row && same_frame(&departure.frame, &arrow.departure.frame)
}

// Whether one of these arrows is of a departure.
fn arrives(departure: &Departure, arrows: &[Arrow]) -> bool
    ensures { result ≡ list_any (spec.comes_from departure.now) arrows.now }
{
    arrows.iter().any(|arrow| comes_from(departure, arrow))
}

/// The departures from which none of these arrows comes. It compares each with all arrows.
pub fn lost(
    alloc: Global,
    arrows: &[Arrow],
    departures: &[Departure],
) -> Result<Vec<Departure>, AllocError>
    ensures { IfOk result (λ found. found.items ≡ spec.lost arrows.now departures.now) }
{
    let mut found = Vec::new(alloc);
    for departure in departures {
        if !arrives(departure, arrows) {
            found.push(departure.copy()?)?;
        }
    }
    Ok(found)
}
