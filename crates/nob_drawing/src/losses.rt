//! Frames that are lost.

ghost use Rattle.std.specs.Prelude.{◌≡◌, ◌^◌, ◌<◌, ◌≤◌, IfOk, flat_map};
ghost use Rattle.nob_drawing.specs.Layout as spec;

use crate::frame_labels::frame_label;
use crate::labels::cut_bytes;
use crate::page::Page;
use crate::places::{is_shown, point_at, x_of, y_of};
use crate::{Point, Shape, Style};
use nob_bytes::Bytes;
use nob_drawing_plan::Departure;
use std::alloc::{AllocError, Global};

// How a lost frame is drawn.
fn lost_style(again: bool) -> Style
    ensures { result ≡ spec.lost_style again }
{
    if again {
        return Style::LostAgain;
    }
    Style::Lost
}

// Whether a lost frame goes to the right.
fn goes_right(departure: &Departure) -> bool
    ensures { result ≡ spec.goes_right departure.now }
{
    departure.space.get() < departure.frame.to.get()
}

// How much farther a lost frame of this place reaches than the first one of its Transmit.
fn lost_more(place: usize) -> u128
    ensures more { result ≡ spec.lost_more place }
    ensures bound { result ≤ 316 }
{
    let beyond = (place as u128).saturating_sub(2).min(8);
    110 * (place as u128).min(2) + 12 * beyond
}

// How far to the right a lost frame ends.
fn lost_x(right: bool, x: u128, more: u128) -> u128
    requires { (500 ≤ x) × (x < 2 ^ 14) × (more ≤ 316) }
    ensures place { result ≡ spec.lost_x right x more }
    ensures bound { (140 ≤ result) × (result < 2 ^ 15) }
{
    if right {
        return x + (40 + more);
    }
    x - (40 + more)
}

// Where a lost frame ends.
fn lost_end(page: &Page, departure: &Departure) -> Point
    ensures place { result ≡ spec.lost_end page.now departure.now }
    ensures across { (140 ≤ result.x) × (result.x < 2 ^ 15) }
    ensures down { (8 ≤ result.y) × (result.y < 2 ^ 71) }
{
    let more = lost_more(departure.place);
    let x = lost_x(goes_right(departure), x_of(departure.space), more);
    Point {
        x,
        y: y_of(page, departure.row as u128) + 5,
    }
}

// A little way in front of an end, from where it comes.
fn near_end(right: bool, end: Point) -> Point
    requires { (140 ≤ end.x) × (end.x < 2 ^ 15) }
    ensures { result ≡ spec.near_end right end }
{
    if right {
        return Point {
            x: end.x - 8,
            y: end.y,
        };
    }
    Point {
        x: end.x + 8,
        y: end.y,
    }
}

// Where a lost frame begins.
fn lost_start(page: &Page, departure: &Departure) -> Point
    ensures { result ≡ spec.lost_start page.now departure.now }
{
    if departure.place == 0 {
        return point_at(page, departure.space, departure.row as u128);
    }
    near_end(goes_right(departure), lost_end(page, departure))
}

// Words that go on from a point, to the right or to the left.
pub(crate) fn end_words(right: bool, end: Point, words: Bytes) -> Shape
    requires across { (140 ≤ end.x) × (end.x < 2 ^ 15) }
    requires down { end.y < 2 ^ 71 }
    ensures { result ≡ spec.end_words right end words }
{
    let y = end.y + 4;
    if right {
        return Shape::Text(Style::Behind, Point { x: end.x + 8, y }, words);
    }
    Shape::Text(Style::Before, Point { x: end.x - 8, y }, words)
}

// One line of a cross: from above.
fn falling(at: Point) -> Shape
    requires across { (4 ≤ at.x) × (at.x < 2 ^ 15) }
    requires down { (4 ≤ at.y) × (at.y < 2 ^ 71) }
    ensures { result ≡ spec.falling at }
{
    Shape::Line(
        Style::Cross,
        Point {
            x: at.x - 4,
            y: at.y - 4,
        },
        Point {
            x: at.x + 4,
            y: at.y + 4,
        },
    )
}

// The other one: from below.
fn rising(at: Point) -> Shape
    requires across { (4 ≤ at.x) × (at.x < 2 ^ 15) }
    requires down { (4 ≤ at.y) × (at.y < 2 ^ 71) }
    ensures { result ≡ spec.rising at }
{
    Shape::Line(
        Style::Cross,
        Point {
            x: at.x - 4,
            y: at.y + 4,
        },
        Point {
            x: at.x + 4,
            y: at.y - 4,
        },
    )
}

// The line of a lost frame.
fn lost_line(page: &Page, departure: &Departure) -> Shape
    ensures { result ≡ spec.lost_line page.now departure.now }
{
    Shape::Line(
        lost_style(departure.again),
        lost_start(page, departure),
        lost_end(page, departure),
    )
}

// The words at it, where it is one of the first two.
fn lost_words(alloc: Global, page: &Page, departure: &Departure) -> Result<Vec<Shape>, AllocError>
    ensures { IfOk result (λ shapes. shapes.items ≡ spec.lost_words page.now departure.now) }
{
    let mut shapes = Vec::new(alloc);
    if departure.place >= 2 {
        return Ok(shapes);
    }
    let words = cut_bytes(alloc, 12, frame_label(alloc, &departure.frame)?)?;
    let end = lost_end(page, departure);
    shapes.push(end_words(goes_right(departure), end, words))?;
    Ok(shapes)
}

// A lost frame, where it is shown.
fn lost_shapes(alloc: Global, page: &Page, departure: &Departure) -> Result<Vec<Shape>, AllocError>
    ensures { IfOk result (λ shapes. shapes.items ≡ spec.lost_shapes page.now departure.now) }
{
    let mut shapes = Vec::new(alloc);
    if !is_shown(page, departure.row) {
        return Ok(shapes);
    }
    let end = lost_end(page, departure);
    let mut words = lost_words(alloc, page, departure)?;
    shapes.push(lost_line(page, departure))?;
    shapes.push(falling(end))?;
    shapes.push(rising(end))?;
    shapes.append(&mut words)?;
    Ok(shapes)
}

// Lost frames, where they are shown.
pub(crate) fn losses_shapes(
    alloc: Global,
    page: &Page,
    departures: &[Departure],
) -> Result<Vec<Shape>, AllocError>
    ensures { IfOk result (λ shapes. shapes.items
        ≡ flat_map (spec.lost_shapes page.now) departures.now) }
{
    let mut shapes = Vec::new(alloc);
    for departure in departures {
        let mut more = lost_shapes(alloc, page, departure)?;
        shapes.append(&mut more)?;
    }
    Ok(shapes)
}
