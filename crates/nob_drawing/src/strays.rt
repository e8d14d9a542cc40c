//! Frames that arrive and were given by nobody.

ghost use Rattle.std.specs.Prelude.{◌≡◌, ◌++◌, ◌^◌, ◌<◌, ◌≤◌, IfOk, codes, flat_map};
ghost use Rattle.nob_drawing.specs.Words.{cut, frame_label as label_of};
ghost use Rattle.nob_drawing.specs.Layout as spec;

use crate::frame_labels::frame_label;
use crate::labels::cut_bytes;
use crate::losses::end_words;
use crate::page::Page;
use crate::places::{is_shown, point_at, x_of, y_of};
use crate::{Point, Shape, Style};
use nob_bytes::Bytes;
use nob_drawing_plan::Stray;
use nob_frame::Frame;
use std::alloc::{AllocError, Global};

// Whether it says that it is from the left.
fn is_from_left(stray: &Stray) -> bool
    ensures { result ≡ spec.is_from_left stray.now }
{
    stray.frame.from.get() < stray.to.get()
}

// How far to the right it begins.
fn stray_x(left: bool, x: u128) -> u128
    requires { (500 ≤ x) × (x < 2 ^ 14) }
    ensures place { result ≡ spec.stray_x left x }
    ensures bound { (140 ≤ result) × (result < 2 ^ 15) }
{
    if left {
        return x - 40;
    }
    x + 40
}

// Where it begins.
fn stray_start(page: &Page, stray: &Stray) -> Point
    ensures place { result ≡ spec.stray_start page.now stray.now }
    ensures across { (140 ≤ result.x) × (result.x < 2 ^ 15) }
    ensures down { (120 ≤ result.y) × (result.y < 2 ^ 70) }
{
    let y = y_of(page, stray.row as u128);
    let x = stray_x(is_from_left(stray), x_of(stray.to));
    Point { x, y }
}

// A little below it, where its words stand.
fn below(at: Point) -> Point
    requires across { (140 ≤ at.x) × (at.x < 2 ^ 15) }
    requires down { at.y < 2 ^ 70 }
    ensures place { result ≡ spec.below at }
    ensures across { (140 ≤ result.x) × (result.x < 2 ^ 15) }
    ensures down { result.y < 2 ^ 71 }
{
    Point {
        x: at.x,
        y: at.y + 5,
    }
}

// The mark there.
fn void_mark(at: Point) -> Shape
    requires { (120 ≤ at.y) × (at.y < 2 ^ 70) }
    ensures { result ≡ spec.void_mark at }
{
    Shape::Line(
        Style::Void,
        Point {
            x: at.x,
            y: at.y - 5,
        },
        Point {
            x: at.x,
            y: at.y + 5,
        },
    )
}

// What it is.
fn stray_label(alloc: Global, frame: &Frame) -> Result<Bytes, AllocError>
    ensures { IfOk result (λ label. label
        ≡ cut 24 (codes "from nowhere: " ++ label_of frame.now)) }
{
    let words = frame_label(alloc, frame)?;
    let mut all = b"from nowhere: ".as_slice().to_vec(alloc)?;
    all.extend_from_slice(words.as_slice())?;
    cut_bytes(alloc, 24, all)
}

// One that arrives, where it is shown.
fn stray_shapes(alloc: Global, page: &Page, stray: &Stray) -> Result<Vec<Shape>, AllocError>
    ensures { IfOk result (λ shapes. shapes.items ≡ spec.stray_shapes page.now stray.now) }
{
    let mut shapes = Vec::new(alloc);
    if !is_shown(page, stray.row) {
        return Ok(shapes);
    }
    let start = stray_start(page, stray);
    let end = point_at(page, stray.to, stray.row as u128);
    let label = stray_label(alloc, &stray.frame)?;
    shapes.push(Shape::Line(Style::Stray, start, end))?;
    shapes.push(void_mark(start))?;
    shapes.push(end_words(!is_from_left(stray), below(start), label))?;
    Ok(shapes)
}

// Those that arrive, where they are shown.
pub(crate) fn strays_shapes(
    alloc: Global,
    page: &Page,
    strays: &[Stray],
) -> Result<Vec<Shape>, AllocError>
    ensures { IfOk result (λ shapes. shapes.items
        ≡ flat_map (spec.stray_shapes page.now) strays.now) }
{
    let mut shapes = Vec::new(alloc);
    for stray in strays {
        let mut more = stray_shapes(alloc, page, stray)?;
        shapes.append(&mut more)?;
    }
    Ok(shapes)
}
