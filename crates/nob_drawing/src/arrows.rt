//! Arrows.

ghost use Rattle.std.specs.Prelude.{◌≡◌, ◌^◌, ◌<◌, ◌≤◌, IfOk};
ghost use Rattle.nob_drawing.specs.Layout as spec;

use crate::frame_labels::frame_label;
use crate::labels::cut_bytes;
use crate::page::Page;
use crate::places::{is_seen, is_shown, x_of, y_of};
use crate::{Point, Shape, Style};
use nob_bytes::Bytes;
use nob_drawing_plan::Arrow;
use nob_ids::SpaceId;
use std::alloc::{AllocError, Global};

// How an arrow is drawn.
fn arrow_style(again: bool, took_nothing: bool) -> Style
    ensures { result ≡ spec.arrow_style again took_nothing }
{
    match (again, took_nothing) {
        (false, false) => Style::Sent,
        (true, false) => Style::Again,
        (false, true) => Style::TookNothing,
        (true, true) => Style::TookNothingAgain,
    }
}

// How an arrow is drawn of which a part is shown.
fn part_style(took_nothing: bool) -> Style
    ensures { result ≡ spec.part_style took_nothing }
{
    if took_nothing {
        return Style::PartTookNothing;
    }
    Style::Part
}

// How an arrow is drawn whose head isn't shown.
fn open_style(took_nothing: bool) -> Style
    ensures { result ≡ spec.open_style took_nothing }
{
    if took_nothing {
        return Style::OpenTookNothing;
    }
    Style::Open
}

// How the line of an arrow looks.
fn line_style(page: &Page, arrow: &Arrow) -> Style
    ensures { result ≡ spec.line_style page.now arrow.now }
{
    if !is_shown(page, arrow.row) {
        return open_style(arrow.took_nothing);
    }
    if !is_shown(page, arrow.departure.row) {
        return part_style(arrow.took_nothing);
    }
    arrow_style(arrow.departure.again, arrow.took_nothing)
}

// How far to the right a line is that goes from one place to another in so many rows, once it has
// passed some of them.
fn slanted(start: u128, end: u128, passed: u128, rows: u128) -> u128
    requires across { (start < 2 ^ 14) × (end < 2 ^ 14) }
    requires down { (passed ≤ 2 ^ 65) × (1 ≤ rows) }
    ensures { result ≡ spec.slanted start end passed rows }
{
    if start <= end {
        return start + (end - start) * passed / rows;
    }
    start.saturating_sub((start - end) * passed / rows)
}

// The point of an arrow at a row.
fn point_of(page: &Page, arrow: &Arrow, row: u128) -> Point
    requires { row ≤ 2 ^ 65 }
    ensures { result ≡ spec.point_of page.now arrow.now row }
{
    let from = arrow.departure.row as u128;
    let rows = (arrow.row as u128).saturating_sub(from).max(1);
    let start = x_of(arrow.departure.space);
    Point {
        x: slanted(start, x_of(arrow.to), row.saturating_sub(from), rows),
        y: y_of(page, row),
    }
}

// The line of an arrow.
fn arrow_line(page: &Page, arrow: &Arrow) -> Shape
    ensures { result ≡ spec.arrow_line page.now arrow.now }
{
    let first = (arrow.departure.row as u128).max((page.from as u128).saturating_sub(1));
    let last = (arrow.row as u128).min(page.to as u128 + 1);
    Shape::Line(
        line_style(page, arrow),
        point_of(page, arrow, first),
        point_of(page, arrow, last),
    )
}

// Whether an arrow is seen.
fn is_arrow_seen(page: &Page, arrow: &Arrow) -> bool
    ensures { result ≡ spec.is_arrow_seen page.now arrow.now }
{
    is_seen(page, arrow.departure.row as u128, arrow.row as u128)
}

// The lines of the arrows that are seen.
pub(crate) fn arrows_lines(
    alloc: Global,
    page: &Page,
    arrows: &[Arrow],
) -> Result<Vec<Shape>, AllocError>
    ensures { IfOk result (λ shapes. shapes.items ≡ spec.arrows_lines page.now arrows.now) }
{
    let mut shapes = Vec::new(alloc);
    for arrow in arrows {
        if is_arrow_seen(page, arrow) {
            shapes.push(arrow_line(page, arrow))?;
        }
    }
    Ok(shapes)
}

// The words at the head of what arrives on a side.
fn side_words(page: &Page, is_left: bool, to: SpaceId, row: usize, words: Bytes) -> Shape
    ensures { result ≡ spec.side_words page.now is_left to row words }
{
    let x = x_of(to);
    let y = y_of(page, row as u128) + 11;
    if is_left {
        return Shape::Text(Style::Before, Point { x: x - 10, y }, words);
    }
    Shape::Text(Style::Behind, Point { x: x + 50, y }, words)
}

// The words of an arrow.
fn head_words(alloc: Global, page: &Page, arrow: &Arrow) -> Result<Shape, AllocError>
    ensures { IfOk result (λ shape. shape ≡ spec.head_words page.now arrow.now) }
{
    let words = cut_bytes(alloc, 32, frame_label(alloc, &arrow.departure.frame)?)?;
    let is_left = arrow.departure.space.get() < arrow.to.get();
    Ok(side_words(page, is_left, arrow.to, arrow.row, words))
}

// The words of the arrows whose heads are shown.
pub(crate) fn arrows_words(
    alloc: Global,
    page: &Page,
    arrows: &[Arrow],
) -> Result<Vec<Shape>, AllocError>
    ensures { IfOk result (λ shapes. shapes.items ≡ spec.arrows_words page.now arrows.now) }
{
    let mut shapes = Vec::new(alloc);
    for arrow in arrows {
        if is_shown(page, arrow.row) {
            shapes.push(head_words(alloc, page, arrow)?)?;
        }
    }
    Ok(shapes)
}
