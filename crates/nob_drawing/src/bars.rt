//! Bars.

ghost use Rattle.std.specs.Prelude.{◌≡◌, ◌<◌, ◌^◌, IfOk, flat_map};
ghost use Rattle.nob_drawing.specs.Layout as spec;

use crate::captions::{mark_rep, mark_words};
use crate::labels::label;
use crate::page::Page;
use crate::places::{is_seen, x_of, y_of};
use crate::{Point, Shape, Style};
use nob_bytes::Bytes;
use nob_drawing_plan::{Bar, Mark};
use std::alloc::{AllocError, Global};

// How a bar is drawn.
fn mark_style(mark: Mark) -> Style
    ensures { result ≡ spec.mark_style mark }
{
    match mark {
        Mark::Live(_) => Style::Live,
        Mark::Listed(_, _) => Style::Listed,
        Mark::Pinned(_, _, _, _) => Style::Pinned,
    }
}

// The row at which a bar ends.
fn end_of(page: &Page, end: Option<usize>) -> u128
    ensures { result ≡ spec.end_of page.now end }
{
    match end {
        Some(row) => row as u128,
        None => page.to as u128 + 1,
    }
}

// How far to the right a bar stands.
fn bar_x(bar: &Bar) -> u128
    ensures place { result ≡ spec.bar_x bar.now }
    ensures bound { result < 2 ^ 70 }
{
    x_of(bar.space) + 8 + 11 * bar.lane as u128
}

// How high a bar is.
fn bar_height(page: &Page, bar: &Bar) -> u128
    ensures height { result ≡ spec.bar_height page.now bar.now }
    ensures bound { result < 2 ^ 70 }
{
    y_of(page, end_of(page, bar.end)).saturating_sub(y_of(page, bar.start as u128))
}

// The box of a bar.
fn bar_box(alloc: Global, page: &Page, bar: &Bar) -> Result<Shape, AllocError>
    ensures { IfOk result (λ shape. shape ≡ spec.bar_box page.now bar.now) }
{
    let corner = Point {
        x: bar_x(bar),
        y: y_of(page, bar.start as u128),
    };
    let words = label(mark_words(alloc, bar.mark)?);
    let height = bar_height(page, bar);
    Ok(Shape::Titled(mark_style(bar.mark), corner, 9, height, words))
}

// How much room words take in a bar.
fn room_of(words: &[u8]) -> u128
    ensures room { result ≡ spec.room_of words.now }
    ensures bound { result < 2 ^ 70 }
{
    5 * words.len() as u128 + 6
}

// The words in a bar so high.
fn words_within(alloc: Global, height: u128, mark: Mark) -> Result<Vec<u8>, AllocError>
    ensures { IfOk result (λ words. words.items ≡ spec.words_within height mark) }
{
    let words = mark_words(alloc, mark)?.into_bytes();
    if room_of(words.as_slice()) <= height {
        return Ok(words);
    }
    Ok(mark_rep(alloc, mark)?.into_bytes())
}

// How often words stand in a bar so high.
fn times_within(height: u128, words: &[u8]) -> u128
    requires { height < 2 ^ 70 }
    ensures times { result ≡ spec.times_within height words.now }
    ensures bound { result < 2 ^ 70 }
{
    let room = room_of(words);
    if room > height {
        return 0;
    }
    (height - room) / 640 + 1
}

// Words in a bar so many screenfuls below its beginning.
fn bar_label(
    alloc: Global,
    page: &Page,
    bar: &Bar,
    words: &[u8],
    below: u128,
) -> Result<Shape, AllocError>
    requires { below < 2 ^ 70 }
    ensures { IfOk result (λ shape. shape ≡ spec.bar_label page.now bar.now words.now below) }
{
    let at = Point {
        x: bar_x(bar) + 2,
        y: y_of(page, bar.start as u128) + 3 + 640 * below,
    };
    Ok(Shape::Turned(Style::Held, at, Bytes::from_slice(alloc, words)?))
}

// The words in a bar so often.
fn bar_labels(
    alloc: Global,
    page: &Page,
    bar: &Bar,
    words: &[u8],
    times: u128,
) -> Result<Vec<Shape>, AllocError>
    requires { times < 2 ^ 70 }
    ensures { IfOk result (λ shapes. shapes.items
        ≡ spec.bar_labels page.now bar.now words.now times) }
{
    let mut shapes = Vec::new(alloc);
    for below in 0..times {
        shapes.push(bar_label(alloc, page, bar, words, below)?)?;
    }
    Ok(shapes)
}

// A bar, where it is seen.
fn bar_shapes(alloc: Global, page: &Page, bar: &Bar) -> Result<Vec<Shape>, AllocError>
    ensures { IfOk result (λ shapes. shapes.items ≡ spec.bar_shapes page.now bar.now) }
{
    let mut shapes = Vec::new(alloc);
    if !is_seen(page, bar.start as u128, end_of(page, bar.end)) {
        return Ok(shapes);
    }
    shapes.push(bar_box(alloc, page, bar)?)?;
    let height = bar_height(page, bar);
    let words = words_within(alloc, height, bar.mark)?;
    let times = times_within(height, words.as_slice());
    let mut labels = bar_labels(alloc, page, bar, words.as_slice(), times)?;
    shapes.append(&mut labels)?;
    Ok(shapes)
}

// Bars, where they are seen.
pub(crate) fn bars_shapes(
    alloc: Global,
    page: &Page,
    bars: &[Bar],
) -> Result<Vec<Shape>, AllocError>
    ensures { IfOk result (λ shapes. shapes.items ≡ flat_map (spec.bar_shapes page.now) bars.now) }
{
    let mut shapes = Vec::new(alloc);
    for bar in bars {
        let mut more = bar_shapes(alloc, page, bar)?;
        shapes.append(&mut more)?;
    }
    Ok(shapes)
}
