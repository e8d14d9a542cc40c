//! Lifelines, and the entries on them.

ghost use Rattle.std.specs.Prelude.{◌≡◌, ◌<◌, ◌+◌, ◌^◌, ◌++◌, IfOk};
ghost use Rattle.std.specs.String.{string_bytes};
ghost use Rattle.nob_drawing.specs.Layout as spec;

use crate::captions::{entry_words, lives_words};
use crate::glosses::entry_gloss;
use crate::labels::{cut_bytes, cut_label, label, number_label};
use crate::page::Page;
use crate::places::{bottom_of, column, is_shown, point_at, x_of, y_of};
use crate::{Point, Shape, Style};
use nob_bytes::Bytes;
use nob_drawing_choice::{Names, names_at, place_of};
use nob_ids::WireRep;
use nob_model_types::{Answer, Entry, Refusal};
use std::alloc::{AllocError, Global};

// The name of a space.
fn lifeline_name(alloc: Global, space: u32) -> Result<Shape, AllocError>
    ensures { IfOk result (λ shape. shape ≡ spec.lifeline_name space) }
{
    let text = format!(in alloc; "space {space}")?;
    let at = Point {
        x: column(space),
        y: 102,
    };
    Ok(Shape::Text(Style::Name, at, label(text)))
}

// The lifeline of a space.
fn lifeline(page: &Page, space: u32) -> Shape
    ensures { result ≡ spec.lifeline page.now space }
{
    let x = column(space);
    let top = Point { x, y: 112 };
    let bottom = Point {
        x,
        y: bottom_of(page),
    };
    Shape::Line(Style::Life, top, bottom)
}

// The lifelines with their names of so many spaces, from this one on.
pub(crate) fn lifelines_from(
    alloc: Global,
    page: &Page,
    space: u32,
    count: u32,
) -> Result<Vec<Shape>, AllocError>
    requires { space + count < 2 ^ 32 }
    ensures { IfOk result (λ shapes. shapes.items ≡ spec.lifelines_from page.now space count) }
{
    if count == 0 {
        return Ok(Vec::new(alloc));
    }
    let mut shapes = lifelines_from(alloc, page, space + 1, count - 1)?;
    let name = lifeline_name(alloc, space)?;
    shapes.insert(0, name)?;
    shapes.insert(0, lifeline(page, space))?;
    Ok(shapes)
}

// How a result is shown.
fn result_style(answer: &Result<Answer, Refusal>) -> Style
    ensures { result ≡ spec.result_style answer.now }
{
    match answer {
        Ok(answer) => match answer {
            Answer::Closed(_) => Style::Closing,
            _ => Style::Answered,
        },
        Err(_) => Style::Refused,
    }
}

// Whether the entry of a number is the one that is wrong.
fn is_fault_at(fault: Option<usize>, number: usize) -> bool
    ensures { result ≡ spec.is_fault_at fault number }
{
    match fault {
        Some(place) => place == number,
        None => false,
    }
}

// How the entry of a number is shown.
fn entry_style(page: &Page, number: usize, entry: &Entry) -> Style
    ensures { result ≡ spec.entry_style page.now number entry.now }
{
    if is_fault_at(page.fault, number) {
        return Style::Fault;
    }
    result_style(&entry.result)
}

// The text of the entry of a number, which is this one.
fn entry_text(
    alloc: Global,
    page: &Page,
    row: usize,
    style: Style,
    words: String,
) -> Result<Shape, AllocError>
    ensures { IfOk result (λ shape. shape
        ≡ spec.text_at page.now row style (string_bytes words)) }
{
    let words = cut_label(alloc, 62, words)?;
    let at = Point {
        x: 44,
        y: y_of(page, row as u128) + 4,
    };
    Ok(Shape::Text(style, at, words))
}

// Words beside a text of so many signs at a row, where there is room for some of them.
fn gloss_shapes(
    alloc: Global,
    page: &Page,
    row: usize,
    signs: usize,
    words: Vec<u8>,
) -> Result<Vec<Shape>, AllocError>
    ensures { IfOk result (λ shapes. shapes.items
        ≡ spec.gloss_shapes page.now row signs words.items) }
{
    let mut shapes = Vec::new(alloc);
    if words.is_empty() || signs > 52 {
        return Ok(shapes);
    }
    let at = Point {
        x: 44 + 7 * signs as u128,
        y: y_of(page, row as u128) + 4,
    };
    let words = cut_bytes(alloc, 60 - signs, words)?;
    shapes.push(Shape::Text(Style::Gloss, at, words))?;
    Ok(shapes)
}

// The point on its lifeline.
fn entry_dot(page: &Page, row: usize, number: usize, entry: &Entry) -> Shape
    ensures { result ≡ spec.entry_dot page.now row number entry.now }
{
    let corner = Point {
        x: x_of(entry.space) - 3,
        y: y_of(page, row as u128) - 3,
    };
    Shape::Rectangle(entry_style(page, number, entry), corner, 6, 6)
}

// The number of an entry, with the references of whose lives its row is part.
fn row_number(
    alloc: Global,
    page: &Page,
    row: usize,
    number: usize,
    names: &[WireRep],
) -> Result<Shape, AllocError>
    ensures { IfOk result (λ shape. shape ≡ spec.row_number page.now row number names.now) }
{
    let number = number_label(alloc, number)?;
    let lives = lives_words(alloc, names)?;
    let at = Point {
        x: 36,
        y: y_of(page, row as u128) + 4,
    };
    Ok(Shape::Noted(Style::Number, at, Bytes::from_vec(lives), number))
}

// The line from the text of an entry to its lifeline.
fn guide(page: &Page, row: usize, entry: &Entry) -> Shape
    ensures { result ≡ spec.guide page.now row entry.now }
{
    let start = Point {
        x: 470,
        y: y_of(page, row as u128),
    };
    Shape::Line(
        Style::Guide,
        start,
        point_at(page, entry.space, row as u128),
    )
}

// The entry of a number at a row, which is part of the lives of these references.
fn entry_shapes(
    alloc: Global,
    page: &Page,
    row: usize,
    number: usize,
    names: &[WireRep],
    entry: &Entry,
) -> Result<Vec<Shape>, AllocError>
    ensures { IfOk result (λ shapes. shapes.items
        ≡ spec.entry_shapes page.now row number names.now entry.now) }
{
    let words = entry_words(alloc, entry)?;
    let signs = words.len();
    let style = entry_style(page, number, entry);
    let mut gloss = gloss_shapes(alloc, page, row, signs, entry_gloss(alloc, entry)?)?;
    let mut shapes = Vec::new(alloc);
    shapes.push(row_number(alloc, page, row, number, names)?)?;
    shapes.push(entry_text(alloc, page, row, style, words)?)?;
    shapes.push(guide(page, row, entry))?;
    shapes.push(entry_dot(page, row, number, entry))?;
    shapes.append(&mut gloss)?;
    Ok(shapes)
}

// The entry of a number, where it has a row that is shown.
fn entry_at(
    alloc: Global,
    page: &Page,
    row: Option<usize>,
    number: usize,
    names: &[WireRep],
    entry: &Entry,
) -> Result<Vec<Shape>, AllocError>
    ensures { IfOk result (λ shapes. shapes.items
        ≡ spec.entry_at page.now row number names.now entry.now) }
{
    let Some(row) = row else {
        return Ok(Vec::new(alloc));
    };
    if !is_shown(page, row) {
        return Ok(Vec::new(alloc));
    }
    entry_shapes(alloc, page, row, number, names, entry)
}

// Shapes with those of the entry of a number, where it has a row that is shown.
fn with_entry(
    alloc: Global,
    page: &Page,
    row: Option<usize>,
    number: usize,
    names: &[WireRep],
    entry: &Entry,
    mut shapes: Vec<Shape>,
) -> Result<Vec<Shape>, AllocError>
    ensures { IfOk result (λ all. all.items
        ≡ shapes.items ++ spec.entry_at page.now row number names.now entry.now) }
{
    let mut more = entry_at(alloc, page, row, number, names, entry)?;
    shapes.append(&mut more)?;
    Ok(shapes)
}

// The entries of a journal that are shown, where these are their rows, and the references of whose
// lives they are part.
pub(crate) fn entries_shapes(
    alloc: Global,
    page: &Page,
    places: &[Option<usize>],
    lives: &[Names],
    journal: &[Entry],
) -> Result<Vec<Shape>, AllocError>
    ensures { IfOk result (λ shapes. shapes.items
        ≡ spec.entries_shapes page.now places.now lives.now journal.now) }
{
    let mut shapes = Vec::new(alloc);
    for passed in 0..journal.len() {
        let entry = &journal[journal.len() - 1 - passed];
        let number = passed + 1;
        let row = place_of(places, number);
        let names = names_at(lives, number);
        shapes = with_entry(alloc, page, row, number, names, entry, shapes)?;
    }
    Ok(shapes)
}
