//! What a drawing says of itself.

ghost use Rattle.std.specs.Prelude.{◌≡◌, IfOk};
ghost use Rattle.std.specs.String.{string_bytes};
ghost use Rattle.nob_drawing.specs.Layout as layout;
ghost use Rattle.nob_drawing.specs.Titles as spec;

use crate::labels::label;
use crate::page::Page;
use crate::{Point, Shape, Style};
use std::alloc::{AllocError, Global};

// A number of things, by the word for one or that for several.
fn counted(alloc: Global, number: usize, one: &str, many: &str) -> Result<String, AllocError>
    ensures { IfOk result (λ text. string_bytes text ≡ spec.counted number one.now many.now) }
{
    if number == 1 {
        return format!(in alloc; "{number} {one}");
    }
    format!(in alloc; "{number} {many}")
}

// Whether the run is accepted, and else which entry is wrong.
fn verdict_words(alloc: Global, accepted: bool, fault: Option<usize>) -> Result<String, AllocError>
    ensures { IfOk result (λ text. string_bytes text ≡ spec.verdict_words accepted fault) }
{
    if accepted {
        return String::from_str(alloc, "accepted");
    }
    match fault {
        None => String::from_str(alloc, "not accepted"),
        Some(row) => format!(in alloc; "not accepted: number {row} is wrong"),
    }
}

// Of which run it is.
fn title_words(alloc: Global, page: &Page) -> Result<String, AllocError>
    ensures { IfOk result (λ text. string_bytes text ≡ spec.title_words page.now) }
{
    let spaces = counted(alloc, usize::from(page.n), "space", "spaces")?;
    let entries = counted(alloc, page.entries, "entry", "entries")?;
    let verdict = verdict_words(alloc, page.accepted, page.fault)?;
    format!(in alloc; "{spaces}, {entries}, {verdict}")
}

// Whether all of it is shown.
fn is_whole(page: &Page) -> bool
    ensures { result ≡ spec.is_whole page.now }
{
    page.from == 1 && page.to == page.entries
}

// Whose life is shown.
fn life_words(alloc: Global, owner: Option<u16>, index: Option<u64>) -> Result<String, AllocError>
    ensures { IfOk result (λ text. string_bytes text ≡ spec.life_words owner index) }
{
    match (owner, index) {
        (None, None) => Ok(String::new(alloc)),
        (Some(owner), None) => format!(in alloc; ", the lives of objects of space {owner}"),
        (None, Some(index)) => format!(in alloc; ", the lives of objects of index {index}"),
        (Some(owner), Some(index)) => format!(in alloc; ", the life of {owner}.{index}"),
    }
}

// Which space is shown.
fn space_words(alloc: Global, space: Option<u16>) -> Result<String, AllocError>
    ensures { IfOk result (λ text. string_bytes text ≡ spec.space_words space) }
{
    match space {
        None => Ok(String::new(alloc)),
        Some(space) => format!(in alloc; ", space {space} and what goes to and from it"),
    }
}

// What is left out as small.
fn brief_words(brief: bool) -> &'static str
    ensures { result.now ≡ spec.brief_words brief }
{
    if brief {
        return ", without what is refused and Acks alone";
    }
    ""
}

// Which rows are shown.
fn part_words(
    alloc: Global,
    first: usize,
    last: usize,
    entries: usize,
) -> Result<String, AllocError>
    ensures { IfOk result (λ text. string_bytes text ≡ spec.part_words first last entries) }
{
    if first == 1 && last == entries {
        return Ok(String::new(alloc));
    }
    format!(in alloc; ", of rows {first} to {last}")
}

// Why rows aren't shown.
fn choice_words(alloc: Global, page: &Page) -> Result<String, AllocError>
    ensures { IfOk result (λ text. string_bytes text ≡ spec.choice_words page.now) }
{
    let life = life_words(alloc, page.choice.owner, page.choice.index)?;
    let space = space_words(alloc, page.choice.space)?;
    let brief = brief_words(page.choice.brief);
    let part = part_words(alloc, page.first, page.last, page.entries)?;
    format!(in alloc; "{life}{space}{brief}{part}")
}

// How many rows are shown.
fn count_shown(page: &Page) -> u128
    ensures { result ≡ spec.count_shown page.now }
{
    (page.to as u128 + 1).saturating_sub(page.from as u128)
}

// What of the run is shown.
fn shown_words(alloc: Global, page: &Page) -> Result<String, AllocError>
    ensures { IfOk result (λ text. string_bytes text ≡ spec.shown_words page.now) }
{
    let count = count_shown(page);
    let rows = counted(alloc, page.entries, "row", "rows")?;
    let why = choice_words(alloc, page)?;
    format!(in alloc; "shown: {count} of {rows}{why}")
}

// What a drawing says of itself, above all else.
pub(crate) fn title_shapes(alloc: Global, page: &Page) -> Result<Vec<Shape>, AllocError>
    ensures { IfOk result (λ shapes. shapes.items ≡ layout.title_shapes page.now) }
{
    let title = label(title_words(alloc, page)?);
    let mut shapes = Vec::new(alloc);
    shapes.push(Shape::Text(Style::Title, Point { x: 12, y: 20 }, title))?;
    if is_whole(page) {
        return Ok(shapes);
    }
    let shown = label(shown_words(alloc, page)?);
    shapes.push(Shape::Text(Style::Shown, Point { x: 12, y: 38 }, shown))?;
    Ok(shapes)
}
