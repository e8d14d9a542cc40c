//! Journals to drawings.

ghost use Rattle.std.specs.Prelude.{◌≡◌, IfOk, reverse, true, false, None};
ghost use Rattle.nob_demo.specs.Draws as spec;

use crate::drawing::Part;
use crate::place::row_of;
use nob_drawing::{Page, drawing, height_of, svg_text, width_of};
use nob_drawing_choice::{count_drawn, plan_of};
use nob_model_traces::WrongEntry;
use nob_model_types::Entry;
use std::alloc::{AllocError, Global};

// What is shown of a journal, the places of whose rows are these.
fn page_of(
    n: u16,
    part: Part,
    accepted: bool,
    fault: Option<usize>,
    places: &[Option<usize>],
    journal: &[Entry],
) -> Page
    ensures { result ≡ spec.page_of n part accepted fault places.now journal.now }
{
    let first = part.from.max(1);
    let last = part.to.min(journal.len());
    Page {
        n,
        entries: journal.len(),
        accepted,
        fault,
        choice: part.choice,
        first,
        last,
        from: count_drawn(first - 1, places) + 1,
        to: count_drawn(last, places),
    }
}

// The drawing of a journal, the newest entry of which stands first.
fn svg_of(
    alloc: Global,
    n: u16,
    part: Part,
    accepted: bool,
    fault: Option<usize>,
    journal: &[Entry],
) -> Result<Vec<u8>, AllocError>
    ensures { IfOk result (λ text. text.items ≡ spec.svg_of n part accepted fault journal.now) }
{
    let plan = plan_of(alloc, n, &part.choice, fault, journal)?;
    let page = page_of(n, part, accepted, fault, plan.places.as_slice(), journal);
    let shapes = drawing(alloc, &page, &plan, journal)?;
    svg_text(alloc, width_of(&page), height_of(&page), shapes.as_slice())
}

// The drawing of merged entries.
pub(crate) fn drawn(
    alloc: Global,
    n: u16,
    part: Part,
    mut merged: Vec<Entry>,
) -> Result<Vec<u8>, AllocError>
    ensures { IfOk result (λ text. text.items
        ≡ spec.svg_of n part true None (reverse merged.items)) }
{
    merged.reverse();
    svg_of(alloc, n, part, true, None, merged.as_slice())
}

// The drawing of merged entries of which one is wrong.
pub(crate) fn drawn_wrong(
    alloc: Global,
    n: u16,
    part: Part,
    wrong: WrongEntry,
    mut merged: Vec<Entry>,
) -> Result<Vec<u8>, AllocError>
    ensures { IfOk result (λ text. text.items
        ≡ spec.svg_of n part false (spec.row_of wrong.space wrong.place (reverse merged.items))
        (reverse merged.items)) }
{
    merged.reverse();
    let row = row_of(wrong.space, wrong.place, merged.as_slice());
    svg_of(alloc, n, part, false, row, merged.as_slice())
}
