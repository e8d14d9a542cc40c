//! All that stands in a drawing.

ghost use Rattle.std.specs.Prelude.{◌≡◌, IfOk};
ghost use Rattle.nob_drawing.specs.Layout as spec;

use crate::Shape;
use crate::arrows::{arrows_lines, arrows_words};
use crate::bars::bars_shapes;
use crate::entries::{entries_shapes, lifelines_from};
use crate::losses::losses_shapes;
use crate::page::Page;
use crate::strays::strays_shapes;
use crate::titles::title_shapes;
use nob_drawing_choice::Plan;
use nob_model_types::Entry;
use std::alloc::{AllocError, Global};

// All that goes from lifeline to lifeline, or should.
fn flown(alloc: Global, page: &Page, plan: &Plan) -> Result<Vec<Shape>, AllocError>
    ensures { IfOk result (λ shapes. shapes.items
        ≡ spec.flown page.now plan.now.arrows.items plan.now.lost.items plan.now.strays.items) }
{
    let mut shapes = arrows_lines(alloc, page, plan.arrows.as_slice())?;
    let mut losses = losses_shapes(alloc, page, plan.lost.as_slice())?;
    let mut strays = strays_shapes(alloc, page, plan.strays.as_slice())?;
    let mut words = arrows_words(alloc, page, plan.arrows.as_slice())?;
    strays.append(&mut words)?;
    losses.append(&mut strays)?;
    shapes.append(&mut losses)?;
    Ok(shapes)
}

/// All that stands in a drawing of a journal, the newest entry of which stands first, where this is
/// what is drawn of it: its titles, a lifeline for each space, the bars, the entries that are
/// shown, the arrows, the frames that are lost, and those that come from nowhere. A few shapes for
/// each part of the plan.
pub fn drawing(
    alloc: Global,
    page: &Page,
    plan: &Plan,
    journal: &[Entry],
) -> Result<Vec<Shape>, AllocError>
    ensures { IfOk result (λ shapes. shapes.items ≡ spec.drawing page.now plan.now.places.items
        plan.now.lives.items plan.now.bars.items plan.now.arrows.items plan.now.lost.items plan.now.strays.items
        journal.now) }
{
    let mut shapes = title_shapes(alloc, page)?;
    let mut lifelines = lifelines_from(alloc, page, 1, u32::from(page.n))?;
    let places = plan.places.as_slice();
    let mut entries = entries_shapes(alloc, page, places, plan.lives.as_slice(), journal)?;
    let mut held = bars_shapes(alloc, page, plan.bars.as_slice())?;
    let mut others = flown(alloc, page, plan)?;
    held.append(&mut others)?;
    entries.append(&mut held)?;
    lifelines.append(&mut entries)?;
    shapes.append(&mut lifelines)?;
    Ok(shapes)
}
