//! Where rows and lifelines stand.

ghost use Rattle.std.specs.Prelude.{◌≡◌, ◌<◌, ◌≤◌, ◌^◌};
ghost use Rattle.nob_drawing.specs.Layout as spec;

use crate::Point;
use crate::page::Page;
use nob_ids::SpaceId;

// The place of a row among those that are shown.
fn place_of(page: &Page, row: u128) -> u128
    ensures place { result ≡ spec.place_of page.now row }
    ensures bound { result ≤ 2 ^ 64 }
{
    let first = (page.from as u128).saturating_sub(1);
    row.max(first)
        .min(page.to as u128 + 1)
        .saturating_sub(first)
}

// How far down a row stands.
pub(crate) fn y_of(page: &Page, row: u128) -> u128
    ensures place { result ≡ spec.y_of page.now row }
    ensures bound { (120 ≤ result) × (result < 2 ^ 70) }
{
    120 + 16 * place_of(page, row)
}

// How far to the right the lifeline of a space stands.
pub(crate) fn x_of(space: SpaceId) -> u128
    ensures place { result ≡ spec.x_of space }
    ensures bound { (500 ≤ result) × (result < 2 ^ 14) }
{
    250 + 250 * u128::from(space.get())
}

// How far to the right the lifeline of the space of a number stands.
pub(crate) fn column(number: u32) -> u128
    ensures { result ≡ spec.x_of number }
{
    250 + 250 * u128::from(number)
}

// A point on the lifeline of a space at a row.
pub(crate) fn point_at(page: &Page, space: SpaceId, row: u128) -> Point
    ensures { result ≡ spec.point_at page.now space row }
{
    Point {
        x: x_of(space),
        y: y_of(page, row),
    }
}

// Where the lifelines end.
pub(crate) fn bottom_of(page: &Page) -> u128
    ensures place { result ≡ spec.bottom_of page.now }
    ensures bound { result < 2 ^ 70 }
{
    y_of(page, page.to as u128 + 1)
}

/// How wide a drawing is.
pub fn width_of(page: &Page) -> u128
    ensures { result ≡ spec.width_of page.now }
{
    250 + 250 * u128::from(page.n) + 120
}

/// How high a drawing is.
pub fn height_of(page: &Page) -> u128
    ensures { result ≡ spec.height_of page.now }
{
    bottom_of(page) + 24
}

// Whether a row is shown.
pub(crate) fn is_shown(page: &Page, row: usize) -> bool
    ensures { result ≡ spec.is_shown page.now row }
{
    page.from <= row && row <= page.to
}

// Whether something is that goes from one row to another.
pub(crate) fn is_seen(page: &Page, start: u128, end: u128) -> bool
    ensures { result ≡ spec.is_seen page.now start end }
{
    start <= page.to as u128 && page.from as u128 <= end
}
