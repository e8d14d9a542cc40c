//! A drawing of what spaces did: where everything stands of the arrows and bars of
//! nob_drawing_plan, and of the entries, as shapes, which are written as SVG.
#![tactic(auto)]

mod arrows;
mod bars;
mod captions;
mod entries;
mod frame_labels;
mod glosses;
mod labels;
mod losses;
mod page;
mod places;
mod shape;
mod strays;
mod titles;
mod whole;
mod writing;

pub use page::Page;
pub use places::{height_of, width_of};
pub use shape::{Point, Shape, Style};
pub use whole::drawing;
pub use writing::{LOOKS, svg_text};
