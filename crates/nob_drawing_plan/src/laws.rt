//! Laws over the definitions: each is the contract of a function that does nothing.

ghost use Rattle.nob_drawing_plan.specs.Laws.{BarsTell, EachHasItsArrow, EachIsDrawn};

/// Where each frame that arrives was given before, each arrival has its arrow, from the Transmit
/// that gave it.
pub fn each_has_its_arrow()
    ensures { EachHasItsArrow }
{}

/// Each arrival of any journal has its arrow, from the Transmit that gave its frame, or is marked
/// as one of which there is none.
pub fn each_is_drawn()
    ensures { EachIsDrawn }
{}

/// After each entry exactly the marks that hold have a bar that goes on.
pub fn bars_tell()
    ensures { BarsTell }
{}
