//! A frame that comes to a space.

ghost use Rattle.std.specs.Prelude.{◌≡◌};
ghost use Rattle.nob_model_types.specs.declared.event.Event.TheVariants as events;
ghost use Rattle.nob_host_space.specs.Asked.{Asked};

use crate::numbers::{DONE, error_number};
use crate::told::Told;
use nob_frame::Frame;
use nob_space::Space;

// A frame comes to a space: the status, and what is told of what it brought.
pub(crate) fn bring(space: &mut Space, frame: &Frame, told: &mut Told) -> u32
    ensures { Asked space.old (events.Arrive frame.now) space.new told.new result }
{
    match space.arrive(frame) {
        Ok(arrived) => {
            *told = Told::of_arrived(arrived);
            DONE
        }
        Err(error) => {
            *told = Told::nothing();
            error_number(error)
        }
    }
}
