//! What one space has to send is brought to another.

use nob_model::Refusal;
use nob_space::{Space, SpaceError};

/// The method that is called.
pub(crate) const METHOD: u16 = 1;

/// The maximum number of items that are acted on after one carriage, so that each walk ends.
pub(crate) const MAX_ITEMS: usize = 64;

/// What a space has to send is brought to another, which acts on it.
pub(crate) fn bring(from: &mut Space, to: &mut Space) -> Result<(), SpaceError> {
    let frames = from.transmit(to.id())?;
    for frame in frames.as_slice() {
        to.arrive(frame)?;
    }
    for _ in 0..MAX_ITEMS {
        match to.act(from.id()) {
            Ok(_) => {}
            Err(SpaceError::Refused(Refusal::Nothing)) => return Ok(()),
            Err(error) => return Err(error),
        }
    }
    Ok(())
}
