//! Steps of a world, whatever they are answered.

ghost use Rattle.std.specs.Prelude.{◌≡◌, ◌∷◌, [], OnOk, OnErr};
ghost use Rattle.test_worlds.specs.Makings as makings;

use nob_model::{Answer, WorldStep};
use nob_world::{World, WorldError};
use std::alloc::AllocError;

/// Makes a step: its answer, or none where it is refused, or where there is no space or no frame
/// for it. Only memory fails it, and then no entry was made.
pub fn answer_of(world: &mut World, step: &WorldStep) -> Result<Option<Answer>, AllocError>
    ensures made { OnOk result (makings.Makes (step.now ∷ []) world.old world.new) }
    ensures err { OnErr result (world.new.entries ≡ world.old.entries) }
    ensures n { world.new.n ≡ world.old.n }
    ensures limits { world.new.limits ≡ world.old.limits }
{
    // A look at the frames shows that they are those that were transmitted.
    let _ = world.frames();
    match world.step(step) {
        Ok(answer) => Ok(Some(answer)),
        Err(WorldError::Refused(_)) => Ok(None),
        Err(WorldError::NoSpace) => Ok(None),
        Err(WorldError::NoFrame) => Ok(None),
        Err(WorldError::OutOfMemory) => Err(AllocError),
    }
}
