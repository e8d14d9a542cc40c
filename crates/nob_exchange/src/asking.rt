//! What one space is asked, whatever it answers.

ghost use Rattle.std.specs.Prelude.{◌≡◌, IfOk, OnOk};
ghost use Rattle.nob_model_types.specs.declared.event.Event.TheVariants as events;
ghost use Rattle.nob_space.specs.Spaces.{SameSpace};
ghost use Rattle.nob_exchange.specs.Exchanges as spec;

use nob_frame::Frame;
use nob_ids::SpaceId;
use nob_model::Frames;
use nob_space::{Space, SpaceError};
use std::alloc::AllocError;

/// The maximum number of times that a space works in a row.
pub const MOST_TURNS: u64 = 4096;

// Asks a space to act on an item of a peer: whether it does. Only memory fails it.
fn act(space: &mut Space, peer: SpaceId) -> Result<bool, AllocError>
    ensures done { IfOk result (λ done. (past : spec.Past) → spec.Has space.old past
        → done ≡ spec.does (events.Act peer) past) }
    ensures has { OnOk result ((past : spec.Past) → spec.Has space.old past
        → spec.Has space.new (spec.asked (events.Act peer) past)) }
    ensures same { SameSpace space.old space.new }
{
    match space.act(peer) {
        Ok(_) => Ok(true),
        Err(SpaceError::Refused(_)) => Ok(false),
        Err(SpaceError::OutOfMemory) => Err(AllocError),
    }
}

// Asks a space to settle a message: whether it does. Only memory fails it.
fn settle(space: &mut Space) -> Result<bool, AllocError>
    ensures done { IfOk result (λ done. (past : spec.Past) → spec.Has space.old past
        → done ≡ spec.does events.Settle past) }
    ensures has { OnOk result ((past : spec.Past) → spec.Has space.old past
        → spec.Has space.new (spec.asked events.Settle past)) }
    ensures same { SameSpace space.old space.new }
{
    match space.settle() {
        Ok(_) => Ok(true),
        Err(SpaceError::Refused(_)) => Ok(false),
        Err(SpaceError::OutOfMemory) => Err(AllocError),
    }
}

// Asks a space to give a surrogate up: whether it does. Only memory fails it.
fn clean(space: &mut Space) -> Result<bool, AllocError>
    ensures done { IfOk result (λ done. (past : spec.Past) → spec.Has space.old past
        → done ≡ spec.does events.Clean past) }
    ensures has { OnOk result ((past : spec.Past) → spec.Has space.old past
        → spec.Has space.new (spec.asked events.Clean past)) }
    ensures same { SameSpace space.old space.new }
{
    match space.clean() {
        Ok(_) => Ok(true),
        Err(SpaceError::Refused(_)) => Ok(false),
        Err(SpaceError::OutOfMemory) => Err(AllocError),
    }
}

// A frame arrives at a space, which may refuse it. Only memory fails it.
fn bring(space: &mut Space, frame: &Frame) -> Result<(), AllocError>
    ensures has { OnOk result ((past : spec.Past) → spec.Has space.old past
        → spec.Has space.new (spec.asked (events.Arrive frame.now) past)) }
    ensures same { SameSpace space.old space.new }
{
    match space.arrive(frame) {
        Ok(_) => Ok(()),
        Err(SpaceError::Refused(_)) => Ok(()),
        Err(SpaceError::OutOfMemory) => Err(AllocError),
    }
}

// Frames arrive at a space, the first first. It recurses once for each.
pub(crate) fn bring_all(space: &mut Space, frames: &[Frame]) -> Result<(), AllocError>
    ensures has { OnOk result ((past : spec.Past) → spec.Has space.old past
        → spec.Has space.new (spec.arrived frames.now past)) }
    ensures same { SameSpace space.old space.new }
{
    match frames {
        [] => Ok(()),
        [frame, rest @ ..] => {
            bring(space, frame)?;
            bring_all(space, rest)
        }
    }
}

// A space acts on an item of a peer, settles a message and gives a surrogate up: whether there was
// one of them. Only memory fails it.
fn work_once(space: &mut Space, peer: SpaceId) -> Result<bool, AllocError>
    ensures busy { IfOk result (λ busy. (past : spec.Past) → spec.Has space.old past
        → busy ≡ spec.is_busy peer past) }
    ensures has { OnOk result ((past : spec.Past) → spec.Has space.old past
        → spec.Has space.new (spec.cleaned peer past)) }
    ensures same { SameSpace space.old space.new }
{
    let acted = act(space, peer)?;
    let settled = settle(space)?;
    let cleaned = clean(space)?;
    Ok(acted || settled || cleaned)
}

// A space does so until there is nothing left to do, or so often. It recurses once for each.
pub(crate) fn work(space: &mut Space, peer: SpaceId, most: u64) -> Result<(), AllocError>
    ensures has { OnOk result ((past : spec.Past) → spec.Has space.old past
        → spec.Has space.new (spec.worked most peer past)) }
    ensures same { SameSpace space.old space.new }
{
    if most == 0 {
        return Ok(());
    }
    if !work_once(space, peer)? {
        return Ok(());
    }
    work(space, peer, most - 1)
}

// What a space gives for a peer: nothing where it refuses. Only memory fails it.
pub(crate) fn give(space: &mut Space, peer: SpaceId) -> Result<Option<Frames>, AllocError>
    ensures frames { IfOk result (λ given. (past : spec.Past) → spec.Has space.old past
        → spec.frames_given given ≡ spec.frames_for peer past) }
    ensures has { OnOk result ((past : spec.Past) → spec.Has space.old past
        → spec.Has space.new (spec.asked (events.Transmit peer) past)) }
    ensures same { SameSpace space.old space.new }
{
    match space.transmit(peer) {
        Ok(frames) => Ok(Some(frames)),
        Err(SpaceError::Refused(_)) => Ok(None),
        Err(SpaceError::OutOfMemory) => Err(AllocError),
    }
}
