//! Asking the spaces of a world something, once or until they refuse.

ghost use Rattle.std.specs.Prelude.{◌≡◌, ◌≤◌, false, IfOk, OnOk};
ghost use Rattle.nob_world.specs.Worlds.{is_arrival as is_arrival_of};
ghost use Rattle.nob_rounds.specs.Rounds as spec;

use nob_ids::SpaceId;
use nob_model_types::{Event, WorldStep};
use nob_world::{World, WorldError};
use std::alloc::AllocError;

/// The maximum number of times that a space is asked one thing in a row.
pub const MOST_REPEATS: u64 = 4096;

/// What a space is to be asked.
#[derive(Debug, Drop)]
pub struct Asking {
    /// The space.
    pub space: SpaceId,
    /// What it is asked.
    pub event: Event,
}

/// Asks a space something: whether it did it. Only memory fails it. The caller's condition: there
/// is such a space, and the event isn't the arrival of a frame.
pub fn ask(world: &mut World, space: SpaceId, event: Event) -> Result<bool, AllocError>
    requires there { space ≤ world.old.n }
    requires asked { is_arrival_of event ≡ false }
    ensures entry { IfOk result (λ done.
        spec.Asked space event done world.old.entries world.new.entries) }
    ensures n { world.new.n ≡ world.old.n }
{
    match world.step(&WorldStep::Do(space, event)) {
        Ok(_) => Ok(true),
        Err(WorldError::Refused(_)) => Ok(false),
        Err(WorldError::OutOfMemory) => Err(AllocError),
        Err(WorldError::NoSpace) => unreachable!(),
        Err(WorldError::NoFrame) => unreachable!(),
    }
}

/// Asks a space the same until it refuses, or so often. Only memory fails it. The caller's
/// condition is that of `ask`. It recurses once for each time.
pub fn repeat(world: &mut World, space: SpaceId, event: &Event, most: u64) -> Result<(), AllocError>
    requires there { space ≤ world.old.n }
    requires asked { is_arrival_of event.now ≡ false }
    ensures entries { OnOk result (spec.AskedUntilRefused most space event.now
        world.old.entries world.new.entries) }
    ensures n { world.new.n ≡ world.old.n }
{
    if most == 0 {
        return Ok(());
    }
    if !ask(world, space, event.copy()?)? {
        return Ok(());
    }
    repeat(world, space, event, most - 1)
}

// Whether an event is the arrival of a frame.
fn is_arrival(event: &Event) -> bool
    ensures { result ≡ is_arrival_of event.now }
{
    match event {
        Event::Arrive(_) => true,
        _ => false,
    }
}

// Whether a world of so many spaces can be asked this.
fn can_be_asked(n: u16, asking: &Asking) -> bool
    ensures { result ≡ spec.can_be_asked n asking.now }
{
    asking.space.get() <= n && !is_arrival(&asking.event)
}

// Asks a world one thing, if it can be asked it.
fn ask_or_leave(world: &mut World, asking: &Asking) -> Result<(), AllocError>
    ensures entries { OnOk result (spec.OrNothing (spec.can_be_asked world.old.n asking.now)
        (spec.AskedOnce asking.now.space asking.now.event world.old.entries world.new.entries)
        world.old.entries world.new.entries) }
    ensures n { world.new.n ≡ world.old.n }
{
    if !can_be_asked(world.n(), asking) {
        return Ok(());
    }
    ask(world, asking.space, asking.event.copy()?)?;
    Ok(())
}

// Asks a world one thing again and again until it refuses, if it can be asked it.
fn repeat_or_leave(world: &mut World, asking: &Asking) -> Result<(), AllocError>
    ensures entries { OnOk result (spec.OrNothing (spec.can_be_asked world.old.n asking.now)
        (spec.AskedUntilRefused spec.most_repeats asking.now.space asking.now.event
        world.old.entries world.new.entries) world.old.entries world.new.entries) }
    ensures n { world.new.n ≡ world.old.n }
{
    if !can_be_asked(world.n(), asking) {
        return Ok(());
    }
    repeat(world, asking.space, &asking.event, MOST_REPEATS)
}

/// Asks a world one thing after the other, whatever is answered. What it can't be asked is left
/// out: something of a space that there isn't, and the arrival of a frame. Only memory fails it. It
/// recurses once for each.
pub fn ask_each(world: &mut World, askings: &[Asking]) -> Result<(), AllocError>
    ensures entries { OnOk result (spec.AskedEach world.old.n askings.now
        world.old.entries world.new.entries) }
    ensures n { world.new.n ≡ world.old.n }
{
    match askings {
        [] => Ok(()),
        [asking, rest @ ..] => {
            ask_or_leave(world, asking)?;
            ask_each(world, rest)
        }
    }
}

/// The same, but each is asked again and again until it is refused, or 4,096 times.
pub fn repeat_each(world: &mut World, askings: &[Asking]) -> Result<(), AllocError>
    ensures entries { OnOk result (spec.AskedEachUntilRefused world.old.n askings.now
        world.old.entries world.new.entries) }
    ensures n { world.new.n ≡ world.old.n }
{
    match askings {
        [] => Ok(()),
        [asking, rest @ ..] => {
            repeat_or_leave(world, asking)?;
            repeat_each(world, rest)
        }
    }
}
