//! The end: what began is ended, all that is under way is brought, until nothing new happens, and
//! each object is withdrawn.

ghost use Rattle.std.specs.Prelude.{◌≡◌, OnOk};
ghost use Rattle.nob_rounds.specs.Notes.{news_in as news_in_of};
ghost use Rattle.nob_rounds.specs.Endings as spec;

use crate::askings::{claims, closes, ends_of_calls, releases, spaces_up_to, withdrawals};
use crate::facts::news_in;
use crate::known::{known_of, objects_of};
use crate::sessions::unopen_ends;
use crate::{ask_each, repeat_each, round, spaces_in};
use nob_world::World;
use std::alloc::{AllocError, Global};

// The maximum number of rounds: more than any list needs.
const MOST_ROUNDS: u64 = 200;

/// Ends what was begun in a world: rounds until one brings nothing new, 200 at most, and then each
/// object is withdrawn. Only memory fails it. It recurses once for each round.
pub fn end(alloc: Global, world: &mut World) -> Result<(), AllocError>
    ensures entries { OnOk result (spec.Ended world.old.n world.old.entries world.new.entries) }
    ensures n { world.new.n ≡ world.old.n }
{
    end_rounds(alloc, world, MOST_ROUNDS)?;
    withdraw_all(alloc, world)
}

// How many entries of a world say something new.
fn news_of(world: &World) -> usize
    ensures { result ≡ news_in_of world.now.entries }
{
    news_in(world.entries())
}

// Rounds until one brings nothing new, or so many. It recurses once for each.
fn end_rounds(alloc: Global, world: &mut World, most: u64) -> Result<(), AllocError>
    ensures entries { OnOk result (spec.WentEndRounds most world.old.n
        world.old.entries world.new.entries) }
    ensures n { world.new.n ≡ world.old.n }
{
    if most == 0 {
        return Ok(());
    }
    let before = news_of(world);
    end_round(alloc, world)?;
    if news_of(world) == before {
        return Ok(());
    }
    end_rounds(alloc, world, most - 1)
}

// One round: what isn't open is closed at both ends, jobs claimed, calls ended and holds given back, and what is
// under way is brought.
fn end_round(alloc: Global, world: &mut World) -> Result<(), AllocError>
    ensures entries { OnOk result (spec.WentEndRound world.old.n
        world.old.entries world.new.entries) }
    ensures n { world.new.n ≡ world.old.n }
{
    close_unopen(alloc, world)?;
    claim_all(alloc, world)?;
    end_calls(alloc, world)?;
    release_all(alloc, world)?;
    round(world)
}

// Closes both ends of each session that isn't open.
fn close_unopen(alloc: Global, world: &mut World) -> Result<(), AllocError>
    ensures entries { OnOk result (spec.ClosedUnopen world.old.n
        world.old.entries world.new.entries) }
    ensures n { world.new.n ≡ world.old.n }
{
    let ends = unopen_ends(alloc, world.n(), world.entries())?;
    let askings = closes(alloc, ends.as_slice())?;
    ask_each(world, askings.as_slice())
}

// Claims all jobs of each space.
fn claim_all(alloc: Global, world: &mut World) -> Result<(), AllocError>
    ensures entries { OnOk result (spec.ClaimedAll world.old.n
        world.old.entries world.new.entries) }
    ensures n { world.new.n ≡ world.old.n }
{
    let spaces = spaces_up_to(alloc, spaces_in(world))?;
    let askings = claims(alloc, spaces.as_slice())?;
    repeat_each(world, askings.as_slice())
}

// Finishes the jobs of each space, and takes all replies.
fn end_calls(alloc: Global, world: &mut World) -> Result<(), AllocError>
    ensures entries { OnOk result (spec.EndedCalls world.old.n
        world.old.entries world.new.entries) }
    ensures n { world.new.n ≡ world.old.n }
{
    let spaces = spaces_up_to(alloc, spaces_in(world))?;
    let known = known_of(alloc, world.n(), world.entries())?;
    let askings = ends_of_calls(alloc, spaces.as_slice(), known.jobs, known.calls)?;
    ask_each(world, askings.as_slice())
}

// Gives back all that each space has in its hand.
fn release_all(alloc: Global, world: &mut World) -> Result<(), AllocError>
    ensures entries { OnOk result (spec.ReleasedAll world.old.n
        world.old.entries world.new.entries) }
    ensures n { world.new.n ≡ world.old.n }
{
    let spaces = spaces_up_to(alloc, spaces_in(world))?;
    let objects = objects_of(alloc, world.entries())?;
    let askings = releases(alloc, spaces.as_slice(), objects.as_slice())?;
    repeat_each(world, askings.as_slice())
}

// Withdraws each object that can be.
fn withdraw_all(alloc: Global, world: &mut World) -> Result<(), AllocError>
    ensures entries { OnOk result (spec.WithdrewAll world.old.n
        world.old.entries world.new.entries) }
    ensures n { world.new.n ≡ world.old.n }
{
    let objects = objects_of(alloc, world.entries())?;
    let askings = withdrawals(alloc, objects.as_slice())?;
    ask_each(world, askings.as_slice())
}
