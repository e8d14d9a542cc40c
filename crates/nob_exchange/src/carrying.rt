//! Carrying what one space has for another, and back.

ghost use Rattle.std.specs.Prelude.{◌≡◌, IfOk, OnOk};
ghost use Rattle.nob_space.specs.Spaces.{SameSpace};
ghost use Rattle.nob_exchange.specs.Exchanges as spec;

use crate::asking::{MOST_TURNS, bring_all, give, work};
use nob_ids::WireRep;
use nob_model::Frames;
use nob_space::Space;
use std::alloc::AllocError;

/// The reference to a space's agent, which every space may call.
pub fn agent_of(space: &Space) -> WireRep
    ensures { result ≡ spec.agent_of space.now.id }
{
    WireRep {
        owner: space.id(),
        index: 0,
    }
}

// Whether a space gave a frame.
fn has_frames(given: &Option<Frames>) -> bool
    ensures { result ≡ spec.is_some_frame (spec.frames_given given.now) }
{
    match given {
        Some(frames) => match frames.as_slice() {
            [] => false,
            [_, ..] => true,
        },
        None => false,
    }
}

// The frames that a space gave arrive at another.
fn bring_given(space: &mut Space, given: &Option<Frames>) -> Result<(), AllocError>
    ensures has { OnOk result ((past : spec.Past) → spec.Has space.old past
        → spec.Has space.new (spec.arrived (spec.frames_given given.now) past)) }
    ensures same { SameSpace space.old space.new }
{
    match given {
        Some(frames) => bring_all(space, frames.as_slice()),
        None => Ok(()),
    }
}

/// Carries the frames that one space has for another to it, in order and each once. It then acts on
/// what came, settles and gives up what it can. Whether there was a frame. What a space refuses is
/// left; only memory fails it, and what was done by then stands.
pub fn carry(from: &mut Space, to: &mut Space) -> Result<bool, AllocError>
    ensures frames { IfOk result (λ some. (pair : spec.Pair) → spec.HaveBoth from.old to.old pair
        → some ≡ spec.is_some_frame (spec.frames_for pair.other.space pair.one)) }
    ensures carried { OnOk result ((pair : spec.Pair) → spec.HaveBoth from.old to.old pair
        → spec.HaveBoth from.new to.new (spec.carried spec.most_turns pair)) }
    ensures same_from { SameSpace from.old from.new }
    ensures same_to { SameSpace to.old to.new }
{
    let given = give(from, to.id())?;
    bring_given(to, &given)?;
    work(to, from.id(), MOST_TURNS)?;
    Ok(has_frames(&given))
}

// Carries to and fro until neither has a frame for the other, or so often.
fn exchange_up_to(one: &mut Space, other: &mut Space, times: u64) -> Result<(), AllocError>
    ensures exchanged { OnOk result ((pair : spec.Pair) → spec.HaveBoth one.old other.old pair
        → spec.HaveBoth one.new other.new (spec.exchanged spec.most_turns times pair)) }
    ensures same_one { SameSpace one.old one.new }
    ensures same_other { SameSpace other.old other.new }
{
    if times == 0 {
        return Ok(());
    }
    let there = carry(one, other)?;
    let back = carry(other, one)?;
    if !there && !back {
        return Ok(());
    }
    exchange_up_to(one, other, times - 1)
}

/// Carries frames between two spaces, to and fro, until neither has one for the other: what each had
/// to tell the other has come and was acted on. It stops after 4,096 times. What a space refuses is
/// left; only memory fails it, and what was done by then stands.
pub fn exchange(one: &mut Space, other: &mut Space) -> Result<(), AllocError>
    ensures exchanged { OnOk result ((pair : spec.Pair) → spec.HaveBoth one.old other.old pair
        → spec.HaveBoth one.new other.new
        (spec.exchanged spec.most_turns spec.most_turns pair)) }
    ensures same_one { SameSpace one.old one.new }
    ensures same_other { SameSpace other.old other.new }
{
    exchange_up_to(one, other, MOST_TURNS)
}
