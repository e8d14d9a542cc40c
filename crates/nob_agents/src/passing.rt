//! How the frames of a Transmit go on to the ways of an agent that sends.

ghost use Rattle.std.specs.Prelude.{◌≡◌, ◌≢◌, ◌≤◌, ◌<◌, ◌^◌, ◌==◌, ℕ, List, Some, length, slice_get, position, true, IfOk, OnErr, IfSome, MatchOption};
ghost use Rattle.nob_link.specs.declared.parcel.Parcel.{Parcel as ParcelOf};
ghost use Rattle.nob_agents.specs.Sending.{AllFed, AreApart, with_fed, parcels_to, frames_in, AllGoneOn, LeadAlike};
ghost use Rattle.nob_agents.specs.Sending as sending;

use crate::parcels::PutParcel;
use crate::way::Way;
use nob_frame::Frame;
use nob_ids::SpaceId;
use nob_keeper::{Receipt, Seat};
use nob_link::Parcel;
use nob_model_types::{Answer, Event};
use std::alloc::AllocError;

// The frame of a receipt behind so many, as a parcel, and whom it goes to. Only memory fails it.
pub(crate) fn next_of(
    receipt: &Receipt,
    handled: usize,
) -> Result<Option<(SpaceId, Parcel)>, AllocError>
    ensures next { IfOk result (λ next. MatchOption next
        ((peer : ℕ) → length (parcels_to peer receipt.now) ≤ handled)
        (λ due. slice_get (parcels_to due.0 receipt.now) handled ≡ Some due.1)) }
    ensures few { IfOk result (λ next. IfSome next (λ _. handled < 2 ^ 63)) }
{
    let Some(frame) = frame_at(frames_of(receipt), handled) else {
        return Ok(None);
    };
    let Event::Transmit(peer) = &receipt.event else {
        return Ok(None);
    };
    let frame = frame.copy()?;
    Ok(Some((
        *peer,
        Parcel::Frame {
            stamp: receipt.stamp,
            frame,
        },
    )))
}

// The frame at a place.
fn frame_at(frames: &[Frame], place: usize) -> Option<&Frame>
    ensures frame { MatchOption result (length frames.now ≤ place)
        (λ frame. slice_get frames.now place ≡ Some frame.now) }
    ensures few { IfSome result (λ _. place < 2 ^ 63) }
{
    frames.get(place)
}

// The frames that a receipt has.
fn frames_of(receipt: &Receipt) -> &[Frame]
    ensures { result.now ≡ frames_in receipt.now.result }
{
    match &receipt.result {
        Ok(Answer::Frames(frames)) => frames.as_slice(),
        _ => &[],
    }
}

// Where the way to a peer stands.
fn place_of<P: PutParcel + Drop>(ways: &[Way<P>], peer: SpaceId) -> Option<usize>
    ensures { result ≡ position (λ way. way.peer == peer) ways.now }
{
    ways.iter().position(|way| way.peer() == peer)
}

// Whether a way leads to a peer.
fn leads_to<P: PutParcel + Drop>(ways: &[Way<P>], peer: SpaceId) -> bool
    ensures { result ≡ sending.leads_to peer ways.now }
{
    ways.iter().any(|way| way.peer() == peer)
}

// Whether an event is what an agent with these ways asks: a Transmit to a peer to which one leads,
// a tick of the session with it, or its close.
pub(crate) fn is_about<P: PutParcel + Drop>(ways: &[Way<P>], event: &Event) -> bool
    ensures { result ≡ sending.is_about ways.now event.now }
{
    match event {
        Event::Transmit(peer) => leads_to(ways, *peer),
        Event::Tick(peer) => leads_to(ways, *peer),
        Event::Close(peer) => leads_to(ways, *peer),
        _ => false,
    }
}

// Has a parcel pass the shim of the way to a peer, if there is one and nothing is kept behind its
// shim: whether it did. Only memory fails it.
pub(crate) fn pass_on<P: PutParcel + Drop>(
    ways: &mut Vec<Way<P>>,
    peer: SpaceId,
    parcel: Parcel,
) -> Result<bool, AllocError>
    ensures fed { (f : ℕ → List ParcelOf) → AreApart ways.old.items → AllFed f ways.old.items
        → IfOk result (λ passed. passed ≡ true
        → AllFed (with_fed f peer parcel) ways.new.items × AreApart ways.new.items) }
    ensures leads { IfOk result (λ passed. passed ≡ true
        → LeadAlike ways.old.items ways.new.items) }
    ensures kept { IfOk result (λ passed. passed ≢ true → ways.new.items ≡ ways.old.items) }
    ensures err { OnErr result (ways.new.items ≡ ways.old.items) }
{
    let Some(at) = place_of(ways.as_slice(), peer) else {
        return Ok(false);
    };
    let way = &mut ways[at];
    if !way.is_clear() {
        return Ok(false);
    }
    match way.pass(parcel) {
        Ok(()) => Ok(true),
        Err(_back) => Err(AllocError),
    }
}

// Whether all frames of the newest receipt have gone on, where so many have.
pub(crate) fn has_gone_on(seat: &Seat, handled: usize) -> bool
    ensures { result ≡ true → AllGoneOn handled seat.now }
{
    match seat.newest() {
        Some(receipt) => frames_of(receipt).len() <= handled,
        None => true,
    }
}

// Where a way stands behind whose shim something is kept.
pub(crate) fn kept_behind<P: PutParcel + Drop>(ways: &[Way<P>]) -> Option<usize>
    ensures { IfSome result (λ at. at < length ways.now) }
{
    ways.iter().position(|way| !way.is_clear())
}
