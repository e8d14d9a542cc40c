//! The one way in which an item is sent to a peer: with the pins of its references.

ghost use Rattle.std.specs.Prelude.{◌≡◌, ◌+◌, ◌<◌, ◌≤◌, ℕ, List, [], ◌∷◌, Ok, false, length, vec_len, IsOk, IfOk, OnOk, OnErr};
ghost use Rattle.nob_ids.specs.declared.limits.Limits.{Limits as LimitsOf};
ghost use Rattle.nob_item.specs.Writing.{bytes_of};
ghost use Rattle.nob_model_history.specs.Ends.{payload_of};
ghost use Rattle.nob_model_session.specs.declared.entry.EndEntry.{EndEntry};
ghost use Rattle.nob_model_session.specs.declared.entry.EndEntry.TheVariants.{Send};
ghost use Rattle.nob_session.specs.Calls.{next_of, with_item};
ghost use Rattle.nob_session.specs.Stands as ends;
ghost use Rattle.std.specs.Vec.{vec_capacity};
ghost use Rattle.nob_pins.specs.Bundles.{has_bundle};
ghost use Rattle.nob_pins.specs.Evidence.{AreOf, reps_of};
ghost use Rattle.nob_space_state.specs.Pins.{AddsPins};

use nob_ids::{ItemNo, SpaceId, WireRep};
use nob_item::{Item, ItemError, encode};
use nob_model::Kind;
use nob_pins::{PinTable, TransitPin};
use nob_session::Session;
use std::alloc::{AllocError, Global};

/// The payload that carries an item which the space itself has to tell, a note or the Reply to a
/// Call with a lost reference: such an item has a spelling, so only memory fails it. Constant time
/// for a note.
pub fn encode_note(alloc: Global, note: &Item) -> Result<Vec<u8>, AllocError>
    requires { IsOk (bytes_of note.now) }
    ensures spelled { IfOk result (λ payload. payload.items ≡ payload_of note.now) }
    ensures size { IfOk result (λ payload. (0 < vec_len payload) × (vec_len payload ≤ 16384)) }
{
    match encode(alloc, note) {
        Ok(payload) => Ok(payload),
        Err(ItemError::Fault(_)) => unreachable!(),
        Err(ItemError::OutOfMemory) => Err(AllocError),
    }
}

/// Sends an item to the peer of a session that has room for it: the number that it gets. The caller
/// has seen by `next` that it gets one. Constant time.
pub fn send_reserved(session: &mut Session, payload: Vec<u8>, kind: Kind) -> ItemNo
    requires payload { (0 < vec_len payload) × (vec_len payload ≤ 16384) }
    requires next { IsOk (next_of kind session.old.end) }
    requires room { 0 < session.old.room }
    ensures number { result ≡ session.old.end.handed + 1 }
    ensures sent { session.new.end ≡ with_item session.old.end payload.items }
    ensures answer { (me peer : ℕ) (limits : LimitsOf) (L : List EndEntry)
        → ends.Stands me peer limits session.old.end L
        → ends.Stands me peer limits session.new.end (Send payload.items kind (Ok result) ∷ L) }
    ensures left { session.old.room ≤ session.new.room + 1 }
{
    match session.send(payload, kind) {
        Ok(number) => number,
        Err(_) => unreachable!(),
    }
}

// A pin for each of these references.
fn pins_on(
    bundle: Vec<TransitPin>,
    peer: SpaceId,
    item: ItemNo,
    reps: &[WireRep],
) -> Vec<TransitPin>
    requires empty { bundle.items ≡ [] }
    requires room { length reps.now ≤ vec_capacity bundle }
    ensures reps { reps_of result.items ≡ reps.now }
    ensures pins { AreOf peer item result.items }
{
    let mut pins = bundle;
    for rep in reps {
        match pins.push(TransitPin::new(*rep, peer, item)) {
            Ok(()) => {}
            Err(_failed) => unreachable!(),
        }
    }
    pins
}

/// Sends an item with references to a peer, and pins them: the number that the item gets. The
/// caller has seen by `next` that it gets one. Only memory fails it; without references none is
/// wanted where the session has room. Linear in the references.
pub fn send_pinned(
    alloc: Global,
    session: &mut Session,
    pins: &mut PinTable,
    peer: SpaceId,
    payload: Vec<u8>,
    kind: Kind,
    reps: &[WireRep],
) -> Result<ItemNo, AllocError>
    requires payload { (0 < vec_len payload) × (vec_len payload ≤ 16384) }
    requires next { IsOk (next_of kind session.old.end) }
    requires new { has_bundle pins.old.bundles peer (session.old.end.handed + 1) ≡ false }
    ensures number { IfOk result (λ number. number ≡ session.old.end.handed + 1) }
    ensures sent { OnOk result (session.new.end ≡ with_item session.old.end payload.items) }
    ensures answer { (me other : ℕ) (limits : LimitsOf) (L : List EndEntry)
        → ends.Stands me other limits session.old.end L
        → IfOk result (λ number. ends.Stands me other limits session.new.end
        (Send payload.items kind (Ok number) ∷ L)) }
    ensures pins { OnOk result (AddsPins pins.old.bundles pins.new.bundles peer
        (session.old.end.handed + 1) reps.now) }
    ensures err { OnErr result ((session.new.end ≡ session.old.end)
        × (pins.new.bundles ≡ pins.old.bundles)) }
    ensures memory { reps.now ≡ [] → 0 < session.old.room → IsOk result }
{
    if reps.is_empty() {
        if session.reserve(1).is_err() {
            return Err(AllocError);
        }
        return Ok(send_reserved(session, payload, kind));
    }
    let bundle = Vec::with_capacity(alloc, reps.len())?;
    if pins.reserve(peer, reps).is_err() || session.reserve(1).is_err() {
        bundle.destroy_empty();
        return Err(AllocError);
    }
    let number = send_reserved(session, payload, kind);
    match pins.put(peer, number, pins_on(bundle, peer, number, reps)) {
        Ok(()) => Ok(number),
        Err(_failed) => unreachable!(),
    }
}
