//! The newest entries of seats, where no others are kept.

ghost use Rattle.std.specs.Prelude.{◌≡◌, ◌≤◌, ◌<◌, ◌-◌, ◌++◌, ◌∷◌, [], List, Some, None, length, slice_get, vec_capacity, IfSome, IfOk, IfErr, OnOk, OnErr};
ghost use Rattle.nob_trace.specs.declared.stamped.Stamped.{Stamped as StampedOf};
ghost use Rattle.nob_kept.specs.Receipts.{Told};
ghost use Rattle.nob_kept.specs.Staying as staying;
ghost use Rattle.nob_kept.specs.declared.keep.Keep.TheVariants as keeps;

use crate::closing::is_entry_of;
use crate::error::KeeperError;
use crate::keep::Keep;
use crate::receipt::Receipt;
use nob_trace::Stamped;
use std::alloc::AllocError;

/// An entry that stays, with its place in the list.
#[derive(Drop)]
pub(crate) struct Noted {
    // Counted from 1.
    pub(crate) place: u64,
    pub(crate) entry: Stamped,
}

// Where the entry of a place stands among these: it is looked for at a first spot, and then at all.
fn spot_of(noted: &[Noted], first: usize, place: u64) -> Option<usize>
    ensures some { IfSome result (λ spot.
        slice_get (staying.places noted.now) spot ≡ Some place) }
    ensures none { result ≡ None → staying.IsAmong (staying.places noted.now) place → ⊥ }
{
    if let Some(one) = noted.get(first) {
        if one.place == place {
            return Some(first);
        }
    }
    search(noted, place)
}

// Where the entry of a place stands among these.
fn search(noted: &[Noted], place: u64) -> Option<usize>
    ensures some { IfSome result (λ spot.
        slice_get (staying.places noted.now) spot ≡ Some place) }
    ensures none { result ≡ None → staying.IsAmong (staying.places noted.now) place → ⊥ }
{
    for spot in 0..noted.len() {
        if noted[spot].place == place {
            return Some(spot);
        }
    }
    None
}

// Where the entry of a receipt stands among these, looked for at a first spot before the others: K4
// where it isn't the one that the receipt tells of, or isn't among them.
pub(crate) fn find(noted: &[Noted], first: usize, receipt: &Receipt) -> Result<usize, KeeperError>
    ensures spot { IfOk result (λ spot.
        slice_get (staying.places noted.now) spot ≡ Some receipt.now.place) }
    ensures told { (entries : List StampedOf) → staying.AreNoted entries noted.now
        → OnOk result (Told receipt.now entries) }
    ensures err { IfErr result (λ error. error ≡ KeeperError.Seats) }
    ensures seats { (entries : List StampedOf) → staying.AreNoted entries noted.now
        → OnErr result (Told receipt.now entries
        → staying.IsAmong (staying.places noted.now) receipt.now.place → ⊥) }
{
    let Some(spot) = spot_of(noted, first, receipt.place) else {
        return Err(KeeperError::Seats);
    };
    if !is_entry_of(receipt, &noted[spot].entry) {
        return Err(KeeperError::Seats);
    }
    Ok(spot)
}

// Room for one more, where nothing else is kept. Only memory fails it.
pub(crate) fn make_room(noted: &mut Vec<Noted>, keep: Keep) -> Result<(), AllocError>
    ensures items { noted.new.items ≡ noted.old.items }
    ensures room { OnOk result (keep ≡ keeps.Nothing
        → 0 < vec_capacity noted.new - length noted.new.items) }
{
    match keep {
        Keep::All => Ok(()),
        Keep::Nothing => noted.reserve(1),
    }
}

// Puts an entry at a spot, in the place of the one there, or behind all others.
pub(crate) fn put(noted: &mut Vec<Noted>, spot: usize, one: Noted)
    requires spot { spot ≤ length noted.old.items }
    requires room { 0 < vec_capacity noted.old - length noted.old.items }
    ensures places { staying.places noted.new.items
        ≡ staying.put_at spot one.place (staying.places noted.old.items) }
    ensures noted { (entries : List StampedOf) → staying.AreNoted entries noted.old.items
        → staying.IsNoted entries one → staying.AreNoted entries noted.new.items }
{
    if spot < noted.len() {
        noted[spot] = one;
        return;
    }
    noted.push_reserved(one);
}
