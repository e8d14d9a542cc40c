//! What stands beside the messages that wait.

ghost use Rattle.std.specs.Prelude.{◌≡◌, ℕ, ◌+◌, ◌-◌, ◌<◌, ◌≤◌, ◌^◌, ◌==◌, [], false, true, length, filter, IsOk, OnOk, if◌then◌else◌};
ghost use Rattle.std.specs.List.{list_any};
ghost use Rattle.std.specs.Map.{remove_entry};
ghost use Rattle.nob_ids.specs.Names.{is_same};
ghost use Rattle.nob_ids.specs.declared.wire_rep.WireRep.{WireRep as WireRepOf};
ghost use Rattle.nob_queues.specs.Queues.{KeepsBut, marked_at, rows_at};
ghost use Rattle.nob_slots.specs.Numbers.{numbers_of};
ghost use Rattle.nob_slots.specs.Slots.{is_number, IsRising, PutsMark};
ghost use Rattle.nob_space_messages.specs.Copies.{AreCarried};
ghost use Rattle.nob_space_messages.specs.Lines.{AreAwaited, AreMarked, items_of, places_for, times_in, without};
ghost use Rattle.nob_space_messages.specs.Waiting.{is_due, waits_for};

use crate::copies::uncount_all;
use crate::entry::{Entry, WAITING};
use crate::lending::is_due;
use crate::lines::Lines;
use crate::owners::OWNERS;
use nob_ids::SpaceId;
use nob_model_types::message::RefCopy;
use nob_queues::Queues;
use nob_slots::Numbers;

/// What stands beside the messages that wait.
///
/// Each message has a stamp, which stands among those of the space that it came from, and at a place
/// in the line of each reference that is awaited, for each of its copies whose loan is due. It is
/// marked once it has no place left. An owner's answer ends the line of its reference; a message
/// that is dropped leaves its places in lines to that answer.
pub struct Waits {
    /// The stamps of the messages from each space.
    pub froms: Numbers,
    /// The lines of the references that are awaited.
    pub lines: Lines,
    /// How many copies of counted references of each owner the messages carry, at its number.
    pub copies: [u64; OWNERS],
    /// The stamp of the next message, above all in use.
    pub next: u64,
    /// A message of fewer copies than this fits.
    pub room: usize,
}

// By hand, so that it is taken apart here alone and not at each end of each caller.
impl Drop for Waits {
    fn drop(self) {
        let Waits {
            froms: _,
            lines: _,
            copies: _,
            next: _,
            room: _,
        } = self;
    }
}

// Puts a stamp in the line of a copy's reference, if its loan is due: how many places that are. A
// few look-ups.
fn line_one(lines: &mut Lines, copy: &RefCopy, stamp: u64) -> u64
    requires room { 0 < lines.old.room }
    requires awaited { AreAwaited lines.old }
    requires small { places_for lines.old copy.now.rep < 2 ^ 64 - 1 }
    ensures count { result ≡ (if is_due copy.now.loan then 1 else 0) }
    ensures counts { (rep : WireRepOf) → places_for lines.new rep
        ≡ places_for lines.old rep + (if waits_for rep copy.now then 1 else 0) }
    ensures times { (rep : WireRepOf) (other : ℕ) → times_in lines.new rep other
        ≡ times_in lines.old rep other
        + (if stamp == other then (if waits_for rep copy.now then 1 else 0) else 0) }
    ensures awaited { AreAwaited lines.new }
    ensures room { lines.old.room ≤ lines.new.room + 1 }
{
    if !is_due(copy.loan) {
        return 0;
    }
    lines.push(&copy.rep, stamp);
    1
}

/// Puts a stamp in the line of each reference of which a copy is due, for each such copy: how many.
pub fn line_up(lines: &mut Lines, copies: &[RefCopy], stamp: u64) -> u64
    requires room { length copies.now ≤ lines.old.room }
    requires awaited { AreAwaited lines.old }
    requires small { (rep : WireRepOf)
        → places_for lines.old rep + length copies.now < 2 ^ 64 }
    ensures count { result ≡ length (filter (λ copy. is_due copy.loan) copies.now) }
    ensures counts { (rep : WireRepOf) → places_for lines.new rep
        ≡ places_for lines.old rep + length (filter (waits_for rep) copies.now) }
    ensures times { (rep : WireRepOf) (other : ℕ) → times_in lines.new rep other
        ≡ times_in lines.old rep other
        + (if stamp == other then length (filter (waits_for rep) copies.now) else 0) }
    ensures awaited { AreAwaited lines.new }
{
    let mut waits = 0;
    for copy in copies {
        waits += line_one(lines, copy, stamp);
    }
    waits
}

// Takes the entry of a stamp out, if there is one, and counts its copies no longer.
fn drop_one(queues: &mut Queues<Entry>, counts: &mut [u64; OWNERS], stamp: u64)
    requires carried { AreCarried counts.old (items_of (rows_at queues.old 0)) }
    ensures rows { rows_at queues.new 0 ≡ remove_entry (is_number stamp) (rows_at queues.old 0) }
    ensures marked { PutsMark (marked_at queues.old 0) (marked_at queues.new 0) stamp false }
    ensures kept { KeepsBut queues.old queues.new 0 }
    ensures carried { AreCarried counts.new (items_of (rows_at queues.new 0)) }
{
    let Some(entry) = queues.take(WAITING, stamp) else {
        return;
    };
    uncount_all(counts, entry.message.copies.as_slice());
}

/// Takes the entries of a space's stamps out. Linear in them and their copies, with a look for each.
pub fn drop_all(
    queues: &mut Queues<Entry>,
    counts: &mut [u64; OWNERS],
    froms: &Numbers,
    peer: SpaceId,
)
    requires carried { AreCarried counts.old (items_of (rows_at queues.old 0)) }
    requires rising { IsRising (rows_at queues.old 0) }
    requires marked { AreMarked (rows_at queues.old 0) (marked_at queues.old 0) }
    ensures rows { rows_at queues.new 0
        ≡ without (numbers_of froms.now peer) (rows_at queues.old 0) }
    ensures marked { AreMarked (rows_at queues.new 0) (marked_at queues.new 0) }
    ensures kept { KeepsBut queues.old queues.new 0 }
    ensures carried { AreCarried counts.new (items_of (rows_at queues.new 0)) }
{
    for stamp in froms.iter(peer) {
        drop_one(queues, counts, stamp);
    }
}
