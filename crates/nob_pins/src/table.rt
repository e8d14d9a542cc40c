//! The table of the pins.

ghost use Rattle.std.specs.Prelude.{◌≡◌, ◌≢◌, ◌+◌, ◌<◌, ◌≤◌, ◌-◌, ◌^◌, ◌==◌, ◌++◌, ◌∷◌, [], true, false, not, min, filter, length, vec_len, get_or, slice_get, None, Some, ℕ, IsOk, OnOk, OnErr, IfErr, IfSome, MatchOption, MatchResult};
ghost use Rattle.std.specs.List.{list_any};
ghost use Rattle.nob_ids.specs.declared.wire_rep.WireRep.{WireRep};
ghost use Rattle.nob_ids.specs.Names.{most_spaces};
ghost use Rattle.nob_pins.specs.Evidence.{AreOf, AreTo, reps_of};
ghost use Rattle.nob_pins.specs.Bundles.{has_room, KeepsRoom, Unchanged, has_bundle, bundle_of, Adds, TakesOut, TakesOutAll, KeepsOthers, of_others, of_peer, count_of, CountsOf};
ghost use Rattle.nob_pins.specs.Peers.{all_pinned, rooms_of, pinned_at, is_many, count_in, AreByPeer, AreOfPeer, KeepsRooms, has_item};

use crate::bundle::Bundle;
use crate::counts::{Counts, add_all, take_all};
use crate::evidence::Settled;
use crate::fault::PinFault;
use crate::peer::PeerPins;
use crate::pin::{TransitPin, give_up_all, spend_all};
use nob_ids::{ItemNo, SpaceId, WireRep};
use nob_session::Closed;
use std::alloc::{AllocError, AllocFailed, Global};
use std::marker::Model;

/// The pins of a space, at most one bundle for each peer and item: a map for each peer from item
/// number to bundle, and a count for each reference. Contracts see the bundles, in no order, and for
/// which peer and references there is room, but not why. It can't be let go while it has any.
pub struct PinTable {
    alloc: Global,
    // By the peer's number; they are made when room is first wanted.
    peers: Vec<PeerPins>,
    counts: Counts,
}

impl Model for PinTable {
    ghost use Rattle.nob_pins.specs.Bundles.{Table};
    ghost use Rattle.nob_pins.specs.Peers.{all_pinned, rooms_of, AreByPeer, AreCounted};

    ghost Value = { Table };

    ghost view = { λ t. record {
      bundles = all_pinned t.peers.items;
      rooms = rooms_of t.peers.items;
      counts = t.counts.room;
    } };

    ghost invariant = { λ t. AreByPeer t.peers.items
        × AreCounted t.counts.rows (all_pinned t.peers.items) };
}

// A peer's number, at which its bundles stand.
fn number_of(peer: SpaceId) -> usize
    ensures value { result ≡ peer }
    ensures small { result ≤ most_spaces }
{
    usize::from(peer.get())
}

// The bundles of a peer, if they are made.
fn row_of(peers: &[PeerPins], peer: SpaceId) -> Option<&PeerPins>
    ensures { MatchOption result (slice_get peers.now peer ≡ None)
        (λ row. slice_get peers.now peer ≡ Some row.now) }
{
    peers.get(number_of(peer))
}

impl PinTable {
    /// A table with no bundle.
    pub fn new(alloc: Global) -> PinTable
        ensures { result.bundles ≡ [] }
    {
        PinTable {
            alloc,
            peers: Vec::new(alloc),
            counts: Counts::new(alloc),
        }
    }

    /// Makes room for one bundle: a `put` to this peer of pins on these references, right after it,
    /// takes no memory and succeeds. Only memory fails it, and not where there is room. What had
    /// room before has it still, whatever the answer. Linear in the references, on average.
    #[tactic(auto, unfolding(crate::specs::Bundles::has_room))]
    pub fn reserve(&mut self, peer: SpaceId, reps: &[WireRep]) -> Result<(), AllocError>
        ensures bundles { self.new.bundles ≡ self.old.bundles }
        ensures room { OnOk result (has_room self.new peer reps.now ≡ true) }
        ensures there { has_room self.old peer reps.now ≡ true → IsOk result }
        ensures kept { KeepsRoom self.old self.new }
    {
        if are_many(&self.counts, reps) {
            return Err(AllocError);
        }
        make_room(&mut self.peers, self.alloc, peer)?;
        self.counts.reserve(reps.len())
    }

    /// Takes a bundle of pins, all of this peer and item, of which the table has none yet. Only
    /// memory fails it, and not where there is room: the pins come back then. More pins on one
    /// reference than `u64` counts are want of memory too. Linear in the pins, on average.
    #[tactic(auto, unfolding(crate::specs::Bundles::has_room))]
    pub fn put(
        &mut self,
        peer: SpaceId,
        item: ItemNo,
        pins: Vec<TransitPin>,
    ) -> Result<(), AllocFailed<Vec<TransitPin>>>
        requires some { 0 < vec_len pins }
        requires pins { AreOf peer item pins.items }
        requires new { has_bundle self.old.bundles peer item ≡ false }
        ensures adds { OnOk result (Adds self.old.bundles self.new.bundles
            (bundle_of peer item (reps_of pins.items))) }
        ensures reserved { has_room self.old peer (reps_of pins.items) ≡ true → IsOk result }
        ensures err { OnErr result (Unchanged self.old self.new) }
        ensures returned { IfErr result (λ failed. failed.value.items ≡ pins.items) }
    {
        if are_many_pins(&self.counts, &pins) {
            return Err(AllocFailed { value: pins });
        }
        let Ok(()) = make_room(&mut self.peers, self.alloc, peer) else {
            return Err(AllocFailed { value: pins });
        };
        let Ok(()) = self.counts.reserve(pins.len()) else {
            return Err(AllocFailed { value: pins });
        };
        add_all(&mut self.counts, &pins);
        put_at(&mut self.peers, peer, Bundle::new(peer, item, pins));
        Ok(())
    }

    /// Takes out the one bundle of a peer and item that are settled, and hands its pins back: they
    /// are counted no longer, and the caller ends them (`spend_all`). G1 where there is none. It
    /// takes no memory. Linear in the bundle's pins, on average.
    #[tactic(auto, unfolding(crate::specs::Bundles::has_room))]
    pub fn take(&mut self, settled: &Settled) -> Result<Vec<TransitPin>, PinFault>
        ensures answer { MatchResult result
            (λ pins. AreOf settled.now.peer settled.now.item pins.items
            × Adds self.new.bundles self.old.bundles
            (bundle_of settled.now.peer settled.now.item (reps_of pins.items))
            × (has_bundle self.new.bundles settled.now.peer settled.now.item ≡ false))
            (λ fault. (fault ≡ PinFault.NoBundle)
            × (has_bundle self.old.bundles settled.now.peer settled.now.item ≡ false)
            × Unchanged self.old self.new) }
    {
        let Some(bundle) = take_at(&mut self.peers, settled.peer(), settled.item()) else {
            return Err(PinFault::NoBundle);
        };
        take_all(&mut self.counts, bundle.pins());
        Ok(bundle.into_pins())
    }

    /// Takes out some bundle of a peer, and hands its pins back: they are counted no longer, and
    /// the caller ends them (`give_up_all`, once the session with the peer has closed). `None` where
    /// the peer has no bundle. It takes no memory. Linear in the bundle's pins, on average.
    #[tactic(auto, unfolding(crate::specs::Bundles::has_room))]
    pub fn pop(&mut self, peer: SpaceId) -> Option<Vec<TransitPin>>
        ensures answer { MatchOption result
            ((of_peer peer self.old.bundles ≡ []) × Unchanged self.old self.new)
            (λ pins. ((item : ℕ) × AreOf peer item pins.items
            × Adds self.new.bundles self.old.bundles (bundle_of peer item (reps_of pins.items)))
            × (length (of_peer peer self.old.bundles)
            ≡ length (of_peer peer self.new.bundles) + 1)) }
        ensures pins { IfSome result (λ pins. AreTo peer pins.items) }
        ensures others { KeepsOthers self.old.bundles self.new.bundles peer }
    {
        let last = pop_at(&mut self.peers, peer)?;
        take_all(&mut self.counts, last.pins());
        Some(last.into_pins())
    }

    /// Ends the one bundle of a peer and item that are settled: the others stay, and none of the
    /// two is left. G1 where there is none. It takes no memory. Linear in the bundle's pins, on
    /// average.
    pub fn settle(&mut self, settled: &Settled) -> Result<(), PinFault>
        ensures answer { MatchResult result
            (λ _. TakesOut self.old.bundles self.new.bundles settled.now.peer settled.now.item)
            (λ fault. (fault ≡ PinFault.NoBundle)
            × (has_bundle self.old.bundles settled.now.peer settled.now.item ≡ false)
            × Unchanged self.old self.new) }
    {
        let pins = self.take(settled)?;
        spend_all(pins, settled);
        Ok(())
    }

    /// Ends the bundles of a peer whose session has closed. It takes no memory. Linear in the pins
    /// to this peer, on average.
    pub fn close(&mut self, closed: &Closed)
        ensures { TakesOutAll self.old.bundles self.new.bundles closed.now.peer }
    {
        while let Some(pins) = self.pop(closed.peer()) {
            give_up_all(pins, closed);
        }
    }

    /// Whether there is a bundle of a peer and item. One look-up.
    pub fn has(&self, peer: SpaceId, item: ItemNo) -> bool
        ensures { result ≡ has_bundle self.now.bundles peer item }
    {
        match row_of(&self.peers, peer) {
            Some(row) => row.has(item),
            None => false,
        }
    }

    /// How many bundles the peer has. Constant time.
    pub fn bundles(&self, peer: SpaceId) -> usize
        ensures { result ≡ length (of_peer peer self.now.bundles) }
    {
        match row_of(&self.peers, peer) {
            Some(row) => row.len(),
            None => 0,
        }
    }

    /// How often the reference is in transit, repeats included; a count past `u64::MAX` is that.
    /// One look-up.
    pub fn count(&self, rep: WireRep) -> u64
        ensures { result ≡ min (count_of self.now.bundles rep) (2 ^ 64 - 1) }
    {
        self.counts.get(rep)
    }

    /// Whether a reference of this owner is in transit. At most 7 steps in a tree.
    pub fn has_of(&self, owner: SpaceId) -> bool
        ensures found { result ≡ true → CountsOf self.now.bundles owner }
        ensures none { result ≡ false → (rep : WireRep) → rep.owner ≡ owner
            → count_of self.now.bundles rep ≡ 0 }
    {
        self.counts.has_of(owner)
    }

    /// Ends a table that has no bundle.
    pub fn end(self)
        requires { self.bundles ≡ [] }
    {
        let PinTable {
            alloc: _,
            peers,
            counts: _,
        } = self;
        end_all(peers);
    }
}

// Whether so many more pins on one of these references are too many to count.
fn are_many(counts: &Counts, reps: &[WireRep]) -> bool
    ensures { result ≡ list_any (is_many counts.now.rows (length reps.now)) reps.now }
{
    let most = u64::MAX - reps.len() as u64;
    reps.iter().any(|rep| counts.get(*rep) > most)
}

// The same of the references of these pins.
fn are_many_pins(counts: &Counts, pins: &[TransitPin]) -> bool
    ensures { result ≡ list_any (λ pin. is_many counts.now.rows (length pins.now) pin.rep) pins.now }
{
    let most = u64::MAX - pins.len() as u64;
    pins.iter().any(|pin| counts.get(pin.rep()) > most)
}

// Puts a peer that has no bundle behind the others.
fn push(peers: &mut Vec<PeerPins>, row: PeerPins) -> Result<(), AllocError>
    requires { row.pinned ≡ [] }
    ensures ok { OnOk result (peers.new.items ≡ peers.old.items ++ row ∷ []) }
    ensures err { OnErr result (peers.new.items ≡ peers.old.items) }
{
    match peers.push(row) {
        Ok(()) => Ok(()),
        Err(failed) => {
            failed.value.end();
            Err(AllocError)
        }
    }
}

// Makes the peers that aren't made yet, up to this number.
fn fill(peers: &mut Vec<PeerPins>, alloc: Global, number: usize) -> Result<(), AllocError>
    ensures pinned { all_pinned peers.new.items ≡ all_pinned peers.old.items }
    ensures peers { AreByPeer peers.old.items → AreByPeer peers.new.items }
    ensures kept { KeepsRooms peers.old.items peers.new.items }
    ensures made { OnOk result (number < length peers.new.items) }
    ensures there { number < length peers.old.items → IsOk result }
{
    while peers.len() <= number {
        let Ok(()) = push(peers, PeerPins::new(alloc)) else {
            return Err(AllocError);
        };
    }
    Ok(())
}

// Makes room for one bundle of this peer.
fn make_room(peers: &mut Vec<PeerPins>, alloc: Global, peer: SpaceId) -> Result<(), AllocError>
    ensures pinned { all_pinned peers.new.items ≡ all_pinned peers.old.items }
    ensures peers { AreByPeer peers.old.items → AreByPeer peers.new.items }
    ensures kept { KeepsRooms peers.old.items peers.new.items }
    ensures room { OnOk result (0 < get_or (rooms_of peers.new.items) peer 0) }
    ensures there { 0 < get_or (rooms_of peers.old.items) peer 0 → IsOk result }
{
    let at = number_of(peer);
    fill(peers, alloc, at)?;
    peers[at].reserve()
}

// Puts a bundle to those of its peer.
fn put_at(peers: &mut Vec<PeerPins>, peer: SpaceId, bundle: Bundle)
    requires room { 0 < get_or (rooms_of peers.old.items) peer 0 }
    requires peers { AreByPeer peers.old.items }
    requires peer { bundle.peer ≡ peer }
    requires new { has_bundle (all_pinned peers.old.items) peer bundle.item ≡ false }
    ensures adds { Adds (all_pinned peers.old.items) (all_pinned peers.new.items) bundle }
    ensures peers { AreByPeer peers.new.items }
{
    let at = number_of(peer);
    peers[at].put(bundle);
}

// Takes out the bundle of this peer and item.
fn take_at(peers: &mut Vec<PeerPins>, peer: SpaceId, item: ItemNo) -> Option<Bundle>
    requires { AreByPeer peers.old.items }
    ensures taken { MatchOption result
        ((has_bundle (all_pinned peers.old.items) peer item ≡ false)
        × (all_pinned peers.new.items ≡ all_pinned peers.old.items))
        (λ bundle. (bundle.peer ≡ peer) × (bundle.item ≡ item)
        × Adds (all_pinned peers.new.items) (all_pinned peers.old.items) bundle
        × (has_bundle (all_pinned peers.new.items) peer item ≡ false)) }
    ensures peers { AreByPeer peers.new.items }
    ensures kept { KeepsRooms peers.old.items peers.new.items }
{
    let at = number_of(peer);
    if at >= peers.len() {
        return None;
    }
    peers[at].take(item)
}

// Takes out the last bundle of this peer.
fn pop_at(peers: &mut Vec<PeerPins>, peer: SpaceId) -> Option<Bundle>
    requires { AreByPeer peers.old.items }
    ensures popped { MatchOption result
        ((of_peer peer (all_pinned peers.old.items) ≡ [])
        × (all_pinned peers.new.items ≡ all_pinned peers.old.items))
        (λ bundle. (bundle.peer ≡ peer)
        × Adds (all_pinned peers.new.items) (all_pinned peers.old.items) bundle) }
    ensures others { KeepsOthers (all_pinned peers.old.items) (all_pinned peers.new.items) peer }
    ensures peers { AreByPeer peers.new.items }
    ensures kept { KeepsRooms peers.old.items peers.new.items }
{
    let at = number_of(peer);
    if at >= peers.len() {
        return None;
    }
    peers[at].pop()
}

// Ends peers that have no bundle.
fn end_all(peers: Vec<PeerPins>)
    requires { all_pinned peers.items ≡ [] }
{
    let mut left = peers;
    while let Some(row) = left.pop() {
        row.end();
    }
    left.destroy_empty();
}
