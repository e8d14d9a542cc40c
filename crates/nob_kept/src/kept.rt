//! A space with its trace.

ghost use Rattle.std.specs.Prelude.{◌≡◌, ◌≢◌, ◌↔◌, ◌≤◌, ◌-◌, ◌⊎◌, [], ℕ, List, Some, None, true, Err, length, slice_get, IfOk, IfErr, IfSome, OnOk, OnErr};
ghost use Rattle.nob_model.specs.Next as next;
ghost use Rattle.nob_space.specs.Spaces.{StandsFor};
ghost use Rattle.nob_space.specs.Dues as dues;
ghost use Rattle.nob_chain.specs.Chains.{joined};
ghost use Rattle.nob_trace.specs.Stamps.{last_stamp};
ghost use Rattle.nob_kept.specs.Accounts as accounts;
ghost use Rattle.nob_kept.specs.Closing as closing;
ghost use Rattle.nob_kept.specs.Receipts as receipts;
ghost use Rattle.nob_model.specs.Tallies as tallies;
ghost use Rattle.nob_kept.specs.Segments as segments;
ghost use Rattle.nob_kept.specs.Seats.{AreAllThere, Has, HasAll, IsThere};
ghost use Rattle.nob_kept.specs.Summaries as summaries;
ghost use Rattle.nob_kept.specs.Spots as spots;
ghost use Rattle.nob_kept.specs.declared.keep.Keep.TheVariants as keeps;
ghost use Rattle.nob_kept.specs.declared.error.KeeperError.{KeeperError as KeeperErrorOf};

use crate::closing::{is_told, judge};
use crate::error::KeeperError;
use crate::identity::Identity;
use crate::keep::Keep;
use crate::noted::{Noted, find, make_room, put};
use crate::receipt::Receipt;
use crate::seat::Seat;
use crate::summary::{Summary, check_all, tallies_of};
use crate::trail::{
    LARGEST_SIZE, Trail, admit, chain_of, enter, entry_at, is_last, is_size, new_trail, room_to_end,
};
use nob_chain::{Chain, Segment};
use nob_ids::{CallNo, SpaceId};
use nob_model_types::{Backlog, Event, Here, List, Tally};
use nob_space::{Due, Space, Work};
use nob_trace::Stamped;
use std::alloc::{AllocError, Global};
use std::marker::Model;

/// A space with its trace: what it was asked since it was new, and what it answered. Contracts see
/// its number, how many spaces there are, its limits and its entries, whose results are right: all
/// of them, those too that aren't kept. It holds pins, so it can't be let go: `shut` ends it.
pub struct Kept {
    space: Space,
    trail: Trail,
    // The newest entry of each seat, where no others are kept.
    noted: Vec<Noted>,
}

impl Model for Kept {
    ghost use Rattle.nob_kept.specs.Accounts.{Account, account_of};
    ghost use Rattle.nob_kept.specs.Segments.{IsTrail};
    ghost use Rattle.nob_kept.specs.Staying.{AreStaying, places};

    ghost Value = { Account };

    ghost use Rattle.std.specs.Coded.{codes};
    ghost use Rattle.nob_pickle.specs.Marks.{trees_code};

    ghost coded = { Prim.hlevel (codes, trees_code) };

    ghost view = { λ kept. account_of kept.space kept.trail.keep kept.trail.size
        kept.trail.entries.items (places kept.noted.items) };

    ghost invariant = { λ kept. IsTrail kept.space kept.trail
        × AreStaying kept.trail.keep kept.trail.entries.items kept.noted.items };
}

impl Kept {
    /// A new space with its trace, which has no entry, and all of which is kept, in segments of 65,536
    /// entries. Only memory fails it, and then the space is handed back. The caller's conditions: the
    /// space has done nothing, and it is one of the spaces that there are.
    pub fn new(alloc: Global, space: Space) -> Result<Kept, Space>
        requires new { StandsFor space [] }
        requires some { 1 ≤ space.n }
        ensures kept { IfOk result (λ kept. kept
            ≡ accounts.account_of space keeps.All accounts.largest_size [] []) }
        ensures back { IfErr result (λ back. back ≡ space) }
    {
        Kept::keeping(alloc, space, Keep::All)
    }

    /// The same, which keeps all entries or nothing.
    pub fn keeping(alloc: Global, space: Space, keep: Keep) -> Result<Kept, Space>
        requires new { StandsFor space [] }
        requires some { 1 ≤ space.n }
        ensures kept { IfOk result (λ kept. kept
            ≡ accounts.account_of space keep accounts.largest_size [] []) }
        ensures back { IfErr result (λ back. back ≡ space) }
    {
        begun(alloc, space, keep, LARGEST_SIZE)
    }

    /// The same as `new`, with segments of so many entries: K5 where that isn't 1 to 65,536, before
    /// memory is asked for, else K2, and then the space is handed back.
    pub fn with_segment(
        alloc: Global,
        space: Space,
        size: u32,
    ) -> Result<Kept, (KeeperError, Space)>
        requires new { StandsFor space [] }
        requires some { 1 ≤ space.n }
        ensures kept { IfOk result (λ kept. kept
            ≡ accounts.account_of space keeps.All size [] []) }
        ensures size { OnOk result (segments.IsSize size) }
        ensures fault { IfErr result (λ back. segments.RefusesSize size back.0) }
        ensures back { IfErr result (λ back. back.1 ≡ space) }
    {
        if !is_size(size) {
            return Err((KeeperError::Size, space));
        }
        match begun(alloc, space, Keep::All, size) {
            Ok(kept) => Ok(kept),
            Err(space) => Err((KeeperError::OutOfMemory, space)),
        }
    }

    /// Which space it is.
    pub fn identity(&self) -> Identity
        ensures { result ≡ accounts.identity_of self.now }
    {
        Identity {
            space: self.space.id(),
            n: self.trail.n,
            limits: self.space.limits(),
        }
    }

    /// Whether it is this space.
    pub fn is_of(&self, identity: &Identity) -> bool
        ensures { (result ≡ true) ↔ (accounts.identity_of self.now ≡ identity.now) }
    {
        self.identity().is_same(*identity)
    }

    /// What is kept of the entries.
    pub fn keep(&self) -> Keep
        ensures { result ≡ self.now.keep }
    {
        self.trail.keep
    }

    /// The segments that are sealed, the first first, and the entries behind them, which aren't:
    /// together all entries, where all are kept, and else none.
    pub fn segments(&self) -> (&[Segment], &[Stamped])
        ensures account { accounts.IsAccount self.now }
        ensures cut { self.now.keep ≡ keeps.All → segments.IsCut self.now.id self.now.n
            self.now.size self.now.entries result.0.now result.1.now }
        ensures none { self.now.keep ≡ keeps.Nothing
            → (result.0.now ≡ []) × (result.1.now ≡ []) }
    {
        (self.trail.sealed.as_slice(), self.trail.entries.kept())
    }

    // The entry at a place, counted from 0, where all are kept.
    pub(crate) fn entry_at(&self, place: u64) -> Option<&Stamped>
        requires all { self.now.keep ≡ keeps.All }
        ensures some { IfSome result (λ entry.
            slice_get self.now.entries place ≡ Some entry.now) }
        ensures none { result ≡ None → slice_get self.now.entries place ≡ None }
    {
        let (sealed, unsealed) = self.segments();
        entry_at(sealed, self.trail.size, unsealed, place)
    }

    /// One event: its receipt, and an entry more, whose stamp is one more than the greater of the
    /// last stamp and `seen`. A refusal of the space makes an entry too. Where all is kept, an entry
    /// that fills a segment seals it. K3 where the last stamp is above 2^62 or `seen` is above 2^60,
    /// else K2, and then nothing has changed. It costs what the event costs at its space, and a copy
    /// more of the event and of what the answer owns than are kept; a seal costs a look at each
    /// session.
    pub fn append(&mut self, event: &Event, seen: u64) -> Result<Receipt, KeeperError>
        ensures next { IfOk result (λ receipt. receipts.IsNext self.old event.now seen receipt) }
        ensures entry { IfOk result (λ receipt. self.new
            ≡ accounts.with_next self.old (receipts.entry_of receipt)) }
        // K3 comes exactly where it is due.
        ensures fault { (fault : KeeperErrorOf)
            → accounts.fault_of self.old seen ≡ Some fault → result ≡ Err fault }
        ensures only { IfErr result (λ error. error ≢ KeeperError.OutOfMemory
            → accounts.fault_of self.old seen ≡ Some error) }
        ensures err { OnErr result (self.new ≡ self.old) }
    {
        self.admit(seen)?;
        let Ok((receipt, _entry)) = enter(&mut self.space, &mut self.trail, event, seen) else {
            return Err(KeeperError::OutOfMemory);
        };
        Ok(receipt)
    }

    // One event that nothing but want of memory refuses, for a seat whose newest entry stays at a spot.
    pub(crate) fn append_at(
        &mut self,
        spot: usize,
        event: &Event,
        seen: u64,
    ) -> Result<Receipt, AllocError>
        requires spot { spots.IsSpot self.old spot }
        requires low { last_stamp 0 self.old.entries ≤ accounts.last_stamped }
        requires seen { seen ≤ accounts.last_seen }
        ensures next { IfOk result (λ receipt. receipts.IsNext self.old event.now seen receipt) }
        ensures entry { IfOk result (λ receipt. self.new ≡ accounts.with_noted
            (spots.noted_next self.old spot)
            (accounts.with_next self.old (receipts.entry_of receipt))) }
        ensures err { OnErr result (self.new ≡ self.old) }
    {
        make_room(&mut self.noted, self.trail.keep)?;
        let (receipt, entry) = enter(&mut self.space, &mut self.trail, event, seen)?;
        if let Some(entry) = entry {
            let place = receipt.place;
            put(&mut self.noted, spot, Noted { place, entry });
        }
        Ok(receipt)
    }

    /// K4 where the trace hasn't the newest receipt of a seat, or, where nothing is kept, its entry
    /// isn't the newest of a seat here. A seat that asks this keeper alone never meets the second. It
    /// costs what that receipt owns.
    pub fn check(&self, seat: &Seat) -> Result<(), KeeperError>
        ensures account { accounts.IsAccount self.now }
        ensures ok { OnOk result (Has self.now.entries seat.now) }
        ensures there { OnOk result (IsThere self.now seat.now) }
        ensures err { IfErr result (λ error. (error ≡ KeeperError.Seats)
            × (Has self.now.entries seat.now → IsThere self.now seat.now → ⊥)) }
    {
        self.spot_of(seat)?;
        Ok(())
    }

    // Where the newest entry of a seat stays, K4 as `check`. A seat without one gets a new spot.
    pub(crate) fn spot_of(&self, seat: &Seat) -> Result<usize, KeeperError>
        ensures account { accounts.IsAccount self.now }
        ensures ok { OnOk result (Has self.now.entries seat.now) }
        ensures spot { IfOk result (λ spot. spots.IsSpotOf self.now seat.now spot) }
        ensures err { IfErr result (λ error. (error ≡ KeeperError.Seats)
            × (Has self.now.entries seat.now → IsThere self.now seat.now → ⊥)) }
    {
        let Some(receipt) = seat.newest() else {
            return Ok(self.noted.len());
        };
        match self.trail.keep {
            Keep::All => {
                if is_told(receipt, self) {
                    return Ok(0);
                }
                Err(KeeperError::Seats)
            }
            Keep::Nothing => find(self.noted.as_slice(), seat.spot(), receipt),
        }
    }

    /// K3 where the last stamp is too great, or the one that was seen.
    pub fn admit(&self, seen: u64) -> Result<(), KeeperError>
        ensures ok { OnOk result (accounts.fault_of self.now seen ≡ None) }
        ensures low { OnOk result (last_stamp 0 self.now.entries ≤ accounts.last_stamped) }
        ensures seen { OnOk result (seen ≤ accounts.last_seen) }
        ensures err { IfErr result (λ error. accounts.fault_of self.now seen ≡ Some error) }
    {
        admit(self.trail.last, seen)
    }

    /// How many spaces there are, named by the last of them.
    pub fn n(&self) -> SpaceId
        ensures { result ≡ self.now.n }
    {
        self.trail.n
    }

    /// How many entries the trace has, those too that aren't kept.
    pub fn len(&self) -> u64
        ensures { result ≡ length self.now.entries }
    {
        self.trail.entries.len()
    }

    /// Whether the trace is full: its last stamp is above 2^62. No run gets there by counting.
    pub fn is_full(&self) -> bool
        ensures { result ≡ accounts.is_full self.now }
    {
        is_last(self.trail.last)
    }

    /// Whether TakeReply of a call would say anything but that the reply isn't ready. It costs what
    /// `Space::reply_ready` costs.
    pub fn reply_ready(&self, call: CallNo) -> bool
        ensures { result ≡ next.reply_ready call (accounts.history_in self.now) }
    {
        self.space.reply_ready(call)
    }

    /// What the space could do next. It costs what `Space::work` costs.
    pub fn work(&self) -> Work
        ensures act { (p : ℕ) → 1 ≤ p → p ≤ 32 → slice_get result.act (p - 1)
            ≡ Some (next.can_act self.now.id self.now.n p (accounts.history_in self.now)) }
        ensures send { (p : ℕ) → 1 ≤ p → p ≤ 32 → slice_get result.send (p - 1)
            ≡ Some (next.can_send self.now.id self.now.n p self.now.limits.window
            (accounts.history_in self.now)) }
        ensures settle { result.settle
            ≡ next.can_settle self.now.id self.now.n (accounts.history_in self.now) }
        ensures clean { result.clean
            ≡ next.can_clean self.now.id self.now.n (accounts.history_in self.now) }
        ensures claim { result.claim ≡ next.can_claim (accounts.history_in self.now) }
        ensures withdraw { result.withdraw
            ≡ next.to_withdraw self.now.id (accounts.history_in self.now) }
    {
        self.space.work()
    }

    /// Whether the space could claim a job. It costs what `Space::can_claim` costs.
    pub fn can_claim(&self) -> bool
        ensures { result ≡ next.can_claim (accounts.history_in self.now) }
    {
        self.space.can_claim()
    }

    /// Whether the space could settle. It costs what `Space::can_settle` costs.
    pub fn can_settle(&self) -> bool
        ensures { result ≡ next.can_settle self.now.id self.now.n (accounts.history_in self.now) }
    {
        self.space.can_settle()
    }

    /// Whether the space could clean. It costs what `Space::can_clean` costs.
    pub fn can_clean(&self) -> bool
        ensures { result ≡ next.can_clean self.now.id self.now.n (accounts.history_in self.now) }
    {
        self.space.can_clean()
    }

    /// The first object that the space could withdraw. It costs what `Space::to_withdraw` costs.
    pub fn to_withdraw(&self) -> Option<u64>
        ensures { result ≡ next.to_withdraw self.now.id (accounts.history_in self.now) }
    {
        self.space.to_withdraw()
    }

    /// What a Transmit to a peer would give. Constant time.
    pub fn due(&self, peer: SpaceId) -> Due
        ensures { result ≡ dues.due self.now.id self.now.n peer self.now.limits.window
            (accounts.history_in self.now) }
    {
        self.space.due(peer)
    }

    /// What went each way on the session with a peer, and how it ended: none where it is no peer.
    /// Constant time, and no memory.
    pub fn tally(&self, peer: SpaceId) -> Option<Tally>
        ensures account { accounts.IsAccount self.now }
        ensures tally { result ≡ summaries.tally_in self.now peer }
    {
        let here = Here {
            space: self.space.id(),
            n: self.space.n(),
        };
        if !here.is_peer(peer) {
            return None;
        }
        Some(self.space.tally(peer))
    }

    /// How many objects are live. Constant time, and no memory.
    pub fn live(&self) -> u64
        ensures account { accounts.IsAccount self.now }
        ensures live { result ≡ tallies.live_count self.now.id (accounts.history_in self.now) }
    {
        self.space.live()
    }

    /// How many own calls aren't taken, how many jobs are ready, and how many run. Constant time, and
    /// no memory.
    pub fn backlog(&self) -> Backlog
        ensures account { accounts.IsAccount self.now }
        ensures backlog { result ≡ tallies.backlog (accounts.history_in self.now) }
    {
        self.space.backlog()
    }

    /// What the entries come to, in numbers. Only memory fails it. It costs a look at each session.
    pub fn summary(&self) -> Result<Summary, AllocError>
        ensures { IfOk result (λ summary. summaries.IsSummary self.now summary) }
    {
        let alloc = *self.noted.allocator();
        let peers = tallies_of(alloc, self)?;
        Ok(Summary {
            space: self.space.id(),
            n: self.trail.n,
            entries: self.trail.entries.len(),
            last_stamp: self.trail.last,
            live: self.space.live(),
            peers: List::from_vec(peers),
        })
    }

    /// The chain of all entries, where the seats' receipts are those of its entries, each once: else
    /// K4, or K2 where memory is wanted, and all is handed back; so it is where the entries or the
    /// receipts of a seat weren't kept (`NoTrace`): `end_with` ends such a one. What isn't sealed yet
    /// is sealed, and the space is ended. Linear in the entries and what they own, which it compares
    /// and doesn't copy.
    pub fn close_with(self, seats: Vec<Seat>) -> Result<Chain, (KeeperError, Kept, Vec<Seat>)>
        ensures chain { IfOk result (λ chain. accounts.account_in self.size chain ≡ self) }
        ensures receipts { IfOk result (λ chain.
            closing.AreOf (joined chain).entries (closing.receipts_of seats.items)) }
        ensures sealed { IfOk result (λ chain. segments.IsSealedChain chain) }
        ensures filled { IfOk result (λ chain. segments.AreFilled self.size chain.segments) }
        ensures size { segments.IsSize self.size }
        // K4 comes only where it is due.
        ensures seats { IfErr result (λ back. back.0 ≡ KeeperError.Seats
            → closing.AreOf self.entries (closing.receipts_of seats.items) → ⊥) }
        ensures kept { IfErr result (λ back. back.1 ≡ self) }
        ensures back { IfErr result (λ back. back.2.items ≡ seats.items) }
        ensures unkept { self.keep ≡ keeps.Nothing → IfErr result (λ back.
            back.0 ≡ KeeperError.NoTrace) }
        ensures ended { OnOk result (self.keep ≡ keeps.All) }
        ensures only { IfErr result (λ back. (back.0 ≡ KeeperError.Seats)
            ⊎ ((back.0 ≡ KeeperError.OutOfMemory) ⊎ (back.0 ≡ KeeperError.NoTrace))) }
    {
        let Keep::All = self.trail.keep else {
            return Err((KeeperError::NoTrace, self, seats));
        };
        let alloc = *self.noted.allocator();
        if let Err(error) = judge(alloc, &self, seats.as_slice()) {
            return Err((error, self, seats));
        }
        match self.sealed() {
            Ok(chain) => Ok(chain),
            Err(kept) => Err((KeeperError::OutOfMemory, kept, seats)),
        }
    }

    // The chain of all entries, all sealed. Only memory fails it, and then it is as it was.
    fn sealed(self) -> Result<Chain, Kept>
        requires all { self.keep ≡ keeps.All }
        ensures chain { IfOk result (λ chain. accounts.account_in self.size chain ≡ self) }
        ensures sealed { IfOk result (λ chain. segments.IsSealedChain chain) }
        ensures filled { IfOk result (λ chain. segments.AreFilled self.size chain.segments) }
        ensures size { segments.IsSize self.size }
        ensures kept { IfErr result (λ back. back ≡ self) }
    {
        let Kept {
            space,
            mut trail,
            noted,
        } = self;
        let Ok(room) = room_to_end(&mut trail) else {
            return Err(Kept {
                space,
                trail,
                noted,
            });
        };
        let chain = chain_of(&space, trail, room);
        space.shut();
        Ok(chain)
    }

    /// What the entries come to, whether they were kept or not, where the newest receipt of each seat
    /// is told of them and its entry is still there: else K4, or K2 where memory is wanted, and all is
    /// handed back. The space is ended. It costs what these receipts own, and a look at each session.
    pub fn end_with(self, seats: Vec<Seat>) -> Result<Summary, (KeeperError, Kept, Vec<Seat>)>
        ensures summary { IfOk result (λ summary. summaries.IsSummary self summary) }
        ensures receipts { OnOk result (HasAll self.entries seats.items) }
        ensures account { OnOk result (accounts.IsAccount self) }
        // K4 comes only where it is due.
        ensures seats { IfErr result (λ back. back.0 ≡ KeeperError.Seats
            → HasAll self.entries seats.items → AreAllThere self seats.items → ⊥) }
        ensures kept { IfErr result (λ back. back.1 ≡ self) }
        ensures back { IfErr result (λ back. back.2.items ≡ seats.items) }
        ensures only { IfErr result (λ back. (back.0 ≡ KeeperError.Seats)
            ⊎ (back.0 ≡ KeeperError.OutOfMemory)) }
    {
        if let Err(error) = check_all(&self, seats.as_slice()) {
            return Err((error, self, seats));
        }
        let Ok(summary) = self.summary() else {
            return Err((KeeperError::OutOfMemory, self, seats));
        };
        self.shut();
        Ok(summary)
    }

    /// The same as `close_with` for the space of an identity: K4 too where it is another.
    pub fn close_as(
        self,
        identity: &Identity,
        seats: Vec<Seat>,
    ) -> Result<Chain, (KeeperError, Kept, Vec<Seat>)>
        ensures identity { IfOk result (λ chain. accounts.identity_on chain ≡ identity.now) }
        ensures receipts { IfOk result (λ chain.
            closing.AreOf (joined chain).entries (closing.receipts_of seats.items)) }
        ensures sealed { IfOk result (λ chain. segments.IsSealedChain chain) }
        ensures filled { IfOk result (λ chain. segments.AreSomeFilled chain.segments) }
        ensures kept { IfErr result (λ back. back.1 ≡ self) }
        ensures back { IfErr result (λ back. back.2.items ≡ seats.items) }
        ensures only { IfErr result (λ back. (back.0 ≡ KeeperError.Seats)
            ⊎ ((back.0 ≡ KeeperError.OutOfMemory) ⊎ (back.0 ≡ KeeperError.NoTrace))) }
    {
        if !self.is_of(identity) {
            return Err((KeeperError::Seats, self, seats));
        }
        self.close_with(seats)
    }

    /// The same as `end_with` for the space of an identity: K4 too where it is another.
    pub fn end_as(
        self,
        identity: &Identity,
        seats: Vec<Seat>,
    ) -> Result<Summary, (KeeperError, Kept, Vec<Seat>)>
        ensures summary { IfOk result (λ summary.
            summaries.IsSummaryOf identity.now seats.items summary) }
        ensures kept { IfErr result (λ back. back.1 ≡ self) }
        ensures back { IfErr result (λ back. back.2.items ≡ seats.items) }
        ensures only { IfErr result (λ back. (back.0 ≡ KeeperError.Seats)
            ⊎ (back.0 ≡ KeeperError.OutOfMemory)) }
    {
        if !self.is_of(identity) {
            return Err((KeeperError::Seats, self, seats));
        }
        self.end_with(seats)
    }

    /// Ends the space: it closes all its sessions and tells nobody. The trace is gone.
    pub fn shut(self) {
        let Kept {
            space,
            trail: _trail,
            noted: _noted,
        } = self;
        space.shut();
    }
}

// A new space of whose entries this is kept, in segments of so many. It takes no memory.
fn begun(alloc: Global, space: Space, keep: Keep, size: u32) -> Result<Kept, Space>
    requires new { StandsFor space [] }
    requires some { 1 ≤ space.n }
    requires size { segments.IsSize size }
    ensures kept { IfOk result (λ kept. kept ≡ accounts.account_of space keep size [] []) }
    ensures back { IfErr result (λ back. back ≡ space) }
{
    let Some(n) = SpaceId::new(space.n()) else {
        return Err(space);
    };
    Ok(Kept {
        space,
        trail: new_trail(alloc, n, keep, size),
        noted: Vec::new(alloc),
    })
}
