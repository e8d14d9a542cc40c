//! What a space did, indexed.

ghost use Rattle.std.specs.Prelude.{◌≡◌, Bool, ◌∷◌, [], reverse, IfOk};
ghost use Rattle.std.specs.List.{list_all};
ghost use Rattle.std.specs.Option.{option_map};
ghost use Rattle.nob_model_types.specs.Sessions as sessions;
ghost use Rattle.nob_model_types.specs.Objects as objects;
ghost use Rattle.nob_model_types.specs.Turns as asked;
ghost use Rattle.nob_model_history.specs.Holds as holds;
ghost use Rattle.nob_model_history.specs.Transit as transit;
ghost use Rattle.nob_model_journal.specs.Losses as losses;
ghost use Rattle.nob_model_journal.specs.Tests as tests;
ghost use Rattle.nob_check_index.specs.ActedSessions.{SessionTest};
ghost use Rattle.nob_check_index.specs.Sources.{SourceTest};

use crate::lists::Past;
use crate::lookups::{Lookups, new_lookups, with_deed};
use nob_ids::{ItemNo, SpaceId, WireRep};
use nob_item::Item;
use nob_model_journal::Source;
use nob_model_types::{Deed, Here, Turns};
use std::alloc::{AllocError, Global};
use std::marker::Model;

/// What a space did, with tables in which each question about it is looked up: no look-up reads the
/// deeds. Contracts see what it did, the newest first.
pub struct DeedIndex {
    here: Here,
    past: Past,
    lookups: Lookups,
}

// By hand, so that the many tables are taken apart here alone and not at each end of each caller.
impl Drop for DeedIndex {
    fn drop(self) {
        let DeedIndex {
            here: _,
            past: _,
            lookups: _,
        } = self;
    }
}

impl Model for DeedIndex {
    ghost use Rattle.std.specs.Prelude.{◌≡◌};
    ghost use Rattle.nob_check_index.specs.declared.lists.SpaceDeeds.{SpaceDeeds};
    ghost use Rattle.nob_check_index.specs.Lookups.{lookups_of};

    ghost Value = { SpaceDeeds };

    ghost use Rattle.std.specs.Coded.{codes};
    ghost use Rattle.nob_pickle.specs.Marks.{trees_code};

    ghost coded = { Prim.hlevel (codes, trees_code) };

    ghost view = { λ index. record { here = index.here; deeds = index.past } };

    // The tables are those of the deeds.
    ghost invariant = { λ index. index.lookups
        ≡ lookups_of index.here.space index.here.n index.past };
}

impl DeedIndex {
    /// A space that did nothing.
    pub fn new(alloc: Global, here: Here) -> DeedIndex
        ensures { result ≡ record { here = here; deeds = [] } }
    {
        let past = Past::none(alloc);
        let lookups = new_lookups(alloc, &here);
        DeedIndex {
            here,
            past,
            lookups,
        }
    }

    /// The space, and among how many.
    pub fn here(&self) -> Here
        ensures { result ≡ self.now.here }
    {
        self.here
    }

    /// What the space did with one deed more. Only memory fails it. It looks up what the deed
    /// touches.
    pub fn with_deed(self, alloc: Global, deed: Deed) -> Result<DeedIndex, AllocError>
        ensures { IfOk result (λ more. more
            ≡ record { here = self.here; deeds = deed ∷ self.deeds }) }
    {
        let DeedIndex {
            here,
            past,
            lookups,
        } = self;
        let lookups = with_deed(alloc, &deed, lookups)?;
        let past = past.with_deed(deed)?;
        Ok(DeedIndex {
            here,
            past,
            lookups,
        })
    }

    /// Whether the session with a peer has closed here. Linear in the peers.
    pub fn is_closed(&self, peer: SpaceId) -> bool
        ensures { result ≡ sessions.closed peer self.now.deeds }
    {
        self.lookups.tables.closed.has(peer)
    }

    /// The number of the session with a peer. Constant time on average.
    pub fn number(&self, peer: SpaceId) -> u32
        ensures { result ≡ sessions.number peer self.now.deeds }
    {
        self.lookups.tables.numbers.number(peer)
    }

    /// An item from a peer, where its payload came and spells one. Constant time on average.
    pub fn item_at(&self, peer: SpaceId, number: ItemNo) -> Option<&Item>
        ensures { option_map (λ item. item.now) result
            ≡ sessions.item_at peer number self.now.deeds }
    {
        self.lookups.tables.came.item_at(peer, number)
    }

    /// What was asked of the owner of a reference, and answered. Constant time on average.
    pub fn turns(&self, rep: &WireRep) -> Turns
        ensures { result ≡ asked.turns self.now.here.space self.now.here.n rep.now self.now.deeds }
    {
        self.lookups.tables.rows.turns(rep)
    }

    /// Whether the space exported the object of an index. Constant time on average.
    pub fn is_exported(&self, index: u64) -> bool
        ensures { result ≡ objects.is_exported self.now.here.space index self.now.deeds }
    {
        self.lookups
            .more
            .objects
            .is_exported(self.here.space, index)
    }

    /// Whether the object of an index is live: exported and never withdrawn. Constant time on
    /// average.
    pub fn is_live(&self, index: u64) -> bool
        ensures { result ≡ objects.is_live self.now.here.space index self.now.deeds }
    {
        self.lookups.more.objects.is_live(self.here.space, index)
    }

    /// How often a reference came into the hand. Constant time on average.
    pub fn gain_count(&self, rep: &WireRep) -> u64
        ensures { result ≡ holds.times rep.now (holds.gains self.now.deeds) }
    {
        self.lookups.more.hand.gains.count(rep)
    }

    /// How often a reference was released. Constant time on average.
    pub fn release_count(&self, rep: &WireRep) -> u64
        ensures { result ≡ holds.times rep.now (holds.releases self.now.deeds) }
    {
        self.lookups.more.hand.releases.count(rep)
    }

    /// Whether the Settle of the item of a number came from the peer it was sent to, and was acted
    /// on. Constant time on average.
    pub fn is_settled(&self, peer: SpaceId, number: ItemNo) -> bool
        ensures { result ≡ transit.is_settled peer number self.now.deeds }
    {
        self.lookups.more.traffic.settlements.has(peer, number)
    }

    /// The copies of a reference that were acted on since it was given up last, or the session with
    /// its owner was opened anew, the first first: who sent each, in which session, and in which
    /// item. Constant time on average.
    pub fn sources(&self, rep: &WireRep) -> &[Source]
        ensures value { result.now ≡ reverse
            (losses.sources self.now.here.space self.now.here.n rep.now self.now.deeds) }
        ensures all { (test : SourceTest) → list_all test result.now
            ≡ list_all test (losses.sources self.now.here.space self.now.here.n rep.now
            self.now.deeds) }
    {
        self.lookups.more.traffic.sources.sources(rep)
    }

    /// The sessions in which items were acted on, each once, the first first: the peer, and the
    /// number of the session with it. Constant time.
    pub fn sessions(&self) -> &[(SpaceId, u32)]
        ensures value { result.now ≡ reverse (tests.sessions_in self.now.deeds) }
        ensures all { (test : SessionTest) → list_all test result.now
            ≡ list_all test (tests.sessions_in self.now.deeds) }
    {
        self.lookups.more.traffic.sessions.as_slice()
    }
}
