//! What a space sent, with tables of how much went to each peer in each session, of where each
//! reference was sent, and of where each item stands.

ghost use Rattle.std.specs.Prelude.{◌≡◌, ◌∷◌, ◌++◌, ◌&&◌, [], find, slice_get, option_and_then, IfOk};
ghost use Rattle.std.specs.List.{list_any};
ghost use Rattle.std.specs.Option.{option_map};
ghost use Rattle.nob_item.specs.Kinds.{counted_in};
ghost use Rattle.nob_model_types.specs.Turns.{carries};
ghost use Rattle.nob_model_history.specs.Transit.{count_to as count_word, next_sent as next_word, owner_sessions as owners_word};
ghost use Rattle.nob_check_ledgers.specs.Sent as words;

use crate::standing::{ItemName, Standings};
use indexmap::IndexMap;
use nob_check_index::DeedIndex;
use nob_ids::{ItemNo, SpaceId, WireRep};
use nob_item::Item;
use nob_model_history::SentItem;
use nob_model_types::List;
use nob_model_work::Gift;
use std::alloc::{AllocError, Global};
use std::marker::Model;

/// Where an item was sent, and its number, for a reference that it carries.
#[derive(Clone, Copy, Debug, PartialEq, Eq)]
pub struct Place {
    /// The peer that it was sent to.
    pub to: SpaceId,
    /// The number of the session with the peer.
    pub session: u32,
    /// Its number.
    pub number: ItemNo,
    /// The number of the session with the owner of the reference in which it was sent.
    pub with_owner: u32,
}

/// Where items were sent, the first first. Contracts see the list.
#[derive(Debug, Drop)]
pub struct Places {
    places: Vec<Place>,
}

impl Model for Places {
    ghost use Rattle.std.specs.Prelude.{List};
    ghost use Rattle.nob_check_ledgers.specs.declared.sent.Place.{Place};

    ghost Value = { List Place };

    ghost view = { λ places. places.places.items };
}

impl Places {
    /// None.
    pub fn none(alloc: Global) -> Places
        ensures { result ≡ [] }
    {
        Places {
            places: Vec::new(alloc),
        }
    }

    /// The places.
    pub fn as_slice(&self) -> &[Place]
        ensures { result.now ≡ self.now }
    {
        self.places.as_slice()
    }

    // These and one more.
    fn with_place(self, place: Place) -> Result<Places, AllocError>
        ensures { IfOk result (λ more. more ≡ self ++ place ∷ []) }
    {
        let Places { mut places } = self;
        places.push(place)?;
        Ok(Places { places })
    }
}

// These places, none where there is no row.
fn found_places(alloc: Global, places: Option<Places>) -> Places
    ensures { result ≡ words.found_places places }
{
    match places {
        Some(places) => places,
        None => Places::none(alloc),
    }
}

/// How many items were sent to each peer in each session. Contracts see the pairs, in the order in
/// which the sessions came.
pub struct SentCounts {
    map: IndexMap<(SpaceId, u32), u64>,
}

// By hand, so that the table is taken apart here alone and not at each end of each caller.
impl Drop for SentCounts {
    fn drop(self) {
        let SentCounts { map: _ } = self;
    }
}

impl Model for SentCounts {
    ghost use Rattle.std.specs.Prelude.{ℕ, List};

    ghost Value = { List ((ℕ × ℕ) × ℕ) };

    ghost view = { λ counts. counts.map.entries };
}

impl SentCounts {
    /// Nothing was sent.
    pub fn none(alloc: Global) -> SentCounts
        ensures { result ≡ [] }
    {
        SentCounts {
            map: IndexMap::new(alloc),
        }
    }

    /// How many items were sent to a peer in a session. Constant time on average.
    pub fn count(&self, peer: SpaceId, session: u32) -> u64
        ensures { result ≡ words.count_in peer session self.now }
    {
        match self.map.get(&(peer, session)) {
            Some(count) => *count,
            None => 0,
        }
    }

    // These with another count of a session.
    fn with_count(self, peer: SpaceId, session: u32, count: u64) -> Result<SentCounts, AllocError>
        ensures { IfOk result (λ more. more ≡ words.with_count peer session count self) }
    {
        let SentCounts { mut map } = self;
        map.insert((peer, session), count)?;
        Ok(SentCounts { map })
    }
}

/// Where each reference was sent. Contracts see the rows, in the order in which the references
/// came.
pub struct Carriers {
    map: IndexMap<WireRep, Places>,
}

// By hand, so that the table is taken apart here alone and not at each end of each caller.
impl Drop for Carriers {
    fn drop(self) {
        let Carriers { map: _ } = self;
    }
}

impl Model for Carriers {
    ghost use Rattle.std.specs.Prelude.{List};
    ghost use Rattle.nob_ids.specs.declared.wire_rep.WireRep.{WireRep};
    ghost use Rattle.nob_check_ledgers.specs.declared.sent.Place.{Place};

    ghost Value = { List (WireRep × List Place) };

    ghost view = { λ carriers. carriers.map.entries };
}

impl Carriers {
    /// Nothing was sent.
    pub fn none(alloc: Global) -> Carriers
        ensures { result ≡ [] }
    {
        Carriers {
            map: IndexMap::new(alloc),
        }
    }

    /// Where a reference was sent. Constant time on average.
    pub fn places(&self, rep: &WireRep) -> &[Place]
        ensures { result.now ≡ words.places_in rep.now self.now }
    {
        match self.map.get(rep) {
            Some(places) => places.as_slice(),
            None => &[],
        }
    }

    // Where a reference was sent, and these without it.
    fn taken(self, alloc: Global, rep: WireRep) -> Result<(Places, Carriers), AllocError>
        ensures places { IfOk result (λ taken. taken.0 ≡ words.places_in rep self) }
        ensures others { IfOk result (λ taken. taken.1 ≡ words.with_places rep [] self) }
    {
        let Carriers { mut map } = self;
        match map.insert(rep, Places::none(alloc)) {
            Ok(before) => Ok((found_places(alloc, before), Carriers { map })),
            Err(_) => Err(AllocError),
        }
    }

    // These with other places of a reference.
    fn with_places(self, rep: WireRep, places: Places) -> Result<Carriers, AllocError>
        ensures { IfOk result (λ rows. rows ≡ words.with_places rep places self) }
    {
        let Carriers { mut map } = self;
        map.insert(rep, places)?;
        Ok(Carriers { map })
    }
}

// These once a reference was sent to one place more.
#[tactic(auto, using(crate::proofs::Sending::place_put))]
fn with_place(
    alloc: Global,
    rep: &WireRep,
    place: &Place,
    carriers: Carriers,
) -> Result<Carriers, AllocError>
    ensures { IfOk result (λ more. more ≡ words.with_place rep.now place.now carriers) }
{
    let (before, others) = carriers.taken(alloc, *rep)?;
    let places = before.with_place(*place)?;
    others.with_places(*rep, places)
}

// Where a reference is sent by an item of this number after what was done.
fn new_place(past: &DeedIndex, to: SpaceId, number: ItemNo, rep: &WireRep) -> Place
    ensures { result ≡ words.new_place past.now.deeds to number rep.now }
{
    Place {
        to,
        session: past.number(to),
        number,
        with_owner: past.number(rep.owner),
    }
}

// These once each of some references was sent to one place more: an item has few.
fn with_all(
    alloc: Global,
    past: &DeedIndex,
    to: SpaceId,
    number: ItemNo,
    reps: &[WireRep],
    carriers: Carriers,
) -> Result<Carriers, AllocError>
    ensures { IfOk result (λ more. more
        ≡ words.with_all past.now.deeds to number reps.now carriers) }
{
    match reps {
        [] => Ok(carriers),
        [rep, others @ ..] => {
            let place = new_place(past, to, number, rep);
            let more = with_place(alloc, rep, &place, carriers)?;
            with_all(alloc, past, to, number, others, more)
        }
    }
}

// The numbers of the sessions with the owners of some references.
fn owner_sessions(alloc: Global, past: &DeedIndex, reps: &[WireRep]) -> Result<Vec<u32>, AllocError>
    ensures { IfOk result (λ owners. owners.items ≡ owners_word past.now.deeds reps.now) }
{
    reps.iter().map(|rep| past.number(rep.owner)).collect(alloc)
}

// These once each reference of a gift was sent by the item of this number.
fn with_places(
    alloc: Global,
    past: &DeedIndex,
    gift: &Gift,
    count: u64,
    carriers: Carriers,
) -> Result<Carriers, AllocError>
    ensures { IfOk result (λ more. more
        ≡ words.with_all past.now.deeds gift.now.to count (counted_in gift.now.item) carriers) }
{
    let reps = nob_item::counted_refs(alloc, &gift.item)?;
    with_all(
        alloc,
        past,
        gift.to,
        ItemNo::new(count),
        reps.as_slice(),
        carriers,
    )
}

// What is sent as a gift under this number after what was done.
fn next_item(
    alloc: Global,
    past: &DeedIndex,
    gift: &Gift,
    count: u64,
) -> Result<SentItem, AllocError>
    ensures { IfOk result (λ next. next ≡ words.item_by past.now.deeds gift.now count) }
{
    let reps = nob_item::counted_refs(alloc, &gift.item)?;
    let owners = owner_sessions(alloc, past, reps.as_slice())?;
    let item = gift.item.copy()?;
    Ok(SentItem {
        to: gift.to,
        session: past.number(gift.to),
        number: ItemNo::new(count),
        item,
        owners: List::from_vec(owners),
    })
}

// The item at a place, where there is one.
fn item_at(sent_items: &[SentItem], place: Option<usize>) -> Option<&SentItem>
    ensures { option_map (λ sent_item. sent_item.now) result
        ≡ option_and_then (slice_get sent_items.now) place }
{
    match place {
        Some(place) => sent_items.get(place),
        None => None,
    }
}

/// What a space sent, with the numbers, the first first. Contracts see the list.
pub struct SentItems {
    sent_items: Vec<SentItem>,
    counts: SentCounts,
    carriers: Carriers,
    standings: Standings,
}

// By hand, so that the tables are taken apart here alone and not at each end of each caller.
impl Drop for SentItems {
    fn drop(self) {
        let SentItems {
            sent_items: _,
            counts: _,
            carriers: _,
            standings: _,
        } = self;
    }
}

impl Model for SentItems {
    ghost use Rattle.std.specs.Prelude.{List};
    ghost use Rattle.nob_model_history.specs.declared.transit.SentItem.{SentItem};
    ghost use Rattle.nob_check_ledgers.specs.Sent.{Tell};

    ghost Value = { List SentItem };

    ghost use Rattle.std.specs.Coded.{codes};
    ghost use Rattle.nob_pickle.specs.Marks.{trees_code};

    ghost coded = { Prim.hlevel (codes, trees_code) };

    ghost view = { λ sent_items. sent_items.sent_items.items };

    // The tables are those of the items.
    ghost invariant = { λ sent_items. Tell sent_items.counts sent_items.carriers
        sent_items.standings sent_items.sent_items.items };
}

impl SentItems {
    /// Nothing was sent.
    #[tactic(auto, using(crate::proofs::Sending::tell_none))]
    pub fn none(alloc: Global) -> SentItems
        ensures { result ≡ [] }
    {
        let sent_items = Vec::new(alloc);
        let counts = SentCounts::none(alloc);
        let carriers = Carriers::none(alloc);
        let standings = Standings::none(alloc);
        SentItems {
            sent_items,
            counts,
            carriers,
            standings,
        }
    }

    /// The items.
    pub fn as_slice(&self) -> &[SentItem]
        ensures { result.now ≡ self.now }
    {
        self.sent_items.as_slice()
    }

    /// How many items were sent to a peer in a session. Constant time on average.
    pub fn count_to(&self, peer: SpaceId, session: u32) -> u64
        ensures { result ≡ count_word peer session self.now }
    {
        self.counts.count(peer, session)
    }

    /// Where a reference was sent: a test holds of one of these places where it holds of that of an
    /// item which carries the reference. Constant time on average.
    pub fn places(&self, rep: &WireRep) -> &[Place]
        ensures { (test : words.PlaceTest)
            → list_any test result.now ≡ list_any
            (λ sent_item. carries rep.now sent_item.item && test (words.place_of rep.now sent_item))
            self.now }
    {
        self.carriers.places(rep)
    }

    /// The item of a number that was sent to a peer in a session, where there is one. Constant time
    /// on average.
    pub fn item(&self, to: SpaceId, session: u32, number: ItemNo) -> Option<&SentItem>
        ensures { option_map (λ sent_item. sent_item.now) result
            ≡ find (words.is_item to session number) self.now }
    {
        let place = self.standings.place(to, session, number);
        item_at(self.sent_items.as_slice(), place)
    }

    /// These with one gift more, in the present sessions with the peer and with the owners of its
    /// references, under the next number of its session. Only memory fails it: no journal has so
    /// many items that they can't be counted. It looks up each reference of the item.
    pub fn with_gift(
        self,
        alloc: Global,
        past: &DeedIndex,
        gift: &Gift,
    ) -> Result<SentItems, AllocError>
        ensures { IfOk result (λ more. more
            ≡ self ++ next_word past.now.deeds self gift.now ∷ []) }
    {
        let SentItems {
            mut sent_items,
            counts,
            carriers,
            standings,
        } = self;
        let session = past.number(gift.to);
        let Some(count) = counts.count(gift.to, session).checked_add(1) else {
            return Err(AllocError);
        };
        let carriers = with_places(alloc, past, gift, count, carriers)?;
        let counts = counts.with_count(gift.to, session, count)?;
        let name = ItemName {
            to: gift.to,
            session,
            number: count,
        };
        let place = sent_items.as_slice().len();
        let standings = standings.with_standing(name, place)?;
        let item = next_item(alloc, past, gift, count)?;
        sent_items.push(item)?;
        Ok(SentItems {
            sent_items,
            counts,
            carriers,
            standings,
        })
    }
}
