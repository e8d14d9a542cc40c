//! What is kept of a space's entries.

ghost use Rattle.std.specs.Prelude.{◌≡◌, ◌≢◌, ◌≤◌, ◌<◌, ◌^◌, ◌+◌, ◌-◌, ◌++◌, ◌∷◌, [], ℕ, List, true, false, Some, None, Err, length, slice_get, vec_len, vec_capacity, IfOk, IfErr, IfSome, OnOk, OnErr, MatchOption};
ghost use Rattle.std.specs.List.{AllByRecursion};
ghost use Rattle.nob_model_types.specs.declared.entry.Entry.{Entry as EntryOf};
ghost use Rattle.nob_model.specs.Right.{right};
ghost use Rattle.nob_model_traces.specs.Apart.{entry_at as as_entry};
ghost use Rattle.nob_space.specs.Spaces.{StandsFor, SameSpace};
ghost use Rattle.nob_trace.specs.declared.stamped.Stamped.{Stamped as StampedOf};
ghost use Rattle.nob_trace.specs.Stamps as stamps;
ghost use Rattle.nob_chain.specs.declared.segment.Segment.{Segment as SegmentOf};
ghost use Rattle.nob_chain.specs.Chains.{entries_of};
ghost use Rattle.nob_kept.specs.Accounts as accounts;
ghost use Rattle.nob_kept.specs.Receipts as receipts;
ghost use Rattle.nob_kept.specs.Segments as segments;
ghost use Rattle.nob_kept.specs.declared.keep.Keep.TheVariants as keeps;
ghost use Rattle.nob_kept.specs.declared.error.KeeperError.{KeeperError as KeeperErrorOf};

use crate::error::KeeperError;
use crate::keep::Keep;
use crate::receipt::Receipt;
use crate::sealing::{room_to_seal, segment_of};
use nob_chain::{Chain, ChainParts, PeerSeal, Segment, Segments};
use nob_ids::SpaceId;
use nob_model_types::{Answer, Event, Refusal};
use nob_past::Past;
use nob_space::{Space, SpaceError};
use nob_trace::Stamped;
use std::alloc::{AllocError, Global};

/// The number of entries in the largest segment.
pub(crate) const LARGEST_SIZE: u32 = 1 << 16;

/// The greatest stamp that a caller may have seen.
const LAST_SEEN: u64 = 1 << 60;

/// The greatest stamp behind which there is one more entry.
const LAST_STAMPED: u64 = 1 << 62;

/// What is kept of a space's entries: all, in segments, or nothing.
#[derive(Drop)]
pub(crate) struct Trail {
    // How many spaces there are, named by the last of them.
    pub(crate) n: SpaceId,
    pub(crate) keep: Keep,
    // The number of entries in a full segment.
    pub(crate) size: u32,
    // The first first. Where all is kept those have bytes that aren't sealed yet, and else none has.
    pub(crate) entries: Past<Stamped>,
    // The segments that are full, the first first, each with its seal.
    pub(crate) sealed: Vec<Segment>,
    // The stamp of the last entry, 0 where there is none.
    pub(crate) last: u64,
}

// Nothing is kept yet.
pub(crate) fn new_trail(alloc: Global, n: SpaceId, keep: Keep, size: u32) -> Trail
    ensures n { result.n ≡ n }
    ensures keep { result.keep ≡ keep }
    ensures size { result.size ≡ size }
    ensures entries { result.entries.items ≡ [] }
    ensures gone { result.entries.gone ≡ 0 }
    ensures sealed { result.sealed.items ≡ [] }
    ensures last { result.last ≡ 0 }
{
    Trail {
        n,
        keep,
        size,
        entries: Past::new(alloc),
        sealed: Vec::new(alloc),
        last: 0,
    }
}

/// Whether a segment may have so many entries.
pub fn is_size(size: u32) -> bool
    ensures yes { result ≡ true → segments.IsSize size }
    ensures no { result ≡ false → segments.IsSize size → ⊥ }
{
    1 <= size && size <= LARGEST_SIZE
}

// Whether no entry comes behind one of this stamp.
pub(crate) fn is_last(stamp: u64) -> bool
    ensures { result ≡ accounts.is_last stamp }
{
    stamp > LAST_STAMPED
}

// K3 where the last stamp is too great, or the one that was seen.
pub(crate) fn admit(last: u64, seen: u64) -> Result<(), KeeperError>
    ensures ok { OnOk result (accounts.fault_behind last seen ≡ None) }
    ensures low { OnOk result (last ≤ accounts.last_stamped) }
    ensures seen { OnOk result (seen ≤ accounts.last_seen) }
    ensures err { IfErr result (λ error. accounts.fault_behind last seen ≡ Some error) }
{
    if is_last(last) || seen > LAST_SEEN {
        return Err(KeeperError::Stamp);
    }
    Ok(())
}

// The entry at a place, counted from 0, of those in full segments and those behind.
pub(crate) fn entry_at<'a>(
    sealed: &'a [Segment],
    size: u32,
    unsealed: &'a [Stamped],
    place: u64,
) -> Option<&'a Stamped>
    requires size { 1 ≤ size }
    requires full { AllByRecursion (λ segment. length segment.entries ≡ size) sealed.now }
    ensures some { IfSome result (λ entry.
        slice_get (entries_of sealed.now ++ unsealed.now) place ≡ Some entry.now) }
    ensures none { result ≡ None
        → slice_get (entries_of sealed.now ++ unsealed.now) place ≡ None }
{
    let number = place / size as u64;
    let behind = place % size as u64;
    match sealed.get(number as usize) {
        Some(segment) => segment.entries.as_slice().get(behind as usize),
        None => unsealed.get((place - sealed.len() as u64 * size as u64) as usize),
    }
}

// Whether one entry more fills a segment.
fn fills(trail: &Trail) -> bool
    ensures { result ≡ segments.fills trail.now }
{
    match trail.keep {
        Keep::All => trail.entries.kept().len() as u64 + 1 == trail.size as u64,
        Keep::Nothing => false,
    }
}

// Room for one entry more, and where it fills a segment for its seal. Only memory fails it.
fn room_for_next(trail: &mut Trail) -> Result<Option<Vec<PeerSeal>>, AllocError>
    ensures same { segments.IsSame trail.old trail.new }
    ensures room { IfOk result (λ room. segments.HasRoom trail.new room) }
{
    trail.entries.reserve()?;
    if !fills(trail) {
        return Ok(None);
    }
    let places = room_to_seal(&mut trail.sealed, trail.n)?;
    Ok(Some(places))
}

// The stamp of an entry behind the last one.
fn next_stamp(last: u64, seen: u64) -> u64
    requires low { last ≤ accounts.last_stamped }
    requires seen { seen ≤ accounts.last_seen }
    ensures { result ≡ accounts.next_stamp last seen }
{
    last.max(seen) + 1
}

// One event, with two equal results: one to keep and one to tell.
fn ask(
    space: &mut Space,
    event: &Event,
) -> Result<(Result<Answer, Refusal>, Result<Answer, Refusal>), AllocError>
    ensures answer { IfOk result (λ two. (L : List EntryOf) → StandsFor space.old L
        → two.0 ≡ right space.old.id space.old.n space.old.limits L event.now) }
    ensures equal { IfOk result (λ two. two.1 ≡ two.0) }
    ensures stands { IfOk result (λ two. (L : List EntryOf) → StandsFor space.old L
        → StandsFor space.new
        (record { space = space.old.id; event = event.now; result = two.0 } ∷ L)) }
    ensures err { OnErr result ((L : List EntryOf) → StandsFor space.old L
        → StandsFor space.new L) }
    ensures same { SameSpace space.old space.new }
{
    match space.step_twice(event) {
        Ok((answer, twin)) => Ok((Ok(answer), Ok(twin))),
        Err(SpaceError::Refused(refusal)) => Ok((Err(refusal), Err(refusal))),
        Err(SpaceError::OutOfMemory) => Err(AllocError),
    }
}

// One event, as the entry behind one of the last stamp, and as the receipt of the entry at a place.
fn answer(
    space: &mut Space,
    place: u64,
    last: u64,
    event: &Event,
    seen: u64,
) -> Result<(Stamped, Receipt), AllocError>
    requires low { last ≤ accounts.last_stamped }
    requires seen { seen ≤ accounts.last_seen }
    ensures stamp { IfOk result (λ two. two.0.stamp ≡ accounts.next_stamp last seen) }
    ensures event { IfOk result (λ two. two.0.event ≡ event.now) }
    ensures answer { IfOk result (λ two. (L : List EntryOf) → StandsFor space.old L
        → two.0.result ≡ right space.old.id space.old.n space.old.limits L event.now) }
    ensures told { IfOk result (λ two. two.0 ≡ receipts.entry_of two.1) }
    ensures place { IfOk result (λ two. two.1.place ≡ place) }
    ensures stands { IfOk result (λ two. (L : List EntryOf) → StandsFor space.old L
        → StandsFor space.new (as_entry space.old.id two.0 ∷ L)) }
    ensures err { OnErr result ((L : List EntryOf) → StandsFor space.old L
        → StandsFor space.new L) }
    ensures same { SameSpace space.old space.new }
{
    let kept_event = event.copy()?;
    let told_event = event.copy()?;
    let stamp = next_stamp(last, seen);
    let (kept, told) = ask(space, event)?;
    let entry = Stamped {
        stamp,
        event: kept_event,
        result: kept,
    };
    let receipt = Receipt {
        place,
        stamp,
        event: told_event,
        result: told,
    };
    Ok((entry, receipt))
}

// One entry more, at the place that there is for it; where it fills a segment that is sealed. Where
// nothing is kept the entry is handed back.
fn add(
    space: &Space,
    trail: &mut Trail,
    entry: Stamped,
    room: Option<Vec<PeerSeal>>,
) -> Option<Stamped>
    requires next { segments.IsNextOf space.now trail.old entry }
    requires room { segments.HasRoom trail.old room }
    ensures trail { segments.IsTrail space.now trail.new }
    ensures more { segments.HasMore trail.old trail.new entry }
    ensures all { trail.old.keep ≡ keeps.All → result ≡ None }
    ensures passed { trail.old.keep ≡ keeps.Nothing → result ≡ Some entry }
{
    trail.last = entry.stamp;
    match trail.keep {
        Keep::All => {
            add_kept(space, trail, entry, room);
            None
        }
        Keep::Nothing => {
            trail.entries.pass(&entry);
            Some(entry)
        }
    }
}

// One entry more where all is kept.
fn add_kept(space: &Space, trail: &mut Trail, entry: Stamped, room: Option<Vec<PeerSeal>>)
    requires all { trail.old.keep ≡ keeps.All }
    requires last { trail.old.last ≡ entry.stamp }
    requires next { segments.IsNextOf space.now trail.old entry }
    requires room { segments.HasRoom trail.old room }
    ensures trail { segments.IsTrail space.now trail.new }
    ensures more { segments.HasMore trail.old trail.new entry }
{
    let Some(places) = room else {
        trail.entries.push_reserved(entry);
        return;
    };
    let filled = trail.entries.hand_out(entry);
    let segment = segment_of(space, trail.n, trail.last, filled, places);
    trail.sealed.push_reserved(segment);
}

// One event of a space of whose entries this is kept, which nothing but want of memory refuses: its
// receipt, and where nothing is kept the entry.
pub(crate) fn enter(
    space: &mut Space,
    trail: &mut Trail,
    event: &Event,
    seen: u64,
) -> Result<(Receipt, Option<Stamped>), AllocError>
    requires trail { segments.IsTrail space.old trail.old }
    requires low { stamps.last_stamp 0 trail.old.entries.items ≤ accounts.last_stamped }
    requires seen { seen ≤ accounts.last_seen }
    ensures next { IfOk result (λ two. receipts.IsBehind space.old.id space.old.n space.old.limits
        trail.old.entries.items event.now seen two.0) }
    ensures more { IfOk result (λ two.
        segments.HasMore trail.old trail.new (receipts.entry_of two.0)) }
    ensures all { IfOk result (λ two. trail.old.keep ≡ keeps.All → two.1 ≡ None) }
    ensures passed { IfOk result (λ two. trail.old.keep ≡ keeps.Nothing
        → two.1 ≡ Some (receipts.entry_of two.0)) }
    ensures trail { segments.IsTrail space.new trail.new }
    ensures same { SameSpace space.old space.new }
    ensures err { OnErr result (segments.IsSame trail.old trail.new) }
{
    let room = room_for_next(trail)?;
    let place = trail.entries.len() + 1;
    let (entry, receipt) = answer(space, place, trail.last, event, seen)?;
    let passed = add(space, trail, entry, room);
    Ok((receipt, passed))
}

// Room for the seal of what isn't sealed yet, if there is such. Only memory fails it.
pub(crate) fn room_to_end(trail: &mut Trail) -> Result<Option<Vec<PeerSeal>>, AllocError>
    ensures same { segments.IsSame trail.old trail.new }
    ensures room { IfOk result (λ room. segments.HasRoomToEnd trail.new room) }
{
    if trail.entries.kept().is_empty() {
        return Ok(None);
    }
    let places = room_to_seal(&mut trail.sealed, trail.n)?;
    Ok(Some(places))
}

// All segments where all is kept: what isn't sealed yet is sealed now.
fn all_sealed(space: &Space, trail: Trail, room: Option<Vec<PeerSeal>>) -> Vec<Segment>
    requires all { trail.keep ≡ keeps.All }
    requires trail { segments.IsTrail space.now trail }
    requires room { segments.HasRoomToEnd trail room }
    ensures { segments.AreAllSealed space.now.id space.now.n trail.size trail.entries.items
        result.items }
{
    let Trail {
        n,
        keep: _,
        size: _,
        entries,
        sealed,
        last,
    } = trail;
    let Some(places) = room else {
        return sealed;
    };
    let segment = segment_of(space, n, last, entries.into_kept(), places);
    let mut segments = sealed;
    segments.push_reserved(segment);
    segments
}

// The chain of a space all of whose entries are kept.
pub(crate) fn chain_of(space: &Space, trail: Trail, room: Option<Vec<PeerSeal>>) -> Chain
    requires all { trail.keep ≡ keeps.All }
    requires trail { segments.IsTrail space.now trail }
    requires room { segments.HasRoomToEnd trail room }
    ensures account { accounts.account_in trail.size result
        ≡ accounts.account_of space.now trail.keep trail.size trail.entries.items [] }
    ensures sealed { segments.IsSealedChain result }
    ensures filled { segments.AreFilled trail.size result.segments }
{
    let n = trail.n;
    let segments = all_sealed(space, trail, room);
    Chain::from_parts(ChainParts {
        space: space.id(),
        n,
        limits: space.limits(),
        segments: Segments::from_vec(segments),
    })
}
