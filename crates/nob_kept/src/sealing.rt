//! Seals of a space, made while it stands behind a segment's last entry.

ghost use Rattle.std.specs.Prelude.{◌≡◌, ◌≤◌, ◌<◌, ◌+◌, ◌-◌, ◌++◌, ◌∷◌, [], List, IfOk, OnOk, length, vec_len, vec_capacity};
ghost use Rattle.nob_ids.specs.Names.{IsSpace};
ghost use Rattle.nob_model_types.specs.declared.entry.Entry.{Entry as EntryOf};
ghost use Rattle.nob_model_history.specs.Histories.{history};
ghost use Rattle.nob_space.specs.Spaces.{StandsFor};
ghost use Rattle.nob_trace.specs.Stamps as stamps;
ghost use Rattle.nob_kept.specs.Segments as segments;

use nob_chain::{PeerSeal, PeerSeals, Seal, Segment};
use nob_ids::SpaceId;
use nob_model_types::Here;
use nob_space::Space;
use nob_trace::{Entries, Stamped};
use std::alloc::AllocError;

// Room for one sealed segment more, and places for its seal's peers. Only memory fails it.
pub(crate) fn room_to_seal(
    sealed: &mut Vec<Segment>,
    n: SpaceId,
) -> Result<Vec<PeerSeal>, AllocError>
    ensures sealed { sealed.new.items ≡ sealed.old.items }
    ensures room { OnOk result (vec_len sealed.new < vec_capacity sealed.new) }
    ensures places { IfOk result (λ places. segments.ArePlaces n places) }
{
    sealed.reserve(1)?;
    Vec::with_capacity(*sealed.allocator(), n.get() as usize)
}

// What a space says of the session with the space of a number, where it is a peer, at a place that
// there is.
fn add_peer(peers: &mut Vec<PeerSeal>, space: &Space, number: u16)
    requires number { IsSpace number }
    requires room { vec_len peers.old < vec_capacity peers.old }
    ensures peers { (L : List EntryOf) → StandsFor space.now L → peers.new.items
        ≡ peers.old.items ++ segments.peers_among space.now.id space.now.n
        (history space.now.id space.now.n L) (number ∷ []) }
    ensures room { vec_capacity peers.new ≡ vec_capacity peers.old }
    ensures len { vec_len peers.new ≤ vec_len peers.old + 1 }
{
    let Some(peer) = SpaceId::new(number) else {
        return;
    };
    let here = Here {
        space: space.id(),
        n: space.n(),
    };
    if !here.is_peer(peer) {
        return;
    }
    let tally = space.tally(peer);
    peers.push_reserved(PeerSeal {
        peer,
        session: tally.session,
        sent: tally.sent,
        acted: tally.acted,
        closed: tally.closed,
    });
}

// What a space says of itself behind an entry of this stamp.
fn seal_of(space: &Space, n: SpaceId, stamp: u64, places: Vec<PeerSeal>) -> Seal
    requires n { n ≡ space.now.n }
    requires places { segments.ArePlaces n places }
    ensures { (L : List EntryOf) → StandsFor space.now L
        → result ≡ segments.seal_in space.now.id space.now.n stamp L }
{
    let mut peers = places;
    let end = n.get() + 1;
    for number in 1..end {
        add_peer(&mut peers, space, number);
    }
    Seal {
        stamp,
        live: space.live(),
        peers: PeerSeals::from_vec(peers),
    }
}

// Entries, the last of which has this stamp, as a segment that is sealed now.
pub(crate) fn segment_of(
    space: &Space,
    n: SpaceId,
    stamp: u64,
    entries: Vec<Stamped>,
    places: Vec<PeerSeal>,
) -> Segment
    requires n { n ≡ space.now.n }
    requires places { segments.ArePlaces n places }
    requires rise { stamps.Rise 0 entries.items }
    ensures { (L : List EntryOf) → StandsFor space.now L
        → result ≡ segments.sealed_by space.now.id space.now.n stamp L entries.items }
{
    Segment {
        entries: Entries::from_vec(entries),
        seal: Some(seal_of(space, n, stamp, places)),
    }
}
