//! What a space has, how much of that is with a peer, and what came from one. None takes memory.

ghost use Rattle.std.specs.Prelude.{◌≡◌, List, length, true};
ghost use Rattle.nob_ids.specs.declared.limits.Limits.{Limits as LimitsOf};
ghost use Rattle.nob_model_session.specs.Texts.{front_text};
ghost use Rattle.nob_model_types.specs.declared.deed.Deed.{Deed};
ghost use Rattle.nob_model_types.specs.declared.entry.Entry.{Entry};
ghost use Rattle.nob_model_types.specs.Sessions.{is_peer};
ghost use Rattle.nob_model_history.specs.Histories.{history};
ghost use Rattle.nob_space_state.specs.Looks.{end_with};
ghost use Rattle.nob_space_state.specs.Stands.{StandFor, history_for};
ghost use Rattle.nob_space.specs.Counts as words;
ghost use Rattle.nob_space.specs.Spaces.{StandsFor};

use crate::space::Space;
use nob_ids::{CallNo, ItemNo, SpaceId};
use nob_space_state::Parts;

/// How much a space has of what its memory goes to. It is laid out as C does.
#[repr(C)]
#[derive(Clone, Copy, Debug, PartialEq, Eq)]
pub struct SpaceCounts {
    /// Its live objects: exported and not withdrawn.
    pub live: u64,
    /// Its surrogates of others' objects, on sessions that are open here.
    pub surrogates: u64,
    /// Its own calls whose reply, or the word that there will be none, wasn't taken.
    pub calls: u64,
    /// The Calls and Replies that wait for their references.
    pub waiting: u64,
    /// The jobs that are ready and weren't claimed.
    pub ready: u64,
    /// The jobs that run.
    pub running: u64,
    /// The replies that are ready and weren't taken.
    pub replies: u64,
}

/// How much of what a space has is with one peer. It is laid out as C does.
#[repr(C)]
#[derive(Clone, Copy, Debug, PartialEq, Eq)]
pub struct PeerCounts {
    /// The items to the peer whose references are pinned here until the peer settles them.
    pub pinned: u64,
    /// The items to the peer that it hasn't acknowledged.
    pub unacknowledged: u64,
    /// The items from the peer that were accepted and not acted on.
    pub inbox: u64,
    /// The Calls and Replies from the peer that wait for their references.
    pub waiting: u64,
    /// The jobs of the peer's Calls that are ready and weren't claimed.
    pub ready: u64,
    /// The surrogates of the peer's objects, on a session that is open here.
    pub surrogates: u64,
}

// How much a space has.
fn counts_of(parts: &Parts) -> SpaceCounts
    ensures { (limits : LimitsOf) (D : List Deed)
        → StandFor limits parts.now D
        → result ≡ words.counts parts.now.here.space parts.now.here.n
        (history_for parts.now D) }
{
    let live = parts.live();
    let surrogates = parts.table.surrogate_count() as u64;
    let calls = parts.calls.calls_len() as u64;
    let waiting = parts.messages.waiting_len() as u64;
    let ready = parts.messages.ready_len() as u64;
    let running = parts.messages.running_len() as u64;
    let replies = parts.calls.replies_len() as u64;
    SpaceCounts {
        live,
        surrogates,
        calls,
        waiting,
        ready,
        running,
        replies,
    }
}

// How many payloads the end with a space holds, where there is one.
fn held_with(parts: &Parts, other: SpaceId) -> (usize, usize)
    ensures { result ≡ words.held_by (end_with parts.now.sessions.items other) }
{
    match parts.sessions.get(other.place()) {
        Some(session) => session.held(),
        None => (0, 0),
    }
}

// How many messages from a peer wait for their references. A look for each of them.
fn waiting_from(parts: &Parts, peer: SpaceId) -> usize
    ensures { result ≡ length (words.messages_from peer parts.now.messages.waiting.items) }
{
    parts.messages.waiting_from(peer).count()
}

// How many ready jobs are of a peer's Calls. A look for each of them.
fn ready_from(parts: &Parts, peer: SpaceId) -> usize
    ensures { result ≡ length (words.messages_from peer parts.now.messages.jobs.ready) }
{
    parts.messages.ready_from(peer).count()
}

// How much of what a space has is with a peer.
fn counts_with(parts: &Parts, peer: SpaceId) -> PeerCounts
    requires { is_peer parts.now.here.space parts.now.here.n peer ≡ true }
    ensures { (limits : LimitsOf) (D : List Deed)
        → StandFor limits parts.now D
        → result ≡ words.peer_counts parts.now.here.space parts.now.here.n peer
        (history_for parts.now D) }
{
    let pinned = parts.pins.bundles(peer) as u64;
    let held = held_with(parts, peer);
    let waiting = waiting_from(parts, peer) as u64;
    let ready = ready_from(parts, peer) as u64;
    let surrogates = parts.table.surrogate_count_of(peer) as u64;
    PeerCounts {
        pinned,
        unacknowledged: held.0 as u64,
        inbox: held.1 as u64,
        waiting,
        ready,
        surrogates,
    }
}

// The item at the front of the inbox from a peer, with its number.
fn front_of(parts: &Parts, peer: SpaceId) -> Option<(ItemNo, &[u8])>
    ensures { (limits : LimitsOf) (D : List Deed)
        → StandFor limits parts.now D
        → front_text result ≡ words.front parts.now.here.space parts.now.here.n peer
        (history_for parts.now D) }
{
    if !parts.here.is_peer(peer) {
        return None;
    }
    if parts.has_closed(peer) {
        return None;
    }
    match parts.sessions.get(peer.place()) {
        Some(session) => session.front(),
        None => None,
    }
}

// The call of the reply that became ready first.
fn next_reply_of(parts: &Parts) -> Option<CallNo>
    ensures { (limits : LimitsOf) (D : List Deed)
        → StandFor limits parts.now D
        → result ≡ words.next_reply (history_for parts.now D) }
{
    parts.calls.first_call()
}

impl Space {
    /// How much the space has: objects, surrogates, calls and messages. It takes no memory, and
    /// constant time.
    pub fn counts(&self) -> SpaceCounts
        ensures { (L : List Entry) → StandsFor self.now L
            → result ≡ words.counts self.now.id self.now.n
            (history self.now.id self.now.n L) }
    {
        counts_of(&self.parts)
    }

    /// How much of what the space has is with a peer. It takes no memory. It looks for each message
    /// of the peer that waits, for each of its ready jobs, and at each surrogate of the space. The
    /// caller's condition: it is a peer.
    pub fn peer_counts(&self, peer: SpaceId) -> PeerCounts
        requires { is_peer self.now.id self.now.n peer ≡ true }
        ensures { (L : List Entry) → StandsFor self.now L
            → result ≡ words.peer_counts self.now.id self.now.n peer
            (history self.now.id self.now.n L) }
    {
        counts_with(&self.parts, peer)
    }

    /// The item that an Act on a peer would act on, with its number: the front of the inbox.
    /// Nothing where there is no such peer, the session with it has closed here, or nothing waits.
    /// Its bytes may be no item's: then the Act closes the session. It takes no memory, and
    /// constant time.
    pub fn front(&self, peer: SpaceId) -> Option<(ItemNo, &[u8])>
        ensures { (L : List Entry) → StandsFor self.now L
            → front_text result ≡ words.front self.now.id self.now.n peer
            (history self.now.id self.now.n L) }
    {
        front_of(&self.parts, peer)
    }

    /// The call whose reply became ready first, of the replies that weren't taken: nothing where
    /// none is ready. It says nothing of the calls that a close ended: to those there is no reply,
    /// and a TakeReply of each says so. It takes no memory. It passes the empty slots of the
    /// replies that were taken before, never more than the ready replies and one.
    pub fn next_reply(&self) -> Option<CallNo>
        ensures { (L : List Entry) → StandsFor self.now L
            → result ≡ words.next_reply (history self.now.id self.now.n L) }
    {
        next_reply_of(&self.parts)
    }
}
