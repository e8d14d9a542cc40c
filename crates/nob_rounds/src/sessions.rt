//! How the ends of the sessions stand: which have closed, and whose sessions aren't open at both ends.

ghost use Rattle.std.specs.Prelude.{◌≡◌, IfOk};
ghost use Rattle.nob_rounds.specs.Sessions as spec;

use crate::askings::all_spaces;
use nob_ids::SpaceId;
use nob_model_types::{Answer, Entry, Event};
use std::alloc::{AllocError, Global};

/// The end of a session that a space has.
#[derive(Clone, Copy, Debug, PartialEq, Eq)]
pub struct SessionEnd {
    /// The space.
    pub space: SpaceId,
    /// The peer.
    pub peer: SpaceId,
}

/// How an end of a session stands.
#[derive(Clone, Copy, Debug, PartialEq, Eq)]
pub struct SessionState {
    /// The number of the session.
    pub number: u32,
    /// Whether the session has closed here.
    pub is_closed: bool,
}

// The peer whose session an event may close or open anew.
fn peer_of(event: &Event) -> Option<SpaceId>
    ensures { result ≡ spec.peer_of event.now }
{
    match event {
        Event::Act(peer) => Some(*peer),
        Event::Tick(peer) => Some(*peer),
        Event::Close(peer) => Some(*peer),
        Event::Open(peer) => Some(*peer),
        Event::Arrive(frame) => Some(frame.from),
        _ => None,
    }
}

// Whether an entry is one of this end.
fn is_of(end: &SessionEnd, entry: &Entry) -> bool
    ensures { result ≡ spec.is_of end.now entry.now }
{
    if entry.space != end.space {
        return false;
    }
    match peer_of(&entry.event) {
        Some(peer) => peer == end.peer,
        None => false,
    }
}

// How an entry of an end leaves it.
fn after(standing: SessionState, entry: &Entry) -> SessionState
    ensures { result ≡ spec.after standing entry.now.result }
{
    match &entry.result {
        Ok(Answer::Closed(_)) => SessionState {
            number: standing.number,
            is_closed: true,
        },
        Ok(Answer::Opened(number)) => SessionState {
            number: *number,
            is_closed: false,
        },
        _ => standing,
    }
}

// How an entry of any space leaves an end.
fn after_any(end: &SessionEnd, standing: SessionState, entry: &Entry) -> SessionState
    ensures { result ≡ spec.after_any end.now standing entry.now }
{
    if is_of(end, entry) {
        return after(standing, entry);
    }
    standing
}

/// How an end stands after these entries. Linear in the entries.
pub fn standing_of(end: &SessionEnd, entries: &[Entry]) -> SessionState
    ensures { result ≡ spec.standing_of end.now entries.now }
{
    let new = SessionState {
        number: 1,
        is_closed: false,
    };
    entries.iter().fold(
        new,
        |standing: SessionState, entry| after_any(end, standing, entry),
    )
}

// The end of the same session that the peer has.
fn other_end(end: &SessionEnd) -> SessionEnd
    ensures { result ≡ spec.other_end end.now }
{
    SessionEnd {
        space: end.peer,
        peer: end.space,
    }
}

/// Whether a session is open after these entries: both ends are in one number, and neither has
/// closed. Linear in the entries.
pub fn is_open(end: &SessionEnd, entries: &[Entry]) -> bool
    ensures { result ≡ spec.is_open end.now entries.now }
{
    let here = standing_of(end, entries);
    let there = standing_of(&other_end(end), entries);
    here.number == there.number && !here.is_closed && !there.is_closed
}

// An end, if it has closed.
fn if_closed(end: &SessionEnd, entries: &[Entry]) -> Option<SessionEnd>
    ensures { result ≡ spec.if_closed entries.now end.now }
{
    if standing_of(end, entries).is_closed {
        return Some(*end);
    }
    None
}

// An end, if its session isn't open.
fn unless_open(end: &SessionEnd, entries: &[Entry]) -> Option<SessionEnd>
    ensures { result ≡ spec.unless_open entries.now end.now }
{
    if is_open(end, entries) {
        return None;
    }
    Some(*end)
}

// The ends that a space has with these peers.
fn ends_at(alloc: Global, space: SpaceId, peers: &[SpaceId]) -> Result<Vec<SessionEnd>, AllocError>
    ensures { IfOk result (λ ends. ends.items ≡ spec.ends_at space peers.now) }
{
    peers
        .iter()
        .map(|peer| SessionEnd { space, peer: *peer })
        .collect(alloc)
}

// The ends that each of these spaces has with these peers. It recurses once for each space.
fn ends_between(
    alloc: Global,
    spaces: &[SpaceId],
    peers: &[SpaceId],
) -> Result<Vec<SessionEnd>, AllocError>
    ensures { IfOk result (λ ends. ends.items ≡ spec.ends_between spaces.now peers.now) }
{
    match spaces {
        [] => Ok(Vec::new(alloc)),
        [space, rest @ ..] => {
            let mut ends = ends_at(alloc, *space, peers)?;
            ends.append(&mut ends_between(alloc, rest, peers)?)?;
            Ok(ends)
        }
    }
}

// The ends that each space of a world of n has with each.
fn all_ends(alloc: Global, n: u16) -> Result<Vec<SessionEnd>, AllocError>
    ensures { IfOk result (λ ends. ends.items ≡ spec.all_ends n) }
{
    let spaces = all_spaces(alloc, n)?;
    ends_between(alloc, spaces.as_slice(), spaces.as_slice())
}

// Those of these ends that have closed.
fn closed_among(
    alloc: Global,
    ends: &[SessionEnd],
    entries: &[Entry],
) -> Result<Vec<SessionEnd>, AllocError>
    ensures { IfOk result (λ closed. closed.items ≡ spec.closed_among ends.now entries.now) }
{
    ends.iter()
        .filter_map(|end| if_closed(end, entries))
        .collect(alloc)
}

// Those of these ends whose session isn't open.
fn unopen_among(
    alloc: Global,
    ends: &[SessionEnd],
    entries: &[Entry],
) -> Result<Vec<SessionEnd>, AllocError>
    ensures { IfOk result (λ unopen. unopen.items ≡ spec.unopen_among ends.now entries.now) }
{
    ends.iter()
        .filter_map(|end| unless_open(end, entries))
        .collect(alloc)
}

/// The ends that have closed in a world of so many spaces. Only memory fails it. Linear in the
/// entries, for each two spaces.
pub fn closed_ends(alloc: Global, n: u16, entries: &[Entry]) -> Result<Vec<SessionEnd>, AllocError>
    ensures { IfOk result (λ closed. closed.items ≡ spec.closed_ends n entries.now) }
{
    let ends = all_ends(alloc, n)?;
    closed_among(alloc, ends.as_slice(), entries)
}

/// Both ends of each session that isn't open in a world of so many spaces. Only memory fails it.
/// Linear in the entries, for each two spaces.
pub fn unopen_ends(alloc: Global, n: u16, entries: &[Entry]) -> Result<Vec<SessionEnd>, AllocError>
    ensures { IfOk result (λ unopen. unopen.items ≡ spec.unopen_ends n entries.now) }
{
    let ends = all_ends(alloc, n)?;
    unopen_among(alloc, ends.as_slice(), entries)
}
