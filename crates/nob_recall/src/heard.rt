//! What a space has heard of another one.

ghost use Rattle.std.specs.Prelude.{◌≡◌};
ghost use Rattle.nob_recall.specs.Hearing as words;

use nob_frame::Frame;
use nob_ids::SpaceId;
use nob_model::{Answer, Entry, Event, Refusal};

/// What a space has heard of another one.
#[derive(Clone, Copy, Debug, PartialEq, Eq)]
pub struct Heard {
    /// The highest number of a session with it that the space opened: 1 before the first.
    pub session: u32,
    /// How many of its items were accepted in that session.
    pub accepted: u64,
    /// The greatest acknowledgement of it that came in that session.
    pub ack: u64,
}

/// What is heard before any entry.
pub fn no_word() -> Heard
    ensures { result ≡ words.no_word }
{
    Heard {
        session: 1,
        accepted: 0,
        ack: 0,
    }
}

// What is heard of a space once the arrival of a frame took so many items.
fn heard_frame(from: SpaceId, frame: &Frame, count: u64, heard: Heard) -> Heard
    ensures { result ≡ words.heard_frame from frame.now count heard }
{
    if frame.from == from && frame.session == heard.session {
        return Heard {
            session: heard.session,
            accepted: heard.accepted.saturating_add(count),
            ack: heard.ack.max(frame.ack),
        };
    }
    heard
}

// What is heard of a space once a session with a peer opened under this number.
fn heard_open(from: SpaceId, peer: SpaceId, number: u32, heard: Heard) -> Heard
    ensures { result ≡ words.heard_open from peer number heard }
{
    if peer == from && heard.session < number {
        return Heard {
            session: number,
            accepted: 0,
            ack: 0,
        };
    }
    heard
}

/// What is heard of a space once an event was answered so.
pub fn heard_by(from: SpaceId, event: &Event, told: &Result<Answer, Refusal>, heard: Heard) -> Heard
    ensures { result ≡ words.heard_by from event.now told.now heard }
{
    match event {
        Event::Arrive(frame) => match told {
            Ok(Answer::Took(count)) => heard_frame(from, frame, *count, heard),
            _ => heard,
        },
        Event::Open(peer) => match told {
            Ok(Answer::Opened(number)) => heard_open(from, *peer, *number, heard),
            _ => heard,
        },
        _ => heard,
    }
}

/// What a space has heard of another one by the entries of a journal, the newest first. It reads
/// all of them.
pub fn make_heard(from: SpaceId, to: SpaceId, journal: &[Entry]) -> Heard
    ensures { result ≡ words.heard from to journal.now }
{
    match journal {
        [] => no_word(),
        [entry, before @ ..] => {
            let earlier = make_heard(from, to, before);
            if entry.space == to {
                return heard_by(from, &entry.event, &entry.result, earlier);
            }
            earlier
        }
    }
}

// Whether a frame brings no item that wasn't accepted, where so many were.
fn brings_none(frame: &Frame, accepted: u64) -> bool
    ensures { result ≡ words.brings_none frame.now accepted }
{
    frame.kind.is_ack() || (frame.kind.is_data() && frame.seq <= accepted)
}

/// Whether a frame can bring nothing more to a space that has heard so much of its sender.
pub fn is_past(frame: &Frame, heard: Heard) -> bool
    ensures { result ≡ words.is_past frame.now heard }
{
    frame.session < heard.session
        || (frame.session == heard.session
            && (frame.ack <= heard.ack && brings_none(frame, heard.accepted)))
}
