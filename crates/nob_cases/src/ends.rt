//! Cases of one end of a session.

use nob_case_texts::{Answer, Refusal, refused_call, refused_frame};
use nob_ids::{Limits, Reason, SpaceId};
use nob_session::{Arrival, Kind, Session, SessionError};
use std::alloc::{AllocError, Global};

/// A call on the end of a session, or the opening of another end in its place.
#[derive(Drop)]
pub enum EndCase {
    /// Opens the end of the first space towards the second.
    Open(SpaceId, SpaceId, Limits),
    /// Makes room for so many sends.
    Reserve(usize),
    /// What a send would answer.
    Next(Kind),
    /// How many numbers are free.
    FreeNumbers,
    /// Hands an item.
    Send(Kind, Vec<u8>),
    /// Whether a transmit would give a frame.
    HasFrames,
    /// The frames that a transmit would give.
    Frames,
    /// The frames to be sent now.
    Transmit,
    /// The frame that these bytes spell arrives.
    Arrive(Vec<u8>),
    /// The first item that waits.
    Front,
    /// Gives up the first item that waits.
    Take,
    /// Counts a tick.
    Tick,
    /// Closes the end.
    Close(Reason),
    /// Opens the closed end again, under a number.
    Reopen(u32),
    /// The number of the session that the end is in.
    Number,
    /// The highest number that a frame of the pair had.
    Seen,
    /// Whether the end is open.
    IsOpen,
}

/// Makes a case on the end that was opened last. Only memory fails it, and then nothing has
/// changed.
pub fn make(
    alloc: Global,
    end: &mut Option<Session>,
    case: &EndCase,
) -> Result<Answer, AllocError> {
    if let EndCase::Open(me, peer, limits) = case {
        let Ok(session) = Session::open(alloc, *me, *peer, *limits) else {
            return Err(AllocError);
        };
        *end = Some(session);
        return Ok(Answer::Word("ok"));
    }
    match end {
        Some(session) => call(alloc, session, case),
        None => Ok(Answer::Word("no session")),
    }
}

fn call(alloc: Global, session: &mut Session, case: &EndCase) -> Result<Answer, AllocError> {
    match case {
        EndCase::Open(_, _, _) => Ok(Answer::Word("ok")),
        EndCase::Reserve(count) => match session.reserve(*count) {
            Ok(()) => Ok(Answer::Word("ok")),
            Err(_) => Err(AllocError),
        },
        EndCase::Next(kind) => Ok(next(session, *kind)),
        EndCase::FreeNumbers => Ok(Answer::Number(session.free_numbers())),
        EndCase::HasFrames => Ok(Answer::of_test(session.has_frames())),
        EndCase::Frames => Ok(Answer::Frames(session.frames()?)),
        EndCase::Send(kind, payload) => send(session, *kind, payload.clone()?),
        EndCase::Transmit => match session.transmit() {
            Ok(frames) => Ok(Answer::Frames(frames)),
            Err(_) => Err(AllocError),
        },
        EndCase::Arrive(bytes) => arrive(alloc, session, bytes),
        EndCase::Front => front(alloc, session),
        EndCase::Take => Ok(take(session)),
        EndCase::Tick => Ok(tick(session)),
        EndCase::Close(reason) => Ok(close(session, *reason)),
        EndCase::Reopen(number) => Ok(reopen(session, *number)),
        EndCase::Number => Ok(Answer::Number(u64::from(session.number()))),
        EndCase::Seen => Ok(Answer::Number(u64::from(session.seen()))),
        EndCase::IsOpen => Ok(Answer::of_test(session.is_open())),
    }
}

// An item has 1 to 16,384 bytes.
fn send(session: &mut Session, kind: Kind, payload: Vec<u8>) -> Result<Answer, AllocError> {
    if payload.is_empty() || payload.len() > 16_384 {
        return Ok(Answer::Word("no item"));
    }
    match session.send(payload, kind) {
        Ok(number) => Ok(Answer::Sent(number)),
        Err(error) => refused_call(error),
    }
}

fn next(session: &Session, kind: Kind) -> Answer {
    match session.next(kind) {
        Ok(number) => Answer::Sent(number),
        Err(refusal) => Answer::Refused(Refusal::End(SessionError::Refused(refusal))),
    }
}

fn arrive(alloc: Global, session: &mut Session, bytes: &[u8]) -> Result<Answer, AllocError> {
    let frame = match nob_frame::decode(alloc, bytes) {
        Ok(frame) => frame,
        Err(error) => return refused_frame(error),
    };
    match session.arrive(&frame) {
        Ok(Arrival::Took(count)) => Ok(Answer::Took(count)),
        Ok(Arrival::Closed(closed)) => Ok(Answer::Closed(closed.reason())),
        Err(error) => refused_call(error),
    }
}

fn front(alloc: Global, session: &Session) -> Result<Answer, AllocError> {
    match session.front() {
        Some((number, bytes)) => Ok(Answer::Waits(number, Vec::from_slice(alloc, bytes)?)),
        None => Ok(Answer::Word("none")),
    }
}

fn take(session: &mut Session) -> Answer {
    if session.front().is_none() {
        return Answer::Word("none");
    }
    session.take();
    Answer::Word("ok")
}

fn tick(session: &mut Session) -> Answer {
    match session.tick() {
        Ok(None) => Answer::Word("ok"),
        Ok(Some(closed)) => Answer::Closed(closed.reason()),
        Err(refusal) => Answer::Refused(Refusal::End(SessionError::Refused(refusal))),
    }
}

fn close(session: &mut Session, reason: Reason) -> Answer {
    match session.close(reason) {
        Ok(closed) => Answer::Closed(closed.reason()),
        Err(refusal) => Answer::Refused(Refusal::End(SessionError::Refused(refusal))),
    }
}

fn reopen(session: &mut Session, number: u32) -> Answer {
    match session.reopen(number) {
        Ok(()) => Answer::Word("ok"),
        Err(refusal) => Answer::Refused(Refusal::End(SessionError::Refused(refusal))),
    }
}
