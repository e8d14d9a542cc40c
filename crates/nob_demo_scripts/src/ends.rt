//! The steps on one end.

ghost use Rattle.std.specs.Prelude.{◌≡◌, ◌++◌, ◌∷◌, List, ℕ, length, IfOk, IsTrue, IsOk, OnOk, OnErr, ◌≢◌, ◌+◌, min, max, []};
ghost use Rattle.nob_ids.specs.declared.limits.Limits.{Limits as LimitsOf};
ghost use Rattle.nob_model_session.specs.declared.entry.EndEntry.{EndEntry};
ghost use Rattle.std.specs.List.{AllByRecursion};
ghost use Rattle.nob_frame.specs.declared.frame.Frame.{Frame as FrameOf};
ghost use Rattle.nob_frame.specs.declared.version.Version.TheVariants.{Two};
ghost use Rattle.nob_frame.specs.Spelling.{Fits, Spelt};
ghost use Rattle.nob_session.specs.Items.{IsItem, IsPair};
ghost use Rattle.nob_session.specs.Stands.{Stands};
ghost use Rattle.nob_session.specs.Wire.{IsSpelling};
ghost use Rattle.nob_session.specs.Calls.{next_of};
ghost use Rattle.nob_model_session.specs.declared.entry.Kind.TheVariants.{Limited};
ghost use Rattle.nob_demo_scripts.specs.Fronts.{IsFront};
ghost use Rattle.nob_demo_scripts.specs.Run.{answer_text, arrive_text, call_answer, call_takes_memory, calls_of};
ghost use Rattle.nob_model_session.specs.End.{last_session};
ghost use Rattle.nob_model_session.specs.Right.{right_arrive, right_transmit};
ghost use Rattle.nob_model_session.specs.declared.entry.EndEntry.TheVariants.{Arrive};

use crate::answer::{Answer, Sent};
use crate::log::FrameLog;
use crate::step::{Call, Side};
use nob_bytes::Bytes;
use nob_frame::Frame;
use nob_ids::Reason;
use nob_session::{Arrival, EndRefusal, Kind, Session, SessionError, wire};
use std::alloc::{AllocError, Global};

// Hands an item, and keeps it for the frames that will carry it.
#[tactic(auto, using(nob_session::proofs::Kept::places_send))]
pub fn put(
    alloc: Global,
    session: &mut Session,
    frames: &mut FrameLog,
    side: Side,
    item: Bytes,
) -> Result<Answer, AllocError>
    requires { IsItem item }
    ensures answer { (me peer before : ℕ) (limits : LimitsOf) (L : List EndEntry)
        → Stands me peer limits session.old.end L →
        IfOk result (λ a. (answer_text a ≡ call_answer limits me peer (Call.Put item) before L)
        × Stands me peer limits session.new.end (calls_of limits me peer (Call.Put item) L ++ L)) }
    ensures err { OnErr result (session.new.end ≡ session.old.end) }
    ensures frames { frames.new.frames ≡ frames.old.frames }
    ensures memory { (me peer : ℕ) (limits : LimitsOf) (L : List EndEntry)
        → Stands me peer limits session.old.end L →
        OnErr result (IsTrue (call_takes_memory (Call.Put item) L)) }
{
    match session.next(Kind::Limited) {
        Ok(_) => hand(alloc, session, frames, side, item),
        Err(refusal) => Ok(Answer::Refused(refusal)),
    }
}

// Hands an item that the end will take, and keeps it. All growth comes first.
fn hand(
    alloc: Global,
    session: &mut Session,
    frames: &mut FrameLog,
    side: Side,
    item: Bytes,
) -> Result<Answer, AllocError>
    requires item { IsItem item }
    requires taken { IsOk (next_of Limited session.old.end) }
    ensures answer { (me peer before : ℕ) (limits : LimitsOf) (L : List EndEntry)
        → Stands me peer limits session.old.end L →
        IfOk result (λ a. (answer_text a ≡ call_answer limits me peer (Call.Put item) before L)
        × Stands me peer limits session.new.end (calls_of limits me peer (Call.Put item) L ++ L)) }
    ensures err { OnErr result (session.new.end ≡ session.old.end) }
    ensures frames { frames.new.frames ≡ frames.old.frames }
{
    let Ok(()) = session.reserve(1) else {
        return Err(AllocError);
    };
    let payload = Vec::from_slice(alloc, item.as_slice())?;
    frames.add_item(side, item)?;
    match session.send(payload, Kind::Limited) {
        Ok(number) => Ok(Answer::Item(number)),
        Err(SessionError::Refused(_)) => unreachable!(),
        Err(SessionError::OutOfMemory) => unreachable!(),
    }
}

// Takes the first item that waits.
pub fn get(alloc: Global, session: &mut Session) -> Result<Answer, AllocError>
    ensures answer { (me peer before : ℕ) (limits : LimitsOf) (L : List EndEntry)
        → Stands me peer limits session.old.end L →
        IfOk result (λ a. (answer_text a ≡ call_answer limits me peer Call.Get before L)
        × Stands me peer limits session.new.end (calls_of limits me peer Call.Get L ++ L)) }
    ensures err { OnErr result (session.new.end ≡ session.old.end) }
    ensures memory { (me peer : ℕ) (limits : LimitsOf) (L : List EndEntry)
        → Stands me peer limits session.old.end L →
        OnErr result (IsTrue (call_takes_memory Call.Get L)) }
{
    if !session.is_open() {
        return Ok(Answer::Refused(EndRefusal::Closed));
    }
    let Some(answer) = front_of(alloc, session)? else {
        return Ok(Answer::Nothing);
    };
    session.take();
    Ok(answer)
}

// Counts a tick.
pub fn tick(session: &mut Session) -> Answer
    ensures answer { (me peer before : ℕ) (limits : LimitsOf) (L : List EndEntry)
        → Stands me peer limits session.old.end L →
        (answer_text result ≡ call_answer limits me peer Call.Tick before L)
        × Stands me peer limits session.new.end (calls_of limits me peer Call.Tick L ++ L) }
{
    match session.tick() {
        Ok(None) => Answer::Done,
        Ok(Some(closed)) => Answer::Closed(closed.reason()),
        Err(refusal) => Answer::Refused(refusal),
    }
}

// Closes the end.
pub fn close(session: &mut Session) -> Answer
    ensures answer { (me peer before : ℕ) (limits : LimitsOf) (L : List EndEntry)
        → Stands me peer limits session.old.end L →
        (answer_text result ≡ call_answer limits me peer Call.Close before L)
        × Stands me peer limits session.new.end (calls_of limits me peer Call.Close L ++ L) }
{
    match session.close(Reason::Asked) {
        Ok(closed) => Answer::Closed(closed.reason()),
        Err(refusal) => Answer::Refused(refusal),
    }
}

// Opens the end again, under the number of its next session.
pub fn open(session: &mut Session) -> Answer
    ensures answer { (me peer before : ℕ) (limits : LimitsOf) (L : List EndEntry)
        → Stands me peer limits session.old.end L →
        (answer_text result ≡ call_answer limits me peer Call.Open before L)
        × Stands me peer limits session.new.end (calls_of limits me peer Call.Open L ++ L) }
{
    let number = next_number(session);
    match session.reopen(number) {
        Ok(()) => Answer::Opened(number),
        Err(refusal) => Answer::Refused(refusal),
    }
}

// The number of an end's next session: the greater of its session's and one, if there is such a
// number, and the highest that arrived.
fn next_number(session: &Session) -> u32
    ensures { result ≡ max (min (session.now.end.number + 1) last_session) session.now.end.seen }
{
    session.number().saturating_add(1).max(session.seen())
}

// The first item that waits, if there is one, as the answer that it is.
fn front_of(alloc: Global, session: &Session) -> Result<Option<Answer>, AllocError>
    ensures front { IfOk result (λ front. IsFront front session.now.end) }
    ensures memory { OnErr result (session.now.end.waiting ≢ []) }
{
    match session.front() {
        None => Ok(None),
        Some((number, item)) => {
            let bytes = Vec::from_slice(alloc, item)?;
            Ok(Some(Answer::Got(number, Bytes::from_vec(bytes))))
        }
    }
}

// Gives to the end the frame that these bytes spell: it sees the bytes alone.
pub fn arrive(alloc: Global, session: &mut Session, bytes: &[u8]) -> Result<Answer, AllocError>
    requires { IsSpelling bytes.now }
    ensures answer { (frame : FrameOf) (me peer : ℕ) (limits : LimitsOf) (L : List EndEntry)
        → Spelt Two bytes.now frame → Stands me peer limits session.old.end L →
        IfOk result (λ a. (answer_text a ≡ arrive_text (right_arrive me peer frame L))
        × Stands me peer limits session.new.end (Arrive frame (right_arrive me peer frame L) ∷ L)) }
    ensures err { OnErr result (session.new.end ≡ session.old.end) }
{
    let frame = wire::from_bytes(alloc, bytes)?;
    hear(session, &frame)
}

// Gives a frame to the end.
fn hear(session: &mut Session, frame: &Frame) -> Result<Answer, AllocError>
    ensures answer { (me peer : ℕ) (limits : LimitsOf) (L : List EndEntry)
        → Stands me peer limits session.old.end L →
        IfOk result (λ a. (answer_text a ≡ arrive_text (right_arrive me peer frame.now L))
        × Stands me peer limits session.new.end
        (Arrive frame.now (right_arrive me peer frame.now L) ∷ L)) }
    ensures err { OnErr result (session.new.end ≡ session.old.end) }
{
    match session.arrive(frame) {
        Ok(Arrival::Took(count)) => Ok(Answer::Took(count)),
        Ok(Arrival::Closed(closed)) => Ok(Answer::Closed(closed.reason())),
        Err(SessionError::Refused(refusal)) => Ok(Answer::Refused(refusal)),
        Err(SessionError::OutOfMemory) => Err(AllocError),
    }
}

// Transmits onto the log of all frames. A transmit gives 64 frames at most, for which there is room
// first.
pub fn send(session: &mut Session, frames: &mut FrameLog) -> Result<Answer, AllocError>
    ensures answer { (me peer : ℕ) (limits : LimitsOf) (L : List EndEntry)
        → Stands me peer limits session.old.end L →
        IfOk result (λ a. (answer_text a
        ≡ call_answer limits me peer Call.Send (length frames.old.frames) L)
        × Stands me peer limits session.new.end (calls_of limits me peer Call.Send L ++ L)) }
    ensures given { (me peer : ℕ) (limits : LimitsOf) (L : List EndEntry)
        → Stands me peer limits session.old.end L →
        OnOk result (frames.new.frames ≡ frames.old.frames ++ right_transmit me peer limits.window
        L) }
    ensures session { OnErr result (session.new.end ≡ session.old.end) }
    ensures frames { OnErr result (frames.new.frames ≡ frames.old.frames) }
    ensures spelt { IsPair session.old.end.me session.old.end.peer
        → AllByRecursion (Fits Two) frames.old.frames → AllByRecursion (Fits Two) frames.new.frames }
{
    frames.reserve(64)?;
    let given = match session.transmit() {
        Ok(given) => given,
        Err(_) => return Err(AllocError),
    };
    let before = frames.len();
    let count = given.len() as u64;
    if count == 0 {
        return Ok(Answer::SentNothing);
    }
    frames.add(given);
    Ok(Answer::Sent(Sent { before, count }))
}
