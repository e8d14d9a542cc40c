//! One end of the sessions between two spaces.

ghost use Rattle.std.specs.Prelude.{◌≡◌, ◌≢◌, ◌+◌, ◌-◌, ◌<◌, ◌≤◌, ◌^◌, List, ℕ, Ok, Err, Some, None, Bool, true, false, not, ◌&&◌, ◌||◌, ◌==◌, is_ok, nat_le, nat_lt, max, IfOk, IfErr, IfSome, OnOk, OnErr, IsOk, IsOkUnless, length, take, drop, vec_len, [], ◌∷◌, ◌++◌};
ghost use Rattle.nob_ids.specs.declared.limits.Limits.{Limits as LimitsOf};
ghost use Rattle.nob_ids.specs.declared.reason.Reason.{Reason as ReasonOf};
ghost use Rattle.nob_model_session.specs.declared.entry.EndEntry.{EndEntry};
ghost use Rattle.nob_model_session.specs.declared.entry.EndEntry.TheVariants.{Send, Transmit, Arrive, Front, Take, IsOpen, Tick, Close, Reopen};
ghost use Rattle.nob_model_session.specs.Texts.{front_text};
ghost use Rattle.nob_model_session.specs.End.{greatest_seq, is_in_reach, last_item};
ghost use Rattle.nob_model_session.specs.Right as right;
ghost use Rattle.nob_model_session.specs.Right.{IsRight};
ghost use Rattle.std.specs.List.{AllByRecursion, slice_get};
ghost use Rattle.std.specs.VecDeque.{deque_len, deque_capacity};
ghost use Rattle.nob_frame.specs.Kinds.{is_data};
ghost use Rattle.nob_frame.specs.declared.version.Version.TheVariants.{Two};
ghost use Rattle.nob_frame.specs.Spelling.{Fits};
ghost use Rattle.nob_session.specs.Items.{IsItem, IsPair};
ghost use Rattle.nob_session.specs.Stands.{KeepsRoom, Stands, closed_end, end_of, heard, is_open_end, passed_over, seeing};
ghost use Rattle.nob_session.specs.Calls.{EndsBy, SameHanded, acceptable, accepting, after_transmit, beginning, evidence_of, frames_of, keeping, next_of, reopening_of, with_item, without_front};
ghost use Rattle.nob_session.specs.Answers.{Answered, KeepsAnew, arrived_of};
ghost use Rattle.nob_session.specs.Dues.{due_of, due_up_to};

use crate::closed::{Arrival, Closed};
use crate::due::Due;
use crate::error::SessionError;
use crate::places::Places;
use nob_bytes::Bytes;
use nob_frame::{Frame, FrameKind};
use nob_ids::{ItemNo, Limits, Reason, SpaceId};
use nob_model_session::end::{LAST_ITEM, REACH};
use nob_model_session::right::{INBOX_LIMIT, QUEUE_LIMIT};
use nob_model_session::{EndRefusal, Kind};
use std::alloc::{AllocError, Global};
use std::collections::VecDeque;
use std::marker::Model;
use std::ops::Range;

/// One end of the sessions between two spaces, which follow one another. It holds the payloads that
/// are unacknowledged, those that wait and those that came before their turn, and no other: what is
/// acknowledged or taken is given up at once, and so is all when the end closes.
#[derive(Debug, Drop)]
pub struct Session {
    alloc: Global,
    me: SpaceId,
    peer: SpaceId,
    limits: Limits,
    // the number of the session
    number: u32,
    // the highest number in a frame of the pair that arrived, 0 if none did
    seen: u32,
    // the payloads that are unacknowledged, the first first; none once it is closed
    unacknowledged: VecDeque<Bytes>,
    handed: u64,
    // the lowest number that isn't acknowledged
    lowest: u64,
    transmitted: u64,
    // the accepted payloads that wait, the first first, in a ring of 256 places; none once it is
    // closed
    waiting: VecDeque<Bytes>,
    // what came before its turn: a place for each of the 64 numbers from the next on; none once it
    // is closed
    early: Places,
    accepted: u64,
    taken: u64,
    // whether a Data frame arrived since the last transmit
    data_arrived: bool,
    ticks: u64,
    ending: Option<Reason>,
    owes_close: bool,
}

impl Model for Session {
    ghost use Rattle.nob_session.specs.Stands.{Roomy};

    ghost Value = { Roomy };

    ghost use Rattle.nob_session.specs.Sound.{as_seen, IsSound};

    ghost view = { as_seen };

    ghost invariant = { IsSound };
}

impl Session {
    /// Opens the end of `me` towards `peer` in session 1, with places for all items that can wait
    /// and for those that can be kept before their turn. Only memory fails it.
    #[tactic(auto, using(crate::proofs::Kept::none_kept))]
    pub fn open(
        alloc: Global,
        me: SpaceId,
        peer: SpaceId,
        limits: Limits,
    ) -> Result<Session, AllocError>
        ensures { IfOk result (λ session. Stands me peer limits session.end []) }
    {
        Session::open_at(alloc, me, peer, limits, 1)
    }

    /// Opens the end of `me` towards `peer` in the session of this number, at which nothing has
    /// arrived: as `open` does, but that sessions went before. Only memory fails it. The caller's
    /// condition: the number isn't 0.
    #[tactic(auto, using(crate::proofs::Kept::none_kept))]
    pub fn open_at(
        alloc: Global,
        me: SpaceId,
        peer: SpaceId,
        limits: Limits,
        number: u32,
    ) -> Result<Session, AllocError>
        requires { 1 ≤ number }
        ensures { IfOk result
            (λ session. session.end ≡ beginning number (end_of me peer limits [])) }
    {
        Ok(Session {
            alloc,
            me,
            peer,
            limits,
            number,
            seen: 0,
            unacknowledged: VecDeque::new(alloc),
            handed: 0,
            lowest: 1,
            transmitted: 0,
            waiting: VecDeque::with_capacity(alloc, INBOX_LIMIT)?,
            early: Places::empty(alloc)?,
            accepted: 0,
            taken: 0,
            data_arrived: false,
            ticks: 0,
            ending: None,
            owes_close: false,
        })
    }

    /// Whether this end is open.
    pub fn is_open(&self) -> bool
        ensures answer { (me peer : ℕ) (limits : LimitsOf) (L : List EndEntry)
            → Stands me peer limits self.now.end L → IsRight me peer limits (IsOpen result) L }
        ensures open { result ≡ is_open_end self.now.end }
    {
        self.ending.is_none()
    }

    /// How many payloads this end holds: the unacknowledged ones, and those that wait. What it
    /// keeps of items that came before their turn, 64 at most, is in neither number.
    pub fn held(&self) -> (usize, usize)
        ensures { result
            ≡ (length self.now.end.unacknowledged, length self.now.end.waiting) }
    {
        (self.unacknowledged.len(), self.waiting.len())
    }

    /// The number of the session that this end is in. Constant time.
    pub fn number(&self) -> u32
        ensures { result ≡ self.now.end.number }
    {
        self.number
    }

    /// The highest number in a frame of the pair that arrived here, 0 if none did. Constant time.
    pub fn seen(&self) -> u32
        ensures { result ≡ self.now.end.seen }
    {
        self.seen
    }

    /// How many items were handed to this end in its session. Constant time.
    pub fn handed(&self) -> u64
        ensures { result ≡ self.now.end.handed }
    {
        self.handed
    }

    /// How many of the peer's items were taken from this end in its session. Constant time.
    pub fn taken(&self) -> u64
        ensures { result ≡ self.now.end.taken }
    {
        self.taken
    }

    /// Why this end closed, if it has. Constant time.
    pub fn ending(&self) -> Option<Reason>
        ensures { result ≡ self.now.end.ending }
    {
        self.ending
    }

    /// What `send` would answer to an item of this kind, had it memory: the item's number, or N1,
    /// N2, N3, in this order. It takes no memory.
    pub fn next(&self, kind: Kind) -> Result<ItemNo, EndRefusal>
        ensures next { result ≡ next_of kind self.now.end }
        ensures open { OnOk result (self.now.end.ending ≡ None) }
        ensures low { IfOk result (λ number. number ≤ last_item) }
    {
        if self.ending.is_some() {
            return Err(EndRefusal::Closed);
        }
        let unacknowledged = self.handed + 1 - self.lowest;
        if kind.is_limited() && unacknowledged >= QUEUE_LIMIT as u64 {
            return Err(EndRefusal::QueueFull);
        }
        if self.handed >= LAST_ITEM {
            return Err(EndRefusal::SeqEnd);
        }
        Ok(ItemNo::new(self.handed + 1))
    }

    /// How many numbers are free for items. It takes no memory.
    pub fn free_numbers(&self) -> u64
        ensures { result ≡ last_item - self.now.end.handed }
    {
        LAST_ITEM - self.handed
    }

    /// Makes room for so many sends: they can't run out of memory then. Only memory fails it, and
    /// not where the room is there.
    pub fn reserve(&mut self, count: usize) -> Result<(), SessionError>
        ensures same { self.new.end ≡ self.old.end }
        ensures room { OnOk result (count ≤ self.new.room) }
        ensures kept { self.old.room ≤ self.new.room }
        ensures there { count ≤ self.old.room → IsOk result }
        ensures memory { IsOkUnless result SessionError.OutOfMemory }
    {
        self.unacknowledged.reserve(count)?;
        Ok(())
    }

    /// Takes an item to be sent, of 1 to 16,384 bytes: its number. It answers what `next` does, and
    /// then memory, which isn't wanted while there is room from `reserve`; a send uses up one place
    /// of it.
    #[tactic(auto, using(crate::proofs::Kept::places_send))]
    pub fn send(&mut self, payload: Vec<u8>, kind: Kind) -> Result<ItemNo, SessionError>
        requires { (0 < vec_len payload) × (vec_len payload ≤ 16384) }
        ensures answer { (me peer : ℕ) (limits : LimitsOf) (L : List EndEntry)
            → Stands me peer limits self.old.end L →
            Answered (λ n. n) result (λ answer.
            IsRight me peer limits (Send payload.items kind answer) L
            × Stands me peer limits self.new.end (Send payload.items kind answer ∷ L)) }
        ensures next { Answered (λ n. n) result (λ answer. answer ≡ next_of kind self.old.end) }
        ensures handed { OnOk result (self.new.end ≡ with_item self.old.end payload.items) }
        ensures err { OnErr result (self.new.end ≡ self.old.end) }
        ensures memory_last { result ≡ Err SessionError.OutOfMemory
            → IsOk (next_of kind self.old.end) }
        ensures reserved { 0 < self.old.room → result ≢ Err SessionError.OutOfMemory }
        ensures room { self.old.room ≤ self.new.room + 1 }
        ensures err_room { OnErr result (self.old.room ≤ self.new.room) }
    {
        let number = self.next(kind)?;
        self.unacknowledged.push_back(shared(payload))?;
        self.handed += 1;
        Ok(number)
    }

    /// Whether a transmit would give a frame. It takes no memory.
    pub fn has_frames(&self) -> bool
        ensures some { result ≡ true → frames_of self.now.end ≢ [] }
        ensures none { result ≡ false → frames_of self.now.end ≡ [] }
    {
        if self.ending.is_some() {
            return self.owes_close;
        }
        self.in_window() > 0 || self.data_arrived
    }

    /// What a transmit would give. It takes no memory, and constant time.
    pub fn due(&self) -> Due
        ensures { result ≡ due_of self.now.end.transmitted (frames_of self.now.end) }
    {
        match self.ending {
            Some(_) => due_of_closed(self.owes_close),
            None => self.due_open(),
        }
    }

    /// The frames that a transmit would give now. Only memory fails it.
    pub fn frames(&self) -> Result<Vec<Frame>, AllocError>
        ensures frames { IfOk result (λ frames. frames.items ≡ frames_of self.now.end) }
        ensures few { IfOk result (λ frames. length frames.items ≤ 64) }
        ensures spelt { IsPair self.now.end.me self.now.end.peer
            → IfOk result (λ frames. AllByRecursion (Fits Two) frames.items) }
        ensures memory { OnErr result (frames_of self.now.end ≢ []) }
    {
        match self.ending {
            Some(reason) => self.closed_frames(reason),
            None => self.open_frames(),
        }
    }

    /// Gives the frames to be sent now. An open end gives its lowest unacknowledged item, again if
    /// need be, and those of a window of them that it never gave, or else an Ack if a Data frame
    /// arrived since the last transmit; a closed end gives the Close that it owes, once. The frames
    /// share their payloads with this end. Only memory fails it.
    #[tactic(auto, using(crate::proofs::Kept::places_transmit))]
    pub fn transmit(&mut self) -> Result<Vec<Frame>, SessionError>
        ensures answer { (me peer : ℕ) (limits : LimitsOf) (L : List EndEntry)
            → Stands me peer limits self.old.end L →
            IfOk result (λ frames. IsRight me peer limits (Transmit frames.items) L
            × Stands me peer limits self.new.end (Transmit frames.items ∷ L)) }
        ensures frames { IfOk result (λ frames. frames.items ≡ frames_of self.old.end) }
        ensures given { OnOk result (self.new.end ≡ after_transmit self.old.end) }
        ensures err { OnErr result (self.new.end ≡ self.old.end) }
        // Each frame has a spelling.
        ensures few { IfOk result (λ frames. length frames.items ≤ 64) }
        ensures spelt { IsPair self.old.end.me self.old.end.peer
            → IfOk result (λ frames. AllByRecursion (Fits Two) frames.items) }
        ensures memory { IsOkUnless result SessionError.OutOfMemory }
        // Memory is wanted only where there is something to give.
        ensures memory_last { OnErr result (frames_of self.old.end ≢ []) }
        ensures room { self.old.room ≤ self.new.room }
    {
        let frames = self.frames()?;
        self.transmitted = self.highest();
        self.data_arrived = false;
        self.owes_close = false;
        Ok(frames)
    }

    // How many items are in the window of the open end: the unacknowledged ones, and at most so
    // many.
    fn in_window(&self) -> usize
        requires { self.now.end.ending ≡ None }
        ensures window { take result self.now.end.unacknowledged
            ≡ take self.now.end.limits.window self.now.end.unacknowledged }
        ensures count { length (take self.now.end.limits.window self.now.end.unacknowledged)
            ≡ result }
        ensures there { result ≤ length self.now.end.unacknowledged }
        ensures few { result ≤ 64 }
        ensures last { self.now.end.lowest + result ≤ self.now.end.handed + 1 }
    {
        let window = self.limits.window as usize;
        window.min(self.unacknowledged.len())
    }

    // The highest number that is transmitted after a transmit.
    #[tactic(auto, using(crate::proofs::Given::highest_given))]
    fn highest(&self) -> u64
        ensures value { result ≡ max self.now.end.transmitted
            (greatest_seq (frames_of self.now.end)) }
        ensures bound { (self.now.end.lowest ≤ result + 1) × (result ≤ self.now.end.handed) }
    {
        if self.ending.is_some() {
            return self.transmitted;
        }
        let last = self.lowest - 1 + self.in_window() as u64;
        self.transmitted.max(last)
    }

    // What a transmit of the open end would give.
    fn due_open(&self) -> Due
        requires { self.now.end.ending ≡ None }
        ensures { result ≡ due_of self.now.end.transmitted
            (right.open_frames self.now.end.me self.now.end.peer self.now.end.number
            (self.now.end.accepted + 1) self.now.end.lowest self.now.end.transmitted
            self.now.end.data_arrived
            (take self.now.end.limits.window self.now.end.unacknowledged)) }
    {
        let count = self.in_window();
        due_of_window(self.transmitted, self.lowest, self.data_arrived, count)
    }

    // What a transmit of the open end gives.
    fn open_frames(&self) -> Result<Vec<Frame>, AllocError>
        requires { self.now.end.ending ≡ None }
        ensures few { IfOk result (λ frames. length frames.items ≤ 64) }
        ensures spelt { IsPair self.now.end.me self.now.end.peer
            → IfOk result (λ frames. AllByRecursion (Fits Two) frames.items) }
        ensures frames { IfOk result (λ frames. frames.items
            ≡ right.open_frames self.now.end.me self.now.end.peer self.now.end.number
            (self.now.end.accepted + 1) self.now.end.lowest self.now.end.transmitted
            self.now.end.data_arrived
            (take self.now.end.limits.window self.now.end.unacknowledged)) }
        ensures memory { OnErr result (right.open_frames self.now.end.me self.now.end.peer
            self.now.end.number
            (self.now.end.accepted + 1) self.now.end.lowest self.now.end.transmitted
            self.now.end.data_arrived
            (take self.now.end.limits.window self.now.end.unacknowledged) ≢ []) }
    {
        let count = self.in_window();
        let ack = self.accepted + 1;
        if count > 0 {
            return self.item_frames(ack, count);
        }
        if !self.data_arrived {
            return Ok(Vec::new(self.alloc));
        }
        self.lone_frame(FrameKind::Ack, ack, &[])
    }

    // What a transmit of the open end gives of a window of so many items: the lowest, and those
    // above the highest number that was given before.
    fn item_frames(&self, ack: u64, count: usize) -> Result<Vec<Frame>, AllocError>
        requires some { 0 < count }
        requires there { count ≤ length self.now.end.unacknowledged }
        requires last { self.now.end.lowest + count ≤ self.now.end.handed + 1 }
        ensures { (due : Bool) → IfOk result (λ frames. frames.items
            ≡ right.open_frames self.now.end.me self.now.end.peer self.now.end.number ack
            self.now.end.lowest
            self.now.end.transmitted due (take count self.now.end.unacknowledged)) }
    {
        let (me, peer, session) = (self.me, self.peer, self.number);
        let (lowest, payloads) = (self.lowest, &self.unacknowledged);
        let first_new = self.transmitted.saturating_sub(lowest) as usize + 1;
        let new = first_new..count;
        let mut frames = Vec::with_capacity(self.alloc, count.saturating_sub(first_new) + 1)?;
        push_data(&mut frames, me, peer, session, ack, lowest, payloads, 0..1)?;
        push_data(&mut frames, me, peer, session, ack, lowest, payloads, new)?;
        Ok(frames)
    }

    // The one frame of this kind.
    fn lone_frame(
        &self,
        kind: FrameKind,
        ack: u64,
        payload: &[u8],
    ) -> Result<Vec<Frame>, AllocError>
        ensures len { IfOk result (λ frames. length frames.items ≤ 64) }
        ensures frame { IfOk result (λ frames. frames.items
            ≡ record {
              kind = kind;
              from = self.now.end.me;
              to = self.now.end.peer;
              session = self.now.end.number;
              seq = 0;
              ack = ack;
              payload = payload.now;
            } ∷ []) }
    {
        let mut frames = Vec::with_capacity(self.alloc, 1)?;
        frames.push(Frame {
            kind,
            from: self.me,
            to: self.peer,
            session: self.number,
            seq: 0,
            ack,
            payload: Bytes::from_vec(Vec::from_slice(self.alloc, payload)?),
        })?;
        Ok(frames)
    }

    // What a transmit of the closed end gives.
    fn closed_frames(&self, reason: Reason) -> Result<Vec<Frame>, AllocError>
        ensures few { IfOk result (λ frames. length frames.items ≤ 64) }
        ensures spelt { IsPair self.now.end.me self.now.end.peer
            → IfOk result (λ frames. AllByRecursion (Fits Two) frames.items) }
        ensures frames { IfOk result (λ frames. frames.items
            ≡ right.closed_frames self.now.end.me self.now.end.peer self.now.end.number
            (self.now.end.accepted + 1) self.now.end.owes_close (Some reason)) }
        ensures memory { OnErr result (right.closed_frames self.now.end.me self.now.end.peer
            self.now.end.number
            (self.now.end.accepted + 1) self.now.end.owes_close (Some reason) ≢ []) }
    {
        if !self.owes_close {
            return Ok(Vec::new(self.alloc));
        }
        let payload = [reason.number()];
        let ack = self.accepted + 1;
        self.lone_frame(FrameKind::Close, ack, &payload)
    }

    /// Gives a frame to this end. An open end is closed by a Close frame of its session, by any
    /// frame of a newer one (reason 2), and by an acknowledgement of what it never transmitted
    /// (reason 4); of an older session's frame it takes note alone that Data is to be answered. A
    /// Data frame's item is kept if its
    /// number is the next or one of the 63 behind it, at most 2^40, and no item with it is kept
    /// yet; then those that are kept in a row from the next on are accepted, while fewer than 256
    /// wait, and the answer says how many. A closed end takes nothing. N4 for a frame of another
    /// pair. Only an item that is kept takes memory.
    #[tactic(auto, using(crate::proofs::Arrived::none_brought))]
    pub fn arrive(&mut self, frame: &Frame) -> Result<Arrival, SessionError>
        ensures answer { (me peer : ℕ) (limits : LimitsOf) (L : List EndEntry)
            → Stands me peer limits self.old.end L →
            Answered arrived_of result (λ answer. IsRight me peer limits (Arrive frame.now answer) L
            × Stands me peer limits self.new.end (Arrive frame.now answer ∷ L)) }
        ensures err { OnErr result (self.new.end ≡ self.old.end) }
        ensures memory { is_data frame.now.kind ≡ false → result ≢ Err SessionError.OutOfMemory }
        // Memory comes after each refusal, and only where the item would be kept anew.
        ensures memory_last { (me peer : ℕ) (limits : LimitsOf) (L : List EndEntry)
            → Stands me peer limits self.old.end L →
            result ≡ Err SessionError.OutOfMemory → KeepsAnew me peer frame.now L }
        ensures same { SameHanded self.old.end self.new.end }
        ensures ends { IfOk result (λ arrival. EndsBy
            (seeing frame.now.session self.old.end) self.new.end (evidence_of arrival)) }
        ensures room { KeepsRoom self.old self.new }
    {
        if frame.from != self.peer || frame.to != self.me {
            return Err(SessionError::Refused(EndRefusal::Strange));
        }
        if self.passes(frame) {
            self.pass_over(frame);
            return Ok(Arrival::Took(0));
        }
        if frame.session > self.number || frame.kind.is_close() {
            return Ok(Arrival::Closed(self.end_by(frame, Reason::PeerClosed)));
        }
        if frame.ack > self.transmitted + 1 {
            return Ok(Arrival::Closed(self.end_by(frame, Reason::BadItem)));
        }
        if !frame.kind.is_data() {
            self.hear(frame);
            return Ok(Arrival::Took(0));
        }
        self.keep(frame)?;
        let count = self.accept();
        self.hear(frame);
        Ok(Arrival::Took(count as u64))
    }

    // Whether nothing is taken of a frame: one of an older session, and any at a closed end.
    fn passes(&self, frame: &Frame) -> bool
        ensures { result ≡ (nat_lt frame.now.session self.now.end.number
            || not (is_open_end self.now.end)) }
    {
        frame.session < self.number || self.ending.is_some()
    }

    // Takes note of such a frame.
    fn pass_over(&mut self, frame: &Frame)
        ensures passed { self.new.end ≡ passed_over self.old.end frame.now }
        ensures room { self.old.room ≤ self.new.room }
    {
        self.seen = self.seen.max(frame.session);
        if frame.session > self.number {
            return;
        }
        if self.ending.is_some() {
            self.owes_close = self.owes_close || !frame.kind.is_close();
        } else {
            self.data_arrived = self.data_arrived || frame.kind.is_data();
        }
    }

    // Keeps the payload of a Data frame, if its place is in reach and empty. Only memory fails it,
    // and it is wanted only then.
    fn keep(&mut self, frame: &Frame) -> Result<(), AllocError>
        requires { self.old.end.ending ≡ None }
        ensures kept { OnOk result (self.new.end ≡ keeping self.old.end frame.now) }
        ensures err { OnErr result (self.new.end ≡ self.old.end) }
        ensures reach { OnErr result (is_in_reach self.old.end.accepted frame.now.seq ≡ true) }
        ensures empty { OnErr result (slice_get self.old.end.early
            (frame.now.seq - (self.old.end.accepted + 1)) ≡ Some None) }
        ensures room { self.old.room ≤ self.new.room }
    {
        if !self.is_in_reach(frame.seq) {
            return Ok(());
        }
        let at = (frame.seq - self.accepted - 1) as usize;
        if !self.early.is_empty_at(at) {
            return Ok(());
        }
        self.early.put(at, frame.payload.copy()?);
        Ok(())
    }

    // Whether a number is in reach: the next one or one of the 63 behind it, and at most 2^40.
    fn is_in_reach(&self, seq: u64) -> bool
        ensures { result ≡ is_in_reach self.now.end.accepted seq }
    {
        seq > self.accepted && seq - self.accepted <= REACH as u64 && seq <= LAST_ITEM
    }

    // Accepts what is kept in a row from the next item on, while the inbox of the open end has
    // room: how many items that was.
    fn accept(&mut self) -> usize
        requires { self.old.end.ending ≡ None }
        ensures count { result ≡ acceptable self.old.end }
        ensures accepted { self.new.end ≡ accepting result self.old.end }
        ensures room { self.old.room ≤ self.new.room }
    {
        let room = INBOX_LIMIT - self.waiting.len();
        let count = self.early.accept(&mut self.waiting, room);
        self.accepted += count as u64;
        count
    }

    // Takes note of what a Data or Ack frame acknowledges, and of Data that is to be acknowledged.
    fn hear(&mut self, frame: &Frame)
        requires open { self.old.end.ending ≡ None }
        requires transmitted { frame.now.ack ≤ self.old.end.transmitted + 1 }
        ensures heard { self.new.end ≡ heard self.old.end frame.now }
        ensures room { self.old.room ≤ self.new.room }
    {
        self.seen = self.seen.max(frame.session);
        if frame.ack > self.lowest {
            give_up(&mut self.unacknowledged, (frame.ack - self.lowest) as usize);
            self.lowest = frame.ack;
            self.ticks = 0;
        }
        if frame.kind.is_data() {
            self.data_arrived = true;
        }
    }

    /// The first item that waits, with its number. `None` where none waits, and once the end is
    /// closed.
    pub fn front(&self) -> Option<(ItemNo, &[u8])>
        ensures answer { (me peer : ℕ) (limits : LimitsOf) (L : List EndEntry)
            → Stands me peer limits self.now.end L
            → IsRight me peer limits (Front (front_text result)) L }
        ensures waits { front_text result
            ≡ right.first_of (self.now.end.taken + 1) self.now.end.waiting }
    {
        let payload = self.waiting.front()?;
        Some((ItemNo::new(self.taken + 1), payload.as_slice()))
    }

    /// Gives up the first item that waits: the caller has seen by `front` that there is one.
    pub fn take(&mut self)
        requires { 0 < length self.old.end.waiting }
        ensures answer { (me peer : ℕ) (limits : LimitsOf) (L : List EndEntry)
            → Stands me peer limits self.old.end L →
            IsRight me peer limits Take L × Stands me peer limits self.new.end (Take ∷ L) }
        ensures taken { self.new.end ≡ without_front self.old.end }
        ensures room { self.old.room ≤ self.new.room }
    {
        give_up(&mut self.waiting, 1);
        self.taken += 1;
    }

    /// Counts a tick if something is transmitted and unacknowledged; the tick that makes the count
    /// reach the retry limit closes the end (reason 3). N1 at a closed end.
    #[tactic(auto, using(crate::proofs::Kept::places_tick))]
    pub fn tick(&mut self) -> Result<Option<Closed>, EndRefusal>
        ensures answer { (me peer : ℕ) (limits : LimitsOf) (L : List EndEntry)
            → Stands me peer limits self.old.end L →
            IsRight me peer limits (Tick result) L
            × Stands me peer limits self.new.end (Tick result ∷ L) }
        ensures open { is_ok result ≡ is_open_end self.old.end }
        ensures same { SameHanded self.old.end self.new.end }
        ensures ends { IfOk result (λ closed. EndsBy self.old.end self.new.end closed) }
        ensures reason { IfOk result (λ closed.
            IfSome closed (λ ending. ending.reason ≡ Reason.RetriesUsedUp)) }
        ensures refused { IfErr result (λ refusal. refusal ≡ EndRefusal.Closed) }
        ensures err { OnErr result (self.new.end ≡ self.old.end) }
        ensures room { KeepsRoom self.old self.new }
    {
        if self.ending.is_some() {
            return Err(EndRefusal::Closed);
        }
        if self.lowest > self.transmitted {
            return Ok(None);
        }
        if self.ticks + 1 >= self.limits.retry {
            return Ok(Some(self.end(Reason::RetriesUsedUp)));
        }
        self.ticks += 1;
        Ok(None)
    }

    /// Closes this end for a reason. N1 at a closed end.
    pub fn close(&mut self, reason: Reason) -> Result<Closed, EndRefusal>
        ensures answer { (me peer : ℕ) (limits : LimitsOf) (L : List EndEntry)
            → Stands me peer limits self.old.end L →
            IsRight me peer limits (Close reason result) L
            × Stands me peer limits self.new.end (Close reason result ∷ L) }
        ensures open { is_ok result ≡ is_open_end self.old.end }
        ensures same { SameHanded self.old.end self.new.end }
        ensures ends { IfOk result (λ closed. EndsBy self.old.end self.new.end (Some closed)) }
        ensures reason { IfOk result (λ closed. closed.reason ≡ reason) }
        ensures refused { IfErr result (λ refusal. refusal ≡ EndRefusal.Closed) }
        ensures err { OnErr result (self.new.end ≡ self.old.end) }
        ensures room { KeepsRoom self.old self.new }
    {
        if self.ending.is_some() {
            return Err(EndRefusal::Closed);
        }
        Ok(self.end(reason))
    }

    /// Opens this closed end again, in the session of this number: everything begins anew, and what
    /// it owed is given up. N5 at an open end; N6 for a number that isn't above that of its
    /// session, or is below the highest that arrived. It takes no memory.
    #[tactic(auto, using(crate::proofs::Kept::none_again, crate::proofs::Kept::places_refused))]
    pub fn reopen(&mut self, number: u32) -> Result<(), EndRefusal>
        ensures answer { (me peer : ℕ) (limits : LimitsOf) (L : List EndEntry)
            → Stands me peer limits self.old.end L →
            IsRight me peer limits (Reopen number result) L
            × Stands me peer limits self.new.end (Reopen number result ∷ L) }
        ensures judged { result ≡ reopening_of number self.old.end }
        ensures reopened { OnOk result (self.new.end ≡ beginning number self.old.end) }
        ensures err { OnErr result (self.new.end ≡ self.old.end) }
        ensures room { self.old.room ≤ self.new.room }
    {
        if self.is_open() {
            return Err(EndRefusal::StillOpen);
        }
        if number <= self.number || number < self.seen {
            return Err(EndRefusal::Number);
        }
        self.begin(number);
        Ok(())
    }

    // Begins the session of this number: the closed end holds nothing of the one before.
    fn begin(&mut self, number: u32)
        requires closed { is_open_end self.old.end ≡ false }
        requires positive { 1 ≤ number }
        ensures begun { self.new.end ≡ beginning number self.old.end }
        ensures room { self.old.room ≤ self.new.room }
    {
        self.number = number;
        self.handed = 0;
        self.lowest = 1;
        self.transmitted = 0;
        self.early.refill();
        self.accepted = 0;
        self.taken = 0;
        self.data_arrived = false;
        self.ticks = 0;
        self.ending = None;
        self.owes_close = false;
    }

    // Closes the open end, at which this frame arrived.
    fn end_by(&mut self, frame: &Frame, reason: Reason) -> Closed
        requires { self.old.end.ending ≡ None }
        ensures closed { (result.peer ≡ self.old.end.peer) × (result.reason ≡ reason) }
        ensures thrown_away { self.new.end
            ≡ closed_end (seeing frame.now.session self.old.end) reason }
    {
        self.seen = self.seen.max(frame.session);
        self.end(reason)
    }

    // Closes the open end: what it kept is thrown away.
    fn end(&mut self, reason: Reason) -> Closed
        requires { self.old.end.ending ≡ None }
        ensures closed { (result.peer ≡ self.old.end.peer) × (result.reason ≡ reason) }
        ensures thrown_away { self.new.end ≡ closed_end self.old.end reason }
    {
        self.unacknowledged.clear();
        self.waiting.clear();
        self.early.clear();
        self.ending = Some(reason);
        self.owes_close = reason != Reason::PeerClosed;
        Closed::new(self.peer, reason)
    }
}

// The payload, which each frame that carries it shares. Where there is no memory for the count of
// those who share it, each of them copies it.
fn shared(payload: Vec<u8>) -> Bytes
    ensures { result ≡ payload.items }
{
    let mut bytes = Bytes::from_vec(payload);
    let _shared = bytes.share();
    bytes
}

// Drops so many payloads from the front of a queue, which keeps its room.
fn give_up(payloads: &mut VecDeque<Bytes>, count: usize)
    ensures items { payloads.new.items ≡ drop count payloads.old.items }
    ensures len { deque_len payloads.new ≤ deque_len payloads.old }
    ensures capacity { deque_capacity payloads.new ≡ deque_capacity payloads.old }
{
    for _i in 0..count {
        let _acknowledged = payloads.pop_front();
    }
}

// Adds a Data frame for each payload in these places of a queue, the first of which has the number
// `lowest`.
fn push_data(
    frames: &mut Vec<Frame>,
    me: SpaceId,
    peer: SpaceId,
    session: u32,
    ack: u64,
    lowest: u64,
    payloads: &VecDeque<Bytes>,
    places: Range<usize>,
) -> Result<(), AllocError>
    requires there { places.end ≤ length payloads.now.items }
    requires numbers { lowest + places.end < 2 ^ 64 }
    ensures { OnOk result (frames.new.items ≡ frames.old.items
        ++ right.data_frames me peer session ack (lowest + places.start)
        (drop places.start (take places.end payloads.now.items))) }
{
    for i in places.start..places.end {
        frames.push(Frame {
            kind: FrameKind::Data,
            from: me,
            to: peer,
            session,
            seq: lowest + i as u64,
            ack,
            payload: payloads[i].copy()?,
        })?;
    }
    Ok(())
}

// What a closed end has to give.
fn due_of_closed(owes_close: bool) -> Due
    ensures { (me peer session ack transmitted : ℕ) (reason : ReasonOf) → result
        ≡ due_of transmitted (right.closed_frames me peer session ack owes_close (Some reason)) }
{
    if owes_close { Due::Close } else { Due::Nothing }
}

// What an open end has to give, in whose window there are so many items, from the lowest on.
fn due_of_window(transmitted: u64, lowest: u64, data_arrived: bool, count: usize) -> Due
    requires { lowest + count < 2 ^ 63 }
    ensures { (me peer session ack : ℕ) (payloads : List (List ℕ)) → length payloads ≡ count
        → result
        ≡ due_of transmitted
        (right.open_frames me peer session ack lowest transmitted data_arrived payloads) }
{
    if count > 0 {
        return due_of_items(transmitted, lowest + (count - 1) as u64);
    }
    if data_arrived { Due::Ack } else { Due::Nothing }
}

// What an end has to give in whose window the items up to the last one are.
fn due_of_items(transmitted: u64, last: u64) -> Due
    ensures { result ≡ due_up_to transmitted last }
{
    if transmitted < last {
        Due::New
    } else {
        Due::Again
    }
}
