//! A space.

ghost use Rattle.std.specs.Prelude.{◌≡◌, ◌≢◌, ◌≤◌, ◌-◌, ℕ, List, [], true, false, Some, Err, IfOk, IfErr, OnErr, slice_get};
ghost use Rattle.std.specs.List.{AllByRecursion};
ghost use Rattle.nob_ids.specs.Names.{IsSpace};
ghost use Rattle.nob_frame.specs.Spelling.{Fits};
ghost use Rattle.nob_frame.specs.declared.version.Version.TheVariants.{Two};
ghost use Rattle.nob_model_types.specs.declared.answer.Answer.TheVariants as answers;
ghost use Rattle.nob_model_types.specs.declared.event.Event.TheVariants as events;
ghost use Rattle.nob_model_types.specs.declared.entry.Entry.{Entry};
ghost use Rattle.nob_model_types.specs.Deeds.{deeds};
ghost use Rattle.nob_model_types.specs.Sessions.{is_peer};
ghost use Rattle.nob_model_history.specs.Histories.{history};
ghost use Rattle.nob_model_history.specs.Listing.{is_listed};
ghost use Rattle.nob_model.specs.Next as next;
ghost use Rattle.nob_model.specs.Right.{right};
ghost use Rattle.nob_model.specs.Tallies as tallies;
ghost use Rattle.nob_model_births.specs.Births.{IsBorn, IsInRange};
ghost use Rattle.nob_space_state.specs.Births.{life_of};
ghost use Rattle.nob_space_state.specs.Dues as dues;
ghost use Rattle.nob_space_state.specs.Stands.{AnswersOrWants};
ghost use Rattle.nob_space.specs.Births.{IsError};
ghost use Rattle.nob_space.specs.Spaces.{StandsFor, SameSpace, wants_memory};
ghost use Rattle.nob_space.specs.Steps.{HandsOnFitting, IsOwn};
ghost use Rattle.nob_space.specs.Events.{StepAnswers, StepStands};
ghost use Rattle.nob_space.specs.Twice.{first_of, first_of_three, wants_memory_twice};

use crate::answers::{of_arrive, of_call, of_finish, of_tick};
use crate::twice::{again, spare_of};
use crate::work::{Work, acts, sends};
use nob_frame::Frame;
use nob_ids::{CallNo, Limits, SpaceId};
use nob_model::{Answer, Backlog, Event, Here, Tally};
use nob_session::Due;
use nob_space_items::{can_clean, can_settle};
use nob_space_state::{Birth, BirthError, Parts, SpaceError};
use std::alloc::{AllocError, Global};
use std::marker::Model;

/// A space among the spaces from 1 to `n`: it owns objects, holds references to those of others,
/// and has a session with each other space. Contracts see its number, its limits and its state, and
/// for which lists of entries that stands. It holds pins, so it can't be let go: `shut` ends it.
pub struct Space {
    limits: Limits,
    pub(crate) alloc: Global,
    pub(crate) parts: Parts,
}

impl Model for Space {
    ghost use Rattle.nob_space.specs.Spaces.{Owner, IsOwner};
    ghost use Rattle.nob_space_state.specs.Parts.{state_of};

    ghost Value = { Owner };

    ghost use Rattle.std.specs.Coded.{codes};
    ghost use Rattle.nob_pickle.specs.Marks.{trees_code};

    ghost coded = { Prim.hlevel (codes, trees_code) };

    ghost view = { λ space. record {
      id = space.parts.here.space;
      n = space.parts.here.n;
      limits = space.limits;
      state = state_of space.parts;
    } };

    ghost invariant = { λ space. IsOwner space.limits space.parts };
}

impl Space {
    /// A space that has done nothing: its sessions with all others are open. Only memory fails it.
    /// The caller's condition: there are 32 spaces at most. Linear in them.
    pub fn new(alloc: Global, id: SpaceId, n: u16, limits: Limits) -> Result<Space, AllocError>
        requires { n ≤ 32 }
        ensures id { IfOk result (λ space. space.id ≡ id) }
        ensures n { IfOk result (λ space. space.n ≡ n) }
        ensures limits { IfOk result (λ space. space.limits ≡ limits) }
        ensures stands { IfOk result (λ space. StandsFor space []) }
    {
        let parts = Parts::new(alloc, Here { space: id, n }, limits)?;
        Ok(Space {
            limits,
            alloc,
            parts,
        })
    }

    /// A space whose life begins so: a new space, or one that comes back under its number behind
    /// what it had, and has nothing of its life before. Its sessions with all others are open, each
    /// in its number; the first object has the index behind `indexes`, the first call and the first
    /// job the numbers behind `calls` and `jobs`. It stands for every list of entries after which it
    /// is born so, and for each birth that isn't refused there is one.
    ///
    /// A birth is refused that isn't a new space's (`Birth::default()`) nor a later life's, by the
    /// first of these: `Indexes`, `Calls` or `Jobs` above 2^48; the `Session` with a peer in a number
    /// below 2; `Earlier` where calls and jobs together are above 2^40 for each of the sessions
    /// before the present one, whichever the peer. No other birth is, but for want of memory.
    ///
    /// The caller's condition: there are 32 spaces at most. Linear in them.
    pub fn begin_at(
        alloc: Global,
        id: SpaceId,
        n: u16,
        limits: Limits,
        birth: &Birth,
    ) -> Result<Space, BirthError>
        requires { n ≤ 32 }
        ensures id { IfOk result (λ space. space.id ≡ id) }
        ensures n { IfOk result (λ space. space.n ≡ n) }
        ensures limits { IfOk result (λ space. space.limits ≡ limits) }
        ensures stands { IfOk result (λ space. (L : List Entry)
            → IsBorn id n limits (life_of birth.now) L → StandsFor space L) }
        ensures in_range { IfOk result (λ space. IsInRange id n (life_of birth.now)) }
        ensures err { IfErr result (λ error. IsError id n (life_of birth.now) error) }
    {
        let here = Here { space: id, n };
        birth.check(&here)?;
        let parts = Parts::begin_at(alloc, here, limits, birth)?;
        Ok(Space {
            limits,
            alloc,
            parts,
        })
    }

    /// The number of the space.
    pub fn id(&self) -> SpaceId
        ensures { result ≡ self.now.id }
    {
        self.parts.here.space
    }

    /// How many spaces there are.
    pub fn n(&self) -> u16
        ensures { result ≡ self.now.n }
    {
        self.parts.here.n
    }

    /// The limits of its sessions.
    pub fn limits(&self) -> Limits
        ensures { result ≡ self.now.limits }
    {
        self.limits
    }

    /// Whether a client is listed for the object of an index: it asked for it, was granted it, and
    /// hasn't given it up. Logarithmic in the listings.
    pub fn lists(&self, index: u64, client: SpaceId) -> bool
        ensures { (L : List Entry) → StandsFor self.now L
            → result ≡ is_listed self.now.id index client (deeds L) }
    {
        self.parts.lists(index, client)
    }

    /// Whether TakeReply of a call would say anything but that the reply isn't ready. Logarithmic in
    /// the calls and the ready replies.
    pub fn reply_ready(&self, call: CallNo) -> bool
        ensures { (L : List Entry) → StandsFor self.now L
            → result ≡ next.reply_ready call (history self.now.id self.now.n L) }
    {
        self.parts.reply_ready(call)
    }

    /// Whether there is a message to settle: to ask it would be no refusal, free numbers and want of
    /// memory aside. It takes no memory. A few words of bits.
    pub fn can_settle(&self) -> bool
        ensures { (L : List Entry) → StandsFor self.now L
            → result ≡ next.can_settle self.now.id self.now.n (history self.now.id self.now.n L) }
    {
        can_settle(&self.parts)
    }

    /// Whether there is a surrogate to give up, free numbers and want of memory aside. It takes no
    /// memory. A few look-ups, and one for each surrogate that nothing holds, but that is pinned.
    pub fn can_clean(&self) -> bool
        ensures { (L : List Entry) → StandsFor self.now L
            → result ≡ next.can_clean self.now.id self.now.n (history self.now.id self.now.n L) }
    {
        can_clean(&self.parts)
    }

    /// Whether there is a job to claim, want of memory aside. It takes no memory. A few words of
    /// bits.
    pub fn can_claim(&self) -> bool
        ensures { (L : List Entry) → StandsFor self.now L
            → result ≡ next.can_claim (history self.now.id self.now.n L) }
    {
        self.parts.can_claim()
    }

    /// The least index of an object that Withdraw would take. It takes no memory. A few look-ups,
    /// and one for each object that nothing holds, nor keeps, but that is pinned.
    pub fn to_withdraw(&self) -> Option<u64>
        ensures { (L : List Entry) → StandsFor self.now L
            → result ≡ next.to_withdraw self.now.id (history self.now.id self.now.n L) }
    {
        self.parts.to_withdraw()
    }

    /// What the space could do next: to ask it that would be no refusal, limits, free numbers and
    /// want of memory aside. It takes no memory. A few look-ups, and one for each object or
    /// surrogate that nothing holds, nor keeps, but that is pinned.
    pub fn work(&self) -> Work
        ensures act { (L : List Entry) → StandsFor self.now L → (p : ℕ) → 1 ≤ p → p ≤ 32
            → slice_get result.act (p - 1)
            ≡ Some (next.can_act self.now.id self.now.n p (history self.now.id self.now.n L)) }
        ensures send { (L : List Entry) → StandsFor self.now L → (p : ℕ) → 1 ≤ p → p ≤ 32
            → slice_get result.send (p - 1)
            ≡ Some (next.can_send self.now.id self.now.n p self.now.limits.window
            (history self.now.id self.now.n L)) }
        ensures settle { (L : List Entry) → StandsFor self.now L
            → result.settle ≡ next.can_settle self.now.id self.now.n
            (history self.now.id self.now.n L) }
        ensures clean { (L : List Entry) → StandsFor self.now L
            → result.clean ≡ next.can_clean self.now.id self.now.n
            (history self.now.id self.now.n L) }
        ensures claim { (L : List Entry) → StandsFor self.now L
            → result.claim ≡ next.can_claim (history self.now.id self.now.n L) }
        ensures withdraw { (L : List Entry) → StandsFor self.now L
            → result.withdraw ≡ next.to_withdraw self.now.id (history self.now.id self.now.n L) }
    {
        let act = acts(&self.parts);
        let send = sends(&self.parts);
        let settle = self.can_settle();
        let clean = self.can_clean();
        let claim = self.can_claim();
        let withdraw = self.to_withdraw();
        Work {
            act,
            send,
            settle,
            clean,
            claim,
            withdraw,
        }
    }

    /// What a Transmit to a peer would give: nothing, an Ack alone, items that were given before,
    /// new ones, or the Close that is owed. It takes no memory, and constant time.
    pub fn due(&self, peer: SpaceId) -> Due
        ensures { (L : List Entry) → StandsFor self.now L
            → result ≡ dues.due self.now.id self.now.n peer self.now.limits.window
            (history self.now.id self.now.n L) }
    {
        self.parts.due(peer)
    }

    /// The session with a peer: its number, how many items were handed to the peer in it, how many of
    /// the peer's were acted on, and why it closed here, if it has. It takes no memory, and constant
    /// time. The caller's condition: it is a peer.
    pub fn tally(&self, peer: SpaceId) -> Tally
        requires { is_peer self.now.id self.now.n peer ≡ true }
        ensures { (L : List Entry) → StandsFor self.now L
            → result ≡ tallies.tally peer (history self.now.id self.now.n L) }
    {
        self.parts.tally(peer)
    }

    /// How many objects are live. It takes no memory, and constant time.
    pub fn live(&self) -> u64
        ensures { (L : List Entry) → StandsFor self.now L
            → result ≡ tallies.live_count self.now.id (history self.now.id self.now.n L) }
    {
        self.parts.live()
    }

    /// How many of the space's own calls aren't taken, how many jobs are ready, and how many run. It
    /// takes no memory, and constant time.
    pub fn backlog(&self) -> Backlog
        ensures { (L : List Entry) → StandsFor self.now L
            → result ≡ tallies.backlog (history self.now.id self.now.n L) }
    {
        self.parts.backlog()
    }

    /// The frames that a Transmit to a peer would give now, each of which has a spelling. It is
    /// refused, or wants memory, as Transmit. Linear in them.
    #[tactic(auto, unfolding(nob_model::specs::Right::right_after))]
    pub fn frames(&self, peer: SpaceId) -> Result<Vec<Frame>, SpaceError>
        ensures answer { (L : List Entry) → StandsFor self.now L
            → AnswersOrWants (λ frames. answers.Frames frames.items) result
            (right self.now.id self.now.n self.now.limits L (events.Transmit peer)) }
        ensures spelt { IsSpace self.now.id
            → IfOk result (λ frames. AllByRecursion (Fits Two) frames.items) }
    {
        self.parts.frames(peer)
    }

    /// One event: its answer, or why the space refuses it. After a refusal, or where memory was
    /// wanted, the space is as it was. It costs what the event's own method does.
    pub fn step(&mut self, event: &Event) -> Result<Answer, SpaceError>
        ensures answer { StepAnswers self.old event.now result }
        ensures own { IsOwn event.now result }
        ensures stands { StepStands self.old self.new event.now result }
        ensures err { OnErr result ((L : List Entry) → StandsFor self.old L
            → StandsFor self.new L) }
        // What is handed on has a spelling.
        ensures fits { HandsOnFitting event.now result }
        ensures same { SameSpace self.old self.new }
        ensures memory { wants_memory event.now ≡ false → result ≢ Err SpaceError.OutOfMemory }
    {
        match event {
            Event::Export => Ok(Answer::Exported(self.export()?)),
            Event::Dup(rep) => {
                self.dup(rep)?;
                Ok(Answer::Done)
            }
            Event::Release(rep) => {
                self.release(rep)?;
                Ok(Answer::Done)
            }
            Event::Call {
                target,
                method,
                value,
            } => Ok(Answer::Called(self.call(target, *method, value)?)),
            Event::TakeReply(call) => Ok(of_call(self.take_reply(*call)?)),
            Event::Claim => Ok(Answer::Job(self.claim()?)),
            Event::Finish(job, outcome) => Ok(of_finish(self.finish(*job, outcome)?)),
            Event::Act(peer) => Ok(self.act(*peer)?.to_answer()),
            Event::Settle => {
                let settled = self.settle()?;
                Ok(Answer::Settled(settled.peer, settled.item))
            }
            Event::Clean => Ok(Answer::Cleaned(self.clean()?)),
            Event::Withdraw(index) => {
                self.withdraw(*index)?;
                Ok(Answer::Withdrawn)
            }
            Event::Transmit(peer) => Ok(Answer::Frames(self.transmit(*peer)?)),
            Event::Arrive(frame) => Ok(of_arrive(self.arrive(frame)?)),
            Event::Tick(peer) => Ok(of_tick(self.tick(*peer)?)),
            Event::Close(peer) => Ok(Answer::Closed(self.close(*peer)?)),
            Event::Open(peer) => Ok(Answer::Opened(self.open(*peer)?)),
        }
    }

    /// One event, with two equal answers: for the entry that is kept of it, and for who asked. All
    /// that the second owns is copied before anything changes. It costs what `step` costs, and the
    /// copy.
    pub fn step_twice(&mut self, event: &Event) -> Result<(Answer, Answer), SpaceError>
        ensures answer { StepAnswers self.old event.now (first_of result) }
        ensures equal { IfOk result (λ two. two.1 ≡ two.0) }
        ensures fits { HandsOnFitting event.now (first_of result) }
        ensures stands { StepStands self.old self.new event.now (first_of result) }
        ensures err { OnErr result ((L : List Entry) → StandsFor self.old L
            → StandsFor self.new L) }
        ensures same { SameSpace self.old self.new }
        ensures memory { wants_memory_twice event.now ≡ false
            → result ≢ Err SpaceError.OutOfMemory }
    {
        let spare = spare_of(&self.parts, event)?;
        let answer = self.step(event)?;
        let second = again(&answer, spare);
        Ok((answer, second))
    }

    /// The same, with three equal answers. It costs what `step` costs, and two copies of what the
    /// answer owns.
    pub fn step_thrice(&mut self, event: &Event) -> Result<(Answer, Answer, Answer), SpaceError>
        ensures answer { StepAnswers self.old event.now (first_of_three result) }
        ensures second { IfOk result (λ three. three.1 ≡ three.0) }
        ensures third { IfOk result (λ three. three.2 ≡ three.0) }
        ensures stands { StepStands self.old self.new event.now (first_of_three result) }
        ensures err { OnErr result ((L : List Entry) → StandsFor self.old L
            → StandsFor self.new L) }
        ensures same { SameSpace self.old self.new }
    {
        let spare = spare_of(&self.parts, event)?;
        let other = spare_of(&self.parts, event)?;
        let answer = self.step(event)?;
        let second = again(&answer, spare);
        let third = again(&answer, other);
        Ok((answer, second, third))
    }

    /// Closes each session that is open, as if it was asked to, and ends the space: each of its
    /// pins is given up. It takes no memory, and tells no peer.
    pub fn shut(self) {
        let Space {
            limits: _,
            alloc: _,
            parts,
        } = self;
        parts.shut();
    }
}
