//! The events one by one: each is a method that answers in a type of its own. All of them say the
//! same of what they answer: it is right for every list that the space stands for, and the space
//! then stands for that list with the event's entry. After a refusal, or where memory was wanted,
//! the space is as it was.

ghost use Rattle.std.specs.Prelude.{◌≡◌, ◌≢◌, false, Err};
ghost use Rattle.nob_frame.specs.Kinds.{is_data};
ghost use Rattle.nob_model_types.specs.declared.answer.Answer.TheVariants as answers;
ghost use Rattle.nob_model_types.specs.declared.event.Event.TheVariants as events;
ghost use Rattle.nob_space_state.specs.Closing.{tick_answer, arrive_answer};
ghost use Rattle.nob_space_state.specs.Sending.{finish_answer};
ghost use Rattle.nob_space_state.specs.Taking.{answer_of};
ghost use Rattle.nob_space_items.specs.Acts.{act_answer};
ghost use Rattle.nob_space.specs.Spaces.{SameSpace};
ghost use Rattle.nob_space.specs.Steps.{HandsOnFitting};
ghost use Rattle.nob_space.specs.Events.{StepAnswers, StepStands, answered, answered_or_refused};

use crate::space::Space;
use nob_frame::Frame;
use nob_ids::{CallNo, JobNo, Reason, SpaceId, WireRep};
use nob_model::{Arrived, Frames, Job, Outcome, Refusal};
use nob_pickle::Value;
use nob_space_items::{ActResult, SettledItem};
use nob_space_state::{CallResult, ReplyFate, SpaceError};

impl Space {
    /// A new object: its reference, once in the hand. Limit where the space has all the live
    /// objects or indexes that it may have. Constant time on average.
    #[tactic(auto, unfolding(nob_model::specs::Right::right_after))]
    pub fn export(&mut self) -> Result<WireRep, SpaceError>
        ensures answer { StepAnswers self.old events.Export
            (answered (λ rep. answers.Exported rep) result) }
        ensures stands { StepStands self.old self.new events.Export
            (answered (λ rep. answers.Exported rep) result) }
        ensures same { SameSpace self.old self.new }
    {
        let rep = self.parts.export()?;
        Ok(rep)
    }

    /// One more hold in the hand. NoObject where an own object isn't live, NotHeld where
    /// nothing holds the reference or it is an agent's, Closed where the session with its owner
    /// has closed here, Limit where the hand is full. It takes no memory, and constant time on
    /// average.
    #[tactic(auto, unfolding(nob_model::specs::Right::right_after))]
    pub fn dup(&mut self, rep: &WireRep) -> Result<(), Refusal>
        ensures answer { StepAnswers self.old (events.Dup rep.now)
            (answered_or_refused (λ _. answers.Done) result) }
        ensures stands { StepStands self.old self.new (events.Dup rep.now)
            (answered_or_refused (λ _. answers.Done) result) }
        ensures same { SameSpace self.old self.new }
    {
        self.parts.dup(rep)?;
        Ok(())
    }

    /// A hold in the hand is given back. NoObject where an own object isn't live, NotHeld where
    /// none is in the hand. It takes no memory, and a look-up.
    #[tactic(auto, unfolding(nob_model::specs::Right::right_after))]
    pub fn release(&mut self, rep: &WireRep) -> Result<(), Refusal>
        ensures answer { StepAnswers self.old (events.Release rep.now)
            (answered_or_refused (λ _. answers.Done) result) }
        ensures stands { StepStands self.old self.new (events.Release rep.now)
            (answered_or_refused (λ _. answers.Done) result) }
        ensures same { SameSpace self.old self.new }
    {
        self.parts.release(rep)?;
        Ok(())
    }

    /// Calls a method of an object with a value, whose references are pinned until the object's
    /// owner has settled them: the number of the call. Refused by NoPeer, Closed, NotHeld, the
    /// value's TooBig, NoObject, NotHeld or Closed, then Limit, QueueFull or SeqEnd. Linear in
    /// the value.
    #[tactic(auto, unfolding(nob_model::specs::Right::right_after))]
    pub fn call(
        &mut self,
        target: &WireRep,
        method: u16,
        value: &Value,
    ) -> Result<CallNo, SpaceError>
        ensures answer { StepAnswers self.old (events.Call target.now method value.now)
            (answered (λ call. answers.Called call) result) }
        ensures stands { StepStands self.old self.new (events.Call target.now method value.now)
            (answered (λ call. answers.Called call) result) }
        // What is handed on has a spelling.
        ensures fits { HandsOnFitting (events.Call target.now method value.now)
            (answered (λ call. answers.Called call) result) }
        ensures same { SameSpace self.old self.new }
    {
        let alloc = self.alloc;
        let call = self.parts.call(alloc, target, method, value)?;
        Ok(call)
    }

    /// What a call brought: its reply, whose references come into the hand, or that there will
    /// be none. NoCall where there is no such call, NotReady while there is no reply, Limit
    /// where a hand would be too full. It takes no memory. Logarithmic in the calls and the
    /// ready replies.
    #[tactic(auto, unfolding(nob_model::specs::Right::right_after))]
    pub fn take_reply(&mut self, call: CallNo) -> Result<CallResult, Refusal>
        ensures answer { StepAnswers self.old (events.TakeReply call)
            (answered_or_refused answer_of result) }
        ensures stands { StepStands self.old self.new (events.TakeReply call)
            (answered_or_refused answer_of result) }
        ensures same { SameSpace self.old self.new }
    {
        let brought = self.parts.take_reply(call)?;
        Ok(brought)
    }

    /// The first ready job, in order of becoming ready, whose target isn't running. Nothing
    /// where there is none, Limit where the numbers are used up. A look-up, and linear in the job's
    /// value.
    #[tactic(auto, unfolding(nob_model::specs::Right::right_after))]
    pub fn claim(&mut self) -> Result<Job, SpaceError>
        ensures answer { StepAnswers self.old events.Claim
            (answered (λ job. answers.Job job) result) }
        ensures stands { StepStands self.old self.new events.Claim
            (answered (λ job. answers.Job job) result) }
        ensures same { SameSpace self.old self.new }
    {
        let job = self.parts.claim()?;
        Ok(job)
    }

    /// A job's outcome goes to its client, or is dropped where the session of its Call has closed,
    /// opened again or not; what the job had on loan is given back. NoJob where no such job runs;
    /// then refused as the value of a Call is, or by QueueFull or SeqEnd. A look-up, and linear in
    /// the value and in what was on loan.
    #[tactic(auto, unfolding(nob_model::specs::Right::right_after))]
    pub fn finish(&mut self, job: JobNo, outcome: &Outcome) -> Result<ReplyFate, SpaceError>
        ensures answer { StepAnswers self.old (events.Finish job outcome.now)
            (answered finish_answer result) }
        ensures stands { StepStands self.old self.new (events.Finish job outcome.now)
            (answered finish_answer result) }
        // What is handed on has a spelling.
        ensures fits { HandsOnFitting (events.Finish job outcome.now)
            (answered finish_answer result) }
        ensures same { SameSpace self.old self.new }
    {
        let alloc = self.alloc;
        let fate = self.parts.finish(alloc, job, outcome)?;
        Ok(fate)
    }

    /// The item at the front of the inbox from a peer is acted on; one with a fault closes the
    /// session instead. NoPeer, Closed, Nothing where none waits; and the item stays where a
    /// limit would be passed or a session has no number for what it asks for. Linear in the
    /// item's bytes, the copies that wait for the reference of an answer, and the pins of the
    /// item that a Settle names, and logarithmic in the calls and the listings, save where it
    /// closes.
    #[tactic(auto, unfolding(nob_model::specs::Right::right_after))]
    pub fn act(&mut self, peer: SpaceId) -> Result<ActResult, SpaceError>
        ensures answer { StepAnswers self.old (events.Act peer) (answered act_answer result) }
        ensures stands { StepStands self.old self.new (events.Act peer)
            (answered act_answer result) }
        ensures same { SameSpace self.old self.new }
    {
        let alloc = self.alloc;
        let done = nob_space_items::act(&mut self.parts, alloc, peer)?;
        Ok(done)
    }

    /// The first message, in order of acting, whose references are all resolved is settled, and
    /// its sender told: whose item that was. Nothing where there is none, SeqEnd where a
    /// session has no number left. A look-up, and linear in the message's references.
    #[tactic(auto, unfolding(nob_model::specs::Right::right_after))]
    pub fn settle(&mut self) -> Result<SettledItem, SpaceError>
        ensures answer { StepAnswers self.old events.Settle
            (answered (λ settled. answers.Settled settled.peer settled.item) result) }
        ensures stands { StepStands self.old self.new events.Settle
            (answered (λ settled. answers.Settled settled.peer settled.item) result) }
        ensures same { SameSpace self.old self.new }
    {
        let alloc = self.alloc;
        let settled = nob_space_items::settle(&mut self.parts, alloc)?;
        Ok(settled)
    }

    /// The first surrogate, in the order of their last Dirties, that is granted on an open
    /// session, without holds and without pins, is given up, and its owner told: its reference.
    /// Nothing where there is none, SeqEnd where the session has no number left. A look-up, and one
    /// more for each surrogate before it that nothing holds but that has pins.
    #[tactic(auto, unfolding(nob_model::specs::Right::right_after))]
    pub fn clean(&mut self) -> Result<WireRep, SpaceError>
        ensures answer { StepAnswers self.old events.Clean
            (answered (λ rep. answers.Cleaned rep) result) }
        ensures stands { StepStands self.old self.new events.Clean
            (answered (λ rep. answers.Cleaned rep) result) }
        ensures same { SameSpace self.old self.new }
    {
        let alloc = self.alloc;
        let rep = nob_space_items::clean(&mut self.parts, alloc)?;
        Ok(rep)
    }

    /// The object of an index is live no more. NoObject where none is live, StillUsed where it
    /// is held, pinned here, listed for a client, or the agent. It takes no memory. A few look-ups.
    #[tactic(auto, unfolding(nob_model::specs::Right::right_after))]
    pub fn withdraw(&mut self, index: u64) -> Result<(), Refusal>
        ensures answer { StepAnswers self.old (events.Withdraw index)
            (answered_or_refused (λ _. answers.Withdrawn) result) }
        ensures stands { StepStands self.old self.new (events.Withdraw index)
            (answered_or_refused (λ _. answers.Withdrawn) result) }
        ensures same { SameSpace self.old self.new }
    {
        self.parts.withdraw(index)?;
        Ok(())
    }

    /// The frames that are to be sent to a peer now: of a window of what isn't acknowledged the
    /// lowest item and those that were never given; or an Ack or a Close that is owed, or none.
    /// NoPeer where there is no such peer. Linear in the window.
    #[tactic(auto, unfolding(nob_model::specs::Right::right_after))]
    pub fn transmit(&mut self, peer: SpaceId) -> Result<Frames, SpaceError>
        ensures answer { StepAnswers self.old (events.Transmit peer)
            (answered (λ frames. answers.Frames frames) result) }
        ensures stands { StepStands self.old self.new (events.Transmit peer)
            (answered (λ frames. answers.Frames frames) result) }
        ensures same { SameSpace self.old self.new }
    {
        let frames = self.parts.transmit(peer)?;
        Ok(frames)
    }

    /// A frame came for this space: how many items are accepted now, 0 to 64, or that it closed the
    /// session with its sender. NoPeer where it isn't for this space or from none of its peers.
    /// Linear in what the frame acknowledges, in what is accepted, and in a payload that isn't
    /// shared, save where it closes.
    #[tactic(auto, unfolding(nob_model::specs::Right::right_after))]
    pub fn arrive(&mut self, frame: &Frame) -> Result<Arrived, SpaceError>
        ensures answer { StepAnswers self.old (events.Arrive frame.now)
            (answered arrive_answer result) }
        ensures stands { StepStands self.old self.new (events.Arrive frame.now)
            (answered arrive_answer result) }
        // Only a Data frame takes memory.
        ensures memory { is_data frame.now.kind ≡ false → result ≢ Err SpaceError.OutOfMemory }
        ensures same { SameSpace self.old self.new }
    {
        let arrived = self.parts.arrive(frame)?;
        Ok(arrived)
    }

    /// The session with a peer counts one tick more: for which reason it closes, where its
    /// retries are used up. NoPeer, Closed. It takes no memory, and constant time, save where
    /// it closes.
    #[tactic(auto, unfolding(nob_model::specs::Right::right_after))]
    pub fn tick(&mut self, peer: SpaceId) -> Result<Option<Reason>, Refusal>
        ensures answer { StepAnswers self.old (events.Tick peer)
            (answered_or_refused tick_answer result) }
        ensures stands { StepStands self.old self.new (events.Tick peer)
            (answered_or_refused tick_answer result) }
        ensures same { SameSpace self.old self.new }
    {
        let reason = self.parts.tick(peer)?;
        Ok(reason)
    }

    /// The session with a peer closes here: the reason that the peer is told. NoPeer, Closed.
    /// It takes no memory. Linear in what belongs to the session: all that it throws away, and the
    /// calls that were made to the peer.
    #[tactic(auto, unfolding(nob_model::specs::Right::right_after))]
    pub fn close(&mut self, peer: SpaceId) -> Result<Reason, Refusal>
        ensures answer { StepAnswers self.old (events.Close peer)
            (answered_or_refused (λ reason. answers.Closed reason) result) }
        ensures stands { StepStands self.old self.new (events.Close peer)
            (answered_or_refused (λ reason. answers.Closed reason) result) }
        ensures same { SameSpace self.old self.new }
    {
        let reason = self.parts.close(peer)?;
        Ok(reason)
    }

    /// The session with a peer, which closed here, opens anew: its number. NoPeer; StillOpen where
    /// it is open; StillHeld where a counted reference to an object of the peer's is held or pinned
    /// here, or stands in a message that waits; Limit where no number is left. It takes no memory.
    /// A few look-ups.
    #[tactic(auto, unfolding(nob_model::specs::Right::right_after))]
    pub fn open(&mut self, peer: SpaceId) -> Result<u32, Refusal>
        ensures answer { StepAnswers self.old (events.Open peer)
            (answered_or_refused (λ number. answers.Opened number) result) }
        ensures stands { StepStands self.old self.new (events.Open peer)
            (answered_or_refused (λ number. answers.Opened number) result) }
        ensures same { SameSpace self.old self.new }
    {
        let number = self.parts.open(peer)?;
        Ok(number)
    }
}
