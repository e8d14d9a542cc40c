//! What a space answers to an event.

ghost use Rattle.std.specs.Prelude.{◌≡◌, IfOk};

use nob_ids::{CallNo, ItemNo, JobNo, Reason, SpaceId, WireRep};
use nob_item::Value;
use nob_model_session::Frames;
use std::alloc::AllocError;

/// A call that its owner is to carry out.
#[derive(Debug)]
pub struct Job {
    /// The number of the job at this space.
    pub job: JobNo,
    /// The number of the call at the space that calls.
    pub call: CallNo,
    /// The index of the object that is called.
    pub target: u64,
    /// The space that calls.
    pub client: SpaceId,
    /// The number of the method.
    pub method: u16,
    /// The argument.
    pub value: Value,
}

impl Drop for Job {
    fn drop(self) {
        let Job {
            job: _,
            call: _,
            target: _,
            client: _,
            method: _,
            value,
        } = self;
        drop(value);
    }
}

impl Job {
    /// An equal job. Only memory fails it. It recurses once for each level of the value.
    pub fn copy(&self) -> Result<Job, AllocError>
        ensures { IfOk result (λ job. job ≡ self.now) }
    {
        Ok(Job {
            job: self.job,
            call: self.call,
            target: self.target,
            client: self.client,
            method: self.method,
            value: self.value.copy()?,
        })
    }
}

/// What a space answers to an event that it doesn't refuse.
#[derive(Debug)]
pub enum Answer {
    /// Of Export: the new object's reference.
    Exported(WireRep),
    /// Of Dup, of Release, and of a Tick that closes nothing.
    Done,
    /// Of Call: the number of the call.
    Called(CallNo),
    /// Of TakeReply: the reply's status and its value.
    Replied(u8, Value),
    /// Of TakeReply: the session closed before the reply was ready.
    Ended,
    /// Of Claim: the job.
    Job(Job),
    /// Of Finish: the reply is handed on.
    Finished,
    /// Of Finish: the session with the client has closed, and there is no reply.
    Dropped,
    /// Of Act: the number of the item.
    Acted(ItemNo),
    /// Of Act, Arrive, Tick and Close: the session closed.
    Closed(Reason),
    /// Of Settle: the peer that sent the message, and its item's number.
    Settled(SpaceId, ItemNo),
    /// Of Clean: the reference.
    Cleaned(WireRep),
    /// Of Withdraw.
    Withdrawn,
    /// Of Transmit: the frames, in order.
    Frames(Frames),
    /// Of Arrive: so many items were accepted.
    Took(u64),
    /// Of Open: the number of the session that is open now.
    Opened(u32),
}

impl Drop for Answer {
    fn drop(self) {
        match self {
            Answer::Replied(_, value) => drop(value),
            Answer::Job(job) => drop(job),
            Answer::Frames(frames) => drop(frames),
            Answer::Exported(_)
            | Answer::Done
            | Answer::Called(_)
            | Answer::Ended
            | Answer::Finished
            | Answer::Dropped
            | Answer::Acted(_)
            | Answer::Closed(_)
            | Answer::Settled(_, _)
            | Answer::Cleaned(_)
            | Answer::Withdrawn
            | Answer::Took(_)
            | Answer::Opened(_) => {}
        }
    }
}

impl Answer {
    /// An equal answer. Only memory fails it. It recurses once for each level of a value.
    pub fn copy(&self) -> Result<Answer, AllocError>
        ensures { IfOk result (λ answer. answer ≡ self.now) }
    {
        match self {
            Answer::Exported(rep) => Ok(Answer::Exported(*rep)),
            Answer::Done => Ok(Answer::Done),
            Answer::Called(call) => Ok(Answer::Called(*call)),
            Answer::Replied(status, value) => Ok(Answer::Replied(*status, value.copy()?)),
            Answer::Ended => Ok(Answer::Ended),
            Answer::Job(job) => Ok(Answer::Job(job.copy()?)),
            Answer::Finished => Ok(Answer::Finished),
            Answer::Dropped => Ok(Answer::Dropped),
            Answer::Acted(item) => Ok(Answer::Acted(*item)),
            Answer::Closed(reason) => Ok(Answer::Closed(*reason)),
            Answer::Settled(peer, item) => Ok(Answer::Settled(*peer, *item)),
            Answer::Cleaned(rep) => Ok(Answer::Cleaned(*rep)),
            Answer::Withdrawn => Ok(Answer::Withdrawn),
            Answer::Frames(frames) => Ok(Answer::Frames(frames.copy()?)),
            Answer::Took(count) => Ok(Answer::Took(*count)),
            Answer::Opened(number) => Ok(Answer::Opened(*number)),
        }
    }
}
